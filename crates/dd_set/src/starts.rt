//! Where the items of a sequence start.

ghost use Rattle.std.specs.Prelude.{◌≡◌, ℕ, List, [], ◌+◌, ◌<◌, ◌^◌, length, Option, Some, None, option_map, Ok, IfOk};
ghost use Rattle.std.specs.Prelude.{OnErr, IsSomeAnd};
ghost use Rattle.dd_encoding.specs.Spelling.{elements_text, items_text, max_levels, AreItems, IsContent};
ghost use Rattle.dd_set.specs.Single.{element_text};
ghost use Rattle.dd_set.specs.Starts.{places_in, content_places, item_places};
ghost use Rattle.dd_set.specs.Views.{element_view, value_view, items_view};

use crate::set::{DataSet, Element, Item, Value};
use crate::sizes::{element_size, item_size};
use crate::written_headers::{inner_syntax, shape_size};
use dd_elem::{Memory, Tag};
use dd_encoding::{Syntax, TAG_SIZE};
use dd_grammar::MAX_LEVELS;
use std::alloc::Global;

impl DataSet<'_> {
    ghost use Rattle.dd_encoding.specs.Spelling.{Spells};
    ghost use Rattle.dd_set.specs.Views.{set_view};

    /// Lists the places of the Item tags of the items of the element with this tag, in bytes from the first byte that
    /// spells the set (PS3.5 section 7.5). None where nothing spells the set, where no element has the tag and where
    /// its value is no sequence. Memory where an allocation is refused, and so only where there is an item.
    pub fn item_starts(
        &self,
        alloc: Global,
        syntax: Syntax,
        tag: Tag,
    ) -> Result<Option<Vec<u64>>, Memory>
        ensures spelled { Spells syntax (set_view self.now) (elements_text (set_view self.now))
            → IfOk result (λ starts. option_map (λ v. v.items) starts
            ≡ places_in tag [] (set_view self.now)) }
        ensures unspelled { ¬ Spells syntax (set_view self.now) (elements_text (set_view self.now))
            → result ≡ Ok None }
        ensures memory { OnErr result
            (IsSomeAnd (places_in tag [] (set_view self.now)) (λ places. 0 < length places)) }
    {
        if self.size(syntax).is_none() {
            return Ok(None);
        }
        let mut at = 0;
        for element in &self.elements {
            if element.tag == tag {
                return starts_of(alloc, element, syntax, at);
            }
            let Some(size) = element_size(element, syntax, MAX_LEVELS, 0) else {
                return Ok(None);
            };
            at += size;
        }
        Ok(None)
    }
}

/// None where the value is no sequence.
fn starts_of(
    alloc: Global,
    element: &Element<'_>,
    syntax: Syntax,
    at: u64,
) -> Result<Option<Vec<u64>>, Memory>
    requires valid { IsContent syntax max_levels element.now.vr (value_view element.now.value) }
    requires fits { at + length (element_text (element_view element.now)) < 2 ^ 64 }
    ensures places { (front : List ℕ) → length front ≡ at
        → IfOk result (λ starts. option_map (λ v. v.items) starts
        ≡ content_places front element.now.tag element.now.vr (value_view element.now.value)) }
    ensures memory { (front : List ℕ) → OnErr result (IsSomeAnd
        (content_places front element.now.tag element.now.vr (value_view element.now.value))
        (λ places. 0 < length places)) }
{
    match &element.value {
        Value::Bytes(_) => Ok(None),
        Value::Fragments(_) => Ok(None),
        Value::Items { items, .. } => {
            let inner = inner_syntax(syntax, element.vr);
            let first = at + TAG_SIZE as u64 + shape_size(element.vr);
            items_starts(alloc, items, inner, first)
        }
    }
}

fn items_starts(
    alloc: Global,
    items: &[Item<'_>],
    syntax: Syntax,
    first: u64,
) -> Result<Option<Vec<u64>>, Memory>
    requires valid { AreItems syntax max_levels (items_view items.now) }
    requires fits { first + length (items_text (items_view items.now)) < 2 ^ 64 }
    ensures places { (front : List ℕ) → length front ≡ first → IfOk result (λ starts.
        option_map (λ v. v.items) starts ≡ Some (item_places front (items_view items.now))) }
    ensures memory { OnErr result (0 < length items.now) }
{
    let mut starts = Vec::new(alloc);
    let mut at = first;
    for item in items {
        starts.push(at)?;
        let Some(size) = item_size(item, syntax, MAX_LEVELS) else {
            return Ok(None);
        };
        at += size;
    }
    Ok(Some(starts))
}
