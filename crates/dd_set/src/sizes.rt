//! How long the bytes of a data set are.

ghost use Rattle.std.specs.Prelude.{◌≡◌, ℕ, List, ◌+◌, ◌≤◌, ◌<◌, ◌^◌, ◌%◌, ◌↔◌, length, IsTrue};
ghost use Rattle.std.specs.Option.{SomeIff};
ghost use Rattle.dd_encoding.specs.Elements.{bytes};
ghost use Rattle.dd_set.specs.Single.{element_text, item_text, IsElement, IsItem};
ghost use Rattle.dd_encoding.specs.Spelling.{elements_text, content_text, items_text, AreElements, IsContent, AreItems};
ghost use Rattle.dd_encoding.specs.Spelling.{FitsLong, closed, MayHave, AreFragments, fragment_text, fragments_text};
ghost use Rattle.dd_encoding.specs.Spelling.{undefined_length};
ghost use Rattle.dd_set.specs.Views.{set_view, element_view, value_view, items_view, item_view, pieces};

use crate::set::{DataSet, Element, Item, Value};
use crate::written_headers::{PLAIN_SIZE, holds_bytes, length_limit, shape_size};
use dd_elem::{Tag, Vr};
use dd_encoding::{DELIMITER_GROUP, Length, Syntax, TAG_SIZE};
use dd_grammar::{
    MAX_LEVELS, UNDEFINED_LENGTH, encapsulates, is_pixel_data, item_syntax, low_after,
};

impl DataSet<'_> {
    ghost use Rattle.dd_encoding.specs.Spelling.{Spells};

    /// Counts the bytes that spell the set (PS3.5 sections 7.1 and 7.5). None where tags do not rise, or a value
    /// representation is missing or stands where none may. None also where a length is odd or has no room in its
    /// header, items nest deeper than 32 levels, or there would be 2^64 bytes or more.
    pub fn size(&self, syntax: Syntax) -> Option<u64>
        ensures { let text = elements_text (set_view self.now)
            in SomeIff result (Spells syntax (set_view self.now) text) (length text) }
    {
        set_size(self, syntax, MAX_LEVELS)
    }
}

/// Counts the bytes of a data set, below which `levels` levels may nest.
#[cycle(sizes)]
pub fn set_size(set: &DataSet<'_>, syntax: Syntax, levels: u32) -> Option<u64>
    ensures { let text = elements_text (set_view set.now)
        in SomeIff result
        (AreElements syntax levels 0 (set_view set.now) × (length text < 2 ^ 64))
        (length text) }
{
    let mut low: u64 = 0;
    let mut total: u64 = 0;
    for element in &set.elements {
        let size = element_size(element, syntax, levels, low)?;
        total = total.checked_add(size)?;
        low = low_after(element.tag);
    }
    Some(total)
}

/// Counts the bytes of an element whose tag is not below the number `low`.
#[cycle(sizes)]
pub fn element_size(element: &Element<'_>, syntax: Syntax, levels: u32, low: u64) -> Option<u64>
    ensures { let text = element_text (element_view element.now)
        in SomeIff result
        (IsElement syntax levels low (element_view element.now) × (length text < 2 ^ 64))
        (length text) }
{
    let number = u64::from(element.tag.number());
    if number < low || element.tag.group == DELIMITER_GROUP {
        return None;
    }
    if !may_have(element.tag, &element.value) {
        return None;
    }
    let size = value_size(&element.value, element.vr, syntax, levels)?;
    size.checked_add(TAG_SIZE as u64)
}

#[cycle(sizes)]
fn value_size(value: &Value<'_>, vr: Option<Vr>, syntax: Syntax, levels: u32) -> Option<u64>
    ensures { let text = content_text vr (value_view value.now)
        in SomeIff result
        (IsContent syntax levels vr (value_view value.now) × (length text < 2 ^ 64))
        (length text) }
{
    match value {
        Value::Bytes(bytes) => bytes_size(bytes, vr, syntax),
        Value::Items { length, items } => {
            let inner = item_syntax(syntax, vr, *length)?;
            let size = items_size(items, inner, levels)?;
            closed_size(shape_size(vr), *length, size)
        }
        Value::Fragments(fragments) => {
            if !encapsulates(syntax, vr) {
                return None;
            }
            let size = fragments_size(fragments)?;
            closed_size(shape_size(vr), Length::Undefined, size)
        }
    }
}

fn may_have(tag: Tag, value: &Value<'_>) -> bool
    ensures { IsTrue result ↔ MayHave tag (value_view value.now) }
{
    match value {
        Value::Bytes(_) => true,
        Value::Items { .. } => true,
        Value::Fragments(_) => is_pixel_data(tag),
    }
}

fn fragments_size(fragments: &[&[u8]]) -> Option<u64>
    ensures { let text = fragments_text (pieces fragments.now)
        in SomeIff result
        (AreFragments (pieces fragments.now) × (length text < 2 ^ 64))
        (length text) }
{
    let mut total: u64 = 0;
    for fragment in fragments {
        let size = fragment_size(fragment)?;
        total = total.checked_add(size)?;
    }
    Some(total)
}

fn fragment_size(fragment: &[u8]) -> Option<u64>
    ensures { SomeIff result ((length fragment.now % 2 ≡ 0)
        × (length fragment.now < undefined_length))
        (length (fragment_text fragment.now)) }
{
    let size = fragment.len() as u64;
    if size % 2 == 1 || size >= u64::from(UNDEFINED_LENGTH) {
        return None;
    }
    Some(PLAIN_SIZE + size)
}

fn bytes_size(value: &[u8], vr: Option<Vr>, syntax: Syntax) -> Option<u64>
    ensures { let text = content_text vr (bytes value.now)
        in (levels : ℕ) → SomeIff result
        (IsContent syntax levels vr (bytes value.now) × (length text < 2 ^ 64))
        (length text) }
{
    let size = value.len() as u64;
    if !holds_bytes(syntax, vr) || size % 2 == 1 || size >= length_limit(vr) {
        return None;
    }
    Some(shape_size(vr) + size)
}

/// Counts the bytes of the items of a sequence, where `levels` levels may nest, theirs included.
#[cycle(sizes)]
pub fn items_size(items: &[Item<'_>], syntax: Syntax, levels: u32) -> Option<u64>
    ensures { let text = items_text (items_view items.now)
        in SomeIff result
        (AreItems syntax levels (items_view items.now) × (length text < 2 ^ 64))
        (length text) }
{
    let mut total: u64 = 0;
    for item in items {
        let size = item_size(item, syntax, levels)?;
        total = total.checked_add(size)?;
    }
    Some(total)
}

/// Counts the bytes of an item, where `levels` levels may nest, itself included.
#[cycle(sizes)]
pub fn item_size(item: &Item<'_>, syntax: Syntax, levels: u32) -> Option<u64>
    ensures { let text = item_text (item_view item.now)
        in SomeIff result
        (IsItem syntax levels (item_view item.now) × (length text < 2 ^ 64))
        (length text) }
{
    let below = levels.checked_sub(1)?;
    let size = set_size(&item.set, syntax, below)?;
    closed_size(PLAIN_SIZE, item.length, size)
}

/// Adds `front` bytes before the contents, and the mark of their end where the form requires one.
fn closed_size(front: u64, form: Length, size: u64) -> Option<u64>
    requires { front ≤ 8 }
    ensures { (text mark : List ℕ) → length text ≡ size → length mark ≡ 8
        → let whole = front + length (closed form mark text)
        in SomeIff result (FitsLong form text × (whole < 2 ^ 64)) whole }
{
    match form {
        Length::Defined if size < u64::from(UNDEFINED_LENGTH) => Some(front + size),
        Length::Defined => None,
        Length::Undefined => size.checked_add(front + PLAIN_SIZE),
    }
}
