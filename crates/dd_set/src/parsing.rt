//! Reading a data set from its bytes.

ghost use Rattle.std.specs.Prelude.{◌≡◌, ◌<◌, ◌≤◌, length, IfOk, Ok, Err, OnSome, option_map};
ghost use Rattle.dd_grammar.specs.declared.fault.SetFault.TheVariants.{Memory};
ghost use Rattle.dd_encoding.specs.Elements.{Elements};
ghost use Rattle.dd_grammar.specs.AnswersAs.{AnswersAs};
ghost use Rattle.dd_grammar.specs.Faults.{is_memory};
ghost use Rattle.dd_set.specs.Memory.{unkept_sequence, unkept_set, unkept_item, WantsMemory, WantsContent};
ghost use Rattle.dd_grammar.specs.Checks.{header_view};
ghost use Rattle.dd_set.specs.Places.{at_view};
ghost use Rattle.dd_grammar.specs.Reading.{item_reader, sequence_with, set_with, content_at, item_at};
ghost use Rattle.dd_grammar.specs.Reading.{read_all};
ghost use Rattle.dd_encoding.specs.Spelling.{Spells};
ghost use Rattle.dd_set.specs.Views.{set_view, element_view, value_view, item_view, items_view};

use crate::cursor::Cursor;
use crate::fragments::fragments;
use crate::set::{DataSet, Element, Item, Value};
use dd_encoding::{Length, Syntax};
use dd_grammar::{Header, MAX_LEVELS, Reach, SetFault, Sort, low_after, reach_of, sort_of};
use std::alloc::Global;

#[cycle(parser)]
fn content<'a>(
    alloc: Global,
    levels: u32,
    syntax: Syntax,
    header: Header,
    at: Cursor<'a>,
) -> Result<(Value<'a>, Cursor<'a>), SetFault>
    ensures exact { AnswersAs is_memory (λ x. (value_view x.0, at_view x.1)) result
        (content_at (sequence_with (item_reader levels)) syntax (header_view header)
        (at_view at.entry)) }
    ensures shorter { IfOk result (λ x. length x.1.rest.now ≤ length at.entry.rest.now) }
    ensures memory { result ≡ Err Memory
        → WantsContent (content_at (sequence_with (item_reader levels)) syntax (header_view header)
        (at_view at.entry))
        (content_at (unkept_sequence (unkept_item levels)) syntax (header_view header)
        (at_view at.entry)) }
{
    match sort_of(syntax, header, at.left)? {
        Sort::Bytes(n) => {
            let (bytes, end) = at.take(u64::from(n))?;
            Ok((Value::Bytes(bytes), end))
        }
        Sort::Open(inner) => {
            let length = Length::Undefined;
            let (items, end) = sequence(alloc, levels, inner, length, at)?;
            Ok((Value::Items { length, items }, end))
        }
        Sort::Closed(inner, n) => {
            let (length, n) = (Length::Defined, u64::from(n));
            let (items, end) = sequence(alloc, levels, inner, length, at.within(n))?;
            Ok((Value::Items { length, items }, at.after(n, end)))
        }
        Sort::Fragments => {
            let (fragments, end) = fragments(alloc, at)?;
            Ok((Value::Fragments(fragments), end))
        }
    }
}

#[cycle(parser)]
fn set<'a>(
    alloc: Global,
    levels: u32,
    syntax: Syntax,
    form: Length,
    at: Cursor<'a>,
) -> Result<(DataSet<'a>, Cursor<'a>), SetFault>
    ensures exact { AnswersAs is_memory (λ x. (set_view x.0, at_view x.1)) result
        (set_with (item_reader levels) syntax form (at_view at.entry)) }
    ensures shorter { IfOk result (λ x. length x.1.rest.now ≤ length at.entry.rest.now) }
    ensures memory { result ≡ Err Memory
        → unkept_set (unkept_item levels) syntax form (at_view at.entry) ≡ Err Memory }
{
    let mut elements = Vec::new(alloc);
    let mut place = at;
    let mut low = 0u64;
    'elements: loop {
        let (header, rest) = place.front(syntax, form, low)?;
        let Some(header) = header else {
            return Ok((DataSet { elements }, rest));
        };
        let (value, rest) = content(alloc, levels, syntax, header, rest)?;
        place = rest;
        low = low_after(header.tag);
        let (tag, vr) = (header.tag, header.shape.vr);
        elements.push(Element { tag, vr, value })?;
    }
}

#[cycle(parser)]
fn item<'a>(
    alloc: Global,
    levels: u32,
    syntax: Syntax,
    form: Length,
    at: Cursor<'a>,
) -> Result<(Option<Item<'a>>, Cursor<'a>), SetFault>
    ensures exact { AnswersAs is_memory (λ x. (option_map item_view x.0, at_view x.1)) result
        (item_at (item_reader levels) syntax form (at_view at.entry)) }
    ensures shorter { IfOk result
        (λ x. OnSome x.0 (length x.1.rest.now < length at.entry.rest.now)) }
    ensures not_longer { IfOk result (λ x. length x.1.rest.now ≤ length at.entry.rest.now) }
    ensures memory { result ≡ Err Memory
        → item_at (unkept_item levels) syntax form (at_view at.entry) ≡ Err Memory }
{
    let (length, at) = at.item_front(form)?;
    let Some(n) = length else {
        return Ok((None, at));
    };
    let (item, at) = part(alloc, levels, syntax, n, at)?;
    Ok((Some(item), at))
}

#[cycle(parser)]
fn sequence<'a>(
    alloc: Global,
    levels: u32,
    syntax: Syntax,
    form: Length,
    at: Cursor<'a>,
) -> Result<(Vec<Item<'a>>, Cursor<'a>), SetFault>
    ensures exact { AnswersAs is_memory (λ x. (items_view x.0.items, at_view x.1)) result
        (sequence_with (item_reader levels) syntax form (at_view at.entry)) }
    ensures shorter { IfOk result (λ x. length x.1.rest.now ≤ length at.entry.rest.now) }
    ensures memory { result ≡ Err Memory
        → unkept_sequence (unkept_item levels) syntax form (at_view at.entry) ≡ Err Memory }
{
    let mut items = Vec::new(alloc);
    let mut place = at;
    'items: loop {
        let (found, rest) = item(alloc, levels, syntax, form, place)?;
        place = rest;
        match found {
            None => return Ok((items, place)),
            Some(next) => items.push(next)?,
        }
    }
}

/// Reads an item after its tag, of length `n`, where `levels` levels may still nest.
#[cycle(parser)]
fn part<'a>(
    alloc: Global,
    levels: u32,
    syntax: Syntax,
    n: u32,
    at: Cursor<'a>,
) -> Result<(Item<'a>, Cursor<'a>), SetFault>
    ensures exact { AnswersAs is_memory (λ x. (item_view x.0, at_view x.1)) result
        (item_reader levels syntax n (at_view at.entry)) }
    ensures shorter { IfOk result (λ x. length x.1.rest.now ≤ length at.entry.rest.now) }
    ensures memory { result ≡ Err Memory
        → unkept_item levels syntax n (at_view at.entry) ≡ Err Memory }
{
    if levels == 0 {
        return Err(SetFault::TooDeep);
    }
    let inner = levels - 1;
    match reach_of(n, at.left)? {
        Reach::Open => {
            let length = Length::Undefined;
            let (set, end) = set(alloc, inner, syntax, length, at)?;
            Ok((Item { length, set }, end))
        }
        Reach::Closed(n) => {
            let (length, n) = (Length::Defined, u64::from(n));
            let (set, end) = set(alloc, inner, syntax, length, at.within(n))?;
            Ok((Item { length, set }, at.after(n, end)))
        }
    }
}

#[tactic(auto, unfolding(dd_grammar::specs::Reading::read_all))]
fn whole_set<'a>(alloc: Global, syntax: Syntax, bytes: &'a [u8]) -> Result<DataSet<'a>, SetFault>
    ensures exact { AnswersAs is_memory set_view result (read_all syntax bytes.now) }
    ensures memory { result ≡ Err Memory → WantsMemory syntax bytes.now }
{
    let at = Cursor {
        left: None,
        rest: bytes,
    };
    let (set, _end) = set(alloc, MAX_LEVELS, syntax, Length::Defined, at)?;
    Ok(set)
}

/// Reads the data set that all of the bytes spell in this syntax (PS3.5 section 7). Its values are slices of the
/// bytes. Refused by the first check that the bytes fail, or by Memory where an allocation was refused, after the
/// first item or element that was read whole.
pub fn parse<'a>(alloc: Global, syntax: Syntax, bytes: &'a [u8]) -> Result<DataSet<'a>, SetFault>
    ensures found { IfOk result (λ set. Spells syntax (set_view set) bytes.now) }
    ensures only { (set : Elements) → Spells syntax set bytes.now
        → AnswersAs is_memory set_view result (Ok set) }
    ensures exact { AnswersAs is_memory set_view result (read_all syntax bytes.now) }
    ensures memory { result ≡ Err Memory → WantsMemory syntax bytes.now }
{
    whole_set(alloc, syntax, bytes)
}
