//! Data sets sent to a writer.

ghost use Rattle.std.specs.Prelude.{◌≡◌, ◌+◌, ◌++◌, ◌<◌, ◌^◌, length, unwrap_or, Some, None, Err, IfSome, true};
ghost use Rattle.dd_elem.specs.Vr.{is_long_of};
ghost use Rattle.dd_encoding.specs.Elements.{bytes, items, fragments as fragment_list};
ghost use Rattle.dd_stream.specs.Sends.{SendsTo};
ghost use Rattle.dd_set.specs.Single.{element_text, item_text, mark_text, IsItem};
ghost use Rattle.dd_encoding.specs.Spelling.{Spells, elements_text, items_text, header_text, tag_text, content_text};
ghost use Rattle.dd_encoding.specs.Spelling.{length_of, length_limit, AreElements, IsContent, AreItems, FitsLong};
ghost use Rattle.dd_encoding.specs.Spelling.{AreFragments, fragment_text, fragments_text, undefined_length};
ghost use Rattle.dd_set.specs.Views.{set_view, element_view, value_view, items_view, item_view, pieces};

use crate::set::{DataSet, Element, Item, Value};
use crate::set_headers::send_front;
use crate::sizes::{items_size, set_size};
use crate::written_headers::inner_syntax;
use dd_elem::{Tag, Vr, Write};
use dd_encoding::{ITEM_END, Length, SEQUENCE_END, Syntax, item_header, plain_header};
use dd_grammar::{MAX_LEVELS, UNDEFINED_LENGTH};
use dd_stream::{WriteFault, send};

/// Sends the bytes that spell the set, and answers how many they are. 13 NotWritable exactly where `size` gives None;
/// nothing is sent then. 12 Write where the writer failed, with how many of the bytes went before.
pub fn write_set<W: Write>(
    set: &DataSet<'_>,
    syntax: Syntax,
    writer: &mut W,
) -> Result<u64, WriteFault>
    ensures sends { let text = elements_text (set_view set.now)
        in Spells syntax (set_view set.now) text
        → SendsTo W.Write text 0 result writer.old writer.new }
    ensures refused { ¬ Spells syntax (set_view set.now) (elements_text (set_view set.now))
        → (result ≡ Err WriteFault.NotWritable) × (writer.new ≡ writer.old) }
{
    match set.size(syntax) {
        Some(_) => send_set(set, syntax, MAX_LEVELS, writer, 0),
        None => Err(WriteFault::NotWritable),
    }
}

/// Sends a data set, below which `levels` levels may nest.
#[cycle(writing)]
fn send_set<W: Write>(
    set: &DataSet<'_>,
    syntax: Syntax,
    levels: u32,
    writer: &mut W,
    mut sent: u64,
) -> Result<u64, WriteFault>
    requires valid { AreElements syntax levels 0 (set_view set.now) }
    requires fits { sent + length (elements_text (set_view set.now)) < 2 ^ 64 }
    ensures { let text = elements_text (set_view set.now)
        in SendsTo W.Write text sent result writer.old writer.new }
{
    for element in &set.elements {
        sent = send_element(element, syntax, levels, writer, sent)?;
    }
    Ok(sent)
}

#[cycle(writing)]
fn send_element<W: Write>(
    element: &Element<'_>,
    syntax: Syntax,
    levels: u32,
    writer: &mut W,
    sent: u64,
) -> Result<u64, WriteFault>
    requires valid { IsContent syntax levels element.now.vr (value_view element.now.value) }
    requires fits { sent + length (element_text (element_view element.now)) < 2 ^ 64 }
    ensures { let text = element_text (element_view element.now)
        in SendsTo W.Write text sent result writer.old writer.new }
{
    match &element.value {
        Value::Bytes(bytes) => send_bytes(element.tag, element.vr, bytes, writer, sent),
        Value::Items { length, items } => {
            let inner = inner_syntax(syntax, element.vr);
            let count = items_length(items, *length, inner, levels);
            let sent = send_front(element.tag, element.vr, count, writer, sent)?;
            let sent = send_items(items, inner, levels, writer, sent)?;
            send_end(*length, SEQUENCE_END, writer, sent)
        }
        Value::Fragments(fragments) => {
            send_all_fragments(element.tag, element.vr, fragments, writer, sent)
        }
    }
}

fn send_all_fragments<W: Write>(
    tag: Tag,
    vr: Option<Vr>,
    fragments: &[&[u8]],
    writer: &mut W,
    sent: u64,
) -> Result<u64, WriteFault>
    requires wide { (v : Vr) → vr ≡ Some v → is_long_of v ≡ true }
    requires valid { AreFragments (pieces fragments.now) }
    requires fits { sent + length
        (tag_text tag ++ content_text vr (fragment_list (pieces fragments.now)))
        < 2 ^ 64 }
    ensures { let text = tag_text tag ++ content_text vr (fragment_list (pieces fragments.now))
        in SendsTo W.Write text sent result writer.old writer.new }
{
    let sent = send_front(tag, vr, UNDEFINED_LENGTH, writer, sent)?;
    let sent = send_fragments(fragments, writer, sent)?;
    send(&plain_header(SEQUENCE_END, 0), writer, sent)
}

fn send_fragments<W: Write>(
    fragments: &[&[u8]],
    writer: &mut W,
    mut sent: u64,
) -> Result<u64, WriteFault>
    requires valid { AreFragments (pieces fragments.now) }
    requires fits { sent + length (fragments_text (pieces fragments.now)) < 2 ^ 64 }
    ensures { let text = fragments_text (pieces fragments.now)
        in SendsTo W.Write text sent result writer.old writer.new }
{
    for fragment in fragments {
        sent = send_fragment(fragment, writer, sent)?;
    }
    Ok(sent)
}

fn send_fragment<W: Write>(fragment: &[u8], writer: &mut W, sent: u64) -> Result<u64, WriteFault>
    requires room { length fragment.now < undefined_length }
    requires fits { sent + length (fragment_text fragment.now) < 2 ^ 64 }
    ensures { SendsTo W.Write (fragment_text fragment.now) sent result writer.old writer.new }
{
    let sent = send(&item_header(fragment.len() as u32), writer, sent)?;
    send(fragment, writer, sent)
}

fn send_bytes<W: Write>(
    tag: Tag,
    vr: Option<Vr>,
    value: &[u8],
    writer: &mut W,
    sent: u64,
) -> Result<u64, WriteFault>
    requires room { length value.now < length_limit vr }
    requires fits { sent + length (tag_text tag ++ content_text vr (bytes value.now)) < 2 ^ 64 }
    ensures { let text = tag_text tag ++ content_text vr (bytes value.now)
        in SendsTo W.Write text sent result writer.old writer.new }
{
    let sent = send_front(tag, vr, value.len() as u32, writer, sent)?;
    send(value, writer, sent)
}

fn items_length(items: &[Item<'_>], form: Length, syntax: Syntax, levels: u32) -> u32
    requires valid { AreItems syntax levels (items_view items.now) }
    requires fits { FitsLong form (items_text (items_view items.now)) }
    ensures { result ≡ length_of form (items_text (items_view items.now)) }
{
    let size = match form {
        Length::Defined => items_size(items, syntax, levels),
        Length::Undefined => None,
    };
    header_length(size)
}

fn set_length(set: &DataSet<'_>, form: Length, syntax: Syntax, levels: u32) -> u32
    requires valid { AreElements syntax levels 0 (set_view set.now) }
    requires fits { FitsLong form (elements_text (set_view set.now)) }
    ensures { result ≡ length_of form (elements_text (set_view set.now)) }
{
    let size = match form {
        Length::Defined => set_size(set, syntax, levels),
        Length::Undefined => None,
    };
    header_length(size)
}

fn header_length(size: Option<u64>) -> u32
    requires { IfSome size (λ n. n < undefined_length) }
    ensures { result ≡ unwrap_or size undefined_length }
{
    match size {
        Some(size) => size as u32,
        None => UNDEFINED_LENGTH,
    }
}

/// Sends the items of a sequence, where `levels` levels may nest, theirs included.
#[cycle(writing)]
fn send_items<W: Write>(
    items: &[Item<'_>],
    syntax: Syntax,
    levels: u32,
    writer: &mut W,
    mut sent: u64,
) -> Result<u64, WriteFault>
    requires valid { AreItems syntax levels (items_view items.now) }
    requires fits { sent + length (items_text (items_view items.now)) < 2 ^ 64 }
    ensures { let text = items_text (items_view items.now)
        in SendsTo W.Write text sent result writer.old writer.new }
{
    for item in items {
        sent = send_item(item, syntax, levels, writer, sent)?;
    }
    Ok(sent)
}

/// Sends an item, where `levels` levels may nest, itself included.
#[cycle(writing)]
fn send_item<W: Write>(
    item: &Item<'_>,
    syntax: Syntax,
    levels: u32,
    writer: &mut W,
    sent: u64,
) -> Result<u64, WriteFault>
    requires valid { IsItem syntax levels (item_view item.now) }
    requires fits { sent + length (item_text (item_view item.now)) < 2 ^ 64 }
    ensures { let text = item_text (item_view item.now)
        in SendsTo W.Write text sent result writer.old writer.new }
{
    let below = levels - 1;
    let count = set_length(&item.set, item.length, syntax, below);
    let sent = send(&item_header(count), writer, sent)?;
    let sent = send_set(&item.set, syntax, below, writer, sent)?;
    send_end(item.length, ITEM_END, writer, sent)
}

fn send_end<W: Write>(form: Length, mark: Tag, writer: &mut W, sent: u64) -> Result<u64, WriteFault>
    requires { sent + length (mark_text form (header_text mark None 0)) < 2 ^ 64 }
    ensures { let text = mark_text form (header_text mark None 0)
        in SendsTo W.Write text sent result writer.old writer.new }
{
    match form {
        Length::Defined => Ok(sent),
        Length::Undefined => send(&plain_header(mark, 0), writer, sent),
    }
}
