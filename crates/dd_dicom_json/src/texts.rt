//! The values of elements that are texts.
ghost use Rattle.std.specs.Prelude.{◌≡◌, ◌||◌, ◌==◌, ◌++◌, ◌∷◌, false, length, not, option_map};
ghost use Rattle.serde_json.specs.Data.{object};
ghost use Rattle.serde_json.specs.Written.{comma_if, compact_text, items_text};
ghost use Rattle.dd_lines.specs.Telling.{Tells, way_of};
ghost use Rattle.dd_dicom_json.specs.Characters.{read_by};
ghost use Rattle.dd_dicom_json.specs.Parts.{characters_of};
ghost use Rattle.dd_dicom_json.specs.Texts.{group_text, parted_in, pieces_in};
ghost use Rattle.dd_dicom_json.specs.Values.{after_equals, before_equals, kept_data, name_members, parted};
ghost use Rattle.dd_dicom_json.specs.Values.{pieces_of, text_items, texts_data, value_data};
ghost use Rattle.dd_dicom_json.specs.Values.{values_data};

use crate::character_set::CharacterSet;
use crate::escapes::add_raw;
use crate::forms::Form;
use crate::parts::{Part, Text, add_parts, add_quoted, comma};
use crate::values::{add_empty, add_unread, open_list};
use dd_elem::{Vr, Write, clean};
use dd_lines::LineBuffer;
use std::fmt;

/// Adds an element with these bytes, as texts of this form where they are texts in this set.
pub(crate) fn add_texts<W: Write>(
    vr: Vr,
    form: Form,
    set: CharacterSet,
    bytes: &[u8],
    lines: &mut LineBuffer<'_, W>,
) -> fmt::Result
    ensures same { lines.new.to.ghost_name ≡ lines.old.to.ghost_name }
    ensures written { Tells result (compact_text (texts_data vr form set bytes.now))
        (way_of W.Write lines.old) (way_of W.Write lines.new) }
{
    let kept = clean(bytes);
    if kept.is_empty() {
        return add_empty(vr, lines);
    }
    if !set.is_text(form.has_lines(), kept) {
        return add_unread(vr, bytes, lines);
    }
    add_values(vr, form, set, kept, lines)
}

fn add_values<W: Write>(
    vr: Vr,
    form: Form,
    set: CharacterSet,
    bytes: &[u8],
    lines: &mut LineBuffer<'_, W>,
) -> fmt::Result
    ensures same { lines.new.to.ghost_name ≡ lines.old.to.ghost_name }
    ensures written { Tells result (compact_text (values_data vr (text_items form set bytes.now)))
        (way_of W.Write lines.old) (way_of W.Write lines.new) }
{
    open_list(vr, b"Value", lines)?;
    add_parted(form, set, bytes, lines)?;
    add_raw(b"}", lines)
}

fn add_parted<W: Write>(
    form: Form,
    set: CharacterSet,
    bytes: &[u8],
    lines: &mut LineBuffer<'_, W>,
) -> fmt::Result
    ensures same { lines.new.to.ghost_name ≡ lines.old.to.ghost_name }
    ensures written { Tells result (items_text false (text_items form set bytes.now))
        (way_of W.Write lines.old) (way_of W.Write lines.new) }
{
    let mut rest = Some(bytes);
    let mut later = false;
    while let Some(text) = rest {
        let (value, after) = first_value(form, text);
        add_value(form, set, value, later, lines)?;
        later = true;
        rest = after;
    }
    add_raw(b"]", lines)
}

/// Gives the first value, and what comes after the `\` that ends it, if one does.
fn first_value(form: Form, bytes: &[u8]) -> (&[u8], Option<&[u8]>)
    ensures { parted form bytes.now
        ≡ result.0.now ∷ parted_in form (option_map (λ rest. rest.now) result.1) }
{
    if form.is_single() {
        (bytes, None)
    } else {
        first_piece(bytes)
    }
}

fn first_piece(bytes: &[u8]) -> (&[u8], Option<&[u8]>)
    ensures { pieces_of bytes.now
        ≡ result.0.now ∷ pieces_in (option_map (λ rest. rest.now) result.1) }
{
    match bytes.iter().position(|byte| *byte == b'\\') {
        Some(at) => (&bytes[..at], Some(&bytes[at + 1..])),
        None => (bytes, None),
    }
}

fn add_value<W: Write>(
    form: Form,
    set: CharacterSet,
    value: &[u8],
    later: bool,
    lines: &mut LineBuffer<'_, W>,
) -> fmt::Result
    ensures same { lines.new.to.ghost_name ≡ lines.old.to.ghost_name }
    ensures written { Tells result (comma_if later ++ compact_text (value_data form set value.now))
        (way_of W.Write lines.old) (way_of W.Write lines.new) }
{
    add_raw(comma(later), lines)?;
    add_kept(form, set, form.trimmed(value), lines)
}

fn add_kept<W: Write>(
    form: Form,
    set: CharacterSet,
    value: &[u8],
    lines: &mut LineBuffer<'_, W>,
) -> fmt::Result
    ensures same { lines.new.to.ghost_name ≡ lines.old.to.ghost_name }
    ensures written { Tells result (compact_text (kept_data form set value.now))
        (way_of W.Write lines.old) (way_of W.Write lines.new) }
{
    if value.is_empty() {
        return add_raw(b"null", lines);
    }
    if form.is_name() {
        return add_name(set, value, lines);
    }
    add_quoted(text_in(set, value), lines)
}

fn text_in(set: CharacterSet, bytes: &[u8]) -> Text<'_>
    ensures { characters_of result ≡ read_by set bytes.now }
{
    match set {
        CharacterSet::Latin1 => Text::Latin1(bytes),
        CharacterSet::Ascii | CharacterSet::Utf8 => Text::Utf8(bytes),
    }
}

fn add_name<W: Write>(set: CharacterSet, value: &[u8], lines: &mut LineBuffer<'_, W>) -> fmt::Result
    ensures same { lines.new.to.ghost_name ≡ lines.old.to.ghost_name }
    ensures written { Tells result (compact_text (object (name_members set value.now)))
        (way_of W.Write lines.old) (way_of W.Write lines.new) }
{
    let (first, rest) = part_at_equals(value);
    let (second, third) = part_at_equals(rest);
    let is_second_later = has_earlier(false, first);
    let is_third_later = has_earlier(is_second_later, second);
    add_raw(b"{", lines)?;
    add_group(set, b"Alphabetic", first, false, lines)?;
    add_group(set, b"Ideographic", second, is_second_later, lines)?;
    add_group(set, b"Phonetic", third, is_third_later, lines)?;
    add_raw(b"}", lines)
}

/// Gives what stands before the first `=`, and what stands after it.
fn part_at_equals(value: &[u8]) -> (&[u8], &[u8])
    ensures before { result.0.now ≡ before_equals value.now }
    ensures after { result.1.now ≡ after_equals value.now }
{
    match value.iter().position(|byte| *byte == b'=') {
        Some(at) => (&value[..at], &value[at + 1..]),
        None => (value, b""),
    }
}

/// Says whether a member stands before the one after this group.
fn has_earlier(later: bool, group: &[u8]) -> bool
    ensures { result ≡ (later || not (length group.now == 0)) }
{
    later || !group.is_empty()
}

/// Adds the member of a group of a name, where it has characters.
fn add_group<'x, W: Write>(
    set: CharacterSet,
    name: &'x [u8],
    group: &'x [u8],
    later: bool,
    lines: &mut LineBuffer<'_, W>,
) -> fmt::Result
    ensures same { lines.new.to.ghost_name ≡ lines.old.to.ghost_name }
    ensures written { Tells result (group_text set later name.now group.now)
        (way_of W.Write lines.old) (way_of W.Write lines.new) }
{
    if group.is_empty() {
        return Ok(());
    }
    add_parts(
        &[
            Part::Raw(comma(later)),
            Part::Quoted(Text::Utf8(name)),
            Part::Raw(b":"),
            Part::Quoted(text_in(set, group)),
        ],
        lines,
    )
}
