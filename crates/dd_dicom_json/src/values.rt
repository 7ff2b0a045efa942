//! The values of elements that have bytes.
ghost use Rattle.std.specs.Prelude.{◌≡◌};
ghost use Rattle.dd_lines.specs.Telling.{Tells, way_of};
ghost use Rattle.serde_json.specs.Written.{compact_text};
ghost use Rattle.dd_dicom_json.specs.Numbers.{num_of};
ghost use Rattle.dd_dicom_json.specs.Texts.{opening};
ghost use Rattle.dd_dicom_json.specs.Values.{binary_data, bytes_data, empty_data, integer_data, number_data};
ghost use Rattle.dd_dicom_json.specs.Values.{unread_data};

use crate::character_set::CharacterSet;
use crate::forms::{Form, form_of};
use crate::numbers::{Number, number_in};
use crate::parts::{Part, Text, add_parts};
use crate::tags::add_tags;
use crate::texts::add_texts;
use dd_elem::{Vr, Write};
use dd_lines::LineBuffer;
use std::fmt;

/// Adds an element with these bytes, in a data set with this character set.
pub(crate) fn add_bytes<W: Write>(
    vr: Vr,
    set: CharacterSet,
    bytes: &[u8],
    lines: &mut LineBuffer<'_, W>,
) -> fmt::Result
    ensures same { lines.new.to.ghost_name ≡ lines.old.to.ghost_name }
    ensures written { Tells result (compact_text (bytes_data set vr bytes.now))
        (way_of W.Write lines.old) (way_of W.Write lines.new) }
{
    match form_of(vr) {
        Form::Tags => add_tags(vr, bytes, lines),
        Form::Number => add_number(vr, bytes, lines),
        Form::Binary => add_binary(vr, bytes, lines),
        Form::Other => add_unread(vr, bytes, lines),
        form => add_texts(vr, form, form.read_in(set), bytes, lines),
    }
}

/// Adds an element without a value.
pub(crate) fn add_empty<W: Write>(vr: Vr, lines: &mut LineBuffer<'_, W>) -> fmt::Result
    ensures same { lines.new.to.ghost_name ≡ lines.old.to.ghost_name }
    ensures written { Tells result (compact_text (empty_data vr))
        (way_of W.Write lines.old) (way_of W.Write lines.new) }
{
    add_parts(
        &[
            Part::Raw(b"{"),
            Part::Quoted(Text::Utf8(b"vr")),
            Part::Raw(b":"),
            Part::Letters(vr),
            Part::Raw(b"}"),
        ],
        lines,
    )
}

/// Adds an element up to the first value of the list with this name.
pub(crate) fn open_list<W: Write>(vr: Vr, name: &[u8], lines: &mut LineBuffer<'_, W>) -> fmt::Result
    ensures same { lines.new.to.ghost_name ≡ lines.old.to.ghost_name }
    ensures written { Tells result (opening vr name.now)
        (way_of W.Write lines.old) (way_of W.Write lines.new) }
{
    add_parts(
        &[
            Part::Raw(b"{"),
            Part::Quoted(Text::Utf8(b"vr")),
            Part::Raw(b":"),
            Part::Letters(vr),
            Part::Raw(b","),
            Part::Quoted(Text::Utf8(name)),
            Part::Raw(b":["),
        ],
        lines,
    )
}

fn add_binary<W: Write>(vr: Vr, bytes: &[u8], lines: &mut LineBuffer<'_, W>) -> fmt::Result
    ensures same { lines.new.to.ghost_name ≡ lines.old.to.ghost_name }
    ensures written { Tells result (compact_text (binary_data vr bytes.now))
        (way_of W.Write lines.old) (way_of W.Write lines.new) }
{
    if bytes.is_empty() {
        return add_empty(vr, lines);
    }
    add_parts(
        &[
            Part::Raw(b"{"),
            Part::Quoted(Text::Utf8(b"vr")),
            Part::Raw(b":"),
            Part::Letters(vr),
            Part::Raw(b","),
            Part::Quoted(Text::Utf8(b"InlineBinary")),
            Part::Raw(b":"),
            Part::Quoted(Text::Base64(bytes)),
            Part::Raw(b"}"),
        ],
        lines,
    )
}

/// Adds an element whose bytes have no form of its value representation.
pub(crate) fn add_unread<W: Write>(
    vr: Vr,
    bytes: &[u8],
    lines: &mut LineBuffer<'_, W>,
) -> fmt::Result
    ensures same { lines.new.to.ghost_name ≡ lines.old.to.ghost_name }
    ensures written { Tells result (compact_text (unread_data vr bytes.now))
        (way_of W.Write lines.old) (way_of W.Write lines.new) }
{
    if bytes.is_empty() {
        return add_empty(vr, lines);
    }
    add_parts(
        &[
            Part::Raw(b"{"),
            Part::Quoted(Text::Utf8(b"vr")),
            Part::Raw(b":"),
            Part::Quoted(Text::Utf8(b"UN")),
            Part::Raw(b","),
            Part::Quoted(Text::Utf8(b"vr_recorded")),
            Part::Raw(b":"),
            Part::Letters(vr),
            Part::Raw(b","),
            Part::Quoted(Text::Utf8(b"InlineBinary")),
            Part::Raw(b":"),
            Part::Quoted(Text::Base64(bytes)),
            Part::Raw(b"}"),
        ],
        lines,
    )
}

fn add_number<W: Write>(vr: Vr, bytes: &[u8], lines: &mut LineBuffer<'_, W>) -> fmt::Result
    ensures same { lines.new.to.ghost_name ≡ lines.old.to.ghost_name }
    ensures written { Tells result (compact_text (number_data vr bytes.now))
        (way_of W.Write lines.old) (way_of W.Write lines.new) }
{
    match number_in(vr, bytes) {
        None => add_unread(vr, bytes, lines),
        Some(number) => add_integer(vr, number, lines),
    }
}

fn add_integer<W: Write>(vr: Vr, number: Number, lines: &mut LineBuffer<'_, W>) -> fmt::Result
    ensures same { lines.new.to.ghost_name ≡ lines.old.to.ghost_name }
    ensures written { Tells result (compact_text (integer_data vr (num_of number)))
        (way_of W.Write lines.old) (way_of W.Write lines.new) }
{
    add_parts(
        &[
            Part::Raw(b"{"),
            Part::Quoted(Text::Utf8(b"vr")),
            Part::Raw(b":"),
            Part::Letters(vr),
            Part::Raw(b","),
            Part::Quoted(Text::Utf8(b"Value")),
            Part::Raw(b":["),
            Part::Integer(number),
            Part::Raw(b"]}"),
        ],
        lines,
    )
}
