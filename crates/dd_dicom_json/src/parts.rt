//! Texts of JSON in parts.
ghost use Rattle.std.specs.Prelude.{◌≡◌};
ghost use Rattle.json.specs.Print.{escape, quoted};
ghost use Rattle.serde_json.specs.Written.{comma_if, number_text};
ghost use Rattle.dd_lines.specs.Telling.{Tells, way_of};
ghost use Rattle.dd_dicom_json.specs.Numbers.{num_of};
ghost use Rattle.dd_dicom_json.specs.Parts.{characters_of, part_text, parts_text};

use crate::base64_text::add_base64;
use crate::escapes::{add_escaped, add_latin1, add_raw};
use crate::numbers::{Number, number_text};
use crate::tag_names::tag_name;
use dd_elem::{Tag, Vr, Write};
use dd_lines::LineBuffer;
use itoa::Buffer;
use std::fmt;

/// The characters of a string.
#[derive(Clone, Copy)]
pub(crate) enum Text<'a> {
    /// These bytes, in UTF-8.
    Utf8(&'a [u8]),
    /// The characters that these bytes are in ISO 8859-1.
    Latin1(&'a [u8]),
    /// The Base64 of these bytes (RFC 4648 section 4).
    Base64(&'a [u8]),
}

/// A part of a text of JSON.
#[derive(Clone, Copy)]
pub(crate) enum Part<'a> {
    /// These bytes.
    Raw(&'a [u8]),
    /// A string in its quotes.
    Quoted(Text<'a>),
    /// The letters of a value representation, in quotes.
    Letters(Vr),
    /// The name of the element with this tag, in quotes.
    Name(Tag),
    /// The decimal digits of a number.
    Integer(Number),
}

/// Adds these parts, one after the other.
pub(crate) fn add_parts<W: Write>(parts: &[Part<'_>], lines: &mut LineBuffer<'_, W>) -> fmt::Result
    ensures same { lines.new.to.ghost_name ≡ lines.old.to.ghost_name }
    ensures written { Tells result (parts_text parts.now)
        (way_of W.Write lines.old) (way_of W.Write lines.new) }
{
    for part in parts {
        add_part(*part, lines)?;
    }
    Ok(())
}

fn add_part<W: Write>(part: Part<'_>, lines: &mut LineBuffer<'_, W>) -> fmt::Result
    ensures same { lines.new.to.ghost_name ≡ lines.old.to.ghost_name }
    ensures written { Tells result (part_text part.entry) (way_of W.Write lines.old) (way_of W.Write lines.new) }
{
    match part {
        Part::Raw(bytes) => add_raw(bytes, lines),
        Part::Quoted(text) => add_quoted(text, lines),
        Part::Letters(vr) => add_string(&vr.letters(), lines),
        Part::Name(tag) => add_string(&tag_name(tag), lines),
        Part::Integer(number) => add_integer(number, lines),
    }
}

fn add_string<W: Write>(bytes: &[u8], lines: &mut LineBuffer<'_, W>) -> fmt::Result
    ensures same { lines.new.to.ghost_name ≡ lines.old.to.ghost_name }
    ensures written { Tells result (quoted bytes.now) (way_of W.Write lines.old) (way_of W.Write lines.new) }
{
    add_quoted(Text::Utf8(bytes), lines)
}

fn add_integer<W: Write>(number: Number, lines: &mut LineBuffer<'_, W>) -> fmt::Result
    ensures same { lines.new.to.ghost_name ≡ lines.old.to.ghost_name }
    ensures written { Tells result (number_text (num_of number))
        (way_of W.Write lines.old) (way_of W.Write lines.new) }
{
    let mut digits = Buffer::new();
    add_raw(number_text(number, &mut digits), lines)
}

/// Adds a string in its quotes.
pub(crate) fn add_quoted<W: Write>(text: Text<'_>, lines: &mut LineBuffer<'_, W>) -> fmt::Result
    ensures same { lines.new.to.ghost_name ≡ lines.old.to.ghost_name }
    ensures written { Tells result (quoted (characters_of text.entry))
        (way_of W.Write lines.old) (way_of W.Write lines.new) }
{
    add_raw(b"\"", lines)?;
    add_text(text, lines)?;
    add_raw(b"\"", lines)
}

fn add_text<W: Write>(text: Text<'_>, lines: &mut LineBuffer<'_, W>) -> fmt::Result
    ensures same { lines.new.to.ghost_name ≡ lines.old.to.ghost_name }
    ensures written { Tells result (escape (characters_of text.entry))
        (way_of W.Write lines.old) (way_of W.Write lines.new) }
{
    match text {
        Text::Utf8(bytes) => add_escaped(bytes, lines),
        Text::Latin1(characters) => add_latin1(characters, lines),
        Text::Base64(bytes) => add_base64(bytes, lines),
    }
}

/// Gives the comma that parts an item from an earlier one.
pub(crate) fn comma(later: bool) -> &'static [u8]
    ensures { result.now ≡ comma_if later }
{
    if later { b"," } else { b"" }
}
