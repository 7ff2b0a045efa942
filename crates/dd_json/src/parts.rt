//! Texts and numbers of JSON values.
ghost use Rattle.std.specs.Prelude.{◌≡◌, ◌<◌, ◌++◌, ◌∷◌, [], decimal};
ghost use Rattle.std.specs.Char.{digit_char};
ghost use Rattle.std.specs.List.{concat};
ghost use Rattle.json.specs.Print.{escape, escape_byte, escape_letter, quoted};
ghost use Rattle.dd_lines.specs.Telling.{Tells, parts_of, shown, way_of};
ghost use Rattle.dd_lines.specs.Text.{joined};

use dd_elem::Write;
use dd_lines::{LineBuffer, shown_byte};
use itoa::Buffer;
use std::fmt;

/// Adds a string of these characters: quotes, backslashes and control characters are escaped (RFC 8259 section 7).
pub fn add_text<W: Write>(text: &str, lines: &mut LineBuffer<'_, W>) -> fmt::Result
    ensures same { lines.new.to.ghost_name ≡ lines.old.to.ghost_name }
    ensures written { Tells result (quoted text.now) (way_of W.Write lines.old) (way_of W.Write lines.new) }
    ensures rest { W.rest lines.new.to.now ≡ W.rest lines.old.to.now }
{
    add_quoted(text.as_bytes(), lines)
}

fn add_quoted<W: Write>(text: &[u8], lines: &mut LineBuffer<'_, W>) -> fmt::Result
    ensures same { lines.new.to.ghost_name ≡ lines.old.to.ghost_name }
    ensures written { Tells result (quoted text.now) (way_of W.Write lines.old) (way_of W.Write lines.new) }
    ensures rest { W.rest lines.new.to.now ≡ W.rest lines.old.to.now }
{
    add_bytes(b"\"", lines)?;
    add_escaped(text, lines)?;
    add_bytes(b"\"", lines)
}

/// Adds a string of these texts, one after the other.
pub fn add_texts<W: Write>(texts: &[&str], lines: &mut LineBuffer<'_, W>) -> fmt::Result
    ensures same { lines.new.to.ghost_name ≡ lines.old.to.ghost_name }
    ensures written { Tells result (quoted (joined texts.now)) (way_of W.Write lines.old) (way_of W.Write lines.new) }
    ensures rest { W.rest lines.new.to.now ≡ W.rest lines.old.to.now }
{
    add_bytes(b"\"", lines)?;
    add_escaped_texts(texts, lines)?;
    add_bytes(b"\"", lines)
}

/// Adds a string of these bytes, with `?` for each byte outside 20 to 7E.
pub fn add_shown_text<W: Write>(text: &[u8], lines: &mut LineBuffer<'_, W>) -> fmt::Result
    ensures same { lines.new.to.ghost_name ≡ lines.old.to.ghost_name }
    ensures written { Tells result (quoted (shown text.now))
        (way_of W.Write lines.old) (way_of W.Write lines.new) }
    ensures rest { W.rest lines.new.to.now ≡ W.rest lines.old.to.now }
{
    add_bytes(b"\"", lines)?;
    add_shown_part(text, lines)?;
    add_bytes(b"\"", lines)
}

/// Adds a string of these parts, one after the other, as `add_shown_text` adds one.
pub fn add_joined_text<W: Write>(parts: &[&[u8]], lines: &mut LineBuffer<'_, W>) -> fmt::Result
    ensures same { lines.new.to.ghost_name ≡ lines.old.to.ghost_name }
    ensures written { Tells result (quoted (shown (concat (parts_of parts.now))))
        (way_of W.Write lines.old) (way_of W.Write lines.new) }
    ensures rest { W.rest lines.new.to.now ≡ W.rest lines.old.to.now }
{
    add_bytes(b"\"", lines)?;
    add_shown_parts(parts, lines)?;
    add_bytes(b"\"", lines)
}

/// Adds the name of a member, and the colon.
pub fn add_member_name<W: Write>(name: &str, lines: &mut LineBuffer<'_, W>) -> fmt::Result
    ensures same { lines.new.to.ghost_name ≡ lines.old.to.ghost_name }
    ensures written { Tells result (quoted name.now ++ 58 ∷ []) (way_of W.Write lines.old) (way_of W.Write lines.new) }
    ensures rest { W.rest lines.new.to.now ≡ W.rest lines.old.to.now }
{
    add_text(name, lines)?;
    add_raw(":", lines)
}

/// Adds a number in decimal.
pub fn add_number<W: Write>(number: u64, lines: &mut LineBuffer<'_, W>) -> fmt::Result
    ensures same { lines.new.to.ghost_name ≡ lines.old.to.ghost_name }
    ensures written { Tells result (decimal number) (way_of W.Write lines.old) (way_of W.Write lines.new) }
    ensures rest { W.rest lines.new.to.now ≡ W.rest lines.old.to.now }
{
    let mut digits = Buffer::new();
    add_raw(digits.format(number), lines)
}

/// Adds a text as it stands, such as a bracket or a comma.
pub fn add_raw<W: Write>(text: &str, lines: &mut LineBuffer<'_, W>) -> fmt::Result
    ensures same { lines.new.to.ghost_name ≡ lines.old.to.ghost_name }
    ensures written { Tells result text.now (way_of W.Write lines.old) (way_of W.Write lines.new) }
    ensures rest { W.rest lines.new.to.now ≡ W.rest lines.old.to.now }
{
    lines.add(text.as_bytes())
}

fn add_escaped<W: Write>(text: &[u8], lines: &mut LineBuffer<'_, W>) -> fmt::Result
    ensures same { lines.new.to.ghost_name ≡ lines.old.to.ghost_name }
    ensures written { Tells result (escape text.now) (way_of W.Write lines.old) (way_of W.Write lines.new) }
    ensures rest { W.rest lines.new.to.now ≡ W.rest lines.old.to.now }
{
    for byte in text {
        add_byte(*byte, lines)?;
    }
    Ok(())
}

fn add_escaped_texts<W: Write>(texts: &[&str], lines: &mut LineBuffer<'_, W>) -> fmt::Result
    ensures same { lines.new.to.ghost_name ≡ lines.old.to.ghost_name }
    ensures written { Tells result (escape (joined texts.now)) (way_of W.Write lines.old) (way_of W.Write lines.new) }
    ensures rest { W.rest lines.new.to.now ≡ W.rest lines.old.to.now }
{
    for text in texts {
        add_escaped_text(text, lines)?;
    }
    Ok(())
}

fn add_escaped_text<W: Write>(text: &str, lines: &mut LineBuffer<'_, W>) -> fmt::Result
    ensures same { lines.new.to.ghost_name ≡ lines.old.to.ghost_name }
    ensures written { Tells result (escape text.now) (way_of W.Write lines.old) (way_of W.Write lines.new) }
    ensures rest { W.rest lines.new.to.now ≡ W.rest lines.old.to.now }
{
    add_escaped(text.as_bytes(), lines)
}

fn add_shown_parts<W: Write>(parts: &[&[u8]], lines: &mut LineBuffer<'_, W>) -> fmt::Result
    ensures same { lines.new.to.ghost_name ≡ lines.old.to.ghost_name }
    ensures written { Tells result (escape (shown (concat (parts_of parts.now))))
        (way_of W.Write lines.old) (way_of W.Write lines.new) }
    ensures rest { W.rest lines.new.to.now ≡ W.rest lines.old.to.now }
{
    for part in parts {
        add_shown_part(part, lines)?;
    }
    Ok(())
}

fn add_shown_part<W: Write>(part: &[u8], lines: &mut LineBuffer<'_, W>) -> fmt::Result
    ensures same { lines.new.to.ghost_name ≡ lines.old.to.ghost_name }
    ensures written { Tells result (escape (shown part.now)) (way_of W.Write lines.old) (way_of W.Write lines.new) }
    ensures rest { W.rest lines.new.to.now ≡ W.rest lines.old.to.now }
{
    for byte in part {
        add_byte(shown_byte(*byte), lines)?;
    }
    Ok(())
}

/// Adds a byte of a string's text, escaped where it must be.
fn add_byte<W: Write>(byte: u8, lines: &mut LineBuffer<'_, W>) -> fmt::Result
    ensures same { lines.new.to.ghost_name ≡ lines.old.to.ghost_name }
    ensures written { Tells result (escape_byte byte) (way_of W.Write lines.old) (way_of W.Write lines.new) }
    ensures rest { W.rest lines.new.to.now ≡ W.rest lines.old.to.now }
{
    let letter = escape_letter(byte);
    if letter > 0 {
        add_bytes(&[b'\\', letter], lines)
    } else if byte < 0x20 {
        add_bytes(
            &[b'\\', b'u', b'0', b'0', digit(byte / 16), digit(byte % 16)],
            lines,
        )
    } else {
        add_bytes(&[byte], lines)
    }
}

/// Gives the letter of the short escape; 0 where there is none.
fn escape_letter(byte: u8) -> u8
    ensures { result ≡ escape_letter byte }
{
    match byte {
        b'"' | b'\\' => byte,
        0x08 => b'b',
        b'\t' => b't',
        b'\n' => b'n',
        0x0c => b'f',
        b'\r' => b'r',
        _ => 0,
    }
}

fn add_bytes<W: Write>(bytes: &[u8], lines: &mut LineBuffer<'_, W>) -> fmt::Result
    ensures same { lines.new.to.ghost_name ≡ lines.old.to.ghost_name }
    ensures written { Tells result bytes.now (way_of W.Write lines.old) (way_of W.Write lines.new) }
    ensures rest { W.rest lines.new.to.now ≡ W.rest lines.old.to.now }
{
    lines.add(bytes)
}

fn digit(value: u8) -> u8
    requires { value < 16 }
    ensures { result ≡ digit_char value }
{
    if value < 10 {
        b'0' + value
    } else {
        b'a' + (value - 10)
    }
}
