//! Strings of JSON, with the shortest escapes (RFC 8259 section 7).
ghost use Rattle.std.specs.Prelude.{◌≡◌, ◌<◌};
ghost use Rattle.std.specs.Char.{digit_char};
ghost use Rattle.std.specs.Str.{encode_utf8_all};
ghost use Rattle.json.specs.Print.{escape, escape_byte, escape_letter};
ghost use Rattle.dd_lines.specs.Telling.{Tells, way_of};

use dd_elem::Write;
use dd_lines::LineBuffer;
use std::fmt;

/// Adds these bytes.
pub(crate) fn add_raw<W: Write>(bytes: &[u8], lines: &mut LineBuffer<'_, W>) -> fmt::Result
    ensures same { lines.new.to.ghost_name ≡ lines.old.to.ghost_name }
    ensures written { Tells result bytes.now (way_of W.Write lines.old) (way_of W.Write lines.new) }
{
    lines.add(bytes)
}

/// Adds these bytes as they stand in a string.
pub(crate) fn add_escaped<W: Write>(bytes: &[u8], lines: &mut LineBuffer<'_, W>) -> fmt::Result
    ensures same { lines.new.to.ghost_name ≡ lines.old.to.ghost_name }
    ensures written { Tells result (escape bytes.now)
        (way_of W.Write lines.old) (way_of W.Write lines.new) }
{
    for byte in bytes {
        add_byte(*byte, lines)?;
    }
    Ok(())
}

/// Adds characters of ISO 8859-1 as they stand in a string, in UTF-8.
pub(crate) fn add_latin1<W: Write>(characters: &[u8], lines: &mut LineBuffer<'_, W>) -> fmt::Result
    ensures same { lines.new.to.ghost_name ≡ lines.old.to.ghost_name }
    ensures written { Tells result (escape (encode_utf8_all characters.now))
        (way_of W.Write lines.old) (way_of W.Write lines.new) }
{
    for character in characters {
        let mut bytes = [0; 4];
        let utf8 = char::from(*character).encode_utf8(&mut bytes);
        add_escaped(utf8.as_bytes(), lines)?;
    }
    Ok(())
}

#[tactic(auto, unfolding(json::specs::Print::escape_byte))]
fn add_byte<W: Write>(byte: u8, lines: &mut LineBuffer<'_, W>) -> fmt::Result
    ensures same { lines.new.to.ghost_name ≡ lines.old.to.ghost_name }
    ensures written { Tells result (escape_byte byte)
        (way_of W.Write lines.old) (way_of W.Write lines.new) }
{
    let letter = escape_letter(byte);
    if 0 < letter {
        add_raw(&[b'\\', letter], lines)
    } else if byte < 32 {
        add_raw(
            &[b'\\', b'u', b'0', b'0', digit(byte / 16), digit(byte % 16)],
            lines,
        )
    } else {
        add_raw(&[byte], lines)
    }
}

/// Gives the letter of the byte's short escape, and 0 where it has none.
fn escape_letter(byte: u8) -> u8
    ensures { result ≡ escape_letter byte }
{
    match byte {
        b'"' | b'\\' => byte,
        0x08 => b'b',
        0x0c => b'f',
        b'\n' => b'n',
        b'\r' => b'r',
        b'\t' => b't',
        _ => 0,
    }
}

/// Gives the hexadecimal digit of a number below 16, in lower case.
fn digit(number: u8) -> u8
    requires { number < 16 }
    ensures { result ≡ digit_char number }
{
    if number < 10 {
        48 + number
    } else {
        87 + number
    }
}
