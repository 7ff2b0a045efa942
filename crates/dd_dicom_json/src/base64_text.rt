//! Base64 (RFC 4648 section 4) as it stands in a string.
ghost use Rattle.std.specs.Prelude.{◌≡◌, ◌≤◌, length};
ghost use Rattle.base64.specs.Engines.{standard};
ghost use Rattle.base64.specs.GeneralPurpose.{encode_of};
ghost use Rattle.json.specs.Print.{escape};
ghost use Rattle.dd_lines.specs.Telling.{Tells, way_of};

use crate::escapes::add_escaped;
use base64::engine::general_purpose::STANDARD;
use dd_elem::Write;
use dd_lines::LineBuffer;
use std::fmt;

/// Adds the Base64 of these bytes.
pub(crate) fn add_base64<W: Write>(bytes: &[u8], lines: &mut LineBuffer<'_, W>) -> fmt::Result
    ensures same { lines.new.to.ghost_name ≡ lines.old.to.ghost_name }
    ensures written { Tells result (escape (encode_of standard bytes.now))
        (way_of W.Write lines.old) (way_of W.Write lines.new) }
{
    let mut rest = bytes;
    while let [first, second, third, after @ ..] = rest {
        add_group(&[*first, *second, *third], lines)?;
        rest = after;
    }
    add_group(rest, lines)
}

/// Adds the symbols of at most three bytes.
fn add_group<W: Write>(bytes: &[u8], lines: &mut LineBuffer<'_, W>) -> fmt::Result
    requires { length bytes.now ≤ 3 }
    ensures same { lines.new.to.ghost_name ≡ lines.old.to.ghost_name }
    ensures written { Tells result (escape (encode_of standard bytes.now))
        (way_of W.Write lines.old) (way_of W.Write lines.new) }
{
    let mut symbols = [0; 4];
    match STANDARD.encode_slice(bytes, &mut symbols) {
        Ok(length) => add_escaped(&symbols[..length], lines),
        Err(_) => Ok(()),
    }
}
