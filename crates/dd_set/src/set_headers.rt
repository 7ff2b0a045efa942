//! Headers of each syntax, sent to a writer.

ghost use Rattle.std.specs.Prelude.{◌≡◌, ◌+◌, ◌<◌, ◌^◌, length, Some};
ghost use Rattle.dd_encoding.specs.Spelling.{header_limit, header_text};
ghost use Rattle.dd_stream.specs.Sends.{SendsTo};

use dd_elem::{Tag, Vr, Write};
use dd_encoding::{plain_header, send_header};
use dd_stream::{WriteFault, send};

/// Sends a header that has room for the length.
pub fn send_front<W: Write>(
    tag: Tag,
    vr: Option<Vr>,
    value_length: u32,
    writer: &mut W,
    sent: u64,
) -> Result<u64, WriteFault>
    requires room { (v : Vr) → vr ≡ Some v → value_length < header_limit v }
    requires fits { sent + length (header_text tag vr value_length) < 2 ^ 64 }
    ensures { let text = header_text tag vr value_length
        in SendsTo W.Write text sent result writer.old writer.new }
{
    match vr {
        Some(vr) => send_header(tag, vr, value_length, writer, sent),
        None => send(&plain_header(tag, value_length), writer, sent),
    }
}
