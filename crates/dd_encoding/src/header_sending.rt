ghost use Rattle.std.specs.Prelude.{◌≡◌, ◌+◌, ◌<◌, ◌≤◌, ◌^◌, length, Err, Some};
ghost use Rattle.dd_encoding.specs.Spelling.{header_limit, header_text};
ghost use Rattle.dd_stream.specs.Sends.{SendsTo};

use crate::headers::{long_header, short_header};
use dd_elem::{Tag, Vr, Write};
use dd_stream::{WriteFault, send};

/// Sends a header in Explicit VR as `send` does (PS3.5 section 7.1.2). 13 NotWritable, with nothing sent, where a
/// short header has no room for the length in its 16 bits.
pub fn send_header<W: Write>(
    tag: Tag,
    vr: Vr,
    value_length: u32,
    writer: &mut W,
    sent: u64,
) -> Result<u64, WriteFault>
    requires { sent + length (header_text tag (Some vr) value_length) < 2 ^ 64 }
    ensures sends { let text = header_text tag (Some vr) value_length
        in value_length < header_limit vr
        → SendsTo W.Write text sent result writer.old writer.new }
    ensures refused { header_limit vr ≤ value_length
        → (result ≡ Err WriteFault.NotWritable) × (writer.new ≡ writer.old) }
{
    if vr.is_long() {
        return send(&long_header(tag, vr, value_length), writer, sent);
    }
    if value_length > u32::from(u16::MAX) {
        return Err(WriteFault::NotWritable);
    }
    send(&short_header(tag, vr, value_length as u16), writer, sent)
}
