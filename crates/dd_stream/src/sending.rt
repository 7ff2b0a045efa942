ghost use Rattle.std.specs.Prelude.{◌+◌, ◌<◌, ◌^◌, length};
ghost use Rattle.dd_stream.specs.Sends.{SendsTo};

use crate::write_fault::WriteFault;
use dd_elem::Write;

/// Sends the bytes after `sent` others, which its answers count too. Write where the writer fails or takes nothing.
pub fn send<W: Write>(bytes: &[u8], writer: &mut W, sent: u64) -> Result<u64, WriteFault>
    requires { sent + length bytes.now < 2 ^ 64 }
    ensures { SendsTo W.Write bytes.now sent result writer.old writer.new }
{
    let mut at = 0;
    while at < bytes.len() {
        match writer.write(&bytes[at..]) {
            Ok(n) if n > 0 => at += n,
            _ => return Err(WriteFault::Write(sent + at as u64)),
        }
    }
    Ok(sent + bytes.len() as u64)
}
