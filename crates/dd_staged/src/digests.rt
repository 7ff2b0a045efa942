//! The digest with which a stage ends.

ghost use Rattle.std.specs.Prelude.{◌≡◌, ◌+◌, ◌-◌, ◌<◌, ◌^◌, length, take};
ghost use Rattle.sha2.specs.Sha256.{sha256};
ghost use Rattle.dd_set.specs.Single.{element_text};
ghost use Rattle.dd_stream.specs.Sends.{SendsTo};
ghost use Rattle.dd_staged.specs.Cells.{HasRoom, cell_element};
ghost use Rattle.dd_staged.specs.Stages.{digest_element};

use crate::cell::{Cell, CellValue, send_cell};
use crate::tags::STAGE_DIGEST;
use dd_elem::{Vr, Write};
use dd_encoding::LONG_HEADER_SIZE;
use dd_stream::WriteFault;
use sha2::{Digest, Sha256};

/// The bytes of the element.
pub(crate) const DIGEST_SIZE: usize = LONG_HEADER_SIZE + 32;

pub(crate) fn digest_cell(digest: &[u8; 32]) -> Cell<'_>
    ensures exact { cell_element result ≡ digest_element digest.now }
    ensures room { HasRoom result }
{
    Cell {
        tag: STAGE_DIGEST,
        vr: Vr::OB,
        value: CellValue::Bytes(digest),
    }
}

#[tactic(auto, using(crate::proofs::Digested::digest_length))]
pub(crate) fn send_digest<W: Write>(
    digest: &[u8; 32],
    writer: &mut W,
    sent: u64,
) -> Result<u64, WriteFault>
    requires { sent + 44 < 2 ^ 64 }
    ensures { let text = element_text (digest_element digest.now)
        in SendsTo W.Write text sent result writer.old writer.new }
{
    send_cell(&digest_cell(digest), writer, sent)
}

/// Computes the digest of all bytes before those of such an element at the end.
pub(crate) fn digest_before(bytes: &[u8]) -> [u8; 32]
    ensures { result ≡ sha256 (take (length bytes.now - 44) bytes.now) }
{
    Sha256::digest(&bytes[..bytes.len().saturating_sub(DIGEST_SIZE)])
}
