//! The elements with the withdrawn UIDs, sent to a writer after the records.

ghost use Rattle.std.specs.Prelude.{◌≡◌, ◌+◌, ◌<◌, ◌^◌, ◌++◌, ℕ, List, ◌∷◌, length};
ghost use Rattle.std.specs.List.{join_with_byte};
ghost use Rattle.dd_records.specs.ElementForms.{padded};
ghost use Rattle.dd_records.specs.Withdrawals.{withdrawal_elements, withdrawals_size, withdrawn_value};
ghost use Rattle.dd_encoding.specs.Elements.{elements_of};
ghost use Rattle.dd_stream.specs.Sends.{SendsTo};
ghost use Rattle.dd_encoding.specs.Spelling.{elements_text};

use crate::cells::send_cells;
use dd_elem::{Uid, Vr, Write};
use dd_encoding::send_header;
use dd_records::{WITHDRAWN, creator_cell, withdrawn_length};
use dd_stream::{WriteFault, send};

/// Sends nothing where no UID is withdrawn.
pub(crate) fn send_withdrawals<W: Write>(
    withdrawn: &[Uid],
    writer: &mut W,
    sent: u64,
) -> Result<u64, WriteFault>
    requires small { withdrawals_size withdrawn.now < 2 ^ 32 }
    requires fits { sent + withdrawals_size withdrawn.now < 2 ^ 64 }
    ensures { let text = elements_text (elements_of (withdrawal_elements withdrawn.now))
        in SendsTo W.Write text sent result writer.old writer.new }
{
    if withdrawn.is_empty() {
        return Ok(sent);
    }
    let length = withdrawn_length(withdrawn) as u32;
    let sent = send_cells(&[creator_cell()], writer, sent)?;
    let sent = send_header(WITHDRAWN, Vr::UC, length, writer, sent)?;
    send_value(withdrawn, writer, sent)
}

/// Sends the UIDs, and a space where they have an odd number of bytes together (PS3.5 section 6.2).
fn send_value<W: Write>(withdrawn: &[Uid], writer: &mut W, sent: u64) -> Result<u64, WriteFault>
    requires { sent + length (withdrawn_value withdrawn.now) < 2 ^ 64 }
    ensures { let text = withdrawn_value withdrawn.now
        in SendsTo W.Write text sent result writer.old writer.new }
{
    let end = send_joined(withdrawn, writer, sent)?;
    send(padding(end - sent), writer, end)
}

fn padding(count: u64) -> &'static [u8]
    ensures { (text : List ℕ) → length text ≡ count → text ++ result.now ≡ padded 0x20 text }
{
    if count % 2 == 0 { b"" } else { b" " }
}

/// Sends these UIDs with `\` between them (PS3.5 section 6.4).
fn send_joined<W: Write>(
    mut withdrawn: &[Uid],
    writer: &mut W,
    mut sent: u64,
) -> Result<u64, WriteFault>
    requires { sent + length (join_with_byte 0x5c withdrawn.now) < 2 ^ 64 }
    ensures { let text = join_with_byte 0x5c withdrawn.entry.now
        in SendsTo W.Write text sent result writer.old writer.new }
{
    while let [uid, rest @ ..] = withdrawn {
        sent = send(uid.as_bytes(), writer, sent)?;
        sent = send(separator(rest), writer, sent)?;
        withdrawn = rest;
    }
    Ok(sent)
}

fn separator(rest: &[Uid]) -> &'static [u8]
    ensures { (uid : List ℕ) → join_with_byte 0x5c (uid ∷ rest.now)
        ≡ uid ++ (result.now ++ join_with_byte 0x5c rest.now) }
{
    if rest.is_empty() { b"" } else { b"\\" }
}
