//! All that comes before the data set of a file.

ghost use Rattle.std.specs.Prelude.{◌≡◌, ◌+◌, ◌++◌, ◌<◌, ◌≤◌, ◌^◌, length, IfOk, Some};
ghost use Rattle.dd_elem.specs.Uid.{IsUid, max_uid_length};
ghost use Rattle.dd_encoding.specs.Elements.{bytes};
ghost use Rattle.dd_encoding.specs.Head.{head_text, group_text, uids_text, uid_text, padded, padding_of};
ghost use Rattle.dd_encoding.specs.Spelling.{tag_text, content_text};
ghost use Rattle.dd_stream.specs.Sends.{SendsTo};

use crate::header_sending::send_header;
use crate::headers::{HEADER_SIZE, LONG_HEADER_SIZE};
use crate::meta::{CLASS, GROUP_LENGTH, INSTANCE, META_GROUP, Meta};
use crate::preamble::{GROUP_AT, PREAMBLE_LENGTH, PREFIX};
use dd_elem::{Tag, Vr, Write};
use dd_stream::{WriteFault, send};
use dd_version::TRANSFER;

/// File Meta Information Version.
const VERSION: Tag = Tag {
    group: META_GROUP,
    element: 0x0001,
};

const VERSION_VALUE: [u8; 2] = [0x00, 0x01];

const IMPLEMENTATION: Tag = Tag {
    group: META_GROUP,
    element: 0x0012,
};

/// Of this software.
const IMPLEMENTATION_UID: &[u8] = b"2.25.604472133179352588043346";

const VERSION_SIZE: u32 = (LONG_HEADER_SIZE + VERSION_VALUE.len()) as u32;

/// Gives the size of the head in bytes.
pub fn head_size(meta: &Meta) -> u64
    ensures exact { result ≡ length (head_text meta.now) }
    ensures few { result ≤ 412 }
    ensures valid { IsUid meta.now.class × IsUid meta.now.instance × IsUid meta.now.transfer }
{
    GROUP_AT + u64::from(group_size(meta))
}

/// Sends 128 zeros, `DICM`, the group length, the version, three UIDs and the Implementation Class UID (PS3.10
/// section 7.1). Answers how many bytes; 12 Write where the writer failed, with how many went before.
pub fn write_head<W: Write>(meta: &Meta, writer: &mut W) -> Result<u64, WriteFault>
    ensures { SendsTo W.Write (head_text meta.now) 0 result writer.old writer.new }
{
    let count = group_size(meta).to_le_bytes();
    let sent = send(&[0; PREAMBLE_LENGTH], writer, 0)?;
    let sent = send(PREFIX, writer, sent)?;
    let sent = send_element(GROUP_LENGTH, Vr::UL, &count, writer, sent)?;
    send_group(meta, writer, sent)
}

#[tactic(auto, using(crate::proofs::Heads::length_group))]
fn group_size(meta: &Meta) -> u32
    ensures exact { result ≡ length (group_text meta.now) }
    ensures few { result ≤ 268 }
    ensures valid { IsUid meta.now.class × IsUid meta.now.instance × IsUid meta.now.transfer }
{
    VERSION_SIZE
        + uid_size(meta.class.as_bytes())
        + uid_size(meta.instance.as_bytes())
        + uid_size(meta.transfer.as_bytes())
        + uid_size(IMPLEMENTATION_UID)
}

fn uid_size(uid: &[u8]) -> u32
    requires { length uid.now ≤ max_uid_length }
    ensures exact { result ≡ 8 + length (padded uid.now) }
    ensures few { result ≤ 72 }
{
    let size = HEADER_SIZE + uid.len() + padding_for(uid).len();
    size as u32
}

fn send_group<W: Write>(meta: &Meta, writer: &mut W, sent: u64) -> Result<u64, WriteFault>
    requires { sent ≤ 2 ^ 8 }
    ensures { SendsTo W.Write (group_text meta.now) sent result writer.old writer.new }
{
    let sent = send_element(VERSION, Vr::OB, &VERSION_VALUE, writer, sent)?;
    send_uids(meta, writer, sent)
}

fn send_element<W: Write>(
    tag: Tag,
    vr: Vr,
    value: &[u8],
    writer: &mut W,
    sent: u64,
) -> Result<u64, WriteFault>
    requires short { length value.now ≤ 64 }
    requires fits { sent + length
        (tag_text tag ++ content_text (Some vr) (bytes value.now)) < 2 ^ 64 }
    ensures { let text = tag_text tag ++ content_text (Some vr) (bytes value.now)
        in SendsTo W.Write text sent result writer.old writer.new }
{
    let sent = send_header(tag, vr, value.len() as u32, writer, sent)?;
    send(value, writer, sent)
}

fn send_uids<W: Write>(meta: &Meta, writer: &mut W, sent: u64) -> Result<u64, WriteFault>
    requires { sent ≤ 2 ^ 16 }
    ensures { SendsTo W.Write (uids_text meta.now) sent result writer.old writer.new }
{
    let sent = send_uid(CLASS, meta.class.as_bytes(), writer, sent)?;
    let sent = send_uid(INSTANCE, meta.instance.as_bytes(), writer, sent)?;
    let sent = send_uid(TRANSFER, meta.transfer.as_bytes(), writer, sent)?;
    send_uid(IMPLEMENTATION, IMPLEMENTATION_UID, writer, sent)
}

fn send_uid<W: Write>(tag: Tag, uid: &[u8], writer: &mut W, sent: u64) -> Result<u64, WriteFault>
    requires short { length uid.now ≤ max_uid_length }
    requires fits { sent ≤ 2 ^ 32 }
    ensures sends { SendsTo W.Write (uid_text tag uid.now) sent result writer.old writer.new }
    ensures few { IfOk result (λ n. n ≤ sent + 73) }
{
    let padding = padding_for(uid);
    let value_length = (uid.len() + padding.len()) as u32;
    let sent = send_header(tag, Vr::UI, value_length, writer, sent)?;
    let sent = send(uid, writer, sent)?;
    send(padding, writer, sent)
}

/// Makes the length even (PS3.5 section 9.1).
fn padding_for(uid: &[u8]) -> &'static [u8]
    ensures exact { result.now ≡ padding_of (length uid.now) }
    ensures few { length result.now ≤ 1 }
{
    if uid.len() % 2 == 1 { b"\0" } else { b"" }
}
