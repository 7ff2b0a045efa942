//! Stages sent to a writer.

ghost use Rattle.std.specs.Prelude.{◌≡◌, ◌<◌, ◌+◌, ◌^◌, Err, IsOk, length, map};
ghost use Rattle.std.specs.List.{AllByRecursion};
ghost use Rattle.dd_encoding.specs.Spelling.{items_text};
ghost use Rattle.dd_set.specs.Single.{item_text};
ghost use Rattle.dd_stream.specs.Sends.{SendsTo};
ghost use Rattle.dd_staged.specs.Cells.{HasRoom, cell_element, cells_text};
ghost use Rattle.sha2.specs.Sha256.{sha256};
ghost use Rattle.dd_staged.specs.Sources.{IsListed, source_view};
ghost use Rattle.dd_staged.specs.Stages.{front_elements, item_with, list_text, opening_text, source_item};
ghost use Rattle.dd_staged.specs.Stages.{source_items};
ghost use Rattle.dd_staged.specs.Stages.{IsStage, stage_text};

use crate::cell::{Cell, CellValue, send_cells};
use crate::code::Code;
use crate::digests::send_digest;
use crate::item_cells::{fault_cells, version_cells};
use crate::sizes::{cells_size, stage_size};
use crate::staged::Staged;
use crate::tags::{COUNT, CREATOR, ITEMS, PRIVATE_CREATOR};
use crate::type_facts::list_is_valid;
use dd_elem::{Vr, Write};
use dd_encoding::{SEQUENCE_END, item_header, plain_header, send_header};
use dd_grammar::UNDEFINED_LENGTH;
use dd_hashing::Digester;
use dd_stream::{WriteFault, send};

/// Sends the bytes that spell the list, and answers how many they are. 13 NotWritable exactly where `stage_size` gives
/// None; nothing is sent then. 12 Write where the writer failed, with how many of the bytes went before. It holds the
/// bytes of one header at a time. Where each source can be listed, `read_stage` reads the list back.
pub fn write_stage<W: Write>(list: &[Staged], writer: &mut W) -> Result<u64, WriteFault>
    ensures sends { let text = stage_text (map source_view list.now)
        in length text < 2 ^ 32 → SendsTo W.Write text 0 result writer.old writer.new }
    ensures refused { ¬ (length (stage_text (map source_view list.now)) < 2 ^ 32)
        → (result ≡ Err WriteFault.NotWritable) × (writer.new ≡ writer.old) }
    ensures stage { let sources = map source_view list.now
        in IsOk result → AllByRecursion IsListed sources → IsStage (stage_text sources) sources }
{
    match stage_size(list) {
        Some(_) => send_stage(list, writer),
        None => Err(WriteFault::NotWritable),
    }
}

#[tactic(auto, using(crate::proofs::Digested::list_fits))]
fn send_stage<W: Write>(list: &[Staged], writer: &mut W) -> Result<u64, WriteFault>
    requires { length (stage_text (map source_view list.now)) < 2 ^ 32 }
    ensures sends { let text = stage_text (map source_view list.now)
        in SendsTo W.Write text 0 result writer.old writer.new }
    ensures stage { let sources = map source_view list.now
        in AllByRecursion IsListed sources → IsStage (stage_text sources) sources }
{
    list_is_valid(list);
    let digest = list_digest(list);
    let sent = send_list(list, writer)?;
    send_digest(&digest, writer, sent)
}

/// Computes the SHA-256 of the bytes of the list. The writer that hashes fails only where the count of its calls is at
/// its last value, and it is called at most once for each byte.
fn list_digest(list: &[Staged]) -> [u8; 32]
    requires { length (list_text (source_items (map source_view list.now))) < 2 ^ 32 }
    ensures { result ≡ sha256 (list_text (source_items (map source_view list.now))) }
{
    let mut digester = Digester::new();
    match send_list(list, &mut digester) {
        Ok(_) => digester.digest(),
        Err(_) => {
            digester.fails_late();
            unreachable!()
        }
    }
}

/// Sends all but the digest.
fn send_list<W: Write>(list: &[Staged], writer: &mut W) -> Result<u64, WriteFault>
    requires { length (list_text (source_items (map source_view list.now))) < 2 ^ 32 }
    ensures { let text = list_text (source_items (map source_view list.now))
        in SendsTo W.Write text 0 result writer.old writer.new }
{
    let sent = send_opening(list.len() as u32, writer)?;
    let sent = send_items(list, writer, sent)?;
    send(&plain_header(SEQUENCE_END, 0), writer, sent)
}

/// Sends the elements before the items, and the header of their sequence.
fn send_opening<W: Write>(count: u32, writer: &mut W) -> Result<u64, WriteFault>
    ensures { SendsTo W.Write (opening_text count) 0 result writer.old writer.new }
{
    let count = count.to_le_bytes();
    let sent = send_cells(&front_cells(&count), writer, 0)?;
    send_header(ITEMS, Vr::SQ, UNDEFINED_LENGTH, writer, sent)
}

pub(crate) fn front_cells<'a>(count: &'a [u8; 4]) -> [Cell<'a>; 2]
    ensures exact { map cell_element result ≡ front_elements count.now }
    ensures room { AllByRecursion HasRoom result }
{
    [
        Cell {
            tag: CREATOR,
            vr: Vr::LO,
            value: CellValue::Bytes(PRIVATE_CREATOR),
        },
        Cell {
            tag: COUNT,
            vr: Vr::UL,
            value: CellValue::Bytes(count),
        },
    ]
}

fn send_items<W: Write>(list: &[Staged], writer: &mut W, mut sent: u64) -> Result<u64, WriteFault>
    requires small { length (items_text (source_items (map source_view list.now))) < 2 ^ 32 }
    requires fits { sent + length (items_text (source_items (map source_view list.now))) < 2 ^ 64 }
    ensures { let text = items_text (source_items (map source_view list.now))
        in SendsTo W.Write text sent result writer.old writer.new }
{
    for staged in list {
        sent = send_item(staged, writer, sent)?;
    }
    Ok(sent)
}

fn send_item<W: Write>(staged: &Staged, writer: &mut W, sent: u64) -> Result<u64, WriteFault>
    requires small { length (item_text (source_item (source_view staged.now))) < 2 ^ 32 }
    requires fits { sent + length (item_text (source_item (source_view staged.now))) < 2 ^ 64 }
    ensures { let text = item_text (source_item (source_view staged.now))
        in SendsTo W.Write text sent result writer.old writer.new }
{
    let size = staged.size.to_le_bytes();
    match &staged.found {
        Ok(version) => {
            let cells = version_cells(&staged.name, &size, version.parts());
            send_item_of(&cells, writer, sent)
        }
        Err(fault) => {
            let code = Code::of(fault);
            send_item_of(&fault_cells(&staged.name, &size, &code), writer, sent)
        }
    }
}

/// Sends the header of the item, and its elements.
fn send_item_of<W: Write>(cells: &[Cell<'_>], writer: &mut W, sent: u64) -> Result<u64, WriteFault>
    requires room { AllByRecursion HasRoom cells.now }
    requires small { length (cells_text cells.now) < 2 ^ 32 }
    requires fits { sent + 8 + length (cells_text cells.now) < 2 ^ 64 }
    ensures { let text = item_text (item_with (map cell_element cells.now))
        in SendsTo W.Write text sent result writer.old writer.new }
{
    let count = cells_size(cells).unwrap() as u32;
    let sent = send(&item_header(count), writer, sent)?;
    send_cells(cells, writer, sent)
}
