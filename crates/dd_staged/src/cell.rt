//! Elements whose values are lent.

ghost use Rattle.std.specs.Prelude.{◌≡◌, ◌++◌, ◌≤◌, ◌<◌, ◌+◌, ◌^◌, length};
ghost use Rattle.std.specs.List.{AllByRecursion};
ghost use Rattle.dd_set.specs.Single.{element_text};
ghost use Rattle.dd_stream.specs.Sends.{SendsTo};
ghost use Rattle.dd_staged.specs.Cells.{HasRoom, IsShortWhere, bare_value, cell_element, cell_value, cells_text};
ghost use Rattle.dd_staged.specs.Forms.{name_end, padding};

use dd_elem::{Key, Tag, Uid, Vr, Write};
use dd_encoding::{HEADER_SIZE, LONG_HEADER_SIZE, send_header};
use dd_stream::{WriteFault, send};

/// An element in Explicit VR.
#[derive(Clone, Copy)]
pub(crate) struct Cell<'a> {
    pub(crate) tag: Tag,
    pub(crate) vr: Vr,
    pub(crate) value: CellValue<'a>,
}

/// The value of an element, by what follows it (PS3.5 section 6.2).
#[derive(Clone, Copy)]
pub(crate) enum CellValue<'a> {
    /// Bytes of even length.
    Bytes(&'a [u8]),
    /// A name, whose end says where it ends.
    Name(&'a [u8]),
    /// Text, padded with a space.
    Text(&'a Key),
    /// A UID, padded with a NUL.
    Uid(&'a Uid),
}

impl CellValue<'_> {
    pub(crate) fn as_bytes(&self) -> &[u8]
        ensures value { result.now ≡ bare_value self.now }
        ensures short { IsShortWhere self.now }
    {
        match self {
            CellValue::Bytes(bytes) => bytes,
            CellValue::Name(name) => name,
            CellValue::Text(key) => key.as_bytes(),
            CellValue::Uid(uid) => uid.as_bytes(),
        }
    }

    /// Gives what follows these bytes in the value.
    pub(crate) fn end(&self) -> &'static [u8]
        ensures exact { bare_value self.now ++ result.now ≡ cell_value self.now }
        ensures few { length result.now ≤ 2 }
    {
        let count = self.as_bytes().len();
        match self {
            CellValue::Bytes(_) => b"",
            CellValue::Name(_) => name_end(count),
            CellValue::Text(_) => space_after(count),
            CellValue::Uid(_) => nul_after(count),
        }
    }
}

fn name_end(count: usize) -> &'static [u8]
    ensures { result.now ≡ name_end count }
{
    if count % 2 == 1 { &[1] } else { &[0, 2] }
}

fn space_after(count: usize) -> &'static [u8]
    ensures { result.now ≡ padding 0x20 count }
{
    if count % 2 == 1 { b" " } else { b"" }
}

fn nul_after(count: usize) -> &'static [u8]
    ensures { result.now ≡ padding 0x00 count }
{
    if count % 2 == 1 { b"\0" } else { b"" }
}

impl Cell<'_> {
    /// Counts the bytes of the header and the value (PS3.5 section 7.1.2).
    pub(crate) fn size(&self) -> u64
        ensures { result ≡ length (element_text (cell_element self.now)) }
    {
        let value = self.value.as_bytes().len() + self.value.end().len();
        let header = if self.vr.is_long() {
            LONG_HEADER_SIZE
        } else {
            HEADER_SIZE
        };
        (header + value) as u64
    }
}

pub(crate) fn send_cell<W: Write>(
    cell: &Cell<'_>,
    writer: &mut W,
    sent: u64,
) -> Result<u64, WriteFault>
    requires room { HasRoom cell.now }
    requires small { length (element_text (cell_element cell.now)) < 2 ^ 32 }
    requires fits { sent + length (element_text (cell_element cell.now)) < 2 ^ 64 }
    ensures { let text = element_text (cell_element cell.now)
        in SendsTo W.Write text sent result writer.old writer.new }
{
    let value = cell.value.as_bytes();
    let end = cell.value.end();
    let count = (value.len() + end.len()) as u32;
    let sent = send_header(cell.tag, cell.vr, count, writer, sent)?;
    let sent = send(value, writer, sent)?;
    send(end, writer, sent)
}

/// Sends the elements.
pub(crate) fn send_cells<W: Write>(
    cells: &[Cell<'_>],
    writer: &mut W,
    mut sent: u64,
) -> Result<u64, WriteFault>
    requires room { AllByRecursion HasRoom cells.now }
    requires small { length (cells_text cells.now) < 2 ^ 32 }
    requires fits { sent + length (cells_text cells.now) < 2 ^ 64 }
    ensures { SendsTo W.Write (cells_text cells.now) sent result writer.old writer.new }
{
    for cell in cells {
        sent = send_cell(cell, writer, sent)?;
    }
    Ok(sent)
}
