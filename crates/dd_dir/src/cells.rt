//! Elements sent to a writer, after `sent` bytes.

ghost use Rattle.std.specs.Prelude.{◌+◌, ◌<◌, ◌^◌, IsOk, length, map};
ghost use Rattle.std.specs.List.{AllByRecursion};
ghost use Rattle.dd_records.specs.Cells.{IsShort, IsShortElement, cell_element, even_value, table_elements};
ghost use Rattle.dd_encoding.specs.Elements.{elements_of};
ghost use Rattle.dd_stream.specs.Sends.{SendsTo};
ghost use Rattle.dd_set.specs.Single.{element_text};
ghost use Rattle.dd_encoding.specs.Spelling.{elements_text};

use dd_elem::Write;
use dd_encoding::send_header;
use dd_records::{Cell, PlanRecord, Row};
use dd_stream::{WriteFault, send};
use dd_version::Parts;

fn send_cell<W: Write>(cell: &Cell<'_>, writer: &mut W, sent: u64) -> Result<u64, WriteFault>
    requires short { IsShort (even_value cell.now.value) }
    requires fits { sent + length (element_text (cell_element cell.now)) < 2 ^ 64 }
    ensures { let text = element_text (cell_element cell.now)
        in SendsTo W.Write text sent result writer.old writer.new }
{
    let value = cell.value.as_bytes();
    let padding = cell.value.padding();
    let count = (value.len() + padding.len()) as u32;
    let sent = send_header(cell.tag, cell.vr, count, writer, sent)?;
    let sent = send(value, writer, sent)?;
    send(padding, writer, sent)
}

pub(crate) fn send_cells<W: Write>(
    cells: &[Cell<'_>],
    writer: &mut W,
    mut sent: u64,
) -> Result<u64, WriteFault>
    requires short { AllByRecursion IsShortElement (map cell_element cells.now) }
    requires fits { sent + length
        (elements_text (elements_of (map cell_element cells.now))) < 2 ^ 64 }
    ensures { let text = elements_text (elements_of (map cell_element cells.now))
        in SendsTo W.Write text sent result writer.old writer.new }
{
    for cell in cells {
        sent = send_cell(cell, writer, sent)?;
    }
    Ok(sent)
}

pub(crate) fn send_rows<W: Write>(
    rows: &[Row],
    planned: &PlanRecord,
    parts: &Parts,
    writer: &mut W,
    mut sent: u64,
) -> Result<u64, WriteFault>
    requires { let text = elements_text (elements_of (table_elements rows.now
        planned.now.level planned.now.next planned.now.lower planned.now.file parts.now))
        in sent + length text < 2 ^ 64 }
    ensures sends { let text = elements_text (elements_of (table_elements rows.now
        planned.now.level planned.now.next planned.now.lower planned.now.file parts.now))
        in SendsTo W.Write text sent result writer.old writer.new }
    ensures short { IsOk result → AllByRecursion IsShortElement (table_elements rows.now
        planned.now.level planned.now.next planned.now.lower planned.now.file parts.now) }
{
    for row in rows {
        if let Some(cell) = row.cell(planned, parts) {
            sent = send_cell(&cell, writer, sent)?;
        }
    }
    Ok(sent)
}
