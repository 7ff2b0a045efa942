//! Records sent to a writer.

ghost use Rattle.std.specs.Prelude.{◌≡◌, ◌+◌, ◌<◌, ◌^◌, All, IsOk, length, map};
ghost use Rattle.std.specs.List.{AllByRecursion};
ghost use Rattle.dd_layout.specs.Layouts.{IsSound};
ghost use Rattle.dd_records.specs.Records.{IsRecord, record_item};
ghost use Rattle.dd_records.specs.Sizes.{record_size};
ghost use Rattle.dd_encoding.specs.Elements.{items_of};
ghost use Rattle.dd_stream.specs.Sends.{SendsTo};
ghost use Rattle.dd_set.specs.Single.{item_text};
ghost use Rattle.dd_encoding.specs.Spelling.{items_text};
ghost use Rattle.dd_dir.specs.Directories.{AreMeasured, elements_for, end_before};
ghost use Rattle.dd_dir.specs.Keyed.{IsKeyed};

use crate::cells::send_rows;
use crate::well_formed::parts_of;
use dd_elem::Write;
use dd_encoding::{HEADER_SIZE, item_header};
use dd_records::{PlanRecord, rows};
use dd_stream::{WriteFault, send};
use dd_version::Version;

/// Sends these records, which end at `end` in the directory.
pub(crate) fn send_records<W: Write>(
    mut records: &[PlanRecord],
    end: u32,
    versions: &[Version],
    writer: &mut W,
    mut sent: u64,
) -> Result<u64, WriteFault>
    requires sound { All (IsSound (length versions.now)) records.now }
    requires measured { AreMeasured versions.now end records.now }
    requires fits { let parts = map record_item (map (elements_for versions.now) records.now)
        in sent + length (items_text (items_of parts)) < 2 ^ 64 }
    ensures sends { let parts = map record_item (map (elements_for versions.now) records.entry.now)
        in SendsTo W.Write (items_text (items_of parts)) sent result writer.old writer.new }
    ensures valid { IsOk result → AllByRecursion IsRecord
        (map (elements_for versions.now) records.entry.now) }
    ensures keyed { IsOk result → AllByRecursion (IsKeyed versions.now) records.entry.now }
{
    while let [planned, rest @ ..] = records {
        let size = end_before(rest, end) - planned.at;
        sent = send_record(planned, size, versions, writer, sent)?;
        records = rest;
    }
    Ok(sent)
}

fn end_before(records: &[PlanRecord], end: u32) -> u32
    ensures { result ≡ end_before end records.now }
{
    match records {
        [next, ..] => next.at,
        [] => end,
    }
}

/// Sends the header of its item and its elements.
fn send_record<W: Write>(
    planned: &PlanRecord,
    size: u32,
    versions: &[Version],
    writer: &mut W,
    sent: u64,
) -> Result<u64, WriteFault>
    requires sound { IsSound (length versions.now) planned.now }
    requires measured { size ≡ record_size (elements_for versions.now planned.now) }
    requires fits { sent + length
        (item_text (record_item (elements_for versions.now planned.now))) < 2 ^ 64 }
    ensures sends { let text = item_text (record_item (elements_for versions.now planned.now))
        in SendsTo W.Write text sent result writer.old writer.new }
    ensures valid { IsOk result → IsRecord (elements_for versions.now planned.now) }
    ensures keyed { IsKeyed versions.now planned.now }
{
    let parts = parts_of(&versions[planned.of]);
    let header = item_header(size - HEADER_SIZE as u32);
    let sent = send(&header, writer, sent)?;
    send_rows(rows(planned.level), planned, parts, writer, sent)
}
