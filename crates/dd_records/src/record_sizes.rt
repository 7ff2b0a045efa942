//! How many bytes the records of a directory take.

ghost use Rattle.std.specs.Prelude.{◌≡◌, ◌*◌, ◌≤◌, ℕ, Option, length};
ghost use Rattle.std.specs.List.{AllByRecursion};
ghost use Rattle.dd_elem.specs.FileId.{Ranks};
ghost use Rattle.dd_encoding.specs.Elements.{elements_of};
ghost use Rattle.dd_encoding.specs.Spelling.{AreElements};
ghost use Rattle.dd_encoding.specs.declared.syntax.Syntax.TheVariants.{Explicit};
ghost use Rattle.dd_records.specs.Cells.{IsShortElement, table_elements};
ghost use Rattle.dd_records.specs.Records.{IsFileOf, record_elements};
ghost use Rattle.dd_records.specs.Sizes.{elements_size, record_size};

use crate::level::Level;
use crate::record::PlanRecord;
use crate::table::{Row, rows};
use dd_elem::FileId;
use dd_encoding::HEADER_SIZE;
use dd_version::Parts;

/// The Item tag and the length (PS3.5 section 7.5).
const ITEM_HEADER: u64 = HEADER_SIZE as u64;

/// Counts the bytes of a record of this level, which neither its offsets nor its File ID change. At most 11 elements
/// of 1,036 bytes stand after the 8 of the Item tag and length.
pub fn record_size(level: Level, parts: &Parts) -> u64
    ensures exact { (next lower : ℕ) (file : Option Ranks) → IsFileOf level file
        → result ≡ record_size (record_elements level next lower file parts.now) }
    ensures few { result ≤ 12000 }
    ensures valid { (levels next lower : ℕ) (file : Option Ranks) → IsFileOf level file
        → AreElements Explicit levels 0
        (elements_of (record_elements level next lower file parts.now)) }
{
    ITEM_HEADER + cells_size(rows(level), &bare_record(level), parts)
}

fn bare_record(level: Level) -> PlanRecord
    ensures level { result.level ≡ level }
    ensures file { IsFileOf level result.file }
{
    let file = match level {
        Level::Image => FileId::ranked(1, 1, 1, 1),
        Level::Patient | Level::Study | Level::Series => None,
    };
    PlanRecord {
        level,
        at: 0,
        next: 0,
        lower: 0,
        file,
        of: 0,
    }
}

/// Each takes at most 1,036: a header of 12 and a value of 1,024.
fn cells_size(mut rows: &[Row], planned: &PlanRecord, parts: &Parts) -> u64
    requires { length rows.now ≤ 11 }
    ensures exact { result ≡ elements_size
        (table_elements rows.entry.now planned.now.level planned.now.next planned.now.lower planned.now.file
        parts.now) }
    ensures few { result ≤ 1036 * length rows.entry.now }
    ensures short { AllByRecursion IsShortElement
        (table_elements rows.entry.now planned.now.level planned.now.next planned.now.lower planned.now.file
        parts.now) }
{
    let mut size = 0;
    while let [row, rest @ ..] = rows {
        if let Some(cell) = row.cell(planned, parts) {
            size += cell.size();
        }
        rows = rest;
    }
    size
}
