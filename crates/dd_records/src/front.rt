//! What stands before the records of a directory.

ghost use Rattle.std.specs.Prelude.{◌≡◌, ◌≤◌, map};
ghost use Rattle.dd_elem.specs.SetId.{IsSetId};
ghost use Rattle.dd_elem.specs.Uid.{IsUid};
ghost use Rattle.dd_records.specs.Cells.{cell_element};
ghost use Rattle.dd_records.specs.Directory.{first_offset, front_elements};
ghost use Rattle.dd_records.specs.Sizes.{elements_size};

use crate::cell::{Cell, CellValue, header_size, long_value};
use crate::file_meta::directory_meta;
use crate::label::Label;
use dd_elem::{Tag, Vr};
use dd_encoding::head_size;

/// File-set ID (PS3.3 section F.3.2.1).
pub const SET_ID: Tag = Tag {
    group: 0x0004,
    element: 0x1130,
};

/// Offset of the First Directory Record of the Root Directory Entity (PS3.3 section F.3.2.2).
pub const FIRST_ROOT: Tag = Tag {
    group: 0x0004,
    element: 0x1200,
};

/// Offset of the Last Directory Record of the Root Directory Entity (PS3.3 section F.3.2.2).
pub const LAST_ROOT: Tag = Tag {
    group: 0x0004,
    element: 0x1202,
};

/// File-set Consistency Flag (PS3.3 section F.3.2.2).
const CONSISTENCY: Tag = Tag {
    group: 0x0004,
    element: 0x1212,
};

/// The flag of a file-set with no known inconsistencies.
const CONSISTENT: [u8; 2] = [0, 0];

/// Directory Record Sequence, whose items are the records (PS3.3 section F.3.2.2).
pub const RECORDS: Tag = Tag {
    group: 0x0004,
    element: 0x1220,
};

/// Makes the elements before the records, where `first` and `last` are the offsets of the first and of the last root
/// record, or 0 (PS3.3 sections F.3.2.1 and F.3.2.2).
pub fn front_cells(label: &Label, first: u32, last: u32) -> [Cell<'_>; 4]
    ensures exact { map cell_element result ≡ front_elements label.now.id first last }
    ensures id { IsSetId label.now.id }
{
    [
        cell(SET_ID, Vr::CS, CellValue::Text(label.id.as_bytes())),
        cell(FIRST_ROOT, Vr::UL, long_value(first)),
        cell(LAST_ROOT, Vr::UL, long_value(last)),
        cell(CONSISTENCY, Vr::US, CellValue::Short(CONSISTENT)),
    ]
}

fn cell(tag: Tag, vr: Vr, value: CellValue<'_>) -> Cell<'_>
    ensures { result ≡ record { tag = tag; vr = vr; value = value.entry } }
{
    Cell { tag, vr, value }
}

/// Gives the offset of the first record, from the first byte of the file.
pub fn first_offset(label: &Label) -> u64
    ensures exact { result ≡ first_offset label.now }
    ensures few { result ≤ 490 }
    ensures id { IsSetId label.now.id }
    ensures uid { IsUid label.now.uid }
{
    head_size(&directory_meta(label)) + front_size(label) + header_size(Vr::SQ)
}

/// Four headers of 8, an ID of at most 16, two offsets of 4, and a flag of 2.
fn front_size(label: &Label) -> u64
    ensures exact { result ≡ elements_size (front_elements label.now.id 0 0) }
    ensures few { result ≤ 58 }
    ensures id { IsSetId label.now.id }
{
    let [id, first, last, flag] = front_cells(label, 0, 0);
    id.size() + first.size() + last.size() + flag.size()
}
