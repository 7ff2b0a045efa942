//! The elements that name the withdrawn instances, after the records.

ghost use Rattle.std.specs.Prelude.{◌≡◌, ◌+◌, ◌*◌, ◌≤◌, length, sum_by};
ghost use Rattle.std.specs.List.{AllByRecursion};
ghost use Rattle.dd_elem.specs.Uid.{IsUid};
ghost use Rattle.dd_records.specs.Cells.{IsShort, cell_element, even_value};
ghost use Rattle.dd_records.specs.Withdrawals.{creator_element, withdrawals_size, withdrawn_value};

use crate::cell::{Cell, CellValue, header_size};
use crate::field::PRIVATE_CREATOR;
use crate::table::CREATOR;
use dd_elem::{Tag, Uid, Vr};

/// The withdrawn SOP Instance UIDs, in a private element of `PRIVATE_CREATOR` (PS3.5 section 7.8.1).
pub const WITHDRAWN: Tag = Tag {
    group: 0x0009,
    element: 0x1002,
};

/// Makes the element that names the creator of the withdrawn UIDs (PS3.5 section 7.8.1).
pub fn creator_cell() -> Cell<'static>
    ensures exact { cell_element result ≡ creator_element }
    ensures short { IsShort (even_value result.value) }
{
    Cell {
        tag: CREATOR.tag,
        vr: CREATOR.vr,
        value: CellValue::Text(PRIVATE_CREATOR),
    }
}

/// Counts the bytes of the elements that name these UIDs: none where no UID is withdrawn.
pub fn withdrawals_size(withdrawn: &[Uid]) -> u128
    ensures exact { result ≡ withdrawals_size withdrawn.now }
    ensures uids { AllByRecursion IsUid withdrawn.now }
{
    if withdrawn.is_empty() {
        return 0;
    }
    let headers = creator_cell().size() + header_size(Vr::UC);
    u128::from(headers) + withdrawn_length(withdrawn)
}

/// Counts the bytes of the value that names these UIDs, joined by `\` and padded to even length (PS3.5 sections 6.2
/// and 6.4).
pub fn withdrawn_length(withdrawn: &[Uid]) -> u128
    ensures exact { result ≡ length (withdrawn_value withdrawn.now) }
    ensures few { result ≤ 65 * length withdrawn.now }
    ensures uids { AllByRecursion IsUid withdrawn.now }
{
    let length = closed_length(withdrawn);
    length - length % 2
}

/// Counts one byte after each UID, so at most 65 for each.
fn closed_length(mut withdrawn: &[Uid]) -> u128
    ensures exact { result ≡ sum_by (λ uid. length uid + 1) withdrawn.entry.now }
    ensures few { result ≤ 65 * length withdrawn.entry.now }
    ensures uids { AllByRecursion IsUid withdrawn.entry.now }
{
    let mut length = 0;
    while let [uid, rest @ ..] = withdrawn {
        length += uid.as_bytes().len() as u128 + 1;
        withdrawn = rest;
    }
    length
}
