//! How long the bytes of a stage are.

ghost use Rattle.std.specs.Prelude.{◌≡◌, ◌+◌, ◌<◌, ◌^◌, length, map};
ghost use Rattle.std.specs.Option.{SomeIff};
ghost use Rattle.dd_encoding.specs.Elements.{elements_of};
ghost use Rattle.dd_encoding.specs.Spelling.{elements_text, items_text};
ghost use Rattle.dd_set.specs.Single.{item_text};
ghost use Rattle.dd_staged.specs.Cells.{cells_text};
ghost use Rattle.dd_staged.specs.Sources.{source_view};
ghost use Rattle.dd_staged.specs.Stages.{source_elements, source_item, source_items, stage_text};

use crate::cell::Cell;
use crate::code::Code;
use crate::digests::DIGEST_SIZE;
use crate::item_cells::{fault_cells, version_cells};
use crate::staged::Staged;
use dd_encoding::HEADER_SIZE;

/// The bytes of a stage before its items, and after them.
const AROUND: u64 = 52 + DIGEST_SIZE as u64;

/// Counts the bytes that spell the list. None above 4,294,967,295.
pub fn stage_size(list: &[Staged]) -> Option<u32>
    ensures { let text = stage_text (map source_view list.now)
        in SomeIff result (length text < 2 ^ 32) (length text) }
{
    let items = items_size(list)?;
    whole_size(items)
}

fn whole_size(items: u64) -> Option<u32>
    ensures { SomeIff result (items + 96 < 2 ^ 32) (items + 96) }
{
    u32::try_from(items.checked_add(AROUND)?).ok()
}

fn items_size(list: &[Staged]) -> Option<u64>
    ensures { let text = items_text (source_items (map source_view list.now))
        in SomeIff result (length text < 2 ^ 64) (length text) }
{
    let mut total: u64 = 0;
    for staged in list {
        let size = item_size(staged)?;
        total = total.checked_add(size)?;
    }
    Some(total)
}

fn item_size(staged: &Staged) -> Option<u64>
    ensures { let text = item_text (source_item (source_view staged.now))
        in SomeIff result (length text < 2 ^ 64) (length text) }
{
    set_size(staged)?.checked_add(HEADER_SIZE as u64)
}

fn set_size(staged: &Staged) -> Option<u64>
    ensures { let text = elements_text (elements_of (source_elements (source_view staged.now)))
        in SomeIff result (length text < 2 ^ 64) (length text) }
{
    let size = staged.size.to_le_bytes();
    match &staged.found {
        Ok(version) => cells_size(&version_cells(&staged.name, &size, version.parts())),
        Err(fault) => cells_size(&fault_cells(&staged.name, &size, &Code::of(fault))),
    }
}

/// Counts the bytes of the elements. None at 2^64 or more.
pub(crate) fn cells_size(cells: &[Cell<'_>]) -> Option<u64>
    ensures { SomeIff result (length (cells_text cells.now) < 2 ^ 64)
        (length (cells_text cells.now)) }
{
    let mut total: u64 = 0;
    for cell in cells {
        total = total.checked_add(cell.size())?;
    }
    Some(total)
}
