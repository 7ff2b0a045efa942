//! Compares the elements of an item that was read with those that its source has when it is written.

ghost use Rattle.std.specs.Prelude.{◌≡◌, ◌↔◌, ◌++◌, IsTrue, map};
ghost use Rattle.dd_encoding.specs.Elements.{elements_of};
ghost use Rattle.dd_set.specs.Views.{element_view, elements_view};
ghost use Rattle.dd_staged.specs.Cells.{cell_element, cell_value};
ghost use Rattle.dd_staged.specs.Sources.{source_view};
ghost use Rattle.dd_staged.specs.Stages.{source_elements};

use crate::cell::{Cell, CellValue};
use crate::code::Code;
use crate::item_cells::{fault_cells, version_cells};
use crate::staged::Staged;
use dd_set::{Element, Value};

/// Says whether these are the elements of the source.
pub(crate) fn are_of_source(elements: &[Element<'_>], staged: &Staged) -> bool
    ensures { IsTrue result ↔ (elements_view elements.now
        ≡ elements_of (source_elements (source_view staged.now))) }
{
    let size = staged.size.to_le_bytes();
    match &staged.found {
        Ok(version) => are_cells(
            elements,
            &version_cells(&staged.name, &size, version.parts()),
        ),
        Err(fault) => are_cells(
            elements,
            &fault_cells(&staged.name, &size, &Code::of(fault)),
        ),
    }
}

#[tactic(auto, using(crate::proofs::SameElements::same_count, crate::proofs::SameElements::agree_none))]
pub(crate) fn are_cells(elements: &[Element<'_>], cells: &[Cell<'_>]) -> bool
    ensures { IsTrue result ↔ (elements_view elements.now
        ≡ elements_of (map cell_element cells.now)) }
{
    if elements.len() != cells.len() {
        return false;
    }
    for at in 0..cells.len() {
        if !is_cell(&elements[at], &cells[at]) {
            return false;
        }
    }
    true
}

pub(crate) fn is_cell(element: &Element<'_>, cell: &Cell<'_>) -> bool
    ensures { IsTrue result ↔ (element_view element.now ≡ cell_element cell.now) }
{
    let Value::Bytes(bytes) = element.value else {
        return false;
    };
    element.tag == cell.tag && element.vr == Some(cell.vr) && is_value(bytes, &cell.value)
}

fn is_value(bytes: &[u8], value: &CellValue<'_>) -> bool
    ensures { IsTrue result ↔ (bytes.now ≡ cell_value value.now) }
{
    is_joined(bytes, value.as_bytes(), value.end())
}

#[tactic(auto, using(crate::proofs::SameElements::joined_splits, crate::proofs::SameElements::splits_joined))]
fn is_joined(bytes: &[u8], front: &[u8], rest: &[u8]) -> bool
    ensures { IsTrue result ↔ (bytes.now ≡ front.now ++ rest.now) }
{
    if bytes.len() < front.len() {
        return false;
    }
    let (start, end) = bytes.split_at(front.len());
    is_same(start, front) && is_same(end, rest)
}

fn is_same(bytes: &[u8], other: &[u8]) -> bool
    ensures { IsTrue result ↔ (bytes.now ≡ other.now) }
{
    bytes == other
}
