//! Data sets in the DICOM JSON model.
ghost use Rattle.std.specs.Prelude.{◌≡◌, ◌++◌, ◌∷◌, false};
ghost use Rattle.serde_json.specs.Written.{comma_if, compact_text, items_text, members_text};
ghost use Rattle.json.specs.Print.{quoted};
ghost use Rattle.dd_lines.specs.Telling.{Tells, way_of};
ghost use Rattle.dd_set.specs.Views.{elements_view, item_view, items_view, set_view, value_view};
ghost use Rattle.dd_dicom_json.specs.DicomJson.{content_data, element_members, elements_data, item_datas};
ghost use Rattle.dd_dicom_json.specs.DicomJson.{sequence_data};
ghost use Rattle.dd_dicom_json.specs.Names.{tag_name};

use crate::character_set::CharacterSet;
use crate::escapes::add_raw;
use crate::names::{add_fragments, add_tag, known_vr};
use crate::parts::comma;
use crate::values::{add_bytes, add_empty, open_list};
use dd_elem::{Vr, Write};
use dd_lines::LineBuffer;
use dd_set::{DataSet, Element, Item, Value};
use std::fmt;

/// Adds a data set as an object of the DICOM JSON model. `around` is the character set of the data set around it, and
/// the default of one that stands by itself. It fails only where the output does, and takes no memory.
#[cycle(elements)]
pub fn add_elements<W: Write>(
    set: &DataSet<'_>,
    around: CharacterSet,
    lines: &mut LineBuffer<'_, W>,
) -> fmt::Result
    ensures same { lines.new.to.ghost_name ≡ lines.old.to.ghost_name }
    ensures written { Tells result (compact_text (elements_data around (set_view set.now)))
        (way_of W.Write lines.old) (way_of W.Write lines.new) }
{
    add_raw(b"{", lines)?;
    add_members(&set.elements, around.within(set), lines)
}

#[cycle(elements)]
fn add_members<W: Write>(
    elements: &[Element<'_>],
    set: CharacterSet,
    lines: &mut LineBuffer<'_, W>,
) -> fmt::Result
    ensures same { lines.new.to.ghost_name ≡ lines.old.to.ghost_name }
    ensures written { Tells result (members_text false (element_members set (elements_view elements.now)))
        (way_of W.Write lines.old) (way_of W.Write lines.new) }
{
    let mut later = false;
    for element in elements {
        add_member(element, set, later, lines)?;
        later = true;
    }
    add_raw(b"}", lines)
}

#[cycle(elements)]
fn add_member<W: Write>(
    element: &Element<'_>,
    set: CharacterSet,
    later: bool,
    lines: &mut LineBuffer<'_, W>,
) -> fmt::Result
    ensures same { lines.new.to.ghost_name ≡ lines.old.to.ghost_name }
    ensures written { Tells result (comma_if later ++ (quoted (tag_name element.now.tag)
        ++ 58 ∷ compact_text (content_data set element.now.vr (value_view element.now.value))))
        (way_of W.Write lines.old) (way_of W.Write lines.new) }
{
    add_tag(element.tag, later, lines)?;
    add_content(element, set, lines)
}

#[cycle(elements)]
fn add_content<W: Write>(
    element: &Element<'_>,
    set: CharacterSet,
    lines: &mut LineBuffer<'_, W>,
) -> fmt::Result
    ensures same { lines.new.to.ghost_name ≡ lines.old.to.ghost_name }
    ensures written { Tells result
        (compact_text (content_data set element.now.vr (value_view element.now.value)))
        (way_of W.Write lines.old) (way_of W.Write lines.new) }
{
    match &element.value {
        Value::Bytes(bytes) => add_bytes(known_vr(element.vr), set, bytes, lines),
        Value::Items { items, .. } => add_sequence(items, set, lines),
        Value::Fragments(fragments) => add_fragments(known_vr(element.vr), fragments, lines),
    }
}

#[cycle(elements)]
fn add_sequence<W: Write>(
    items: &[Item<'_>],
    set: CharacterSet,
    lines: &mut LineBuffer<'_, W>,
) -> fmt::Result
    ensures same { lines.new.to.ghost_name ≡ lines.old.to.ghost_name }
    ensures written { Tells result (compact_text (sequence_data (item_datas set (items_view items.now))))
        (way_of W.Write lines.old) (way_of W.Write lines.new) }
{
    if items.is_empty() {
        return add_empty(Vr::SQ, lines);
    }
    open_list(Vr::SQ, b"Value", lines)?;
    add_items(items, set, lines)?;
    add_raw(b"}", lines)
}

#[cycle(elements)]
fn add_items<W: Write>(
    items: &[Item<'_>],
    set: CharacterSet,
    lines: &mut LineBuffer<'_, W>,
) -> fmt::Result
    ensures same { lines.new.to.ghost_name ≡ lines.old.to.ghost_name }
    ensures written { Tells result (items_text false (item_datas set (items_view items.now)))
        (way_of W.Write lines.old) (way_of W.Write lines.new) }
{
    let mut later = false;
    for item in items {
        add_item(item, set, later, lines)?;
        later = true;
    }
    add_raw(b"]", lines)
}

#[cycle(elements)]
fn add_item<W: Write>(
    item: &Item<'_>,
    set: CharacterSet,
    later: bool,
    lines: &mut LineBuffer<'_, W>,
) -> fmt::Result
    ensures same { lines.new.to.ghost_name ≡ lines.old.to.ghost_name }
    ensures written { Tells result
        (comma_if later ++ compact_text (elements_data set (item_view item.now).set))
        (way_of W.Write lines.old) (way_of W.Write lines.new) }
{
    add_raw(comma(later), lines)?;
    add_elements(&item.set, set, lines)
}
