//! The values of elements that are tags.
ghost use Rattle.std.specs.Prelude.{◌≡◌, false};
ghost use Rattle.serde_json.specs.Written.{compact_text, items_text};
ghost use Rattle.dd_lines.specs.Telling.{Tells, way_of};
ghost use Rattle.dd_dicom_json.specs.Values.{are_tags, tag_items, tags_data, values_data};

use crate::escapes::add_raw;
use crate::parts::{Part, add_parts, comma};
use crate::values::{add_unread, open_list};
use byteorder::{ByteOrder, LittleEndian};
use dd_elem::{Tag, Vr, Write};
use dd_lines::LineBuffer;
use std::fmt;

/// Adds an element with these bytes, as tags where they are tags.
pub(crate) fn add_tags<W: Write>(vr: Vr, bytes: &[u8], lines: &mut LineBuffer<'_, W>) -> fmt::Result
    ensures same { lines.new.to.ghost_name ≡ lines.old.to.ghost_name }
    ensures written { Tells result (compact_text (tags_data vr bytes.now))
        (way_of W.Write lines.old) (way_of W.Write lines.new) }
{
    if are_tags(bytes) {
        add_tag_list(vr, bytes, lines)
    } else {
        add_unread(vr, bytes, lines)
    }
}

fn are_tags(bytes: &[u8]) -> bool
    ensures { result ≡ are_tags bytes.now }
{
    !bytes.is_empty() && bytes.len() % 4 == 0
}

fn add_tag_list<W: Write>(vr: Vr, bytes: &[u8], lines: &mut LineBuffer<'_, W>) -> fmt::Result
    ensures same { lines.new.to.ghost_name ≡ lines.old.to.ghost_name }
    ensures written { Tells result (compact_text (values_data vr (tag_items bytes.now)))
        (way_of W.Write lines.old) (way_of W.Write lines.new) }
{
    open_list(vr, b"Value", lines)?;
    add_all_tags(bytes, lines)?;
    add_raw(b"}", lines)
}

fn add_all_tags<W: Write>(bytes: &[u8], lines: &mut LineBuffer<'_, W>) -> fmt::Result
    ensures same { lines.new.to.ghost_name ≡ lines.old.to.ghost_name }
    ensures written { Tells result (items_text false (tag_items bytes.now))
        (way_of W.Write lines.old) (way_of W.Write lines.new) }
{
    let mut rest = bytes;
    let mut later = false;
    while let [first, second, third, fourth, after @ ..] = rest {
        let group = LittleEndian::read_u16(&[*first, *second]);
        let element = LittleEndian::read_u16(&[*third, *fourth]);
        let name = Part::Name(Tag { group, element });
        add_parts(&[Part::Raw(comma(later)), name], lines)?;
        later = true;
        rest = after;
    }
    add_raw(b"]", lines)
}
