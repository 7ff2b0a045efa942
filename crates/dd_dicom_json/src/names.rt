//! The names of elements, and pixel data in fragments.
ghost use Rattle.std.specs.Prelude.{◌≡◌, ◌++◌, ◌∷◌, [], false};
ghost use Rattle.serde_json.specs.Written.{comma_if, compact_text, items_text};
ghost use Rattle.json.specs.Print.{quoted};
ghost use Rattle.dd_lines.specs.Telling.{Tells, way_of};
ghost use Rattle.dd_set.specs.Views.{pieces};
ghost use Rattle.dd_dicom_json.specs.DicomJson.{fragment_data, fragments_data, known_vr};
ghost use Rattle.dd_dicom_json.specs.Names.{tag_name};
ghost use Rattle.dd_dicom_json.specs.Values.{items_by};

use crate::escapes::add_raw;
use crate::parts::{Part, Text, add_parts, comma};
use crate::values::open_list;
use dd_elem::{Tag, Vr, Write};
use dd_lines::LineBuffer;
use std::fmt;

/// Adds the name of the element with this tag, and its colon.
pub(crate) fn add_tag<W: Write>(tag: Tag, later: bool, lines: &mut LineBuffer<'_, W>) -> fmt::Result
    ensures same { lines.new.to.ghost_name ≡ lines.old.to.ghost_name }
    ensures written { Tells result (comma_if later ++ (quoted (tag_name tag) ++ 58 ∷ []))
        (way_of W.Write lines.old) (way_of W.Write lines.new) }
{
    add_parts(
        &[Part::Raw(comma(later)), Part::Name(tag), Part::Raw(b":")],
        lines,
    )
}

/// Gives the value representation of an element that may record none.
pub(crate) fn known_vr(vr: Option<Vr>) -> Vr
    ensures { result ≡ known_vr vr }
{
    vr.unwrap_or(Vr::UN)
}

/// Adds an element whose value is these fragments.
pub(crate) fn add_fragments<W: Write>(
    vr: Vr,
    fragments: &[&[u8]],
    lines: &mut LineBuffer<'_, W>,
) -> fmt::Result
    ensures same { lines.new.to.ghost_name ≡ lines.old.to.ghost_name }
    ensures written { Tells result (compact_text (fragments_data vr (pieces fragments.now)))
        (way_of W.Write lines.old) (way_of W.Write lines.new) }
{
    open_list(vr, b"fragments", lines)?;
    add_all_fragments(fragments, lines)?;
    add_raw(b"}", lines)
}

fn add_all_fragments<W: Write>(fragments: &[&[u8]], lines: &mut LineBuffer<'_, W>) -> fmt::Result
    ensures same { lines.new.to.ghost_name ≡ lines.old.to.ghost_name }
    ensures written { Tells result (items_text false (items_by fragment_data (pieces fragments.now)))
        (way_of W.Write lines.old) (way_of W.Write lines.new) }
{
    let mut later = false;
    for fragment in fragments {
        add_parts(
            &[
                Part::Raw(comma(later)),
                Part::Quoted(Text::Base64(fragment)),
            ],
            lines,
        )?;
        later = true;
    }
    add_raw(b"]", lines)
}
