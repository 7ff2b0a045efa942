//! The values by which a person recognises a record.
ghost use Rattle.std.specs.Prelude.{◌≡◌, ◌∷◌, [], codes};
ghost use Rattle.std.specs.List.{concat, flat_map};
ghost use Rattle.dd_set.specs.Views.{set_view};
ghost use Rattle.dd_report.specs.Listing.{known_tags, tags_in, value_parts};
ghost use Rattle.dd_lines.specs.Telling.{Tells, shown, way_of};

use crate::listing::value_or_dash;
use dd_elem::{Tag, Write, tags};
use dd_lines::LineBuffer;
use dd_records::Level;
use dd_set::DataSet;
use std::fmt;

/// Says how much a listing shows of each record.
#[derive(Clone, Copy, Debug, PartialEq, Eq)]
pub enum Form {
    /// What identifies it: its offset, its type and one value.
    Short,
    /// Also the values by which a person recognises it.
    Long,
}

const OF_PATIENT: [Tag; 1] = [tags::PATIENT_NAME];

const OF_STUDY: [Tag; 3] = [tags::STUDY_DATE, tags::STUDY_TIME, tags::STUDY_DESCRIPTION];

const OF_SERIES: [Tag; 2] = [tags::MODALITY, tags::SERIES_NUMBER];

/// Referenced SOP Instance UID in File.
const INSTANCE_IN_FILE: Tag = Tag {
    group: 0x0004,
    element: 0x1511,
};

const OF_IMAGE: [Tag; 2] = [tags::INSTANCE_NUMBER, INSTANCE_IN_FILE];

/// Adds the values of these elements, each after ` | `.
pub(crate) fn add_values<W: Write>(
    set: &DataSet<'_>,
    wanted: &[Tag],
    lines: &mut LineBuffer<'_, W>,
) -> fmt::Result
    ensures same { lines.new.to.ghost_name ≡ lines.old.to.ghost_name }
    ensures written { Tells result (shown (concat (flat_map (value_parts (set_view set.now)) wanted.now)))
        (way_of W.Write lines.old) (way_of W.Write lines.new) }
{
    for tag in wanted {
        add_value(value_or_dash(set, *tag), lines)?;
    }
    Ok(())
}

fn add_value<W: Write>(value: &[u8], lines: &mut LineBuffer<'_, W>) -> fmt::Result
    ensures same { lines.new.to.ghost_name ≡ lines.old.to.ghost_name }
    ensures written { Tells result (shown (concat (codes " | " ∷ value.now ∷ [])))
        (way_of W.Write lines.old) (way_of W.Write lines.new) }
{
    lines.add_parts(&[b" | ", value])
}

pub(crate) fn tags_in(form: Form, kind: &[u8]) -> &'static [Tag]
    ensures { result.now ≡ tags_in form kind.now }
{
    match form {
        Form::Short => &[],
        Form::Long => known_tags(kind),
    }
}

fn known_tags(kind: &[u8]) -> &'static [Tag]
    ensures { result.now ≡ known_tags kind.now }
{
    if kind == Level::Patient.kind() {
        &OF_PATIENT
    } else if kind == Level::Study.kind() {
        &OF_STUDY
    } else if kind == Level::Series.kind() {
        &OF_SERIES
    } else if kind == Level::Image.kind() {
        &OF_IMAGE
    } else {
        &[]
    }
}
