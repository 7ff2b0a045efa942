//! What is asked for: the values that records have at the elements by which they are known.
ghost use Rattle.std.specs.Prelude.{◌≡◌, string_bytes};
ghost use Rattle.std.specs.List.{list_any};
ghost use Rattle.std.specs.Str.{bytes_eq};
ghost use Rattle.dd_elem.specs.Clean.{clean_of};
ghost use Rattle.dd_set.specs.Views.{set_view};
ghost use Rattle.dd_walk.specs.ForestViews.{tree_view};
ghost use Rattle.dd_walk.specs.Saying.{key_of};
ghost use Rattle.dd_selection.specs.Selection.{selection_view, selects_all, left_below, has_one_of, left_of, tag_of};
ghost use Rattle.dd_selection.specs.Selection.{texts_view};

use dd_elem::{Tag, clean};
use dd_records::Level;
use dd_records::table::{INSTANCE, PATIENT_ID, SERIES_UID, STUDY_UID};
use dd_set::{DataSet, value_at};
use dd_walk::Tree;

/// Says which records are asked for. Of a kind without values each is right; of each other kind, one of the values. A
/// value stands without the padding at its end, as that of a record does (PS3.5 section 6.2).
#[derive(Clone, Copy)]
pub struct Selection<'a> {
    /// Patient IDs (0010,0020) of PATIENT records.
    pub patients: &'a [String],
    /// Study Instance UIDs (0020,000D) of STUDY records.
    pub studies: &'a [String],
    /// Series Instance UIDs (0020,000E) of SERIES records.
    pub series: &'a [String],
    /// Referenced SOP Instance UIDs in File (0004,1511) of IMAGE records.
    pub instances: &'a [String],
}

impl<'a> Selection<'a> {
    /// Is nothing asked for, so that each record is right?
    pub(crate) fn is_everything(&self) -> bool
        ensures { result ≡ selects_all (selection_view self.now) }
    {
        self.patients.is_empty()
            && self.studies.is_empty()
            && self.series.is_empty()
            && self.instances.is_empty()
    }

    /// Gives what is asked for of the records below this one, and of itself.
    pub(crate) fn left_below(&self, tree: &Tree<'_>) -> Selection<'a>
        ensures { selection_view result ≡ left_below (selection_view self.now) (tree_view tree.now).node }
    {
        Selection {
            patients: left_of(self.patients, Level::Patient, tree),
            studies: left_of(self.studies, Level::Study, tree),
            series: left_of(self.series, Level::Series, tree),
            instances: left_of(self.instances, Level::Image, tree),
        }
    }
}

/// Gives no values where the record has one of them, else these.
fn left_of<'a>(values: &'a [String], level: Level, tree: &Tree<'_>) -> &'a [String]
    ensures { texts_view result.now ≡ left_of level (texts_view values.entry.now) (tree_view tree.now).node }
{
    if has_one_of(values, level, tree) {
        &values[..0]
    } else {
        values
    }
}

/// Is the record of this level, with one of these values?
fn has_one_of(values: &[String], level: Level, tree: &Tree<'_>) -> bool
    ensures { result ≡ has_one_of level (texts_view values.now) (tree_view tree.now).node }
{
    tree.kind == level.kind() && is_one_of(values, value_in(&tree.set, tag_of(level)))
}

/// Gives the value without its padding: no bytes where the set has no value there, or items.
fn value_in<'a>(set: &DataSet<'a>, tag: Tag) -> &'a [u8]
    ensures { result.now ≡ key_of tag (set_view set.now) }
{
    match value_at(set, tag) {
        Some(value) => value,
        None => &[],
    }
}

/// Is this one of the values, without their padding?
fn is_one_of(values: &[String], found: &[u8]) -> bool
    ensures { result ≡ list_any (λ value. bytes_eq (clean_of (string_bytes value)) found.now) values.now }
{
    values.iter().any(|value| clean(value.as_bytes()) == found)
}

fn tag_of(level: Level) -> Tag
    ensures { result ≡ tag_of level }
{
    match level {
        Level::Patient => PATIENT_ID.tag,
        Level::Study => STUDY_UID.tag,
        Level::Series => SERIES_UID.tag,
        Level::Image => INSTANCE.tag,
    }
}
