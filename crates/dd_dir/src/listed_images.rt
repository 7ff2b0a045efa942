//! The images that the records of a directory list.

ghost use Rattle.std.specs.Prelude.{◌≡◌, map};
ghost use Rattle.dd_set.specs.Views.{set_view};
ghost use Rattle.dd_walk.specs.ForestViews.{tree_view, trees_view};
ghost use Rattle.dd_dir.specs.Own.{ListsFirst, below, level_in, listed_at, listed_in};
ghost use Rattle.dd_dir.specs.OwnViews.{Adds, ListsOneFirst, above_view, listed_of, listed_values, listed_view};

use crate::own_checks::fault_at;
use crate::own_fault::OwnFault;
use crate::record_keys::{PatientRecord, SeriesRecord, StudyRecord};
use dd_records::Level;
use dd_set::DataSet;
use dd_walk::Tree;

/// The records above a record: none at the root, and else one of each level down to an image.
#[derive(Clone, Copy)]
pub(crate) enum Above<'f, 'a> {
    Root,
    Patient(PatientRecord<'f, 'a>),
    Study(PatientRecord<'f, 'a>, StudyRecord<'f, 'a>),
    Series(PatientRecord<'f, 'a>, StudyRecord<'f, 'a>, SeriesRecord<'f, 'a>),
    Image,
}

/// The record of an image, and those above it.
#[derive(Clone, Copy)]
pub(crate) struct Listed<'f, 'a> {
    pub(crate) patient: PatientRecord<'f, 'a>,
    pub(crate) study: StudyRecord<'f, 'a>,
    pub(crate) series: SeriesRecord<'f, 'a>,
    /// The IMAGE record.
    pub(crate) own: &'f DataSet<'a>,
}

fn level_in(above: Above<'_, '_>) -> Option<Level>
    ensures { result ≡ level_in (above_view above.entry) }
{
    match above {
        Above::Root => Some(Level::Patient),
        Above::Patient(_) => Some(Level::Study),
        Above::Study(_, _) => Some(Level::Series),
        Above::Series(_, _, _) => Some(Level::Image),
        Above::Image => None,
    }
}

fn above_children<'f, 'a>(above: Above<'f, 'a>, set: &'f DataSet<'a>) -> Above<'f, 'a>
    ensures { above_view result ≡ below (above_view above.entry) (set_view set.now) }
{
    match above {
        Above::Root => Above::Patient(PatientRecord::of(set)),
        Above::Patient(patient) => Above::Study(patient, StudyRecord::of(set)),
        Above::Study(patient, study) => Above::Series(patient, study, SeriesRecord::of(set)),
        Above::Series(_, _, _) | Above::Image => Above::Image,
    }
}

/// None but below a series.
fn listed_at<'f, 'a>(above: Above<'f, 'a>, set: &'f DataSet<'a>) -> Option<Listed<'f, 'a>>
    ensures { listed_values result ≡ listed_at (above_view above.entry) (set_view set.now) }
{
    match above {
        Above::Series(patient, study, series) => Some(Listed {
            patient,
            study,
            series,
            own: set,
        }),
        Above::Root | Above::Patient(_) | Above::Study(_, _) | Above::Image => None,
    }
}

/// Adds the images of these trees, depth first; or answers the first fault.
#[cycle(listing)]
pub(crate) fn list<'f, 'a>(
    trees: &'f [Tree<'a>],
    above: Above<'f, 'a>,
    images: &mut Vec<Listed<'f, 'a>>,
) -> Result<(), OwnFault>
    ensures { Adds (map listed_view images.old.items) (map listed_view images.new.items)
        (listed_in (above_view above.entry) (trees_view trees.now))
        (ListsFirst (above_view above.entry) (trees_view trees.now)) result }
{
    for tree in trees {
        list_one(tree, above, images)?;
    }
    Ok(())
}

#[cycle(listing)]
fn list_one<'f, 'a>(
    tree: &'f Tree<'a>,
    above: Above<'f, 'a>,
    images: &mut Vec<Listed<'f, 'a>>,
) -> Result<(), OwnFault>
    ensures { Adds (map listed_view images.old.items) (map listed_view images.new.items)
        (listed_of (above_view above.entry) (tree_view tree.now))
        (ListsOneFirst (above_view above.entry) (tree_view tree.now)) result }
{
    if let Some(fault) = fault_at(level_in(above), tree) {
        return Err(fault);
    }
    if let Some(image) = listed_at(above, &tree.set) {
        images.push(image)?;
    }
    list(&tree.below, above_children(above, &tree.set), images)
}
