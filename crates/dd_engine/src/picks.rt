ghost use Rattle.std.specs.Prelude.{◌≡◌, ◌≢◌, [], Some, IfOk, OnErr, length, map};
ghost use Rattle.std.specs.List.{zip};
ghost use Rattle.dd_layout.specs.Plans.{records_of};
ghost use Rattle.dd_engine.specs.Picking.{AreHeld, file_of, files_of, found, taken_of};

use crate::marks::{first_mark, in_order, marks_of};
use dd_catalogue::Kept;
use dd_elem::Memory;
use dd_layout::Plan;
use dd_records::Level;
use dd_version::Version;
use std::alloc::Global;

/// Finds for each kept version, in the order of the versions, the origin of the first of all files that is its file.
pub(crate) fn first_files<T: Copy>(
    alloc: Global,
    best: &Kept<'_>,
    versions: &[Version],
    origins: &[T],
) -> Result<Vec<T>, Memory>
    requires { AreHeld (map (λ file. file.1) (files_of (zip origins.now versions.now))) best.now }
    ensures all { IfOk result (λ files. map (λ file. Some file) files.items
        ≡ map (λ version. found (files_of (zip origins.now versions.now)) (file_of version)) best.now) }
    ensures some { OnErr result (versions.now ≢ []) }
{
    if versions.is_empty() {
        return Ok(Vec::new(alloc));
    }
    let marks = in_order(marks_of(alloc, versions, origins)?)?;
    let list = best.versions();
    let mut files = Vec::with_capacity(alloc, list.len())?;
    for version in list {
        files.push(first_mark(&marks, version))?;
    }
    Ok(files)
}

/// Picks for each image of the plan, in the order of the records, the file of its version.
pub(crate) fn picks_of<T: Copy>(alloc: Global, plan: &Plan, files: &[T]) -> Result<Vec<T>, Memory>
    requires { length files.now ≡ length plan.now.versions }
    ensures all { IfOk result (λ picks. map (λ pick. Some pick) picks.items
        ≡ taken_of files.now (records_of plan.now.label plan.now.versions)) }
    ensures some { OnErr result (files.now ≢ []) }
{
    let mut picks = Vec::with_capacity(alloc, files.len())?;
    for record in plan.records() {
        if record.level == Level::Image {
            picks.push(files[record.of])?;
        }
    }
    Ok(picks)
}
