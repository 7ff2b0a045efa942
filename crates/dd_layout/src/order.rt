//! Versions in the order of their paths.

ghost use Rattle.std.specs.Prelude.{◌≡◌, ◌≤◌, map, IfOk};
ghost use Rattle.std.specs.List.Sorted.{IsPermutation};
ghost use Rattle.dd_layout.specs.Paths.{path_cmp};
ghost use Rattle.dd_layout.specs.Plans.{path_of};
ghost use Rattle.dd_layout.specs.WalkedRecords.{AreInOrder, shared, standing, standings};

use dd_elem::{Memory, Ordered};
use dd_version::Version;
use std::alloc::Global;
use std::cmp::Ordering;

/// A version and its index among the versions.
#[derive(Clone, Copy)]
pub(crate) struct Placed<'a> {
    pub(crate) of: usize,
    pub(crate) version: &'a Version,
}

pub(crate) fn in_path_order<'a>(
    alloc: Global,
    versions: &'a [Version],
) -> Result<Vec<Placed<'a>>, Memory>
    ensures all { IfOk result
        (λ placed. IsPermutation (standings 0 versions.now) (map standing placed.items)) }
    ensures order { IfOk result (λ placed. AreInOrder (map standing placed.items)) }
{
    let mut placed = Vec::with_capacity(alloc, versions.len())?;
    for (of, version) in versions.iter().enumerate() {
        placed.push(Placed { of, version })?;
    }
    placed.sort_by(compare_paths)?;
    Ok(placed)
}

fn compare_paths(one: &Placed, other: &Placed) -> Ordering
    ensures { result ≡ path_cmp (path_of one.now.version.now) (path_of other.now.version.now) }
{
    let one = one.version.parts();
    let other = other.version.parts();
    one.patient
        .id
        .compare(&other.patient.id)
        .then(one.study.uid.compare(&other.study.uid))
        .then(one.series.uid.compare(&other.series.uid))
        .then(one.instance.compare(&other.instance))
}

/// Counts the parts that both paths begin with.
pub(crate) fn shared_length(one: &Version, other: &Version) -> usize
    ensures exact { result ≡ shared (path_of one.now) (path_of other.now) }
    ensures few { result ≤ 4 }
{
    let one = one.parts();
    let other = other.parts();
    if one.patient.id != other.patient.id {
        0
    } else if one.study.uid != other.study.uid {
        1
    } else if one.series.uid != other.series.uid {
        2
    } else if one.instance != other.instance {
        3
    } else {
        4
    }
}
