ghost use Rattle.std.specs.Prelude.{◌≡◌, ◌≢◌, [], Some, IfOk, map, filter};
ghost use Rattle.std.specs.List.{zip};
ghost use Rattle.std.specs.List.Sorted.{IsSorted, IsStable};
ghost use Rattle.dd_engine.specs.Picking.{file_cmp, file_of, files_of, found, is_one};
ghost use Rattle.dd_engine.specs.Picking.{key_of, mark_cmp, mark_view};

use dd_elem::{Memory, Ordered, Uid};
use dd_version::Version;
use std::alloc::Global;
use std::cmp::Ordering;

#[derive(Clone, Copy)]
pub(crate) struct Mark<'a, T> {
    pub(crate) instance: &'a Uid,
    pub(crate) digest: &'a [u8; 32],
    pub(crate) origin: T,
}

pub(crate) fn marks_of<'a, T: Copy>(
    alloc: Global,
    versions: &'a [Version],
    origins: &[T],
) -> Result<Vec<Mark<'a, T>>, Memory>
    ensures { IfOk result (λ marks. map (λ mark. mark_view mark) marks.items
        ≡ files_of (zip origins.now versions.now)) }
{
    let mut marks = Vec::with_capacity(alloc, versions.len())?;
    for (origin, version) in origins.iter().zip(versions) {
        let parts = version.parts();
        marks.push(Mark {
            instance: &parts.instance,
            digest: &parts.digest,
            origin: *origin,
        })?;
    }
    Ok(marks)
}

pub(crate) fn in_order<T: Copy>(mut marks: Vec<Mark<'_, T>>) -> Result<Vec<Mark<'_, T>>, Memory>
    ensures order { IfOk result (λ ordered. IsSorted mark_cmp ordered.items) }
    ensures stable { IfOk result (λ ordered. IsStable mark_cmp marks.entry.items ordered.items) }
{
    marks.sort_by(|one: &Mark<'_, T>, other: &Mark<'_, T>| compare(
        one,
        other.instance,
        other.digest,
    ))?;
    Ok(marks)
}

fn compare<T>(mark: &Mark<'_, T>, instance: &Uid, digest: &[u8; 32]) -> Ordering
    ensures { result ≡ file_cmp (key_of mark.now)
        (record { instance = instance.now; digest = digest.now }) }
{
    let own = mark.digest;
    mark.instance
        .compare(instance)
        .then(own[..].cmp(&digest[..]))
}

pub(crate) fn first_mark<T: Copy>(marks: &[Mark<'_, T>], version: &Version) -> T
    requires order { IsSorted mark_cmp marks.now }
    requires held { filter (λ file. is_one file (file_of version.now))
        (map (λ mark. key_of mark) marks.now) ≢ [] }
    ensures { Some result ≡ found (map (λ mark. mark_view mark) marks.now) (file_of version.now) }
{
    let parts = version.parts();
    let first = marks.partition_point(|mark: &Mark<'_, T>| compare(
        mark,
        &parts.instance,
        &parts.digest,
    ).is_lt());
    marks[first].origin
}
