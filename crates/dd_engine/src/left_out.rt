ghost use Rattle.std.specs.Prelude.{◌≡◌, ◌≢◌, [], false, true, not, None, Some, IfOk, IfSome, OnErr, map};
ghost use Rattle.std.specs.List.{list_all, zip};
ghost use Rattle.dd_catalogue.specs.Conflicts.{same};
ghost use Rattle.dd_catalogue.specs.Versions.{kept};
ghost use Rattle.dd_engine.specs.Noting.{AreLeftOut, is_other};
ghost use Rattle.dd_engine.specs.PatientNames.{is_alike};
ghost use Rattle.dd_engine.specs.Picking.{AreHeld, files_of};

use crate::marks::{first_mark, in_order, marks_of};
use crate::notes::LeftOut;
use dd_catalogue::Kept;
use dd_elem::Memory;
use dd_version::Version;
use std::alloc::Global;

/// Lists the files of whose instance other bytes are kept, in the order in which they came, each with the first
/// file of the kept version.
pub(crate) fn left_out_files<T: Copy>(
    alloc: Global,
    best: &Kept<'_>,
    versions: &[Version],
    origins: &[T],
) -> Result<Vec<LeftOut<T>>, Memory>
    requires { AreHeld (map (λ file. file.1) (files_of (zip origins.now versions.now)))
        best.now }
    ensures all { IfOk result (λ notes.
        AreLeftOut (λ at. at) best.now (zip origins.now versions.now)
        notes.items) }
    ensures some { OnErr result (versions.now ≢ []) }
{
    if are_kept(best, versions) {
        return Ok(Vec::new(alloc));
    }
    let marks = in_order(marks_of(alloc, versions, origins)?)?;
    let mut notes = Vec::new(alloc);
    for (origin, version) in origins.iter().zip(versions) {
        if let Some(kept) = other_of(best, version) {
            notes.push(LeftOut {
                file: *origin,
                kept: first_mark(&marks, kept),
                instance: version.parts().instance,
            })?;
        }
    }
    Ok(notes)
}

fn other_of<'a>(best: &Kept<'a>, version: &Version) -> Option<&'a Version>
    ensures some { IfSome result (λ one.
        (kept best.now version.now.instance ≡ Some one.now)
        × (is_other (Some one.now) version.now ≡ true)) }
    ensures none { result ≡ None
        → is_other (kept best.now version.now.instance) version.now ≡ false }
{
    let parts = version.parts();
    let kept = best.get(&parts.instance)?;
    if are_same(&kept.parts().digest, &parts.digest) {
        return None;
    }
    Some(kept)
}

fn are_kept(best: &Kept<'_>, versions: &[Version]) -> bool
    ensures { result ≡ list_all (λ version. not (is_other
        (kept best.now version.instance) version))
        versions.now }
{
    versions.iter().all(|version| is_kept(best, version))
}

fn is_kept(best: &Kept<'_>, version: &Version) -> bool
    ensures { result ≡ not (is_other (kept best.now version.now.instance)
        version.now) }
{
    other_of(best, version).is_none()
}

pub(crate) fn has_kept_digest(best: &Kept<'_>, version: &Version) -> bool
    ensures { result ≡ is_alike (kept best.now version.now.instance) version.now }
{
    let parts = version.parts();
    match best.get(&parts.instance) {
        Some(kept) => are_same(&kept.parts().digest, &parts.digest),
        None => false,
    }
}

fn are_same(one: &[u8; 32], other: &[u8; 32]) -> bool
    ensures { result ≡ same one.now other.now }
{
    one[..].cmp(&other[..]).is_eq()
}
