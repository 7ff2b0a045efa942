ghost use Rattle.std.specs.Prelude.{◌≡◌};
ghost use Rattle.std.specs.List.{zip};
ghost use Rattle.dd_catalogue.specs.Versions.{kept};
ghost use Rattle.dd_engine.specs.Noting.{IsConflictOf, first_by, first_of};

use crate::notes::ConflictingFiles;
use dd_catalogue::Kept;
use dd_elem::{Ordered, Uid};
use dd_layout::PlanFault;
use dd_version::Version;

/// Finds the first origin of each of the two kept versions that the fault names. They are kept of these versions, and
/// `origins` has the origin of each, in the same order.
pub(crate) fn conflict_of<T: Copy>(
    best: &Kept<'_>,
    versions: &[Version],
    origins: &[T],
    fault: &PlanFault,
) -> Option<ConflictingFiles<T>>
    ensures { IsConflictOf (λ at. at) best.now (zip origins.now versions.now) fault.now
        result }
{
    let PlanFault::Conflict(one, other) = fault else {
        return None;
    };
    let one = kept_origin(best, versions, origins, one)?;
    let other = kept_origin(best, versions, origins, other)?;
    Some(ConflictingFiles { one, other })
}

fn kept_origin<T: Copy>(
    best: &Kept<'_>,
    versions: &[Version],
    origins: &[T],
    instance: &Uid,
) -> Option<T>
    ensures { result ≡ first_by (zip origins.now versions.now)
        (kept best.now instance.now) }
{
    first_origin(versions, origins, best.get(instance)?)
}

fn first_origin<T: Copy>(versions: &[Version], origins: &[T], version: &Version) -> Option<T>
    ensures { result ≡ first_of (zip origins.now versions.now) version.now }
{
    let mut held = origins.iter().zip(versions);
    match held.find(|held| held.1.compare(version).is_eq()) {
        Some(held) => Some(*held.0),
        None => None,
    }
}
