ghost use Rattle.std.specs.Prelude.{◌≡◌, IfErr, IfOk, length};
ghost use Rattle.dd_engine.specs.Planned.{AreFindings, IsUnfound};

use crate::basis::Basis;
use crate::conflict::conflict_of;
use crate::left_out::left_out_files;
use crate::notes::{NotedFault, Notes};
use crate::patient_names::patient_names;
use crate::picks::first_files;
use dd_catalogue::{Changes, HarmonyChanges, Kept};
use dd_layout::PlanFault;
use dd_version::Version;
use std::alloc::Global;

/// What is found of versions before a catalogue is made of them.
#[derive(Drop)]
pub(crate) struct Findings<T> {
    /// The kept versions that have other keys in harmony.
    pub(crate) changes: Changes,
    /// The first file of each kept version.
    pub(crate) files: Vec<T>,
    pub(crate) notes: Notes<T>,
}

/// Finds of the kept versions their files and what harmony changes, and makes the notes. Refused with Conflict where
/// two of them conflict, with the first file of each.
pub(crate) fn findings_of<T: Copy>(
    alloc: Global,
    basis: &Basis<T>,
) -> Result<Findings<T>, NotedFault<PlanFault, T>>
    requires { length basis.now.origins.items ≡ length basis.now.versions.items }
    ensures found { IfOk result (λ found. AreFindings basis.now found) }
    ensures refused { IfErr result (λ noted. IsUnfound basis.now noted.fault noted.conflict) }
{
    let versions: &[Version] = &basis.versions;
    let origins: &[T] = &basis.origins;
    let best = Kept::of(alloc, versions, &basis.withdrawn)?;
    let changes = match best.changes_or_conflict(alloc)? {
        HarmonyChanges::Found(changes) => changes,
        HarmonyChanges::Conflict(one, other) => {
            let fault = PlanFault::Conflict(one, other);
            let conflict = conflict_of(&best, versions, origins, &fault);
            return Err(NotedFault { fault, conflict });
        }
    };
    let files = first_files(alloc, &best, versions, origins)?;
    let left_out = left_out_files(alloc, &best, versions, origins)?;
    let names = patient_names(alloc, &best, versions)?;
    Ok(Findings {
        changes,
        files,
        notes: Notes { left_out, names },
    })
}
