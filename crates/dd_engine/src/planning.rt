ghost use Rattle.std.specs.Prelude.{◌≡◌, IfErr, IfOk, length};
ghost use Rattle.dd_engine.specs.Planned.{IsPlanned, IsUnplanned};

use crate::basis::Basis;
use crate::choice::{Choice, plan_for};
use crate::findings::{Findings, findings_of};
use crate::notes::{NotedFault, Notes};
use crate::picks::picks_of;
use dd_layout::{Limits, Plan, PlanFault};
use std::alloc::Global;

#[derive(Drop)]
pub(crate) struct Planned<T> {
    pub(crate) plan: Plan,
    /// For each image of the plan, in the order of its records, the first origin that has its file.
    pub(crate) picks: Vec<T>,
    pub(crate) notes: Notes<T>,
}

/// Plans the directory of the kept versions. The plan gets their memory, so that a version is in memory once.
pub(crate) fn plan_of<T: Copy>(
    alloc: Global,
    basis: Basis<T>,
    choice: &Choice,
    limits: Limits,
) -> Result<Planned<T>, NotedFault<PlanFault, T>>
    requires { length basis.origins.items ≡ length basis.versions.items }
    ensures planned { IfOk result (λ planned. IsPlanned choice.now limits basis planned) }
    ensures refused { IfErr result (λ noted.
        IsUnplanned choice.now limits basis noted.fault noted.conflict) }
{
    let Findings {
        changes,
        files,
        notes,
    } = findings_of(alloc, &basis)?;
    let harmony = basis.into_catalogue(changes);
    let plan = plan_for(alloc, harmony, choice, limits)?;
    let picks = picks_of(alloc, &plan, &files)?;
    Ok(Planned { plan, picks, notes })
}
