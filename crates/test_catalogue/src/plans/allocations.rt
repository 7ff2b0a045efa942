use crate::plans::plans::label_of;
use crate::plans::records::{PLANS, lines};
use dd_elem::FileId;
use dd_layout::{Limits, Plan, PlanFault, lay_out};
use dd_vectors::{refuse_allocation, refuse_each, require, taken, was_refused};
use std::alloc::Global;
use std::test::Fail;

/// The widest limits.
pub(crate) fn widest() -> Result<Limits, Fail> {
    Ok(Limits::new(u32::MAX, FileId::MAX_RANK).ok_or("no limits")?)
}

/// Lays out the images with these letters. Their plan has to be in the table.
fn lay_out_refused(alloc: Global, letters: &str, chosen: u32) -> Result<bool, Fail> {
    let (label, limits) = (label_of("")?, widest()?);
    let catalogue = taken(alloc, letters)?;
    refuse_allocation(alloc, chosen)?;
    let answer = lay_out(alloc, &catalogue, &label, limits);
    let refused = was_refused(alloc, matches!(&answer, Err(PlanFault::Memory)))?;
    let plan = match answer {
        Ok(plan) => plan,
        Err(_) => lay_out(alloc, &catalogue, &label, limits)?,
    };
    require_plan(alloc, letters, &plan)?;
    Ok(refused)
}

/// Fails where the plan is not in the table.
pub(crate) fn require_plan(alloc: Global, letters: &str, plan: &Plan) -> Result<(), Fail> {
    let lines = lines(alloc, letters, plan)?;
    require(is_planned(lines.as_str()), "the plan has these records")
}

/// Are these lines of the table?
fn is_planned(lines: &str) -> bool {
    for case in PLANS.split("\n\n") {
        if case == lines {
            return true;
        }
    }
    false
}

#[test]
fn allocations_of_lay_out(rt: HostRuntime) -> Result<(), Fail> {
    for letters in ["1", "1234"] {
        refuse_each(
            rt.alloc(),
            |alloc, chosen| lay_out_refused(alloc, letters, chosen),
        )?;
    }
    Ok(())
}
