//! From a catalogue to the plan of its directory.

ghost use Rattle.std.specs.Prelude.{◌≡◌, ◌≢◌, ◌⊎◌, None, Some, IsOk, IfOk, IfErr, map};
ghost use Rattle.dd_catalogue.specs.Contents.{nothing};
ghost use Rattle.dd_layout.specs.Layouts.{IsLaidOut, layout_of};
ghost use Rattle.dd_layout.specs.Plans.{tree};
ghost use Rattle.dd_layout.specs.Refusal.{excess, refusal};
ghost use Rattle.dd_layout.specs.Stages.{bare_at};

use crate::fault::PlanFault;
use crate::limits::Limits;
use crate::links::link;
use crate::nodes::nodes;
use crate::offsets::set_offsets;
use crate::plan::Plan;
use crate::ranks::{crowded_level, number};
use dd_catalogue::{Catalogue, Harmony};
use dd_elem::Uid;
use dd_records::{Label, PlanRecord, withdrawals_size};
use dd_version::Version;
use std::alloc::Global;

/// Lays out the directory of these versions, in harmony, and of what is withdrawn, under this label. Refused, in this
/// order:
///
/// - Conflict with the first two versions that conflict
/// - TooMany where a record or the root has more children than the limits allow, with the topmost level of such
///   children
/// - TooLarge where the file has more bytes
///
/// Memory where an allocation was refused, and never where there are neither versions nor withdrawn UIDs.
pub fn lay_out(
    alloc: Global,
    catalogue: &Catalogue,
    label: &Label,
    limits: Limits,
) -> Result<Plan, PlanFault>
    ensures planned { IfOk result (λ plan. plan
        ≡ layout_of label.now catalogue.now.versions catalogue.now.withdrawn) }
    ensures allowed { IsOk result
        → refusal label.now limits catalogue.now.versions catalogue.now.withdrawn ≡ None }
    ensures refused { IfErr result (λ fault. ((fault ≡ PlanFault.Memory)
        × (catalogue.now ≢ nothing))
        ⊎ (refusal label.now limits catalogue.now.versions catalogue.now.withdrawn ≡ Some fault)) }
{
    match catalogue.harmonise_or_conflict()? {
        Harmony::Found(harmony) => lay_out_harmony(alloc, harmony, label, limits),
        Harmony::Conflict(one, other) => Err(PlanFault::Conflict(one, other)),
    }
}

/// Lays out the directory of a catalogue whose versions are in harmony, as they are, and takes the catalogue into the
/// plan. Refused as `lay_out` refuses, but never with Conflict.
pub fn lay_out_harmony(
    alloc: Global,
    harmony: Catalogue,
    label: &Label,
    limits: Limits,
) -> Result<Plan, PlanFault>
    ensures planned { IfOk result (λ plan. plan ≡ record {
      label = label.now;
      versions = harmony.versions;
      withdrawn = harmony.withdrawn;
    }) }
    ensures allowed { IsOk result
        → excess label.now limits harmony.versions harmony.withdrawn ≡ None }
    ensures refused { IfErr result (λ fault. ((fault ≡ PlanFault.Memory) × (harmony ≢ nothing))
        ⊎ (excess label.now limits harmony.versions harmony.withdrawn ≡ Some fault)) }
{
    let mut records = nodes(alloc, harmony.versions())?;
    let size = fill(
        &mut records,
        harmony.versions(),
        harmony.withdrawn(),
        label,
        limits,
    )?;
    Ok(Plan::of(*label, harmony, records, size))
}

/// TooMany comes before TooLarge.
fn fill(
    records: &mut [PlanRecord],
    versions: &[Version],
    withdrawn: &[Uid],
    label: &Label,
    limits: Limits,
) -> Result<u32, PlanFault>
    requires { records.old ≡ map (bare_at versions.now) (tree versions.now) }
    ensures full { IfOk result
        (λ bytes. IsLaidOut label.now versions.now withdrawn.now records.new bytes) }
    ensures allowed { IsOk result → excess label.now limits versions.now withdrawn.now ≡ None }
    ensures refused { IfErr result (λ fault. excess label.now limits versions.now withdrawn.now
        ≡ Some fault) }
{
    if let Some(level) = crowded_level(records, limits.per_level) {
        return Err(PlanFault::TooMany(level));
    }
    number(records);
    let withdrawals = withdrawals_size(withdrawn);
    let Some(most) = u128::from(limits.bytes).checked_sub(withdrawals) else {
        return Err(PlanFault::TooLarge);
    };
    let Some(end) = set_offsets(records, versions, label, most as u32) else {
        return Err(PlanFault::TooLarge);
    };
    link(records);
    Ok(end + withdrawals as u32)
}
