//! Plans under another label.

ghost use Rattle.std.specs.Prelude.{◌≡◌, ◌+◌, ◌-◌, ◌<◌, ◌^◌, All, None, Some, IsOk, IfOk, IfErr, map};
ghost use Rattle.dd_layout.specs.Layouts.{StandsWithin};
ghost use Rattle.dd_layout.specs.Refusal.{excess};
ghost use Rattle.dd_layout.specs.Stages.{moved_offset, moved_record};

use crate::fault::PlanFault;
use crate::limits::Limits;
use crate::plan::Plan;
use crate::ranks::crowded_level;
use dd_records::{Label, PlanRecord, first_offset};

impl Plan {
    /// Gives the plan or the fault that `lay_out` gives for the same catalogue under another label, within these
    /// limits. The fault is never Conflict or Memory, since nothing is harmonised again or allocated.
    pub fn under(self, label: &Label, limits: Limits) -> Result<Plan, PlanFault>
        ensures planned { IfOk result (λ plan. plan ≡ record self { label = label.now }) }
        ensures allowed { IsOk result → excess label.now limits self.versions self.withdrawn
            ≡ None }
        ensures refused { IfErr result
            (λ fault. excess label.now limits self.versions self.withdrawn ≡ Some fault) }
    {
        let from = first_offset(self.label()) as u32;
        let to = first_offset(label) as u32;
        let (catalogue, mut records, size) = self.into_parts();
        if let Some(level) = crowded_level(&records, limits.per_level) {
            return Err(PlanFault::TooMany(level));
        }
        let size = u64::from(size - from) + u64::from(to);
        if size > u64::from(limits.bytes) {
            return Err(PlanFault::TooLarge);
        }
        move_records(&mut records, from, to);
        Ok(Plan::of(*label, catalogue, records, size as u32))
    }
}

fn move_records(records: &mut [PlanRecord], from: u32, to: u32)
    requires { All (StandsWithin (2 ^ 32 + from - to)) records.old }
    ensures { records.new ≡ map (moved_record from to) records.old }
{
    for record in records.iter_mut() {
        record.at = moved_offset(record.at, from, to);
        record.next = moved_offset(record.next, from, to);
        record.lower = moved_offset(record.lower, from, to);
    }
}

/// Moves an offset to where `to` bytes stand before the first record, not `from`. What is smaller than `from` names
/// no record, and becomes 0.
fn moved_offset(offset: u32, from: u32, to: u32) -> u32
    requires { offset < 2 ^ 32 + from - to }
    ensures { result ≡ moved_offset from to offset }
{
    match offset.checked_sub(from) {
        Some(distance) => distance + to,
        None => 0,
    }
}
