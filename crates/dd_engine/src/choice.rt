ghost use Rattle.std.specs.Prelude.{◌≡◌, ◌≢◌, ◌⊎◌, List, None, Some, IfErr, IfOk, IsOk};
ghost use Rattle.dd_catalogue.specs.Conflicts.{first_conflict};
ghost use Rattle.dd_catalogue.specs.Contents.{nothing};
ghost use Rattle.dd_catalogue.specs.Harmony.{harmonised};
ghost use Rattle.dd_layout.specs.Layouts.{layout_of};
ghost use Rattle.dd_version.specs.declared.parts.Parts.{Parts};
ghost use Rattle.dd_engine.specs.Choosing.{label_for, refusal_for};

use dd_catalogue::Catalogue;
use dd_dir::lay_out_derived_harmony;
use dd_elem::{SetId, Uid};
use dd_layout::{Limits, Plan, PlanFault, lay_out_harmony};
use dd_records::Label;
use std::alloc::Global;

/// The label that is asked for a file-set.
#[derive(Clone, Copy, Debug, PartialEq, Eq)]
pub struct Choice {
    /// May be empty.
    pub id: SetId,
    /// None asks for a UID that is derived from the directory.
    pub uid: Option<Uid>,
}

/// Plans the directory of a catalogue in harmony under the label that is asked for. Refused as `lay_out` refuses, but
/// never with Conflict; where a UID is to be derived, a refusal of that comes first.
pub(crate) fn plan_for(
    alloc: Global,
    harmony: Catalogue,
    choice: &Choice,
    limits: Limits,
) -> Result<Plan, PlanFault>
    ensures planned { (m : List Parts) → harmony.versions ≡ harmonised m → IfOk result (λ plan.
        plan ≡ layout_of (label_for choice.now m harmony.withdrawn) m harmony.withdrawn) }
    ensures allowed { (m : List Parts) → first_conflict m ≡ None → harmony.versions ≡ harmonised m
        → IsOk result → refusal_for choice.now limits m harmony.withdrawn ≡ None }
    ensures refused { (m : List Parts) → first_conflict m ≡ None → harmony.versions ≡ harmonised m
        → IfErr result (λ fault. ((fault ≡ PlanFault.Memory) × (harmony ≢ nothing))
        ⊎ (refusal_for choice.now limits m harmony.withdrawn ≡ Some fault)) }
{
    match choice.uid {
        Some(uid) => {
            let label = Label { id: choice.id, uid };
            lay_out_harmony(alloc, harmony, &label, limits)
        }
        None => lay_out_derived_harmony(alloc, harmony, &choice.id, limits),
    }
}
