ghost use Rattle.std.specs.Prelude.{◌<◌, ◌∷◌, All, IfOk, List, []};
ghost use Rattle.dd_catalogue.specs.Contents.{Contents};
ghost use Rattle.dd_engine.specs.Merging.{Merges};
ghost use Rattle.dd_engine.specs.Published.{ArePublished, MapsAgree, MergesMaps, NoneWithdrawn, PlansImages, joined};

use crate::choice::Choice;
use crate::merge::{Merged, merge_sets};
use crate::merge_fault::MergeFault;
use dd_elem::Uid;
use dd_layout::Limits;
use std::alloc::Global;

/// Reads the directory of a set from its bytes, and plans the directory of what it lists with these instances withdrawn
/// as well, under the label that is asked for. The set need not list such an instance, and may withdraw it already.
///
/// Refused as `merge_engine` refuses, the set being number 0. Where the set is the directory of a catalogue, the plan
/// has the images of that catalogue with these instances withdrawn.
pub fn withdraw_engine<'a>(
    alloc: Global,
    set: &'a [u8],
    uids: &[Uid],
    choice: &Choice,
    limits: Limits,
) -> Result<Merged<'a>, MergeFault>
    ensures merges { Merges choice.now limits uids.now (set.now ∷ []) result }
    ensures within { IfOk result (λ merged. All (λ pick. pick.set < 1) merged.picks.items) }
    ensures published { (maps : List Contents) → ArePublished (set.now ∷ []) maps → MapsAgree maps
        → NoneWithdrawn uids.now maps → MergesMaps choice.now limits (joined uids.now maps) result }
    ensures withdrawn { (maps : List Contents) → ArePublished (set.now ∷ []) maps → MapsAgree maps
        → IfOk result (λ merged. PlansImages (joined uids.now maps) merged.plan) }
{
    merge_sets(alloc, &[set], uids, choice, limits)
}
