ghost use Rattle.std.specs.Prelude.{◌<◌, All, IfOk, List, [], length, map};
ghost use Rattle.dd_catalogue.specs.Contents.{Contents};
ghost use Rattle.dd_engine.specs.Merging.{Merges};
ghost use Rattle.dd_engine.specs.Published.{ArePublished, MapsAgree, MergesMaps, NoneWithdrawn, PlansImages, joined};

use crate::choice::Choice;
use crate::merge_fault::MergeFault;
use crate::noted_merge::noted_sets;
use dd_elem::Uid;
use dd_layout::{Limits, Plan};
use std::alloc::Global;

/// The result of a merge of directories.
#[derive(Debug)]
pub struct Merged<'a> {
    /// The plan of what is kept of all sets.
    pub plan: Plan,
    /// For each image of the plan, in the order of its records, the first place that has its file.
    pub picks: Vec<Pick<'a>>,
}

/// A file of a set.
#[derive(Clone, Copy, Debug, PartialEq, Eq)]
pub struct Pick<'a> {
    /// The number of the set.
    pub set: usize,
    /// The File ID, without padding.
    pub file: &'a [u8],
}

// By hand, so that dropping it is one call.
impl Drop for Merged<'_> {
    fn drop(self) {
        let Merged {
            plan: _plan,
            picks: _picks,
        } = self;
    }
}

/// Reads the directories of all sets, each from its bytes, and plans one directory under the label that is asked for.
/// It lists the best of the versions whose instance no set withdraws, and names all instances that the sets withdraw.
///
/// Dir names the first set that is no directory, and Own the first that was not written here. Memory can't come where
/// there are no sets.
///
/// If the sets are the directories of catalogues that agree in pairs, the plan has the images of their join, whatever
/// labels they were published under. It is the plan of the join where none of them withdraws an instance of another.
pub fn merge_engine<'a>(
    alloc: Global,
    sets: &'a [&'a [u8]],
    choice: &Choice,
    limits: Limits,
) -> Result<Merged<'a>, MergeFault>
    ensures merges { Merges choice.now limits [] (map (λ set. set.now) sets.now) result }
    ensures within { IfOk result (λ merged.
        All (λ pick. pick.set < length sets.now) merged.picks.items) }
    ensures published { (maps : List Contents) → ArePublished (map (λ set. set.now) sets.now) maps
        → MapsAgree maps
        → NoneWithdrawn [] maps → MergesMaps choice.now limits (joined [] maps) result }
    ensures withdrawn { (maps : List Contents) → ArePublished (map (λ set. set.now) sets.now) maps
        → MapsAgree maps
        → IfOk result (λ merged. PlansImages (joined [] maps) merged.plan) }
{
    merge_sets(alloc, sets, &[], choice, limits)
}

pub(crate) fn merge_sets<'a>(
    alloc: Global,
    sets: &[&'a [u8]],
    given: &[Uid],
    choice: &Choice,
    limits: Limits,
) -> Result<Merged<'a>, MergeFault>
    ensures merges { Merges choice.now limits given.now (map (λ set. set.now) sets.now) result }
    ensures within { IfOk result (λ merged.
        All (λ pick. pick.set < length sets.now) merged.picks.items) }
    ensures published { (maps : List Contents) → ArePublished (map (λ set. set.now) sets.now) maps
        → MapsAgree maps
        → NoneWithdrawn given.now maps
        → MergesMaps choice.now limits (joined given.now maps) result }
    ensures withdrawn { (maps : List Contents) → ArePublished (map (λ set. set.now) sets.now) maps
        → MapsAgree maps
        → IfOk result (λ merged. PlansImages (joined given.now maps) merged.plan) }
{
    match noted_sets(alloc, sets, given, choice, limits) {
        Ok(noted) => Ok(noted.into_merged()),
        Err(noted) => Err(noted.fault),
    }
}
