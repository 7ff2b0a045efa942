ghost use Rattle.std.specs.Prelude.{◌≡◌, ◌<◌, ◌∷◌, All, IfErr, IfOk, List, [], length, map};
ghost use Rattle.dd_engine.specs.Merging.{IsNamedSet, SetListing};
ghost use Rattle.dd_engine.specs.MergeNotes.{FindsBoth, NotesMerge, NotesSets};
ghost use Rattle.dd_engine.specs.MergeSteps.{GathersOf};
ghost use Rattle.dd_engine.specs.Noting.{AreBelow, IsBelow};
ghost use Rattle.dd_engine.specs.SetNotes.{NameSetsBelow};

use crate::choice::Choice;
use crate::gathering::{Gathered, gather_sets};
use crate::merge::{Merged, Pick};
use crate::merge_fault::MergeFault;
use crate::notes::{NotedFault, Notes};
use crate::planning::{Planned, plan_of};
use crate::set_notes::{SetNotes, set_notes};
use dd_elem::Uid;
use dd_layout::Limits;
use std::alloc::Global;

/// The result of a merge of directories, with notes.
#[derive(Debug, Drop)]
pub struct NotedMerge<'a> {
    /// What `merge_engine` or `withdraw_engine` gives.
    pub merged: Merged<'a>,
    /// The notes on files of the sets.
    pub notes: Notes<Pick<'a>>,
    /// The notes on whole sets, and on instances that are withdrawn.
    pub sets: SetNotes<'a>,
}

impl<'a> NotedMerge<'a> {
    pub(crate) fn into_merged(self) -> Merged<'a>
        ensures { result ≡ self.entry.merged }
    {
        let NotedMerge {
            merged,
            notes: _notes,
            sets: _sets,
        } = self;
        merged
    }
}

/// Does what `merge_engine` does, and makes `Notes` on the files of the sets and `SetNotes`. Where two kept versions
/// conflict, the refusal names the first file of each.
pub fn merge_with_notes<'a>(
    alloc: Global,
    sets: &'a [&'a [u8]],
    choice: &Choice,
    limits: Limits,
) -> Result<NotedMerge<'a>, NotedFault<MergeFault, Pick<'a>>>
    ensures merges { NotesSets choice.now limits [] (map (λ set. set.now) sets.now) result }
    ensures within { IfOk result (λ noted.
        All (λ pick. pick.set < length sets.now) noted.merged.picks.items) }
    ensures below { IfOk result (λ noted.
        AreBelow (λ pick. pick.set) (length sets.now) noted.notes.left_out.items) }
    ensures sets { IfOk result (λ noted. NameSetsBelow (length sets.now) noted.sets) }
    ensures named { IfErr result (λ noted. IsNamedSet (length sets.now) noted.fault) }
    ensures conflict { IfErr result (λ noted.
        IsBelow (λ pick. pick.set) (length sets.now) noted.conflict) }
    ensures found { IfErr result (λ noted. FindsBoth noted.fault noted.conflict) }
{
    noted_sets(alloc, sets, &[], choice, limits)
}

/// Does what `withdraw_engine` does, with the notes of `merge_with_notes`, and notes which given UIDs no record lists
/// and the set does not withdraw. An image whose UID is given is not noted as withdrawn. The set has the number 0.
pub fn withdraw_with_notes<'a>(
    alloc: Global,
    set: &'a [u8],
    uids: &[Uid],
    choice: &Choice,
    limits: Limits,
) -> Result<NotedMerge<'a>, NotedFault<MergeFault, Pick<'a>>>
    ensures merges { NotesSets choice.now limits uids.now (set.now ∷ []) result }
    ensures within { IfOk result (λ noted. All (λ pick. pick.set < 1) noted.merged.picks.items) }
    ensures below { IfOk result (λ noted.
        AreBelow (λ pick. pick.set) 1 noted.notes.left_out.items) }
    ensures sets { IfOk result (λ noted. NameSetsBelow 1 noted.sets) }
    ensures named { IfErr result (λ noted. IsNamedSet 1 noted.fault) }
    ensures conflict { IfErr result (λ noted. IsBelow (λ pick. pick.set) 1 noted.conflict) }
    ensures found { IfErr result (λ noted. FindsBoth noted.fault noted.conflict) }
{
    noted_sets(alloc, &[set], uids, choice, limits)
}

pub(crate) fn noted_sets<'a>(
    alloc: Global,
    sets: &[&'a [u8]],
    given: &[Uid],
    choice: &Choice,
    limits: Limits,
) -> Result<NotedMerge<'a>, NotedFault<MergeFault, Pick<'a>>>
    ensures merges { NotesSets choice.now limits given.now (map (λ set. set.now) sets.now) result }
    ensures within { IfOk result (λ noted.
        All (λ pick. pick.set < length sets.now) noted.merged.picks.items) }
    ensures below { IfOk result (λ noted.
        AreBelow (λ pick. pick.set) (length sets.now) noted.notes.left_out.items) }
    ensures sets { IfOk result (λ noted. NameSetsBelow (length sets.now) noted.sets) }
    ensures named { IfErr result (λ noted. IsNamedSet (length sets.now) noted.fault) }
    ensures conflict { IfErr result (λ noted.
        IsBelow (λ pick. pick.set) (length sets.now) noted.conflict) }
    ensures found { IfErr result (λ noted. FindsBoth noted.fault noted.conflict) }
{
    let gathered = gather_sets(alloc, sets, given)?;
    noted_plan(alloc, gathered, given, choice, limits)
}

/// Plans the directory of what was gathered.
fn noted_plan<'a>(
    alloc: Global,
    gathered: Gathered<'a>,
    given: &[Uid],
    choice: &Choice,
    limits: Limits,
) -> Result<NotedMerge<'a>, NotedFault<MergeFault, Pick<'a>>>
    requires { (listings : List SetListing) × GathersOf given.now listings gathered }
    ensures { (listings : List SetListing) → GathersOf given.now listings gathered.entry
        → NotesMerge choice.now limits given.now listings result }
{
    let sets = set_notes(alloc, &gathered, given)?;
    match plan_of(alloc, gathered.into_basis(), choice, limits) {
        Ok(planned) => Ok(noted_merge(planned, sets)),
        Err(noted) => Err(NotedFault {
            fault: MergeFault::from(noted.fault),
            conflict: noted.conflict,
        }),
    }
}

fn noted_merge<'a>(planned: Planned<Pick<'a>>, sets: SetNotes<'a>) -> NotedMerge<'a>
    ensures { result ≡ record {
      merged = record { plan = planned.entry.plan; picks = planned.entry.picks };
      notes = planned.entry.notes;
      sets = sets.entry;
    } }
{
    let Planned { plan, picks, notes } = planned;
    NotedMerge {
        merged: Merged { plan, picks },
        notes,
        sets,
    }
}
