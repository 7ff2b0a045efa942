ghost use Rattle.std.specs.Prelude.{◌≡◌, ◌≢◌, ◌⊎◌, ◌++◌, ◌∷◌, List, [], ℕ, map, None, Some, IfOk, OnErr};
ghost use Rattle.std.specs.Prelude.{OnOk};
ghost use Rattle.dd_catalogue.specs.Contents.{uids_of};
ghost use Rattle.dd_walk.specs.ReadAnswers.{SaysMemory};
ghost use Rattle.dd_dir.specs.Own.{Listed};
ghost use Rattle.dd_dir.specs.OwnVersions.{Tells};
ghost use Rattle.dd_walk.specs.Reading.{Refuses};
ghost use Rattle.dd_engine.specs.Merging.{pick_view};
ghost use Rattle.dd_engine.specs.MergeSteps.{AnswersSet, FailsAt, Gathers, GathersAll, Withdrawal};
ghost use Rattle.dd_engine.specs.MergeSteps.{own_fault};

use crate::basis::Basis;
use crate::merge::Pick;
use crate::merge_fault::MergeFault;
use dd_catalogue::Withdrawals;
use dd_dir::{Own, OwnFault, own_of};
use dd_elem::{Memory, Uid};
use dd_version::Version;
use dd_walk::{DirFault, read_directory};
use std::alloc::Global;
use std::mem;

/// What sets list, in their order.
pub(crate) struct Gathered<'a> {
    pub(crate) versions: Vec<Version>,
    /// The origin of each version.
    pub(crate) origins: Vec<Pick<'a>>,
    /// The SOP Instance UIDs that are withdrawn: the given ones, then each set's.
    pub(crate) withdrawn: Vec<Uid>,
    /// The number of the set that withdraws each of these. None for a given one.
    pub(crate) by: Vec<Option<usize>>,
    /// How many records of each set are not reached.
    pub(crate) unreached: Vec<u64>,
}

// By hand, so that dropping it is one call.
impl Drop for Gathered<'_> {
    fn drop(self) {
        let Gathered {
            versions: _versions,
            origins: _origins,
            withdrawn: _withdrawn,
            by: _by,
            unreached: _unreached,
        } = self;
    }
}

impl<'a> Gathered<'a> {
    fn new(alloc: Global, given: &[Uid]) -> Result<Gathered<'a>, Memory>
        ensures all { IfOk result (Gathers [] (map (λ uid. (None, uid)) given.now) []) }
        ensures some { OnErr result (given.now ≢ []) }
    {
        let mut withdrawn = Vec::with_capacity(alloc, given.len())?;
        withdrawn.extend_from_slice(given)?;
        let mut by = Vec::with_capacity(alloc, given.len())?;
        add_numbers(&mut by, None, given)?;
        Ok(Gathered {
            versions: Vec::new(alloc),
            origins: Vec::new(alloc),
            withdrawn,
            by,
            unreached: Vec::new(alloc),
        })
    }

    /// Drops what a plan is not made from.
    pub(crate) fn into_basis(self) -> Basis<Pick<'a>>
        ensures { result ≡ record {
          versions = self.entry.versions;
          origins = self.entry.origins;
          withdrawn = uids_of self.entry.withdrawn.items;
        } }
    {
        let Gathered {
            versions,
            origins,
            withdrawn,
            by: _by,
            unreached: _unreached,
        } = self;
        Basis {
            versions,
            origins,
            withdrawn: Withdrawals::from_list(withdrawn),
        }
    }

    fn keep(&mut self, at: usize, mut own: Own<'a>, unreached: u64) -> Result<(), Memory>
        ensures versions { OnOk result
            (self.new.versions.items ≡ self.old.versions.items ++ own.entry.versions.items) }
        ensures origins { OnOk result (map (λ pick. pick_view pick) self.new.origins.items
            ≡ map (λ pick. pick_view pick) self.old.origins.items
            ++ map (λ file. (at, file.now)) own.entry.files.items) }
        ensures withdrawn { OnOk result (self.new.withdrawn.items
            ≡ self.old.withdrawn.items ++ own.entry.withdrawn.items) }
        ensures by { OnOk result (self.new.by.items
            ≡ self.old.by.items ++ map (λ _. Some at) own.entry.withdrawn.items) }
        ensures unreached { OnOk result (self.new.unreached.items
            ≡ self.old.unreached.items ++ unreached ∷ []) }
    {
        self.unreached.push(unreached)?;
        append(&mut self.versions, &mut own.versions)?;
        add_numbers(&mut self.by, Some(at), &own.withdrawn)?;
        append(&mut self.withdrawn, &mut own.withdrawn)?;
        add_origins(&mut self.origins, at, &own.files)
    }
}

/// Gathers what all these sets list, and withdraws these UIDs as well. Refused by the first set that is not a directory
/// as dd_dir writes one.
pub(crate) fn gather_sets<'a>(
    alloc: Global,
    sets: &[&'a [u8]],
    given: &[Uid],
) -> Result<Gathered<'a>, MergeFault>
    ensures { GathersAll given.now (map (λ set. set.now) sets.now) result }
{
    let mut gathered = Gathered::new(alloc, given)?;
    for at in 0..sets.len() {
        add_set(alloc, at, sets[at], &mut gathered)?;
    }
    Ok(gathered)
}

fn add_set<'a>(
    alloc: Global,
    at: usize,
    set: &'a [u8],
    gathered: &mut Gathered<'a>,
) -> Result<(), MergeFault>
    ensures { (before : List (ℕ × Listed)) (uids : List Withdrawal) (counts : List ℕ)
        → Gathers before uids counts gathered.old
        → AnswersSet (λ listing done. Gathers (before ++ map (λ image. (at, image)) listing.images)
        (uids ++ map (λ uid. (Some at, uid)) listing.withdrawn)
        (counts ++ listing.unreached ∷ []) gathered.new) at set.now result }
{
    let (own, unreached) = own_set(alloc, at, set)?;
    gathered.keep(at, own, unreached)?;
    Ok(())
}

fn own_set<'a>(alloc: Global, at: usize, set: &'a [u8]) -> Result<(Own<'a>, u64), MergeFault>
    ensures { AnswersSet (λ listing own. Tells listing.withdrawn listing.images own.0
        × (own.1 ≡ listing.unreached)) at set.now result }
{
    let forest = match read_directory(alloc, set) {
        Ok(forest) => forest,
        Err(fault) => return Err(dir_fault(at, fault)),
    };
    match own_of(alloc, &forest) {
        Ok(own) => Ok((own, forest.unreached)),
        Err(fault) => Err(own_fault(at, fault)),
    }
}

fn dir_fault(at: usize, fault: DirFault) -> MergeFault
    ensures { (set : List ℕ) → SaysMemory fault ⊎ Refuses set fault → FailsAt at set result }
{
    if fault.is_want_of_memory() {
        MergeFault::Memory
    } else {
        MergeFault::Dir(at, fault)
    }
}

fn own_fault(at: usize, fault: OwnFault) -> MergeFault
    ensures { result ≡ own_fault at fault }
{
    match fault {
        OwnFault::Memory => MergeFault::Memory,
        fault => MergeFault::Own(at, fault),
    }
}

/// Appends these values. If they are more than the list has, its own are moved to them, so that the longer list is not
/// in memory twice.
fn append<T: Drop>(list: &mut Vec<T>, more: &mut Vec<T>) -> Result<(), Memory>
    ensures { OnOk result (list.new.items ≡ list.old.items ++ more.old.items) }
{
    if more.len() <= list.len() {
        list.append(more)?;
        return Ok(());
    }
    mem::swap(list, more);
    let moved = more.len();
    list.append(more)?;
    list.rotate_right(moved);
    Ok(())
}

fn add_origins<'a>(to: &mut Vec<Pick<'a>>, at: usize, files: &[&'a [u8]]) -> Result<(), Memory>
    ensures { OnOk result (map (λ pick. pick_view pick) to.new.items
        ≡ map (λ pick. pick_view pick) to.old.items
        ++ map (λ file. (at, file.now)) files.now) }
{
    to.reserve(files.len())?;
    for file in files {
        to.push(Pick { set: at, file })?;
    }
    Ok(())
}

pub(crate) fn add_numbers(
    to: &mut Vec<Option<usize>>,
    number: Option<usize>,
    uids: &[Uid],
) -> Result<(), Memory>
    ensures all { OnOk result (to.new.items ≡ to.old.items ++ map (λ _. number) uids.now) }
    ensures some { OnErr result (uids.now ≢ []) }
{
    to.reserve(uids.len())?;
    for _uid in uids {
        to.push(number)?;
    }
    Ok(())
}
