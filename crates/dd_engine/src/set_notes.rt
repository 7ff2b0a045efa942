ghost use Rattle.std.specs.Prelude.{◌≡◌, ◌≢◌, ◌≤◌, ◌++◌, List, [], ℕ, length, nat_lt, map, filter};
ghost use Rattle.std.specs.Prelude.{None, IfOk, OnErr};
ghost use Rattle.std.specs.List.{enumerate_from, zip};
ghost use Rattle.std.specs.List.Sorted.{IsSorted};
ghost use Rattle.dd_engine.specs.Mentions.{first_number, in_places, mention_cmp, mention_view};
ghost use Rattle.dd_engine.specs.Merging.{SetListing, IsGiven};
ghost use Rattle.dd_engine.specs.MergeSteps.{GathersOf, known_in};
ghost use Rattle.dd_engine.specs.SetNotes.{AreSetNotes, AreWithdrawn, count_among, new_to, withdrawn_among};

use crate::gathering::{Gathered, add_numbers};
use crate::mentions::{Mention, first_number, in_order, mentions_of};
use crate::merge::Pick;
use dd_elem::{Memory, Uid};
use dd_version::Version;
use std::alloc::Global;

/// A set with records that its walk does not reach.
#[derive(Clone, Copy, Debug, PartialEq, Eq)]
pub struct Unreached {
    /// The number of the set.
    pub set: usize,
    /// How many of its records are not reached, at least 1.
    pub records: u64,
}

/// An image that a set lists and a set withdraws.
#[derive(Clone, Copy, Debug)]
pub struct WithdrawnImage<T> {
    /// The origin of its file.
    pub file: T,
    /// The number of the first set that withdraws its instance.
    pub by: usize,
    /// Its SOP Instance UID.
    pub instance: Uid,
}

/// Notes on the sets of a merge: how many images they list, which records a walk does not reach, and what is withdrawn.
#[derive(Debug)]
pub struct SetNotes<'a> {
    /// How many images the sets list, those that are withdrawn included.
    pub images: usize,
    /// How many of these have a UID that is given, or that a set withdraws.
    pub all_withdrawn: usize,
    /// The sets with records that a walk does not reach, in their order; a set that is given twice is there twice.
    pub unreached: Vec<Unreached>,
    /// The images whose instance a set withdraws, in the order of the records: set by set, depth first in each.
    /// An image whose UID is among the given ones is not listed.
    pub withdrawn: Vec<WithdrawnImage<Pick<'a>>>,
    /// The given UIDs that no set lists or withdraws, in their order, each once.
    pub unlisted: Vec<Uid>,
}

// By hand, so that dropping it is one call.
impl Drop for SetNotes<'_> {
    fn drop(self) {
        let SetNotes {
            images: _,
            all_withdrawn: _,
            unreached: _unreached,
            withdrawn: _withdrawn,
            unlisted: _unlisted,
        } = self;
    }
}

pub(crate) fn set_notes<'a>(
    alloc: Global,
    gathered: &Gathered<'a>,
    given: &[Uid],
) -> Result<SetNotes<'a>, Memory>
    requires { (listings : List SetListing) × GathersOf given.now listings gathered.now }
    ensures all { (listings : List SetListing) → GathersOf given.now listings gathered.now
        → IfOk result (AreSetNotes given.now listings) }
    ensures some { (listings : List SetListing) → GathersOf given.now listings gathered.now
        → OnErr result (IsGiven given.now listings) }
{
    let unreached = unreached_sets(alloc, &gathered.unreached)?;
    let withdrawn = withdrawn_images(alloc, gathered)?;
    let unlisted = unlisted_uids(alloc, gathered, given)?;
    Ok(SetNotes {
        images: gathered.versions.len(),
        all_withdrawn: count_of(alloc, &gathered.versions, &gathered.withdrawn)?,
        unreached,
        withdrawn,
        unlisted,
    })
}

/// Counts the versions whose UID is among these.
fn count_of(alloc: Global, versions: &[Version], uids: &[Uid]) -> Result<usize, Memory>
    ensures all { IfOk result (λ count. count ≡ count_among uids.now versions.now) }
    ensures some { OnErr result (uids.now ≢ []) }
{
    if uids.is_empty() {
        return Ok(0);
    }
    let mut numbers = Vec::new(alloc);
    add_numbers(&mut numbers, Some(0), uids)?;
    let mentions = in_order(mentions_of(alloc, uids, &numbers)?)?;
    let mut count = 0;
    for version in versions {
        if first_number(&mentions, &version.parts().instance).is_some() {
            count += 1;
        }
    }
    Ok(count)
}

fn unreached_sets(alloc: Global, counts: &[u64]) -> Result<Vec<Unreached>, Memory>
    ensures all { IfOk result (λ sets. map (λ note. (note.set, note.records)) sets.items
        ≡ filter (λ set. nat_lt 0 set.1) (enumerate_from 0 counts.now)) }
    ensures some { OnErr result (counts.now ≢ []) }
{
    let mut sets = Vec::new(alloc);
    for (set, records) in counts.iter().enumerate() {
        if *records > 0 {
            sets.push(Unreached {
                set,
                records: *records,
            })?;
        }
    }
    Ok(sets)
}

fn withdrawn_images<'a>(
    alloc: Global,
    gathered: &Gathered<'a>,
) -> Result<Vec<WithdrawnImage<Pick<'a>>>, Memory>
    ensures all { (given : List (List ℕ)) (listings : List SetListing)
        → GathersOf given listings gathered.now
        → IfOk result (λ images. AreWithdrawn given listings images.items) }
    ensures some { OnErr result (gathered.now.withdrawn.items ≢ []) }
{
    if gathered.withdrawn.is_empty() {
        return Ok(Vec::new(alloc));
    }
    let mentions = in_order(mentions_of(alloc, &gathered.withdrawn, &gathered.by)?)?;
    numbered_images(alloc, &mentions, &gathered.versions, &gathered.origins)
}

/// Lists the files of whose instance the first of these mentions has a number, each with that number.
fn numbered_images<T: Copy>(
    alloc: Global,
    mentions: &[Mention<'_>],
    versions: &[Version],
    origins: &[T],
) -> Result<Vec<WithdrawnImage<T>>, Memory>
    requires { IsSorted mention_cmp mentions.now }
    ensures { IfOk result (λ images. map (λ note. (note.file, note.by, note.instance)) images.items
        ≡ withdrawn_among (first_number (map (λ mention. mention_view mention) mentions.now))
        (zip origins.now versions.now)) }
{
    let mut images = Vec::new(alloc);
    for (file, version) in origins.iter().zip(versions) {
        let instance = version.parts().instance;
        if let Some(by) = first_number(mentions, &instance) {
            images.push(WithdrawnImage {
                file: *file,
                by,
                instance,
            })?;
        }
    }
    Ok(images)
}

fn unlisted_uids(alloc: Global, gathered: &Gathered<'_>, given: &[Uid]) -> Result<Vec<Uid>, Memory>
    requires { length given.now ≤ length gathered.now.withdrawn.items }
    ensures all { IfOk result (λ uids.
        uids.items ≡ new_to (known_in gathered.now given.now) given.now) }
    ensures some { OnErr result (given.now ≢ []) }
{
    let mut uids = Vec::new(alloc);
    if given.is_empty() {
        return Ok(uids);
    }
    let mentions = in_order(listed_then_given(alloc, gathered, given)?)?;
    for (at, uid) in given.iter().enumerate() {
        if first_number(&mentions, uid) == Some(at) {
            uids.push(*uid)?;
        }
    }
    Ok(uids)
}

/// Makes a mention without a number of each UID that an image has or a set withdraws; then one of each given UID, with
/// its index.
fn listed_then_given<'a>(
    alloc: Global,
    gathered: &'a Gathered<'_>,
    given: &'a [Uid],
) -> Result<Vec<Mention<'a>>, Memory>
    requires { length given.now ≤ length gathered.now.withdrawn.items }
    ensures { IfOk result (λ mentions. map (λ mention. mention_view mention) mentions.items
        ≡ map (λ uid. (None, uid)) (known_in gathered.now given.now) ++ in_places given.now) }
{
    let mut mentions = Vec::new(alloc);
    for version in &gathered.versions {
        mentions.push(Mention {
            uid: &version.parts().instance,
            number: None,
        })?;
    }
    for uid in &gathered.withdrawn[given.len()..] {
        mentions.push(Mention { uid, number: None })?;
    }
    for (at, uid) in given.iter().enumerate() {
        mentions.push(Mention {
            uid,
            number: Some(at),
        })?;
    }
    Ok(mentions)
}
