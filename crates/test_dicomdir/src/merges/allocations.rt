use crate::merges::directories::{directories, label, slices, widest};
use crate::merges::picks::in_words;
use crate::merges::withdrawals::uids_of;
use dd_elem::{SetId, Uid};
use dd_vectors::{refuse_allocation, refuse_each, require, was_refused};
use dicomdir::{Choice, MergeFault, Merged, Pick, first_saying, merge_engine, withdraw_engine};
use std::alloc::Global;
use std::test::Fail;

/// The directories that are merged: another withdraws one of the first's images.
const SETS: &str = "12 34 1234/1.2.3.4.6";

/// For each image that is kept the number of its set, and its File ID there.
const PICKED: &str = " \
0 PT000001\\ST000001\\SE000001\\IM000001 \
1 PT000001\\ST000001\\SE000001\\IM000001 1 PT000002\\ST000001\\SE000001\\IM000001";

fn require_picked(alloc: Global, merged: &Merged<'_>, picked: &str) -> Result<(), Fail> {
    require(
        in_words(alloc, merged)?.as_str().ends_with(picked),
        "these files are picked",
    )
}

fn require_merged(alloc: Global, uid: Option<Uid>, sets: &[&[u8]]) -> Result<(), Fail> {
    let id = SetId::new(b"")?;
    let merged = merge_engine(alloc, sets, &Choice { id, uid }, widest()?)?;
    require_picked(alloc, &merged, PICKED)
}

fn merge_refused(alloc: Global, uid: Option<Uid>, chosen: u32) -> Result<bool, Fail> {
    let sets = directories(alloc, SETS)?;
    let sets = slices(alloc, &sets)?;
    let (id, limits) = (SetId::new(b"")?, widest()?);
    refuse_allocation(alloc, chosen)?;
    let answer = merge_engine(alloc, &sets, &Choice { id, uid }, limits);
    let refused = was_refused(alloc, matches!(&answer, Err(MergeFault::Memory)))?;
    match &answer {
        Ok(merged) => require_picked(alloc, merged, PICKED)?,
        Err(_) => require_merged(alloc, uid, &sets)?,
    }
    Ok(refused)
}

#[test]
fn allocations_of_merge_engine(rt: HostRuntime) -> Result<(), Fail> {
    for uid in [Some(label()?.uid), None] {
        refuse_each(
            rt.alloc(),
            |alloc, chosen| merge_refused(alloc, uid, chosen),
        )?;
    }
    Ok(())
}

/// The size of the directory of one image of two, of which the other is withdrawn, and the File ID that the image had.
const LEFT: &str = "928 0 PT000001\\ST000001\\SE000001\\IM000002";

fn require_left(alloc: Global, set: &[u8], uids: &[Uid]) -> Result<(), Fail> {
    let (id, uid) = (SetId::new(b"")?, Some(label()?.uid));
    let merged = withdraw_engine(alloc, set, uids, &Choice { id, uid }, widest()?)?;
    require_picked(alloc, &merged, LEFT)
}

/// Withdraws an image, and an instance that is not there.
fn withdraw_refused(alloc: Global, chosen: u32) -> Result<bool, Fail> {
    let sets = directories(alloc, "12")?;
    let set = sets.first().ok_or("no directory")?;
    let uids = uids_of(alloc, "1.2.3.4.7 1.2.3.4.5")?;
    let (id, uid, limits) = (SetId::new(b"")?, Some(label()?.uid), widest()?);
    refuse_allocation(alloc, chosen)?;
    let answer = withdraw_engine(alloc, set, &uids, &Choice { id, uid }, limits);
    let refused = was_refused(alloc, matches!(&answer, Err(MergeFault::Memory)))?;
    match &answer {
        Ok(merged) => require_picked(alloc, merged, LEFT)?,
        Err(_) => require_left(alloc, set, &uids)?,
    }
    Ok(refused)
}

#[test]
fn allocations_of_withdraw_engine(rt: HostRuntime) -> Result<(), Fail> {
    refuse_each(rt.alloc(), withdraw_refused)
}

fn require_third(found: Option<Pick<'_>>) -> Result<(), Fail> {
    require(
        found.is_some_and(|pick| pick.set == 2),
        "the third set says it first",
    )
}

/// Searches for the version of an image that the third of three sets lists.
fn first_refused(alloc: Global, chosen: u32) -> Result<bool, Fail> {
    let sets = directories(alloc, "empty 34 12")?;
    let sets = slices(alloc, &sets)?;
    let (id, uid) = (SetId::new(b"")?, Some(label()?.uid));
    let merged = merge_engine(alloc, &sets, &Choice { id, uid }, widest()?)?;
    let planned = merged.plan.versions().first().ok_or("no version")?;
    refuse_allocation(alloc, chosen)?;
    let answer = first_saying(alloc, &sets, planned);
    let refused = was_refused(alloc, matches!(&answer, Err(MergeFault::Memory)))?;
    match answer {
        Ok(found) => require_third(found)?,
        Err(_) => require_third(first_saying(alloc, &sets, planned)?)?,
    }
    Ok(refused)
}

#[test]
fn allocations_of_first_saying(rt: HostRuntime) -> Result<(), Fail> {
    refuse_each(rt.alloc(), first_refused)
}
