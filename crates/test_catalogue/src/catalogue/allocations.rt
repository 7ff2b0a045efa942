//! Each allocation of each call refused in turn: the call lacks memory, nothing has changed, and made again it answers.

use crate::catalogue::joining::{batches, catalogues};
use crate::catalogue::studies::studies;
use dd_catalogue::{Catalogue, History, Join, Refused, Took, build, gather};
use dd_elem::{Memory, Uid};
use dd_vectors::{image, images, refuse_allocation, refuse_each, require, taken, was_refused};
use dd_version::Version;
use std::alloc::Global;
use std::test::Fail;

/// The calls that join a catalogue with another.
#[derive(Clone, Copy)]
enum Way {
    Join,
    Merge,
    MergeCounted,
}

/// Fails where the catalogue is not the one that took these images.
fn require_held(alloc: Global, catalogue: &Catalogue, letters: &str) -> Result<(), Fail> {
    require(
        *catalogue == taken(alloc, letters)?,
        "the catalogue holds these images",
    )
}

fn build_refused(alloc: Global, chosen: u32) -> Result<bool, Fail> {
    let history = History::Merge(batches(alloc, "43+212")?);
    refuse_allocation(alloc, chosen)?;
    let answer = build(alloc, &history);
    let refused = was_refused(alloc, answer.is_err())?;
    let catalogue = match answer {
        Ok(catalogue) => catalogue,
        Err(_) => build(alloc, &history)?,
    };
    require_held(alloc, &catalogue, "1234")?;
    Ok(refused)
}

#[test]
fn allocations_of_build(rt: HostRuntime) -> Result<(), Fail> {
    refuse_each(rt.alloc(), build_refused)
}

fn from_versions_refused(alloc: Global, chosen: u32) -> Result<bool, Fail> {
    let versions = images(alloc, "1ab2")?;
    refuse_allocation(alloc, chosen)?;
    let answer = Catalogue::from_versions(alloc, &versions);
    let refused = was_refused(alloc, answer.is_err())?;
    let catalogue = match answer {
        Ok(catalogue) => catalogue,
        Err(_) => Catalogue::from_versions(alloc, &versions)?,
    };
    require_held(alloc, &catalogue, "1ab2")?;
    Ok(refused)
}

#[test]
fn allocations_of_from_versions(rt: HostRuntime) -> Result<(), Fail> {
    refuse_each(rt.alloc(), from_versions_refused)
}

fn copy_refused(alloc: Global, chosen: u32) -> Result<bool, Fail> {
    let catalogue = taken(alloc, "12")?;
    refuse_allocation(alloc, chosen)?;
    let answer = catalogue.copy();
    let refused = was_refused(alloc, answer.is_err())?;
    let copy = match answer {
        Ok(copy) => copy,
        Err(_) => catalogue.copy()?,
    };
    require(copy == catalogue, "the copy is equal")?;
    require_held(alloc, &catalogue, "12")?;
    Ok(refused)
}

#[test]
fn allocations_of_copy(rt: HostRuntime) -> Result<(), Fail> {
    refuse_each(rt.alloc(), copy_refused)
}

/// Asks for the conflict of two images, of which one has its series in another study.
fn conflict_refused(alloc: Global, chosen: u32) -> Result<bool, Fail> {
    let catalogue = taken(alloc, "15")?;
    refuse_allocation(alloc, chosen)?;
    let answer = catalogue.conflict();
    let refused = was_refused(alloc, answer.is_err())?;
    let pair = match answer {
        Ok(pair) => pair,
        Err(_) => catalogue.conflict()?,
    };
    let expected = (Uid::new(b"1.2.3.4.5")?, Uid::new(b"1.2.8.4.1")?);
    require(pair == Some(expected), "these two conflict")?;
    require_held(alloc, &catalogue, "15")?;
    Ok(refused)
}

#[test]
fn allocations_of_conflict(rt: HostRuntime) -> Result<(), Fail> {
    refuse_each(rt.alloc(), conflict_refused)
}

/// The studies of two images in harmony.
const HARMONY: &str = "1.2.3.4.5 101500 'B, 1.2.3.4.6 101500 'B";

fn harmonise_refused(alloc: Global, chosen: u32) -> Result<bool, Fail> {
    let catalogue = taken(alloc, "AC")?;
    refuse_allocation(alloc, chosen)?;
    let answer = catalogue.harmonise();
    let refused = was_refused(alloc, answer.is_err())?;
    let harmonised = match answer {
        Ok(harmonised) => harmonised,
        Err(_) => catalogue.harmonise()?,
    };
    require(
        studies(alloc, &harmonised)?.as_str() == HARMONY,
        "the versions agree",
    )?;
    require_held(alloc, &catalogue, "AC")?;
    Ok(refused)
}

#[test]
fn allocations_of_harmonise(rt: HostRuntime) -> Result<(), Fail> {
    refuse_each(rt.alloc(), harmonise_refused)
}

/// Joins a catalogue with another in this way.
fn join(catalogue: &mut Catalogue, other: &Catalogue, way: Way) -> Result<(), Memory> {
    match way {
        Way::Join => catalogue.join(other),
        Way::Merge => catalogue.merge(other),
        Way::MergeCounted => {
            catalogue.merge_counted(other)?;
            Ok(())
        }
    }
}

fn join_refused(alloc: Global, way: Way, chosen: u32) -> Result<bool, Fail> {
    let mut catalogue = taken(alloc, "43")?;
    let other = taken(alloc, "212")?;
    refuse_allocation(alloc, chosen)?;
    let answer = join(&mut catalogue, &other, way);
    let refused = was_refused(alloc, answer.is_err())?;
    if refused {
        require_held(alloc, &catalogue, "43")?;
        join(&mut catalogue, &other, way)?;
    }
    require_held(alloc, &catalogue, "1234")?;
    require_held(alloc, &other, "12")?;
    Ok(refused)
}

#[test]
fn allocations_of_join(rt: HostRuntime) -> Result<(), Fail> {
    for way in [Way::Join, Way::Merge, Way::MergeCounted] {
        refuse_each(rt.alloc(), |alloc, chosen| join_refused(alloc, way, chosen))?;
    }
    Ok(())
}

/// Does the catalogue hold one of these, which the joins before the refused one make of it?
fn holds_a_front(alloc: Global, catalogue: &Catalogue) -> Result<bool, Fail> {
    for letters in ["1", "134"] {
        if *catalogue == taken(alloc, letters)? {
            return Ok(true);
        }
    }
    Ok(false)
}

/// Joins two more catalogues. Where an allocation is refused the joins before that one stay.
fn gather_refused(alloc: Global, chosen: u32) -> Result<bool, Fail> {
    let mut catalogue = taken(alloc, "1")?;
    let others = catalogues(alloc, "43+212")?;
    refuse_allocation(alloc, chosen)?;
    let answer = gather(&mut catalogue, &others);
    let refused = was_refused(alloc, answer.is_err())?;
    if refused {
        require(
            holds_a_front(alloc, &catalogue)?,
            "the catalogue holds the joins that were made",
        )?;
        gather(&mut catalogue, &others)?;
    }
    require_held(alloc, &catalogue, "1234")?;
    Ok(refused)
}

#[test]
fn allocations_of_gather(rt: HostRuntime) -> Result<(), Fail> {
    refuse_each(rt.alloc(), gather_refused)
}

/// Does the catalogue take the version as a new one?
fn takes_new(catalogue: &mut Catalogue, version: Version) -> bool {
    matches!(catalogue.take(version), Ok(Took::New))
}

/// Takes the version that was handed back, which has to be this image.
fn take_again(alloc: Global, catalogue: &mut Catalogue, back: Version) -> Result<(), Fail> {
    require(back == image(alloc, '7')?, "the version is handed back")?;
    require_held(alloc, catalogue, "1234")?;
    require(takes_new(catalogue, back), "the version is taken")
}

/// Takes a fifth version, for which a catalogue of four has no room.
fn take_refused(alloc: Global, chosen: u32) -> Result<bool, Fail> {
    let mut catalogue = taken(alloc, "1234")?;
    let version = image(alloc, '7')?;
    refuse_allocation(alloc, chosen)?;
    let answer = catalogue.take(version);
    let refused = was_refused(alloc, answer.is_err())?;
    match answer {
        Ok(took) => require(matches!(took, Took::New), "the version is new")?,
        Err(Refused { back }) => take_again(alloc, &mut catalogue, back)?,
    }
    require_held(alloc, &catalogue, "12347")?;
    Ok(refused)
}

#[test]
fn allocations_of_take(rt: HostRuntime) -> Result<(), Fail> {
    refuse_each(rt.alloc(), take_refused)
}

/// The first of the images.
fn first_instance() -> Result<Uid, Fail> {
    Ok(Uid::new(b"1.2.3.4.5")?)
}

/// The catalogue that took these images and withdrew the first.
fn without_first(alloc: Global, letters: &str) -> Result<Catalogue, Fail> {
    let mut catalogue = taken(alloc, letters)?;
    catalogue.withdraw(first_instance()?)?;
    Ok(catalogue)
}

/// Fails where the catalogue is not the one that took these images and withdrew the first.
fn require_without_first(alloc: Global, catalogue: &Catalogue, letters: &str) -> Result<(), Fail> {
    require(
        *catalogue == without_first(alloc, letters)?,
        "the catalogue holds these images, and the first is withdrawn",
    )
}

/// Withdraws an image that is held.
fn withdraw_refused(alloc: Global, chosen: u32) -> Result<bool, Fail> {
    let mut catalogue = taken(alloc, "12")?;
    let instance = first_instance()?;
    refuse_allocation(alloc, chosen)?;
    let answer = catalogue.withdraw(instance);
    let refused = was_refused(alloc, answer.is_err())?;
    if refused {
        require_held(alloc, &catalogue, "12")?;
        catalogue.withdraw(instance)?;
    }
    require_without_first(alloc, &catalogue, "2")?;
    Ok(refused)
}

#[test]
fn allocations_of_withdraw(rt: HostRuntime) -> Result<(), Fail> {
    refuse_each(rt.alloc(), withdraw_refused)
}
