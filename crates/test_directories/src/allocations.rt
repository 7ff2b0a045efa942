use crate::own::{files, images, instances};
use crate::publishing::{history, label_of, limits_of, published};
use crate::sending::{first_catalogue, first_plan};
use dd_catalogue::Catalogue;
use dd_dir::{
    Own, OwnFault, Place, assemble, catalogue_of, derived_uid, own_of, places_of, publish,
    write_directory,
};
use dd_elem::SetId;
use dd_layout::PlanFault;
use dd_set::WriteFault;
use dd_vectors::{Sink, first_directory, refuse_allocation, refuse_each, require, was_refused};
use dd_walk::{Forest, read_directory};
use std::alloc::Global;
use std::test::Fail;

fn publish_refused(alloc: Global, chosen: u32) -> Result<bool, Fail> {
    let (label, limits) = (label_of("")?, limits_of("")?);
    let catalogue = first_catalogue(alloc)?;
    refuse_allocation(alloc, chosen)?;
    let answer = publish(alloc, &catalogue, &label, limits);
    let refused = was_refused(alloc, matches!(answer, Err(PlanFault::Memory)))?;
    let bytes = match answer {
        Ok(bytes) => bytes,
        Err(_) => publish(alloc, &catalogue, &label, limits)?,
    };
    require(bytes == first_directory(alloc)?, "the directory is V1's")?;
    Ok(refused)
}

#[test]
fn allocations_of_publish(rt: HostRuntime) -> Result<(), Fail> {
    refuse_each(rt.alloc(), publish_refused)
}

fn assemble_refused(alloc: Global, chosen: u32) -> Result<bool, Fail> {
    let (label, limits) = (label_of("")?, limits_of("")?);
    let history = history(alloc, "43+212")?;
    refuse_allocation(alloc, chosen)?;
    let answer = assemble(alloc, &history, &label, limits);
    let refused = was_refused(alloc, matches!(answer, Err(PlanFault::Memory)))?;
    let bytes = match answer {
        Ok(bytes) => bytes,
        Err(_) => assemble(alloc, &history, &label, limits)?,
    };
    require(
        bytes == published(alloc, "1234")?,
        "the directory lists the four images",
    )?;
    Ok(refused)
}

#[test]
fn allocations_of_assemble(rt: HostRuntime) -> Result<(), Fail> {
    refuse_each(rt.alloc(), assemble_refused)
}

const UID: &[u8] = b"2.25.203980963844863891982135713436996079817";

fn derived_uid_refused(alloc: Global, chosen: u32) -> Result<bool, Fail> {
    let (id, limits) = (SetId::new(b"")?, limits_of("")?);
    let catalogue = first_catalogue(alloc)?;
    refuse_allocation(alloc, chosen)?;
    let answer = derived_uid(alloc, &catalogue, &id, limits);
    let refused = was_refused(alloc, matches!(answer, Err(PlanFault::Memory)))?;
    let uid = match answer {
        Ok(uid) => uid,
        Err(_) => derived_uid(alloc, &catalogue, &id, limits)?,
    };
    require(uid.as_bytes() == UID, "the UID belongs to V1")?;
    Ok(refused)
}

#[test]
fn allocations_of_derived_uid(rt: HostRuntime) -> Result<(), Fail> {
    refuse_each(rt.alloc(), derived_uid_refused)
}

/// A refused allocation is a write that fails: the writer holds a front of the directory then, and what is written
/// again comes after it.
fn write_directory_refused(alloc: Global, chosen: u32) -> Result<bool, Fail> {
    let (plan, bytes) = (first_plan(alloc)?, first_directory(alloc)?);
    let mut sink = Sink::new(alloc, None);
    refuse_allocation(alloc, chosen)?;
    let answer = write_directory(&plan, &mut sink);
    let wants_memory = matches!(answer, Err(WriteFault::Write(_)));
    let refused = was_refused(alloc, wants_memory)?;
    if refused {
        require(bytes.starts_with(sink.bytes()), "the writer holds a front")?;
        require(
            write_directory(&plan, &mut sink) == Ok(876),
            "the directory is written",
        )?;
    }
    require(sink.bytes().ends_with(&bytes), "the writer holds it")?;
    Ok(refused)
}

#[test]
fn allocations_of_write_directory(rt: HostRuntime) -> Result<(), Fail> {
    refuse_each(rt.alloc(), write_directory_refused)
}

/// Four images, and an instance that is withdrawn.
const FOUR: &str = "1234/1.2.3.4.7";

/// How many images their directory has, and the instance and the File ID of each.
const FILES: &str = "4 \
1.2.3.4.5 PT000001\\ST000001\\SE000001\\IM000001 1.2.3.4.6 PT000001\\ST000001\\SE000001\\IM000002 \
1.2.3.5.1 PT000001\\ST000001\\SE000002\\IM000001 1.2.9.1.1 PT000002\\ST000001\\SE000001\\IM000001";

fn require_files(alloc: Global, places: &[Place<'_>]) -> Result<(), Fail> {
    require(
        files(alloc, places)?.as_str() == FILES,
        "the places name the files of the four images",
    )
}

fn require_forest(alloc: Global, forest: &Forest<'_>) -> Result<(), Fail> {
    require(forest.unreached == 0, "all records are reached")?;
    require_files(alloc, &places_of(alloc, forest)?)
}

fn read_directory_refused(alloc: Global, chosen: u32) -> Result<bool, Fail> {
    let bytes = published(alloc, FOUR)?;
    refuse_allocation(alloc, chosen)?;
    let answer = read_directory(alloc, &bytes);
    let wants_memory = matches!(&answer, Err(fault) if fault.is_want_of_memory());
    let refused = was_refused(alloc, wants_memory)?;
    match &answer {
        Ok(forest) => require_forest(alloc, forest)?,
        Err(_) => require_forest(alloc, &read_directory(alloc, &bytes)?)?,
    }
    Ok(refused)
}

#[test]
fn allocations_of_read_directory(rt: HostRuntime) -> Result<(), Fail> {
    refuse_each(rt.alloc(), read_directory_refused)
}

fn places_of_refused(alloc: Global, chosen: u32) -> Result<bool, Fail> {
    let bytes = published(alloc, FOUR)?;
    let forest = read_directory(alloc, &bytes)?;
    refuse_allocation(alloc, chosen)?;
    let answer = places_of(alloc, &forest);
    let refused = was_refused(alloc, matches!(&answer, Err(OwnFault::Memory)))?;
    match &answer {
        Ok(places) => require_files(alloc, places)?,
        Err(_) => require_files(alloc, &places_of(alloc, &forest)?)?,
    }
    Ok(refused)
}

#[test]
fn allocations_of_places_of(rt: HostRuntime) -> Result<(), Fail> {
    refuse_each(rt.alloc(), places_of_refused)
}

/// How many images it has, the first byte of the digest, the description, the instance and the File ID of each,
/// and the withdrawn instance.
const IMAGES: &str = "4, \
170 ' 1.2.3.4.5 PT000001\\ST000001\\SE000001\\IM000001, 170 ' 1.2.3.4.6 PT000001\\ST000001\\SE000001\\IM000002, \
170 ' 1.2.3.5.1 PT000001\\ST000001\\SE000002\\IM000001, 170 ' 1.2.9.1.1 PT000002\\ST000001\\SE000001\\IM000001, \
-1.2.3.4.7";

fn require_images(alloc: Global, own: &Own<'_>) -> Result<(), Fail> {
    require(
        images(alloc, own)?.as_str() == IMAGES,
        "the images are the four",
    )
}

fn own_of_refused(alloc: Global, chosen: u32) -> Result<bool, Fail> {
    let bytes = published(alloc, FOUR)?;
    let forest = read_directory(alloc, &bytes)?;
    refuse_allocation(alloc, chosen)?;
    let answer = own_of(alloc, &forest);
    let refused = was_refused(alloc, matches!(&answer, Err(OwnFault::Memory)))?;
    match &answer {
        Ok(own) => require_images(alloc, own)?,
        Err(_) => require_images(alloc, &own_of(alloc, &forest)?)?,
    }
    Ok(refused)
}

#[test]
fn allocations_of_own_of(rt: HostRuntime) -> Result<(), Fail> {
    refuse_each(rt.alloc(), own_of_refused)
}

fn require_instances(alloc: Global, catalogue: &Catalogue) -> Result<(), Fail> {
    require(
        instances(alloc, catalogue)?.as_str()
            == "4 1.2.3.4.5 1.2.3.4.6 1.2.3.5.1 1.2.9.1.1 -1.2.3.4.7",
        "the catalogue holds the four images and the withdrawn instance",
    )
}

fn catalogue_of_refused(alloc: Global, chosen: u32) -> Result<bool, Fail> {
    let bytes = published(alloc, FOUR)?;
    let forest = read_directory(alloc, &bytes)?;
    refuse_allocation(alloc, chosen)?;
    let answer = catalogue_of(alloc, &forest);
    let refused = was_refused(alloc, matches!(&answer, Err(OwnFault::Memory)))?;
    let catalogue = match answer {
        Ok(catalogue) => catalogue,
        Err(_) => catalogue_of(alloc, &forest)?,
    };
    require_instances(alloc, &catalogue)?;
    Ok(refused)
}

#[test]
fn allocations_of_catalogue_of(rt: HostRuntime) -> Result<(), Fail> {
    refuse_each(rt.alloc(), catalogue_of_refused)
}
