//! Each allocation of a run over files in memory refused in turn.

use crate::runs::disc::{FIRST_IMAGE, disc};
use dd_mem_files::MemFiles;
use dd_vectors::{
    Sink, ends_refused, first_directory, refuse_allocation, refuse_each, require, v1, words_of,
};
use dicomdir::run;
use std::alloc::Global;
use std::test::Fail;

/// Is what a file holds these bytes, a front of them or nothing?
fn is_front(file: Option<&[u8]>, whole: &[u8]) -> bool {
    match file {
        Some(bytes) => whole.starts_with(bytes),
        None => true,
    }
}

/// Did the run end with 0 and both files, or with 1 and fronts of them?
fn is_right_end(alloc: Global, status: u8, files: &MemFiles) -> Result<bool, Fail> {
    let (image, directory) = (v1(alloc)?, first_directory(alloc)?);
    let (copied, written) = (files.bytes(FIRST_IMAGE), files.bytes("out/DICOMDIR"));
    let is_done = copied == Some(image.as_slice()) && written == Some(directory.as_slice());
    Ok(match status {
        0 => is_done,
        1 => is_front(copied, &image) && is_front(written, &directory),
        _ => false,
    })
}

/// Runs an index of an image and of a file that is no image.
fn index_refused(alloc: Global, chosen: u32) -> Result<bool, Fail> {
    let mut files = disc(alloc)?;
    let words = words_of(alloc, "dicomdir index out a.dcm b.dcm --uid 2.25.0")?;
    let (mut out, mut err) = (Sink::new(alloc, None), Sink::new(alloc, None));
    refuse_allocation(alloc, chosen)?;
    let status = run(alloc, words, &mut files, &mut out, &mut err);
    let refused = ends_refused(alloc)?;
    require(
        is_right_end(alloc, status, &files)?,
        "the run is done, or leaves fronts",
    )?;
    require(
        refused || status == 0,
        "the run is done where no allocation is refused",
    )?;
    Ok(refused)
}

#[test]
fn allocations_of_a_run(rt: HostRuntime) -> Result<(), Fail> {
    refuse_each(rt.alloc(), index_refused)
}

/// Runs a line with a mistake and a control character: the status is for a line at fault, or for lack of memory.
fn mistake_refused(alloc: Global, chosen: u32) -> Result<bool, Fail> {
    let mut files = disc(alloc)?;
    let words = words_of(alloc, "dicomdir list a b\u{1b}")?;
    let (mut out, mut err) = (Sink::new(alloc, None), Sink::new(alloc, None));
    refuse_allocation(alloc, chosen)?;
    let status = run(alloc, words, &mut files, &mut out, &mut err);
    let refused = ends_refused(alloc)?;
    require(
        status == 2 || (refused && status == 1),
        "the line is at fault, or memory is wanted",
    )?;
    require(
        out.bytes().is_empty() && !err.bytes().contains(&0x1b),
        "no control character is told",
    )?;
    Ok(refused)
}

#[test]
fn allocations_of_a_mistake(rt: HostRuntime) -> Result<(), Fail> {
    refuse_each(rt.alloc(), mistake_refused)
}
