use crate::calls::told;
use dd_vectors::{claim_all, cut};
use std::alloc::Global;
use std::test::Fail;

// In each line the calls of a run, all of which work: with no image, with a folder that is there, with folders above it
// that are made. Then with images in folders, before or after which others are stored.
const RUNS: &str = "\
folder o, store, create o/DICOMDIR, write xyz, finish, store
dir o, folder o, store, create o/DICOMDIR, write xyz, finish, store
store, create DICOMDIR, write xyz, finish, store
folder a/b/o, store, create a/b/o/DICOMDIR, write xyz, finish, store
dir o, folder o/p/s, create o/p/s/i, write abc, finish, batch, folder o, store, create o/DICOMDIR, write xyz, \
finish, store
folder o/p/s, create o/p/s/i, write abc, finish, batch, create o/p/s/j, write abc, finish, batch, \
folder o/p/t, create o/p/t/i, write abc, finish, batch, folder o, store, create o/DICOMDIR, write xyz, finish, store
file d/A, folder o/p/s, second d: d/A at o/p/s/A, batch, folder o, store, create o/DICOMDIR, write xyz, finish, store
folder p, create p/A, write abc, finish, store, folder o/s, stored 3: p: p/A at o/s/A, batch, folder o, store, \
create o/DICOMDIR, write xyz, finish, store
folder o/p/s, create o/p/s/i, write abc, finish, folder o, create o/DICOMDIR, write xyz, finish, store
limit 1, folder o/p/s, create o/p/s/i, write abc, finish, batch, folder o/q/s, create o/q/s/i, write abc, finish, \
batch, folder o, store, create o/DICOMDIR, write xyz, finish, store";

fn is_safe(alloc: Global, calls: &str) -> Result<bool, Fail> {
    let (said, disc) = told(alloc, calls)?;
    Ok(!said.as_str().contains('-') && disc.broken() == 0 && disc.lasts())
}

// Runs with many images: new files, or hard links to one file; how many images, and how many files can be open.
const BATCHES: &str = "\
files 120 101
files 99 100
files 40 7
files 5 1
names 120 101
names 40 7
names 5 1";

// What is made before a run, and how each image is made: as a file, or as a hard link.
const FILES: [&str; 3] = ["", "create", ", write abc, finish"];

const NAMES: [&str; 3] = ["file d/A, ", "second d: d/A at", ""];

// Gives the calls of a run with `images` images, while `open` files can be open.
fn calls_of(alloc: Global, kind: [&str; 3], images: u32, open: u32) -> Result<String, Fail> {
    let [before, make, end] = kind;
    let mut calls = format!(in alloc; "{before}limit {open}, folder o/s")?;
    for image in 0..images {
        let more = format!(in alloc; ", {make} o/s/{image}{end}, batch")?;
        calls.push_str(more.as_str())?;
    }
    calls.push_str(", folder o, store, create o/DICOMDIR, write xyz, finish, store")?;
    Ok(calls)
}

fn is_batched(alloc: Global, case: &str) -> Result<bool, Fail> {
    let (kind, numbers) = cut(case, " ")?;
    let (images, open) = cut(numbers, " ")?;
    let kind = if kind == "files" { FILES } else { NAMES };
    let calls = calls_of(alloc, kind, images.parse()?, open.parse()?)?;
    is_safe(alloc, calls.as_str())
}

fn is_lost(alloc: Global, calls: &str) -> Result<bool, Fail> {
    let (_said, disc) = told(alloc, calls)?;
    Ok(disc.broken() > 0 && !disc.lasts())
}

/// A loss is seen where one is, and none where many images are stored in batches.
#[test]
fn a_power_cut_leaves_no_directory_without_its_images(rt: HostRuntime) -> Result<(), Fail> {
    claim_all(rt.alloc(), RUNS, '\n', is_safe)?;
    claim_all(rt.alloc(), BATCHES, '\n', is_batched)?;
    let calls = "create i, write abc, finish, batch, spill DICOMDIR";
    claim_all(rt.alloc(), calls, '\n', is_lost)
}

// In each line a path, and the folder of its last name.
const FOLDERS: &str = "\
a > .
a/ > .
a/b > a
a/b/ > a
a//b > a
a//b// > a
/a > /
//a > /
/a/b > /a
./a > .
../a > ..
a/../b > a/..";

// Says whether a new file at the path has its name stored in that folder, and in no other.
fn is_named_there(alloc: Global, case: &str) -> Result<bool, Fail> {
    let (path, folder) = cut(case, " > ")?;
    let calls = format!(in alloc; "dir {folder}, create {path}, finish, batch, store")?;
    let (_said, disc) = told(alloc, calls.as_str())?;
    let wanted = format!(in alloc; "make {path}, store {path}, store {folder}")?;
    Ok(disc.log() == wanted.as_str())
}

#[test]
fn a_path_stands_in_a_folder(rt: HostRuntime) -> Result<(), Fail> {
    claim_all(rt.alloc(), FOLDERS, '\n', is_named_there)
}
