//! Reads back what was written, and checks each outcome and the order in which all is stored.

use crate::calls::{all_of, told, write_all};
use crate::disc::{Disc, DiscFiles};
use dd_files::Files;
use dd_slots::Lanes;
use dd_vectors::{claim_all, cut};
use dicomdir_host::{HostFiles, LastRefusal};
use std::alloc::Global;
use std::cell::RefCell;
use std::test::Fail;

// In each line calls, then their outcomes (+ done, - refused or failed, ! not read, or the bytes that were read), then
// the bytes at `a` once the files are dropped.
const CASES: &str = "\
create a, write xyz, finish, read a > + + + xyz > xyz
file a, create a, write new, read a > . - - old > old
create a, write x, finish, create a, write y, finish > + + + - - - > x
create a, create a, write x, finish > + - + + > x
write x, finish, create a > - - + >
folder d, folder d, folder e/f/g, folder e/f, read d, create d > + + + + ! - > none
file a, folder a, folder a/b > . - - > old
pipe a, read a, create a > . - - >
read a, file a, fail open, read a, read a > - . . - old > old
fail folder, folder d, folder d > . - + > none
fail create, create a, create a > . - + >
pause folder, folder d, folder d/e > . + + > none
file a, fail read, read a, read a > . . ! old > old
file a, fail look, read a, pause look, read a > . . - . old > old
dir d, pause look, folder d > . . + > none
file a, names a > . old > old
silent a, names a > . old > old
file a, limit 0, read a, cause, limit 9, read a, cause, fail read, read a, cause > \
. . - Too many open files . old  . ! Input/output error > old
file a, bar read, read a, cause, read a, cause, read b, cause > . . ! Permission denied old  -  > old
dir d, file a, is d, is a, is b > . . yes no no > old
dir d, read d, cause, read e, cause > . ! Is a directory -  > none
pipe a, names a > .  >
dir a, names a > . ! >
names -, names b > word - > none
file a, fail open, names a, names a > . . - old > old
create a, write xyz, pause write, finish, pause read, read a > + + . + . xyz > xyz
create a, write xyz, fail store, finish, batch, store, unstored > + + . + + - a > xyz
create a, write xyz, fail store, finish, batch, store, store, create b > + + . + + - - + > xyz
create a, write xyz, fail store, finish, batch, store, create DICOMDIR, unstored > + + . + + - - a > xyz
create DICOMDIR, write xyz, fail store, finish, store, unstored, read DICOMDIR > + + . + - DICOMDIR xyz > none
folder d, fail store, store, unstored, finish > + . - . - > none
folder d/e, fail open, store, unstored > + . - . > none
folder d/e, bar open, store, unstored > + . - . > none
folder d/e, spoil open, store, unstored > + . - . > none
folder d/e, lack open, store, unstored > + . - . > none
folder d/e, bar look, store, unstored > + . - . > none
folder d/e, bar store, store, unstored > + . - . > none
folder d/e, spoil store, store > + . + > none
folder d/e, lack store, store > + . + > none
dir o, folder o, bar open, create o/DICOMDIR, unstored, read o/DICOMDIR > . + . - o - > none
create DICOMDIR, write xyz, lack store, finish, store, unstored > + + . + - DICOMDIR > none
create a, write xyz, fail write, finish, finish > + + . - - >
create a, fail write, fill, write xyz, fill, finish > + . - - - - >";

// In each line calls, then their outcomes, then what the disc made and stored, in order.
const ORDERS: &str = "\
create a, finish, create b, finish > + + + + > make a, make b
create DICOMDIR, finish > + + > make DICOMDIR
create DICOMDIR, finish, store > + + + > make DICOMDIR, store DICOMDIR, store .
create DICOMDIR, finish, batch > + + + > make DICOMDIR
create a, finish, batch > + + + > make a
create a, finish, store > + + + > make a, store a, store .
create a, finish, batch, store, store > + + + + + > make a, store a, store .
create a, finish, batch, create b, finish, batch, store > + + + + + + + > make a, make b, store a, store b, store .
folder d, create a, finish, create d/b, finish, create d/DICOMDIR, finish, store > + + + + + + + + \
> folder d, make a, make d/b, store a, store d/b, store ., store d, make d/DICOMDIR, store d/DICOMDIR, store d
create a, finish, create DICOMDIR, finish, store, create b, finish, create DICOMDIR/DICOMDIR > + + + + + + + + \
> make a, store a, store ., make DICOMDIR, store DICOMDIR, store ., make b, store b, store ., make DICOMDIR/DICOMDIR
create aDICOMDIR, finish, folder D, create D/a, finish, create DICOMDIR > + + + + + + \
> make aDICOMDIR, folder D, make D/a, store aDICOMDIR, store D/a, store ., store D, make DICOMDIR
create a, create b, finish, create DICOMDIR > + + + + > make a, make b, store b, store ., make DICOMDIR
create a, fail write, fill, finish, create DICOMDIR > + . - - + > make a, store ., make DICOMDIR
create a, finish, fail store, create DICOMDIR, finish, create DICOMDIR > + + . - - - > make a
create a, finish, fail open, create DICOMDIR > + + . - > make a, store a
file DICOMDIR, create a, finish, create DICOMDIR > . + + - > make a, store a, store .
dir o, file d/A, second d: d/A at o/A, second d: d/A at o/B, batch, create o/DICOMDIR, finish, store > \
. . + + + + + + > link o/A, link o/B, store o/A, store o/B, store o, make o/DICOMDIR, store o/DICOMDIR, store o
file d/A, second d: d/A at DICOMDIR, store > . + + > link DICOMDIR, store DICOMDIR, store .
file d/A, fail open, second d: d/A at a, create b, finish, batch, store > . . -absent + + + + > \
link a, make b, store b, store .
dir o, file d/A, stored 3: d: d/A at o/A, store > . . + + > link o/A, store o
dir o, file d/A, stored 3: d: d/A at o/A, stored 3: d: d/A at o/B, batch, create o/DICOMDIR, finish, store > \
. . + + + + + + > link o/A, link o/B, store o, make o/DICOMDIR, store o/DICOMDIR, store o
dir o, file d/A, file d/B, stored 3: d: d/A at o/A, second d: d/B at o/B, store > . . . + + + > \
link o/A, link o/B, store o/B, store o
dir o, file d/A, stored 2: d: d/A at o/A, folder f, store > . . -changed + + > folder f, store ., store f
dir o, file d/A, fail store, stored 3: d: d/A at o/A, store, unstored > . . . + - o > link o/A
folder d, folder d, folder e, folder d, folder d > + + + + + > folder d, folder e, folder d
folder d/e, folder d/f, store > + + + > folder d, folder d/e, folder d, folder d/f, store ., store d, \
store d/e, store d/f
dir o, folder o, create o/DICOMDIR, finish, store > . + + + + > \
folder o, store o, make o/DICOMDIR, store o/DICOMDIR, store o
dir o, folder o/, store > . + + > folder o, folder o/, store ., store o
folder , create DICOMDIR > + + > store ., make DICOMDIR
fail folder, folder d, folder d, folder d > . - + + > folder d
pause folder, folder d, store > . + + > folder d, store ., store d
pause made, folder d, store > . + + > folder d, folder d, store ., store d";

fn is_right(alloc: Global, case: &str) -> Result<bool, Fail> {
    let (calls, wanted) = cut(case, " > ")?;
    let (answers, left) = cut(wanted, " >")?;
    let (said, disc) = told(alloc, calls)?;
    let found = disc.bytes("a").unwrap_or(b"none");
    Ok(said.as_str() == answers && found == left.trim_start().as_bytes())
}

fn is_in_order(alloc: Global, case: &str) -> Result<bool, Fail> {
    let (calls, wanted) = cut(case, " > ")?;
    let (answers, log) = cut(wanted, " > ")?;
    let (said, disc) = told(alloc, calls)?;
    Ok(said.as_str() == answers && disc.log() == log)
}

#[test]
fn tells_what_each_call_came_to_and_stores_all_before_a_directory(
    rt: HostRuntime,
) -> Result<(), Fail> {
    claim_all(rt.alloc(), CASES, '\n', is_right)?;
    claim_all(rt.alloc(), ORDERS, '\n', is_in_order)
}

// Bytes of which no two pieces of the buffer's size are the same.
fn sample(alloc: Global) -> Result<Vec<u8>, Fail> {
    let mut bytes = Vec::new(alloc);
    for n in 0..150_000u32 {
        bytes.push((n % 251) as u8)?;
    }
    Ok(bytes)
}

fn is_written(files: &mut HostFiles<'_, DiscFiles<'_>>, bytes: &[u8]) -> bool {
    if files.create("a").is_err() {
        return false;
    }
    for piece in bytes.chunks(777) {
        if !write_all(files, piece) {
            return false;
        }
    }
    files.finish().is_ok()
}

fn gives(
    alloc: Global,
    files: &mut HostFiles<'_, DiscFiles<'_>>,
    bytes: &[u8],
) -> Result<bool, Fail> {
    let Ok(mut reader) = files.source("a") else {
        return Err("not there".into());
    };
    let found = all_of(alloc, &mut reader)?.ok_or("not read")?;
    Ok(found.as_slice() == bytes)
}

fn comes_back(alloc: Global, bytes: &[u8]) -> Result<bool, Fail> {
    let disc = RefCell::new(Disc::new(alloc)?);
    let rt = DiscFiles(&disc);
    let last = LastRefusal::new();
    let mut files = HostFiles::new(alloc, &rt, &last, Lanes::Four);
    Ok(is_written(&mut files, bytes) && gives(alloc, &mut files, bytes)?)
}

#[test]
fn gives_back_what_was_written(rt: HostRuntime) -> Result<(), Fail> {
    let bytes = sample(rt.alloc())?;
    assert!(rt; comes_back(rt.alloc(), &bytes)?);
    Ok(())
}
