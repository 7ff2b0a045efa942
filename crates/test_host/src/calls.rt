//! Calls of the files of the system over a disc in memory, as the lines of cases name them, and their outcomes.

use crate::disc::{Call, Disc, DiscFiles};
use crate::disc_file::borrowed;
use crate::power_cut::Kind;
use dd_elem::{Read, Write};
use dd_files::{Files, FoundPaths, Hints, LinkFault, Progress, Step};
use dd_slots::Lanes;
use dicomdir_host::{HostFiles, LastRefusal};
use std::alloc::Global;
use std::cell::RefCell;
use std::io::ErrorKind;
use std::str;
use std::test::Fail;

fn call_of(name: &str) -> Option<Call> {
    match name {
        "open" => Some(Call::Open),
        "create" => Some(Call::Create),
        "folder" => Some(Call::Folder),
        "link" => Some(Call::Link),
        "read" => Some(Call::Read),
        "write" => Some(Call::Write),
        "store" => Some(Call::Store),
        "look" => Some(Call::Look),
        "made" => Some(Call::Made),
        "seen" => Some(Call::LookAtOpen),
        "stay" => Some(Call::Stay),
        "show" => Some(Call::Show),
        "clock" => Some(Call::Clock),
        _ => None,
    }
}

// The error of a call that this word prepares.
fn error_of(verb: &str) -> Option<ErrorKind> {
    match verb {
        "fail" => Some(ErrorKind::Other),
        "pause" => Some(ErrorKind::Interrupted),
        "part" => Some(ErrorKind::CrossesDevices),
        "bar" => Some(ErrorKind::PermissionDenied),
        "spoil" => Some(ErrorKind::InvalidInput),
        "lack" => Some(ErrorKind::Unsupported),
        "block" => Some(ErrorKind::NotADirectory),
        "turn" => Some(ErrorKind::FilesystemLoop),
        "stretch" => Some(ErrorKind::InvalidFilename),
        _ => None,
    }
}

// What the word puts at a path: its kind and its bytes.
fn put_by(verb: &str) -> Option<(Kind, &'static [u8])> {
    match verb {
        "file" => Some((Kind::File, b"old")),
        "also" => Some((Kind::File, b"two")),
        "silent" => Some((Kind::Silent, b"old")),
        "pipe" => Some((Kind::Pipe, b"")),
        "dir" => Some((Kind::Folder, b"")),
        "link" => Some((Kind::Link, b"")),
        _ => None,
    }
}

// Prepares the disc, if the step does that.
fn prepare(disc: &mut Disc, verb: &str, what: &str) -> Result<bool, Fail> {
    if let Some((kind, bytes)) = put_by(verb) {
        let place = disc.put(what, kind)?;
        disc.add(place, bytes)?;
        return Ok(true);
    }
    if let Some(error) = error_of(verb) {
        disc.fail(call_of(what).ok_or("no call")?, error);
        return Ok(true);
    }
    match verb {
        "spill" => disc.spill(what)?,
        "limit" => disc.open_at_most(what.parse()?),
        "pass" => disc.screen.wait(what.parse()?),
        "slow" => disc.screen.pause = what.parse()?,
        _ => return Ok(false),
    }
    Ok(true)
}

fn is_prepared(disc: &RefCell<Disc>, verb: &str, what: &str) -> Result<bool, Fail> {
    let mut disc = borrowed(disc)?;
    prepare(&mut disc, verb, what)
}

pub(crate) fn write_all(files: &mut HostFiles<'_, DiscFiles<'_>>, bytes: &[u8]) -> bool {
    let mut rest = bytes;
    for _ in bytes {
        match files.write(rest) {
            Ok(n) if n > 0 => rest = rest.get(n..).unwrap_or(&[]),
            _ => return false,
        }
        if rest.is_empty() {
            return true;
        }
    }
    false
}

fn is_done(files: &mut HostFiles<'_, DiscFiles<'_>>, verb: &str, what: &str) -> bool {
    match verb {
        "create" => files.create(what).is_ok(),
        "folder" => files.folder(what).is_ok(),
        "make" => {
            let (out, path) = named(what);
            files.folder_in(out, path).is_ok()
        }
        "write" => write_all(files, what.as_bytes()),
        "batch" => files.store_batch().is_ok(),
        "store" => files.store().is_ok(),
        // More than the buffer takes.
        "fill" => write_all(files, &[b'x'; 70_000]),
        _ => files.finish().is_ok(),
    }
}

// Reads to the end, or gives None where the reader fails.
pub(crate) fn all_of<R: Read>(alloc: Global, reader: &mut R) -> Result<Option<Vec<u8>>, Fail> {
    let mut all = Vec::new(alloc);
    let mut piece = [0; 1_000];
    for _ in 0..1_000_000u32 {
        match reader.read(&mut piece) {
            Ok(0) => return Ok(Some(all)),
            Ok(n) => all.extend_from_slice(&piece[..n])?,
            Err(_) => return Ok(None),
        }
    }
    Err("a reader with no end".into())
}

// Splits `folder: path`.
fn named(what: &str) -> (&str, &str) {
    match what.split_once(": ") {
        Some(both) => both,
        None => ("", what),
    }
}

// Adds the bytes of a source, of a file of a file-set, or of a list of names.
fn read(
    alloc: Global,
    files: &mut HostFiles<'_, DiscFiles<'_>>,
    verb: &str,
    what: &str,
    said: &mut String,
) -> Result<(), Fail> {
    let opened = match verb {
        "find" => {
            let (set, path) = named(what);
            files.member(set, path)
        }
        "exact" => {
            let (pile, path) = named(what);
            files.exact_file(pile, path)
        }
        "names" => files.names(what),
        _ => files.source(what),
    };
    let Ok(mut reader) = opened else {
        return Ok(said.push('-')?);
    };
    match all_of(alloc, &mut reader)? {
        Some(bytes) => Ok(said.push_str(str::from_utf8(&bytes).map_err(|_| "no text")?)?),
        None => Ok(said.push('!')?),
    }
}

// Adds the path at which a file of a file-set is found.
fn look_up(
    files: &mut HostFiles<'_, DiscFiles<'_>>,
    what: &str,
    said: &mut String,
) -> Result<(), Fail> {
    let (set, path) = named(what);
    match files.found_path(set, path)? {
        Some(found) => Ok(said.push_str(found.as_str())?),
        None => Ok(said.push('-')?),
    }
}

// Splits `set: from at path`.
fn link_of(what: &str) -> (&str, &str, &str) {
    let (set, paths) = named(what);
    let (from, path) = paths.split_once(" at ").unwrap_or((paths, ""));
    (set, from, path)
}

fn outcome_of(linked: Result<(), LinkFault>) -> &'static str {
    match linked {
        Ok(()) => "+",
        Err(LinkFault::Absent) => "-absent",
        Err(LinkFault::Changed) => "-changed",
        Err(LinkFault::Taken) => "-taken",
        Err(LinkFault::Refused) => "-refused",
    }
}

// Makes a hard link to a file of a file-set, and gives the outcome.
fn second(files: &mut HostFiles<'_, DiscFiles<'_>>, what: &str) -> &'static str {
    let (set, from, path) = link_of(what);
    outcome_of(files.link(set, from, path))
}

// The same, of a file of a pile. What is before the first `: ` says how many bytes it has.
fn stored(files: &mut HostFiles<'_, DiscFiles<'_>>, what: &str) -> Result<&'static str, Fail> {
    let (size, rest) = named(what);
    let (pile, from, path) = link_of(rest);
    Ok(outcome_of(files.link_stored(pile, from, path, size.parse()?)))
}

fn yes_or_no(is_so: bool) -> &'static str {
    if is_so { "yes" } else { "no" }
}

// Makes a call about progress, if it is one.
fn counts(files: &mut HostFiles<'_, DiscFiles<'_>>, verb: &str, what: &str) -> Result<bool, Fail> {
    match verb {
        "reading" | "copying" => {
            let step = if verb == "reading" {
                Step::Reading
            } else {
                Step::Copying
            };
            files.begin_step(step, what.parse()?);
        }
        "advance" => files.advance(),
        "hide" => files.hide_line(),
        "quiet" => files.silence(),
        "say" => files.show_line(&[what, "!"]),
        "keep" => files.keep_line(&[what, "!"]),
        "kept" => files.show_kept(),
        _ => return Ok(false),
    }
    Ok(true)
}

fn is_answered(
    files: &mut HostFiles<'_, DiscFiles<'_>>,
    verb: &str,
    what: &str,
    said: &mut String,
) -> Result<bool, Fail> {
    match verb {
        "unstored" => said.push_str(files.unstored())?,
        "second" => said.push_str(second(files, what))?,
        "stored" => said.push_str(stored(files, what)?)?,
        "free" => said.push_str(yes_or_no(files.is_free(what)))?,
        "is" => said.push_str(yes_or_no(files.is_folder(what)))?,
        "cause" => said.push_str(files.cause().as_str())?,
        _ => return Ok(false),
    }
    Ok(true)
}

// Makes a call or prepares the disc for one, and adds the outcome.
fn tell(
    alloc: Global,
    disc: &RefCell<Disc>,
    files: &mut HostFiles<'_, DiscFiles<'_>>,
    call: &str,
    said: &mut String,
) -> Result<(), Fail> {
    let (verb, what) = call.split_once(' ').unwrap_or((call, ""));
    match verb {
        "read" | "find" | "exact" | "names" => return read(alloc, files, verb, what, said),
        "where" => return look_up(files, what, said),
        _ => {}
    }
    if is_answered(files, verb, what, said)? {
        return Ok(());
    }
    let sign = if counts(files, verb, what)? || is_prepared(disc, verb, what)? {
        '.'
    } else if is_done(files, verb, what) {
        '+'
    } else {
        '-'
    };
    Ok(said.push(sign)?)
}

fn tell_all(
    alloc: Global,
    disc: &RefCell<Disc>,
    files: &mut HostFiles<'_, DiscFiles<'_>>,
    calls: &str,
    said: &mut String,
) -> Result<(), Fail> {
    for call in calls.split(", ") {
        if !said.is_empty() {
            said.push(' ')?;
        }
        tell(alloc, disc, files, call, said)?;
    }
    Ok(())
}

fn in_words(alloc: Global, disc: &RefCell<Disc>, calls: &str) -> Result<String, Fail> {
    let rt = DiscFiles(disc);
    let last = LastRefusal::new();
    let mut files = HostFiles::new(alloc, &rt, &last, Lanes::Four);
    let mut said = String::new(alloc);
    tell_all(alloc, disc, &mut files, calls, &mut said)?;
    Ok(said)
}

pub(crate) fn told(alloc: Global, calls: &str) -> Result<(String, Disc), Fail> {
    let disc = RefCell::new(Disc::new(alloc)?);
    let said = in_words(alloc, &disc, calls)?;
    Ok((said, disc.into_inner()))
}
