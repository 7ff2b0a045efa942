use crate::sets::outlines::outline;
use crate::sets::scanning::in_words;
use crate::sets::spellings::{IMAGES, PATIENT_ID, PIXEL_DATA, set_of, spelled};
use dd_elem::{Memory, Read, Tag};
use dd_scan::{Scan, ScanFault, scan, take_set};
use dd_set::{DataSet, SetFault, Stream, Syntax, write_set};
use dd_vectors::{
    ByteSource, Sink, answered, question, refuse_allocation, refuse_each, refuse_in_turn, require,
    was_refused,
};
use std::alloc::Global;
use std::test::Fail;

const ITEMS: &str = "\
explicit 08004011 5351 0000 12000000 feff00e0 0a000000 10002000 4c4f 0200 5031 > \
(0008,1140) SQ Defined Defined [(0010,0020) LO 'P1]";

const FRAGMENTS: &str = "\
encapsulated e07f1000 4f42 0000 ffffffff feff00e0 00000000 feff00e0 04000000 ff4fff51 feffdde0 00000000 > \
(7FE0,0010) OB Fragments [] [ff4fff51]";

const SCANNED: &str = "explicit 10002000 4c4f 0200 5031 > (0010,0020); (0010,0020) 'P1 2";

/// A Patient ID before pixel data in fragments.
const SCANNED_FRAGMENTS: &str = "\
encapsulated 10002000 4c4f 0200 5031 e07f1000 4f42 0000 ffffffff feff00e0 00000000 feffdde0 00000000 > \
(0010,0020); (0010,0020) 'P1 2; (7FE0,0010) fragments";

fn require_held(alloc: Global, case: &str, set: &DataSet<'_>) -> Result<(), Fail> {
    let answer = outline(alloc, set)?;
    require(
        answered(alloc, case, &answer)?.as_str() == case,
        "the set holds what the case says",
    )
}

fn parse_refused(alloc: Global, case: &str, chosen: u32) -> Result<bool, Fail> {
    let (syntax, bytes) = spelled(alloc, question(case))?;
    refuse_allocation(alloc, chosen)?;
    let answer = set_of(alloc, syntax, &bytes);
    let refused = was_refused(alloc, matches!(&answer, Err(SetFault::Memory)))?;
    match &answer {
        Ok(set) => require_held(alloc, case, set)?,
        Err(_) => require_held(alloc, case, &set_of(alloc, syntax, &bytes)?)?,
    }
    Ok(refused)
}

#[test]
fn allocations_of_parse(rt: HostRuntime) -> Result<(), Fail> {
    for case in [ITEMS, FRAGMENTS] {
        refuse_each(
            rt.alloc(),
            |alloc, chosen| parse_refused(alloc, case, chosen),
        )?;
    }
    Ok(())
}

pub(crate) fn is_memory(_fault: &Memory) -> bool {
    true
}

#[test]
fn allocations_of_item_starts(rt: HostRuntime) -> Result<(), Fail> {
    let alloc = rt.alloc();
    let line = "explicit 08006000 4353 0200 4354 08004011 5351 0000 1a000000 feff00e0 00000000 \
                feff00e0 0a000000 10002000 4c4f 0200 5031";
    let (syntax, bytes) = spelled(alloc, line)?;
    let set = set_of(alloc, syntax, &bytes)?;
    let starts = refuse_in_turn(alloc, || set.item_starts(alloc, syntax, IMAGES), is_memory)?;
    let starts = starts.ok_or("no items")?;
    require(
        starts.as_slice() == [22, 30].as_slice(),
        "the items start there",
    )
}

const WANTED: [Tag; 3] = [PATIENT_ID, IMAGES, PIXEL_DATA];

fn require_told(alloc: Global, case: &str, answer: Result<Scan, ScanFault>) -> Result<(), Fail> {
    let answer = in_words(alloc, answer)?;
    require(
        answered(alloc, case, &answer)?.as_str() == case,
        "the scan tells what the case says",
    )
}

pub(crate) fn is_at_end(reader: &mut ByteSource<'_>) -> bool {
    matches!(reader.read(&mut [0; 4]), Ok(0))
}

/// After a refused allocation the reader is at its end, too, and the second call has another.
fn scan_refused(alloc: Global, case: &str, chosen: u32) -> Result<bool, Fail> {
    let (syntax, bytes) = spelled(alloc, question(case))?;
    let mut reader = ByteSource::new(&bytes, 7, None);
    refuse_allocation(alloc, chosen)?;
    let answer = scan(alloc, syntax, &mut reader, &WANTED, 4096);
    let wants_memory = matches!(&answer, Err(ScanFault::Set(SetFault::Memory)));
    let refused = was_refused(alloc, wants_memory)?;
    require(is_at_end(&mut reader), "the reader is at its end")?;
    let answer = if refused {
        let mut again = ByteSource::new(&bytes, 7, None);
        scan(alloc, syntax, &mut again, &WANTED, 4096)
    } else {
        answer
    };
    require_told(alloc, case, answer)?;
    Ok(refused)
}

#[test]
fn allocations_of_scan(rt: HostRuntime) -> Result<(), Fail> {
    for case in [SCANNED, SCANNED_FRAGMENTS] {
        refuse_each(
            rt.alloc(),
            |alloc, chosen| scan_refused(alloc, case, chosen),
        )?;
    }
    Ok(())
}

fn taken(alloc: Global, syntax: Syntax, bytes: &[u8]) -> Result<Scan, SetFault> {
    let mut reader = ByteSource::new(bytes, 7, None);
    take_set(alloc, &mut Stream::new(&mut reader, 4096), syntax, &WANTED)
}

#[test]
fn allocations_of_take_set(rt: HostRuntime) -> Result<(), Fail> {
    let alloc = rt.alloc();
    let (syntax, bytes) = spelled(alloc, question(SCANNED))?;
    let scan = refuse_in_turn(
        alloc,
        || taken(alloc, syntax, &bytes),
        |fault| matches!(fault, SetFault::Memory),
    )?;
    require_told(alloc, SCANNED, Ok(scan))
}

/// A refused allocation is a write that fails: the writer holds a front of the set then, and what is written again
/// comes after it.
fn write_set_refused(alloc: Global, chosen: u32) -> Result<bool, Fail> {
    let (syntax, bytes) = spelled(alloc, question(ITEMS))?;
    let set = set_of(alloc, syntax, &bytes)?;
    let mut sink = Sink::new(alloc, None);
    refuse_allocation(alloc, chosen)?;
    let answer = write_set(&set, syntax, &mut sink);
    let refused = was_refused(alloc, answer.is_err())?;
    if refused {
        require(bytes.starts_with(sink.bytes()), "the writer holds a front")?;
        require(
            write_set(&set, syntax, &mut sink) == Ok(30),
            "all bytes are written",
        )?;
    }
    require(sink.bytes().ends_with(&bytes), "the writer holds the set")?;
    Ok(refused)
}

#[test]
fn allocations_of_write_set(rt: HostRuntime) -> Result<(), Fail> {
    refuse_each(rt.alloc(), write_set_refused)
}
