//! Bytes that are no file of a version, each with the first check that they fail.

use dd_elem::{KeyRefused, Memory};
use dd_keys::{KeyFault, Parts, version_of};
use dd_part10::FileFault;
use dd_set::SetFault;
use dd_vectors::{ask_all, cut, shown, v1, v1_with};
use std::alloc::Global;
use std::test::Fail;

/// The least and the greatest length to which V1 is cut, and the outcome: within the preamble, within group 0002, then
/// between and within the elements of the data set. A version has the study ID, the series number and the instance
/// number.
const CUT: &str = "\
0 131 > 31 File 21 NotPart10
132 275 > 31 File 22 GroupLength
276 276 > 33 MissingKey (0008,0016)
277 309 > 31 File 27 Set 1 Truncated
310 310 > 33 MissingKey (0008,0018)
311 327 > 31 File 27 Set 1 Truncated
328 328 > 33 MissingKey (0020,000D)
329 343 > 31 File 27 Set 1 Truncated
344 344 > 33 MissingKey (0020,000D)
345 357 > 31 File 27 Set 1 Truncated
358 358 > 33 MissingKey (0020,000D)
359 367 > 31 File 27 Set 1 Truncated
368 368 > 33 MissingKey (0020,000D)
369 383 > 31 File 27 Set 1 Truncated
384 384 > 33 MissingKey (0020,000D)
385 393 > 31 File 27 Set 1 Truncated
394 394 > 33 MissingKey (0020,000D)
395 407 > 31 File 27 Set 1 Truncated
408 408 > 33 MissingKey (0020,000E)
409 423 > 31 File 27 Set 1 Truncated
424 424 > taken 0 0 0
425 433 > 31 File 27 Set 1 Truncated
434 434 > taken 1 0 0
435 443 > 31 File 27 Set 1 Truncated
444 444 > taken 1 1 0
445 453 > 31 File 27 Set 1 Truncated
454 454 > taken 1 1 1";

/// V1 with other elements: keys that are no UID, empty, sequences or absent, and UIDs that differ from group 0002.
/// Another value representation, which is free, and an absent name. The class of a report in group 0002, alone and with
/// a key that is refused too. Three keys that are refused.
const OTHER: &str = "\
0020,000D UI '1..2.3 > 34 BadKeyUid (0020,000D)
0020,000D UI '~~ > 33 MissingKey (0020,000D)
0010,0020 SQ > 36 KeyIsSequence (0010,0020)
0008,0016 SQ > 36 KeyIsSequence (0008,0016)
0008,0018 UI '1.2.3.4.6~ > 37 MetaMismatch (0008,0018)
0008,0016 UI '1.2.840.10008.5.1.4.1.1.4~ > 37 MetaMismatch (0008,0016)
0008,0060 UN 'CT > taken
0008,0016 absent > 33 MissingKey (0008,0016)
0008,0018 absent > 33 MissingKey (0008,0018)
0020,000D absent > 33 MissingKey (0020,000D)
0020,000E absent > 33 MissingKey (0020,000E)
0010,0010 absent > taken
0002,0000 UL 88000000; 0002,0002 UI '1.2.840.10008.5.1.4.1.1.88.11~ > \
32 NotImage 1.2.840.10008.5.1.4.1.1.88.11
0002,0000 UL 88000000; 0002,0002 UI '1.2.840.10008.5.1.4.1.1.88.11~; 0010,0020 SQ > \
32 NotImage 1.2.840.10008.5.1.4.1.1.88.11
0010,0020 SQ; 0020,000D UI '1..2.3; 0020,000E absent > 36 KeyIsSequence (0010,0020)";

fn numbers(alloc: Global, bytes: &[u8]) -> Result<String, Fail> {
    match version_of(alloc, bytes) {
        Ok(version) => numbers_of(alloc, version.parts()),
        Err(fault) => shown(alloc, fault),
    }
}

fn numbers_of(alloc: Global, parts: &Parts) -> Result<String, Fail> {
    let study = str::from_utf8(parts.study.id.as_bytes())?;
    let series = str::from_utf8(parts.series.number.as_bytes())?;
    let number = str::from_utf8(parts.number.as_bytes())?;
    shown(alloc, format_args!("taken {study} {series} {number}"))
}

fn front(alloc: Global, bytes: &[u8], size: usize) -> Result<String, Fail> {
    numbers(alloc, bytes.get(..size).ok_or("fewer bytes")?)
}

/// Gives the outcome of each such front, or the first that differs.
fn cut_short(alloc: Global, question: &str) -> Result<String, Fail> {
    let (first, last) = cut(question, " ")?;
    let (first, last): (usize, usize) = (first.parse()?, last.parse()?);
    let bytes = v1(alloc)?;
    let common = front(alloc, &bytes, first)?;
    for size in first..=last {
        let answer = front(alloc, &bytes, size)?;
        if answer.as_str() != common.as_str() {
            return shown(alloc, format_args!("{answer} at {size}"));
        }
    }
    Ok(common)
}

#[test]
fn no_version_of_a_file_cut_short(rt: HostRuntime) -> Result<(), Fail> {
    ask_all(rt.alloc(), CUT, cut_short)
}

fn other(alloc: Global, question: &str) -> Result<String, Fail> {
    match version_of(alloc, &v1_with(alloc, question)?) {
        Ok(_) => shown(alloc, "taken"),
        Err(fault) => shown(alloc, fault),
    }
}

/// V1 with a Patient ID of this many letters and this padding: how many bytes are kept, or the refusal.
const LONG: &str = "\
1024 __ > 1024 bytes
1025 _ > 35 KeyTooLong (0010,0020)";

fn patient_id(alloc: Global, letters: u32, padding: &str) -> Result<String, Fail> {
    let mut change = String::from_str(alloc, "0010,0020 LO '")?;
    for _ in 0..letters {
        change.push('A')?;
    }
    change.push_str(padding)?;
    Ok(change)
}

/// Makes V1 with such a Patient ID.
pub(crate) fn with_patient_id(alloc: Global, words: &str) -> Result<Vec<u8>, Fail> {
    let (letters, padding) = cut(words, " ")?;
    v1_with(
        alloc,
        patient_id(alloc, letters.parse()?, padding)?.as_str(),
    )
}

fn long(alloc: Global, question: &str) -> Result<String, Fail> {
    match version_of(alloc, &with_patient_id(alloc, question)?) {
        Ok(version) => {
            let kept = version.parts().patient.id.as_bytes().len();
            shown(alloc, format_args!("{kept} bytes"))
        }
        Err(fault) => shown(alloc, fault),
    }
}

#[test]
fn the_first_check_of_a_key_that_fails(rt: HostRuntime) -> Result<(), Fail> {
    ask_all(rt.alloc(), OTHER, other)?;
    ask_all(rt.alloc(), LONG, long)
}

#[test]
fn want_of_memory_in_words(rt: HostRuntime) -> Result<(), Fail> {
    let (key, meta) = (KeyRefused::Memory, FileFault::Meta(SetFault::Memory));
    let (keys, file) = (
        KeyFault::Memory,
        KeyFault::File(FileFault::Set(SetFault::Memory)),
    );
    let text = format!(in rt.alloc(); "{key}, {Memory}, {meta}, {keys}, {file}")?;
    assert_eq!(rt;
        text.as_str(),
        "91 Memory, 91 Memory, 26 Meta 91 Memory, 91 Memory, 31 File 27 Set 91 Memory"
    );
    Ok(())
}
