use crate::versions::reading::text_of_keys;
use crate::versions::refusals::with_patient_id;
use dd_elem::Ordered;
use dd_keys::{KeyFault, Version, ingest, ingest_kept, version_of};
use dd_slots::Slot;
use dd_vectors::{ByteSource, ask_all, cut, push_bytes, shown, v1, v1_encapsulated, v1_with};
use std::alloc::Global;
use std::test::Fail;

/// The most bytes of a read, after how many the reader fails, the limit, and the file. It is V1 (454 bytes), whole or
/// its front of the given length, V1 with pixel data in fragments (496 bytes), with a long Patient ID, or with other
/// elements. A failure and one byte more than the limit come before every check, wherever it fails.
const READ: &str = "\
1 1000 454 whole > taken
7 1000 454 whole > taken
100 455 454 whole > taken
4096 1000 454 whole > taken
100000 1000 1000 whole > taken
1 1000 453 whole > 39 FileTooLong
100 1000 453 whole > 39 FileTooLong
100 454 454 whole > 38 Read
1 200 454 whole > 38 Read
100 0 454 whole > 38 Read
100 200 199 whole > 39 FileTooLong
100 1000 0 whole > 39 FileTooLong
1 1000 496 encapsulated > taken
7 1000 496 encapsulated > taken
4096 1000 496 encapsulated > taken
7 1000 495 encapsulated > 39 FileTooLong
7 495 496 encapsulated > 38 Read
1 132 454 131 > 31 File 21 NotPart10
1 131 454 131 > 38 Read
7 1000 454 275 > 31 File 22 GroupLength
4096 1000 454 453 > 31 File 27 Set 1 Truncated
7 1000 453 453 > 31 File 27 Set 1 Truncated
7 1000 452 453 > 39 FileTooLong
7 1000 500 0010,0020 SQ > 36 KeyIsSequence (0010,0020)
7 440 500 0010,0020 SQ > 38 Read
7 300 500 0010,0020 SQ > 38 Read
7 1000 440 0010,0020 SQ > 39 FileTooLong
7 1000 500 0020,000D SQ > 36 KeyIsSequence (0020,000D)
1 1000 500 0008,0016 absent > 33 MissingKey (0008,0016)
4096 1000 500 0020,000D UI '1..2.3 > 34 BadKeyUid (0020,000D)
100 1000 500 0008,0018 UI '1.2.3.4.6~ > 37 MetaMismatch (0008,0018)
7 1000 500 0002,0000 UL 88000000; 0002,0002 UI '1.2.840.10008.5.1.4.1.1.88.11~ > \
32 NotImage 1.2.840.10008.5.1.4.1.1.88.11
7 450 500 0002,0000 UL 88000000; 0002,0002 UI '1.2.840.10008.5.1.4.1.1.88.11~ > 38 Read
7 3000 2000 long 1024 ____ > taken
7 3000 2000 long 1025 _ > 35 KeyTooLong (0010,0020)";

/// V1 and after it (7FE0,0010) with 1,000,000 bytes of zero: the most bytes of a read, the limit, the SHA-256 and the
/// keys.
const LARGE: &str = "\
1 1000466 > \
efcd87e22343fd137453c1ffbda35b482032867d71027bbfdc706b672e5a5d5b \
'P1 'DOE^JOHN ' '1.2.3 '20240115 '101500 ' ' '1 ' '1.2.3.4 'CT '1 '1 \
'1.2.840.10008.5.1.4.1.1.2 '1.2.840.10008.1.2.1 '1.2.3.4.5
7 1000466 > \
efcd87e22343fd137453c1ffbda35b482032867d71027bbfdc706b672e5a5d5b \
'P1 'DOE^JOHN ' '1.2.3 '20240115 '101500 ' ' '1 ' '1.2.3.4 'CT '1 '1 \
'1.2.840.10008.5.1.4.1.1.2 '1.2.840.10008.1.2.1 '1.2.3.4.5
4096 1000466 > \
efcd87e22343fd137453c1ffbda35b482032867d71027bbfdc706b672e5a5d5b \
'P1 'DOE^JOHN ' '1.2.3 '20240115 '101500 ' ' '1 ' '1.2.3.4 'CT '1 '1 \
'1.2.840.10008.5.1.4.1.1.2 '1.2.840.10008.1.2.1 '1.2.3.4.5
4096 1000465 > 39 FileTooLong";

fn file_of(alloc: Global, name: &str) -> Result<Vec<u8>, Fail> {
    if name == "whole" {
        return v1(alloc);
    }
    if name == "encapsulated" {
        return v1_encapsulated(alloc);
    }
    if let Some(words) = name.strip_prefix("long ") {
        return with_patient_id(alloc, words);
    }
    let Ok(size) = name.parse() else {
        return v1_with(alloc, name);
    };
    let mut bytes = v1(alloc)?;
    bytes.truncate(size);
    Ok(bytes)
}

/// Says `taken` where the bytes have this version, or the fault.
fn outcome(alloc: Global, bytes: &[u8], answer: Result<Version, KeyFault>) -> Result<String, Fail> {
    match answer {
        Ok(version) => {
            let is_same = version.compare(&version_of(alloc, bytes)?).is_eq();
            let word = if is_same { "taken" } else { "another" };
            shown(alloc, word)
        }
        Err(fault) => shown(alloc, fault),
    }
}

/// Reads a version by way of a slot that had other bytes, and gives it the digest of the slot.
fn version_by_slot(
    alloc: Global,
    source: &mut ByteSource<'_>,
    limit: u64,
) -> Result<Version, KeyFault> {
    let mut slot = Slot::new(alloc);
    slot.take(b"another file");
    let mut version = ingest_kept(alloc, source, &mut slot, limit)?;
    version.set_digest(slot.digest());
    Ok(version)
}

fn ingested(alloc: Global, question: &str) -> Result<String, Fail> {
    let (piece, rest) = cut(question, " ")?;
    let (fails, rest) = cut(rest, " ")?;
    let (limit, name) = cut(rest, " ")?;
    let (piece, fails, limit) = (piece.parse()?, fails.parse()?, limit.parse()?);
    let bytes = file_of(alloc, name)?;
    outcomes(alloc, &bytes, (piece, fails), limit)
}

/// Reads the file with and without a slot, and expects one outcome.
fn outcomes(
    alloc: Global,
    bytes: &[u8],
    (piece, fails): (u64, u64),
    limit: u64,
) -> Result<String, Fail> {
    let mut source = ByteSource::new(bytes, piece, Some(fails));
    let answer = outcome(alloc, bytes, ingest(alloc, &mut source, limit))?;
    let mut source = ByteSource::new(bytes, piece, Some(fails));
    let kept = outcome(alloc, bytes, version_by_slot(alloc, &mut source, limit))?;
    if kept.as_str() != answer.as_str() {
        return shown(alloc, format_args!("{answer}, but {kept} by a slot"));
    }
    Ok(answer)
}

fn large_file(alloc: Global) -> Result<Vec<u8>, Fail> {
    let mut bytes = v1(alloc)?;
    push_bytes(alloc, &mut bytes, "e07f1000 4f57 0000 40420f00")?;
    for _ in 0..1000 {
        bytes.extend_from_slice(&[0; 1000])?;
    }
    Ok(bytes)
}

pub(crate) fn text_of_version(alloc: Global, version: &Version) -> Result<String, Fail> {
    let digits = hex::encode(alloc, version.parts().digest)?;
    let keys = text_of_keys(alloc, version.parts())?;
    shown(alloc, format_args!("{digits} {keys}"))
}

fn large(alloc: Global, question: &str) -> Result<String, Fail> {
    let (piece, limit) = cut(question, " ")?;
    let bytes = large_file(alloc)?;
    let mut source = ByteSource::new(&bytes, piece.parse()?, None);
    match ingest(alloc, &mut source, limit.parse()?) {
        Ok(version) => text_of_version(alloc, &version),
        Err(fault) => shown(alloc, fault),
    }
}

/// The digest covers what stands after the keys, too.
#[test]
fn a_reader_gives_the_version_of_its_bytes(rt: HostRuntime) -> Result<(), Fail> {
    ask_all(rt.alloc(), READ, ingested)?;
    ask_all(rt.alloc(), LARGE, large)
}
