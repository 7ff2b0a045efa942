use dd_set::{Syntax, parse};
use dd_vectors::{ByteSource, ask_all, bytes_of, failing, v1};
use dd_walk::Tree;
use dicomdir::{Finding, finding_of};
use std::alloc::Global;
use std::test::Fail;

/// The elements of records: a File ID, a blank one, and two names that are no File ID. A File ID with V1's digest,
/// another one, one of another creator, and one too short. Then none of these.
const RECORDS: &str = "\
named 04000015 4353 0400 'IM1_
blank 04000015 4353 0400 '____
small 04000015 4353 0400 'im1_
spaced 04000015 4353 0400 '_IM1
first 04000015 4353 0400 'IM1_ 09001000 4c4f 0c00 'DD_FILESET_1 09000110 4f42 0000 20000000 \
900e75e1c153f87b21e09f9db68aef627f2dd320eb3afb1f2574594e6c862a92
other 04000015 4353 0400 'IM1_ 09001000 4c4f 0c00 'DD_FILESET_1 09000110 4f42 0000 20000000 \
aaaaaaaaaaaaaaaaaaaaaaaaaaaaaaaaaaaaaaaaaaaaaaaaaaaaaaaaaaaaaaaa
foreign 04000015 4353 0400 'IM1_ 09001000 4c4f 0c00 'DD_FILESET_2 09000110 4f42 0000 20000000 \
aaaaaaaaaaaaaaaaaaaaaaaaaaaaaaaaaaaaaaaaaaaaaaaaaaaaaaaaaaaaaaaa
short 04000015 4353 0400 'IM1_ 09001000 4c4f 0c00 'DD_FILESET_1 09000110 4f42 0000 04000000 aaaaaaaa
absent 20001300 4953 0200 '1_";

/// The SHA-256 of V1, and the other that a record has.
const DIGESTS: &str = "\
900e75e1c153f87b21e09f9db68aef627f2dd320eb3afb1f2574594e6c862a92 \
aaaaaaaaaaaaaaaaaaaaaaaaaaaaaaaaaaaaaaaaaaaaaaaaaaaaaaaaaaaaaaaa";

/// Whether a record is in use, which it is, the most bytes of a read of V1 (0 where it can't be opened), and after how
/// many it fails. Then how many it may have, and what is found.
const FINDINGS: &str = "\
true named 0 - 454 > Missing
true first 0 - 454 > Missing
true blank 0 - 454 > nothing
true absent 0 - 454 > nothing
false named 0 - 454 > nothing
false small 0 - 454 > nothing
true small 0 - 454 > BadId
true small 1000 - 454 > BadId
true spaced 1000 - 454 > BadId
true named 1000 - 454 > nothing
true named 1000 - 453 > Unreadable
true named 100 200 454 > Unreadable
true first 1000 - 454 > nothing
true first 1 - 454 > nothing
true first 100 200 454 > Unreadable
true first 1000 - 453 > Unreadable
true other 1000 - 454 > Differs
true other 1 - 454 > Differs
true other 1 453 454 > Unreadable
true other 1000 - 453 > Unreadable
false other 1000 - 454 > nothing
true foreign 1000 - 454 > nothing
true short 1000 - 454 > nothing";

fn record(alloc: Global, name: &str) -> Result<Vec<u8>, Fail> {
    for line in RECORDS.split('\n') {
        if let Some((found, elements)) = line.split_once(' ')
            && found == name
        {
            return bytes_of(alloc, elements);
        }
    }
    Err("no such record".into())
}

fn words(alloc: Global, found: Option<Finding>) -> Result<&'static str, Fail> {
    Ok(match found {
        None => "nothing",
        Some(Finding::BadId) => "BadId",
        Some(Finding::Missing) => "Missing",
        Some(Finding::Unreadable) => "Unreadable",
        Some(Finding::Differs { recorded, found }) => {
            let mut both = Vec::new(alloc);
            both.extend_from_slice(&found)?;
            both.extend_from_slice(&recorded)?;
            if both == bytes_of(alloc, DIGESTS)? {
                "Differs"
            } else {
                "other digests"
            }
        }
        Some(Finding::Mislabelled(_)) => "Mislabelled",
        Some(Finding::NoFile(_)) => "NoFile",
        Some(Finding::NoDigest) => "NoDigest",
    })
}

fn found(alloc: Global, question: &str) -> Result<String, Fail> {
    let (in_use, rest) = question.split_once(' ').ok_or("no flag")?;
    let (name, rest) = rest.split_once(' ').ok_or("no record")?;
    let (piece, rest) = rest.split_once(' ').ok_or("no piece")?;
    let (fails, limit) = rest.split_once(' ').ok_or("no limit")?;
    let (image, elements) = (v1(alloc)?, record(alloc, name)?);
    let tree = Tree {
        at: 622,
        kind: b"IMAGE",
        in_use: in_use == "true",
        set: parse(alloc, Syntax::Explicit, &elements)?,
        below: Vec::new(alloc),
    };
    let (piece, limit): (u64, u64) = (piece.parse()?, limit.parse()?);
    let found = if piece == 0 {
        finding_of::<ByteSource>(&tree, None, limit)
    } else {
        let mut file = ByteSource::new(&image, piece, failing(fails)?);
        finding_of(&tree, Some(&mut file), limit)
    };
    Ok(String::from_str(alloc, words(alloc, found)?)?)
}

#[test]
fn files_of_records_are_found_as_they_are(rt: HostRuntime) -> Result<(), Fail> {
    ask_all(rt.alloc(), FINDINGS, found)
}
