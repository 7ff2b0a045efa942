//! Directories that are written here, read back: their catalogues, where their files are, and what they list.

use crate::walks::changed;
use dd_catalogue::Catalogue;
use dd_dir::{Own, Place, catalogue_of, own_of, places_of};
use dd_elem::Uid;
use dd_vectors::{ask_all, in_words};
use dd_walk::read_directory;
use std::alloc::{AllocError, Global};
use std::test::Fail;

/// A directory (`v2`, `v3`, `one`, or letters of images with the withdrawn instances) and what is put into its bytes at
/// a place. Then the instances of its catalogue, with `-` before each that is withdrawn, or why it is refused.
const CATALOGUES: &str = "\
v2 > 0
one > 1 1.2.3.4.5
1234 > 4 1.2.3.4.5 1.2.3.4.6 1.2.3.5.1 1.2.9.1.1
1/1.2.3.4.6 > 1 1.2.3.4.5 -1.2.3.4.6
1/1.2.3.4.7/1.2.3.4.6 > 1 1.2.3.4.5 -1.2.3.4.6 -1.2.3.4.7
/1.2.3.4.5 > 0 -1.2.3.4.5
1/1.2.3.4.6 916 '5 > 0 -1.2.3.4.5
1/1.2.3.4.6 884 'E > 1 1.2.3.4.5
1/1.2.3.4.6 896 09000310 > 1 1.2.3.4.5
1/1.2.3.4.6 908 '. > 65 BadWithdrawal
1/1.2.3.4.6 908 '__________ > 65 BadWithdrawal
1/1.2.3.4.6 908 '_ > 65 BadWithdrawal
1/1.2.3.4.6 917 '\\ > 65 BadWithdrawal
1/1.2.3.4.6/1.2.3.4.7 916 '8 > 65 BadWithdrawal
1/1.2.3.4.6/1.2.3.4.7 916 '7 > 65 BadWithdrawal
1/1.2.3.4.6 402 2020 > 63 RecordKey 320 (0010,0020)
1/1.2.3.4.6 402 2020 908 '. > 65 BadWithdrawal
v3 > 62 ForeignRecord 646
v3 674 ffff > 61 NoDigest 646
one 348 0000 > 62 ForeignRecord 320
one 402 2020 > 63 RecordKey 320 (0010,0020)
one 454 'IMAGE_ > 62 ForeignRecord 404
one 810 'dd > 61 NoDigest 622
one 686 'p > 63 RecordKey 622 (0004,1500)
one 730 '9 > 63 RecordKey 622 (0004,1510)
one 782 '9 > 63 RecordKey 622 (0004,1512)
one 800 '2 > 63 RecordKey 622 (0004,1512)
one 800 '5 > 1 1.2.3.4.5
one 514 '. > 63 RecordKey 404 (0020,000D)";

/// A directory with what is put into its bytes; and the instance and the File ID of each image, in the order
/// of their records, or why it is refused.
const PLACES: &str = "\
v2 > 0
1/1.2.3.4.6 > 1 1.2.3.4.5 PT000001\\ST000001\\SE000001\\IM000001
1/1.2.3.4.6 916 '5 > 1 1.2.3.4.5 PT000001\\ST000001\\SE000001\\IM000001
1/1.2.3.4.6 348 0000 908 '. > 65 BadWithdrawal
one > 1 1.2.3.4.5 PT000001\\ST000001\\SE000001\\IM000001
1234 > 4 1.2.3.4.5 PT000001\\ST000001\\SE000001\\IM000001 \
1.2.3.4.6 PT000001\\ST000001\\SE000001\\IM000002 \
1.2.3.5.1 PT000001\\ST000001\\SE000002\\IM000001 \
1.2.9.1.1 PT000002\\ST000001\\SE000001\\IM000001
v3 > 62 ForeignRecord 646
v3 674 ffff > 61 NoDigest 646
one 348 0000 > 62 ForeignRecord 320
one 402 2020 > 63 RecordKey 320 (0010,0020)";

/// A directory with what is put into its bytes. Then the first byte of the digest, the description, the instance and
/// the File ID of each image, in the order of their records, or why it is refused.
const IMAGES: &str = "\
v2 > 0
1/1.2.3.4.6 > 1, 170 ' 1.2.3.4.5 PT000001\\ST000001\\SE000001\\IM000001, -1.2.3.4.6
/1.2.3.4.5/1.2.3.4.6 > 0, -1.2.3.4.5 -1.2.3.4.6
1/1.2.3.4.6 348 0000 908 '. > 65 BadWithdrawal
12 > 2, 170 ' 1.2.3.4.5 PT000001\\ST000001\\SE000001\\IM000001, \
170 ' 1.2.3.4.6 PT000001\\ST000001\\SE000001\\IM000002
12 1026 '5 > 2, 170 ' 1.2.3.4.5 PT000001\\ST000001\\SE000001\\IM000001, \
170 ' 1.2.3.4.5 PT000001\\ST000001\\SE000001\\IM000002
17 > 2, 170 ' 1.2.3.4.9 PT000001\\ST000001\\SE000001\\IM000001, \
170 ' 1.2.3.4.5 PT000001\\ST000001\\SE000002\\IM000001
yz > 2, 2 'B 1.2.3.4.5 PT000001\\ST000001\\SE000001\\IM000001, \
1 'B 1.2.3.4.6 PT000001\\ST000001\\SE000001\\IM000002
v3 > 62 ForeignRecord 646
v3 674 ffff > 61 NoDigest 646
one 348 0000 > 62 ForeignRecord 320
one 402 2020 > 63 RecordKey 320 (0010,0020)";

fn push_withdrawn(text: &mut String, withdrawn: &[Uid]) -> Result<(), AllocError> {
    for uid in withdrawn {
        write!(text, " -{uid}")?;
    }
    Ok(())
}

pub(crate) fn instances(alloc: Global, catalogue: &Catalogue) -> Result<String, AllocError> {
    let count = catalogue.len();
    let mut text = format!(in alloc; "{count}")?;
    for version in catalogue.versions() {
        let instance = version.parts().instance;
        write!(text, " {instance}")?;
    }
    push_withdrawn(&mut text, catalogue.withdrawn())?;
    Ok(text)
}

fn catalogue(alloc: Global, question: &str) -> Result<String, Fail> {
    let bytes = changed(alloc, question)?;
    let forest = read_directory(alloc, &bytes)?;
    match catalogue_of(alloc, &forest) {
        Ok(catalogue) => Ok(instances(alloc, &catalogue)?),
        Err(fault) => Ok(format!(in alloc; "{fault}")?),
    }
}

pub(crate) fn files(alloc: Global, places: &[Place<'_>]) -> Result<String, Fail> {
    let count = places.len();
    let mut text = format!(in alloc; "{count}")?;
    for place in places {
        let (uid, file) = (place.uid, str::from_utf8(place.file)?);
        write!(text, " {uid} {file}")?;
    }
    Ok(text)
}

fn places(alloc: Global, question: &str) -> Result<String, Fail> {
    let bytes = changed(alloc, question)?;
    let forest = read_directory(alloc, &bytes)?;
    match places_of(alloc, &forest) {
        Ok(places) => files(alloc, &places),
        Err(fault) => Ok(format!(in alloc; "{fault}")?),
    }
}

pub(crate) fn images(alloc: Global, own: &Own<'_>) -> Result<String, Fail> {
    let count = own.files.len();
    let mut text = format!(in alloc; "{count}")?;
    for (version, file) in own.versions.iter().zip(&own.files) {
        let (version, file) = (in_words(alloc, version)?, str::from_utf8(file)?);
        write!(text, ", {version} {file}")?;
    }
    if !own.withdrawn.is_empty() {
        text.push(',')?;
    }
    push_withdrawn(&mut text, &own.withdrawn)?;
    Ok(text)
}

fn own(alloc: Global, question: &str) -> Result<String, Fail> {
    let bytes = changed(alloc, question)?;
    let forest = read_directory(alloc, &bytes)?;
    match own_of(alloc, &forest) {
        Ok(own) => images(alloc, &own),
        Err(fault) => Ok(format!(in alloc; "{fault}")?),
    }
}

#[test]
fn directories_are_read_back(rt: HostRuntime) -> Result<(), Fail> {
    ask_all(rt.alloc(), CATALOGUES, catalogue)?;
    ask_all(rt.alloc(), PLACES, places)?;
    ask_all(rt.alloc(), IMAGES, own)
}
