//! UIDs, IDs of file-sets and File IDs.

use dd_elem::{FileId, SetId, Uid, is_file_id};
use dd_vectors::{ask_all, bytes_of, shown, text_of};
use std::alloc::Global;
use std::test::Fail;

/// Bytes as a UID: what is kept of them, or the words of the refusal. The longest that is taken has 64
/// characters, and the last here 65.
const UIDS: &str = "\
'0 > '0
'2.25.0 > '2.25.0
'1.2.840.10008.1.3.10 > '1.2.840.10008.1.3.10
'1234567890.1234567890.1234567890.1234567890.1234567890.123456789 > \
'1234567890.1234567890.1234567890.1234567890.1234567890.123456789
' > 71 BadUid
'1..2 > 71 BadUid
'1.02 > 71 BadUid
'.1 > 71 BadUid
'1. > 71 BadUid
'1.a > 71 BadUid
'1.2_ > 71 BadUid
'1.2~ > 71 BadUid
'1234567890.1234567890.1234567890.1234567890.1234567890.1234567890 > 71 BadUid";

/// A byte, and the UID of the digest that has it 32 times: the UUID of version 8, computed by another program.
const DIGESTS: &str = "\
0 > 2.25.604472133179351442128896
255 > 2.25.340282366920937934553716840013076889599";

/// Bytes as the ID of a file-set. `5f` is an underscore.
const SET_IDS: &str = "\
' > '
5f > '_
'DISC1 > 'DISC1
'ABCDEFGHIJKLMNOP > 'ABCDEFGHIJKLMNOP
'disc > 72 BadSetId
'A_ > 72 BadSetId
'A_B > 72 BadSetId
'A~ > 72 BadSetId
'ABCDEFGHIJKLMNOPQ > 72 BadSetId";

/// The ranks of a patient, a study, a series and an image, and the text of their File ID.
const RANKS: &str = "\
1 1 1 999999 > PT000001\\ST000001\\SE000001\\IM999999
1 2 3 4 > PT000001\\ST000002\\SE000003\\IM000004
999999 100000 12345 10 > PT999999\\ST100000\\SE012345\\IM000010
1 0 1 1 > none
1 1 1 1000000 > none
0 1 1 1 > none
1 1 0 1 > none
1 1 1 4294967295 > none";

/// Bytes, and whether they are a File ID.
const FILE_IDS: &str = "\
'A > true
5f > true
'IMAGES\\IM1 > true
'PT000001\\ST000001\\SE000001\\IM999999 > true
'1\\2\\3\\4\\5\\6\\7\\8 > true
'1\\2\\3\\4\\5\\6\\7\\8\\9 > false
'ABCDEFGH > true
'ABCDEFGHI > false
' > false
'\\ > false
'\\A > false
'A\\ > false
'A\\\\B > false
'images\\im1 > false
'IMAGES/IM1 > false
'IM1_ > false";

fn uid(alloc: Global, question: &str) -> Result<String, Fail> {
    let bytes = bytes_of(alloc, question)?;
    match Uid::new(&bytes) {
        Ok(uid) => Ok(text_of(alloc, uid.as_bytes())?),
        Err(bad) => shown(alloc, bad),
    }
}

fn digest_uid(alloc: Global, question: &str) -> Result<String, Fail> {
    let uid = Uid::from_digest(&[question.parse()?; 32]);
    shown(alloc, uid)
}

fn set_id(alloc: Global, question: &str) -> Result<String, Fail> {
    let bytes = bytes_of(alloc, question)?;
    match SetId::new(&bytes) {
        Ok(id) => Ok(text_of(alloc, id.as_bytes())?),
        Err(bad) => shown(alloc, bad),
    }
}

/// The File ID of these ranks.
fn ranked(ranks: &str) -> Result<Option<FileId>, Fail> {
    let mut ranks = ranks.split(' ');
    let mut numbers = [0; 4];
    for number in numbers.iter_mut() {
        *number = ranks.next().ok_or("no rank")?.parse()?;
    }
    let [patient, study, series, image] = numbers;
    Ok(FileId::ranked(patient, study, series, image))
}

fn file_id(alloc: Global, question: &str) -> Result<String, Fail> {
    match ranked(question)? {
        Some(id) => Ok(String::from_str(alloc, str::from_utf8(&id.text())?)?),
        None => shown(alloc, "none"),
    }
}

fn is_taken(alloc: Global, question: &str) -> Result<String, Fail> {
    let is_taken = is_file_id(&bytes_of(alloc, question)?);
    shown(alloc, is_taken)
}

#[test]
fn uids_have_components_of_digits(rt: HostRuntime) -> Result<(), Fail> {
    ask_all(rt.alloc(), UIDS, uid)?;
    ask_all(rt.alloc(), DIGESTS, digest_uid)
}

#[test]
fn set_ids_have_16_characters(rt: HostRuntime) -> Result<(), Fail> {
    ask_all(rt.alloc(), SET_IDS, set_id)
}

#[test]
fn file_ids_have_components_of_8_characters(rt: HostRuntime) -> Result<(), Fail> {
    ask_all(rt.alloc(), RANKS, file_id)?;
    ask_all(rt.alloc(), FILE_IDS, is_taken)
}
