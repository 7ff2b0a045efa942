use crate::merges::directories::{directories, label};
use crate::merges::picks::{in_words, refused};
use dd_elem::Uid;
use dd_layout::Limits;
use dd_records::Label;
use dd_vectors::ask_all;
use dicomdir::{Choice, withdraw_engine};
use std::alloc::Global;
use std::test::Fail;

/// The most bytes of a directory, the directory, and the instances that are withdrawn. Then the size of the new
/// directory, and for each of its images the File ID that it had, or the fault.
const WITHDRAWALS: &str = "\
362 first 1.2.3.4.5 > 362
361 first 1.2.3.4.5 > Plan: 43 TooLarge
918 first 1.2.3.4.6 > 918 0 PT000001\\ST000001\\SE000001\\IM000001
917 first 1.2.3.4.6 > Plan: 43 TooLarge
928 first 1.2.3.4.7 1.2.3.4.6 1.2.3.4.7 > 928 0 PT000001\\ST000001\\SE000001\\IM000001
918 12 1.2.3.4.5 > 918 0 PT000001\\ST000001\\SE000001\\IM000002
928 1/1.2.3.4.6 1.2.3.4.7 > 928 0 PT000001\\ST000001\\SE000001\\IM000001
918 1/1.2.3.4.6 1.2.3.4.6 > 918 0 PT000001\\ST000001\\SE000001\\IM000001
372 1/1.2.3.4.6 1.2.3.4.5 > 372
362 empty 1.2.3.4.5 > 362
362 v3 1.2.3.4.5 > Own 0: 62 ForeignRecord 646
362 1/1.2.3.4.6,908,'. 1.2.3.4.5 > Own 0: 65 BadWithdrawal
362 first,294,41010000 1.2.3.4.5 > Dir 0: 56 LastRoot";

pub(crate) fn uids_of(alloc: Global, words: &str) -> Result<Vec<Uid>, Fail> {
    let mut uids = Vec::new(alloc);
    for word in words.split(' ') {
        uids.push(Uid::new(word.as_bytes())?)?;
    }
    Ok(uids)
}

fn planned(alloc: Global, question: &str) -> Result<String, Fail> {
    let (bytes, rest) = question.split_once(' ').ok_or("no bytes")?;
    let (name, words) = rest.split_once(' ').ok_or("no instances")?;
    let limits = Limits::new(bytes.parse()?, 2).ok_or("no limits")?;
    let sets = directories(alloc, name)?;
    let set = sets.first().ok_or("no directory")?;
    let uids = uids_of(alloc, words)?;
    let Label { id, uid } = label()?;
    let uid = Some(uid);
    match withdraw_engine(alloc, set, &uids, &Choice { id, uid }, limits) {
        Ok(merged) => in_words(alloc, &merged),
        Err(fault) => refused(alloc, fault),
    }
}

#[test]
fn instances_are_withdrawn(rt: HostRuntime) -> Result<(), Fail> {
    ask_all(rt.alloc(), WITHDRAWALS, planned)
}
