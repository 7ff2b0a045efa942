//! Directories that are made of directories: merges and withdrawals.

use crate::answers::{directory, no_answer, push_texts, words};
use crate::images::directory_of;
use dd_calls::{Answer, ROOM, Texts};
use dd_making::{merge, withdraw};
use dd_vectors::{ask_all, first_directory};
use std::alloc::Global;
use std::test::Fail;

/// Sets with what is put into their bytes; the File-set ID; and the UID. Then the status and the sizes, and of each
/// image the set and the File ID, or the fault.
const MERGES: &str = "\
one+one;;2.25.0 > 0 876 1 35: 0 'PT000001\\ST000001\\SE000001\\IM000001
v2+one;DISC1;2.25.0 > 0 882 1 35: 1 'PT000001\\ST000001\\SE000001\\IM000001
gone+one;;2.25.0 > 0 918 1 35: 0 'PT000001\\ST000001\\SE000001\\IM000001
image;;2.25.0 > 0 876 1 35: 0 'PT000001\\ST000001\\SE000001\\IM000001
one;disc;2.25.0 > 72 0 0 0 (0000,0000) 0
one;;01 > 71 0 0 0 (0000,0000) 0
one;disc;01 > 72 0 0 0 (0000,0000) 0
one+study;; > 41 0 0 0 (0000,0000) 0
one 128 '4+v1;; > 51 21 0 0 (0000,0000) 0
one+v1;; > 52 0 0 0 (0000,0000) 1
one+one 370 '________;; > 53 0 0 320 (0000,0000) 1
one+v3 674 ffff;; > 61 0 0 646 (0000,0000) 1
one+v3;; > 62 0 0 646 (0000,0000) 1
one 402 2020;; > 63 0 0 320 (0010,0020) 0
one+one+gone 908 '.;; > 65 0 0 0 (0000,0000) 2";

/// A set; UIDs to withdraw; the File-set ID; and the UID. Then what a merge answers.
const WITHDRAWALS: &str = "\
one;1.2.3.4.5;;2.25.0 > 0 362 0 0:
one;1.2.3.4.6;;2.25.0 > 0 918 1 35: 0 'PT000001\\ST000001\\SE000001\\IM000001
one;1.2.3.4.6+1..2+x;; > 71 0 0 0 (0000,0000) 1
one;1..2;disc; > 72 0 0 0 (0000,0000) 0
v1;1..2;; > 71 0 0 0 (0000,0000) 0
v1;1.2;; > 52 0 0 0 (0000,0000) 0
v3;1.2;; > 62 0 0 646 (0000,0000) 0";

/// The changes to V1 of an image with its UID and another name of its patient, and with another UID too.
const OTHER_NAME: &str = "0010,0010 PN 'ROE^JANE";

const OTHER_IMAGE: &str =
    "0002,0003 UI '1.2.3.4.7~; 0008,0018 UI '1.2.3.4.7~; 0010,0010 PN 'ROE^JANE";

/// The changes to V1 of an image whose study has V1's series.
const OTHER_STUDY: &str =
    "0002,0003 UI '1.2.8.4.1~; 0008,0018 UI '1.2.8.4.1~; 0020,000D UI '1.2.8~";

/// The sets of a merge or the set of a withdrawal, the UIDs to withdraw, and the label that is asked for.
struct Asked<'a> {
    sets: Texts,
    uids: Option<Texts>,
    id: &'a str,
    uid: &'a str,
}

impl Drop for Asked<'_> {
    fn drop(self) {
        let Asked {
            sets: _sets,
            uids: _uids,
            id: _,
            uid: _,
        } = self;
    }
}

struct Rooms {
    text: Vec<u8>,
    sets: Vec<u64>,
    file_ends: Vec<u64>,
    files: Vec<u8>,
}

impl Drop for Rooms {
    fn drop(self) {
        let Rooms {
            text: _text,
            sets: _sets,
            file_ends: _file_ends,
            files: _files,
        } = self;
    }
}

fn rooms_of(alloc: Global, answer: &Answer) -> Result<Rooms, Fail> {
    let images = usize::try_from(answer.rows)?;
    Ok(Rooms {
        text: vec![in alloc; 0; usize::try_from(answer.text)?]?,
        sets: vec![in alloc; 0; images]?,
        file_ends: vec![in alloc; 0; images]?,
        files: vec![in alloc; 0; usize::try_from(answer.files)?]?,
    })
}

fn make(alloc: Global, asked: &Asked<'_>, rooms: &mut Rooms, answer: &mut Answer) -> u32 {
    let (id, uid) = (asked.id.as_bytes(), asked.uid.as_bytes());
    let Rooms {
        text,
        sets,
        file_ends,
        files,
    } = rooms;
    match &asked.uids {
        None => merge(
            alloc,
            &asked.sets.text,
            &asked.sets.ends,
            id,
            uid,
            text,
            sets,
            file_ends,
            files,
            answer,
        ),
        Some(uids) => withdraw(
            alloc,
            &asked.sets.text,
            &uids.text,
            &uids.ends,
            id,
            uid,
            text,
            sets,
            file_ends,
            files,
            answer,
        ),
    }
}

/// Makes what is asked for: the status, the answer and the rooms that it fills.
fn make_in_room(alloc: Global, asked: &Asked<'_>) -> Result<(u32, Answer, Rooms), Fail> {
    let mut answer = no_answer();
    let mut rooms = rooms_of(alloc, &answer)?;
    let status = make(alloc, asked, &mut rooms, &mut answer);
    if status != ROOM {
        return Ok((status, answer, rooms));
    }
    let mut rooms = rooms_of(alloc, &answer)?;
    let status = make(alloc, asked, &mut rooms, &mut answer);
    Ok((status, answer, rooms))
}

fn made_in_words(alloc: Global, asked: &Asked<'_>) -> Result<String, Fail> {
    let (status, answer, rooms) = make_in_room(alloc, asked)?;
    let mut said = words(alloc, status, &answer)?;
    if status < ROOM {
        said.push(':')?;
        for set in &rooms.sets {
            write!(said, " {set}")?;
        }
        push_texts(alloc, &mut said, &rooms.files, &rooms.file_ends)?;
    }
    Ok(said)
}

fn set_of(alloc: Global, words: &str) -> Result<Vec<u8>, Fail> {
    match words {
        "image" => directory_of(alloc, ""),
        "named" => directory_of(alloc, OTHER_NAME),
        "second" => directory_of(alloc, OTHER_IMAGE),
        "study" => directory_of(alloc, OTHER_STUDY),
        words => directory(alloc, words),
    }
}

pub(crate) fn sets_in(alloc: Global, words: &str) -> Result<Texts, Fail> {
    let mut sets = Texts::new(alloc);
    for words in words.split('+') {
        sets.put(&set_of(alloc, words)?)?;
    }
    Ok(sets)
}

fn uids_in(alloc: Global, words: &str) -> Result<Texts, Fail> {
    let mut uids = Texts::new(alloc);
    for uid in words.split('+') {
        uids.put(uid.as_bytes())?;
    }
    Ok(uids)
}

fn merge_in_words(alloc: Global, question: &str) -> Result<String, Fail> {
    let (sets, label) = question.split_once(';').ok_or("no label")?;
    let (id, uid) = label.split_once(';').ok_or("no UID")?;
    let (sets, uids) = (sets_in(alloc, sets)?, None);
    made_in_words(
        alloc,
        &Asked {
            sets,
            uids,
            id,
            uid,
        },
    )
}

fn withdrawal_in_words(alloc: Global, question: &str) -> Result<String, Fail> {
    let (set, rest) = question.split_once(';').ok_or("no UIDs")?;
    let (uids, label) = rest.split_once(';').ok_or("no label")?;
    let (id, uid) = label.split_once(';').ok_or("no UID")?;
    let (sets, uids) = (sets_in(alloc, set)?, Some(uids_in(alloc, uids)?));
    made_in_words(
        alloc,
        &Asked {
            sets,
            uids,
            id,
            uid,
        },
    )
}

#[test]
fn merges_and_withdrawals(rt: HostRuntime) -> Result<(), Fail> {
    ask_all(rt.alloc(), MERGES, merge_in_words)?;
    ask_all(rt.alloc(), WITHDRAWALS, withdrawal_in_words)
}

/// Makes the directory that a merge of these sets gives.
fn bytes_of_merge(alloc: Global, words: &str) -> Result<Vec<u8>, Fail> {
    let asked = Asked {
        sets: sets_in(alloc, words)?,
        uids: None,
        id: "",
        uid: "2.25.0",
    };
    let (_status, _answer, rooms) = make_in_room(alloc, &asked)?;
    Ok(rooms.text.clone()?)
}

#[test]
fn bytes_of_merges(rt: HostRuntime) -> Result<(), Fail> {
    let alloc = rt.alloc();
    assert!(rt; bytes_of_merge(alloc, "image")? == first_directory(alloc)?);
    assert!(rt; bytes_of_merge(alloc, "one+gone")? == directory(alloc, "gone")?);
    Ok(())
}

/// Ends of two pieces of eight bytes that can't be cut there.
const BAD_ENDS: [[u64; 2]; 3] = [[8, 9], [9, 9], [5, 4]];

#[test]
fn ends_that_do_not_rise(rt: HostRuntime) -> Result<(), Fail> {
    for ends in BAD_ENDS {
        let mut answer = no_answer();
        let status = merge(
            rt.alloc(),
            &[0; 8],
            &ends,
            b"",
            b"",
            &mut [],
            &mut [],
            &mut [],
            &mut [],
            &mut answer,
        );
        assert_eq!(rt;
            words(rt.alloc(), status, &answer)?.as_str(),
            "2 0 0 0 (0000,0000) 0"
        );
    }
    Ok(())
}
