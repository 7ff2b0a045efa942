//! What is read of directories: lists, rows and fronts.

use crate::answers::{directory, no_answer, push_texts, words};
use dd_calls::{Answer, ROOM, Row, front, list, rows, spellings};
use dd_vectors::{ask_all, push_lines, tag_of};
use std::alloc::{AllocError, Global};
use std::test::Fail;

/// A directory with what is put into its bytes at places. Then the status and the sizes of its list, and the lines, or
/// the fault: its causes, the offset, the tag and the number of the source.
const LISTS: &str = "\
v2 > 0 23 0 0: 0 records, 0 unreached|
v3 > 0 148 0 0: 320 PATIENT P1|  412 STUDY 1.2.3|    546 SERIES 1.2.3.4|      646 IMAGE IMAGES\\IM1 inactive|      \
818 SR DOCUMENT IMAGES\\SR1|5 records, 0 unreached|
one 128 '4 > 51 21 0 0 (0000,0000) 0
one 140 ffffffff > 51 22 0 0 (0000,0000) 0
one 188 0400 > 51 23 0 0 (0002,0003) 0
one 194 '. > 51 24 0 0 (0002,0003) 0
v2 226 '2 > 51 25 0 0 (0000,0000) 0
one 148 5a5a > 51 26 3 0 (0000,0000) 0
one 332 5551 > 51 27 3 0 (0000,0000) 0
v1 > 52 0 0 0 (0000,0000) 0
one 370 '________ > 53 0 0 320 (0000,0000) 0
one 282 41010000 > 54 0 0 321 (0000,0000) 0
one 336 40010000 > 55 0 0 320 (0000,0000) 0
one 282 00000000 > 56 0 0 0 (0000,0000) 0
deep > 58 0 0 1984 (0000,0000) 0";

/// A directory and tags. Then the status and the sizes of its table, and of each record the offset, the level, the type
/// and the flag. Then the values of each record at the tags.
const ROWS: &str = "\
v2;0010,0020 > 0 0 0 0::
v3;0010,0020 0004,1500 > 0 22 5 0: 320 0 1 1 412 1 2 1 546 2 3 1 646 3 4 0 818 3 0 1: 'P1 ' ' ' ' ' ' 'IMAGES\\IM1 ' \
'IMAGES\\SR1
v3; > 0 0 5 0: 320 0 1 1 412 1 2 1 546 2 3 1 646 3 4 0 818 3 0 1:
v1;0010,0020 > 52 0 0 0 (0000,0000) 0";

/// A directory. Then the status and the sizes of its front, the File-set ID, the UID and the withdrawn UIDs, and how
/// many items are not reached.
const FRONTS: &str = "\
v2 > 0 6 3 0: ' '2.25.0 ' 0
one 282 00000000 294 00000000 > 0 6 3 0: ' '2.25.0 ' 4
gone > 0 15 3 0: ' '2.25.0 '1.2.3.4.6 0
v1 > 52 0 0 0 (0000,0000) 0";

/// Gives the status and the list of a directory.
pub(crate) fn list_in_words(alloc: Global, bytes: &[u8]) -> Result<String, Fail> {
    let mut answer = no_answer();
    let status = list(alloc, bytes, &mut [], &mut answer);
    if status != ROOM {
        return Ok(words(alloc, status, &answer)?);
    }
    let mut text = vec![in alloc; 0; usize::try_from(answer.text)?]?;
    let status = list(alloc, bytes, &mut text, &mut answer);
    let mut said = words(alloc, status, &answer)?;
    said.push_str(": ")?;
    push_lines(&mut said, &text)?;
    Ok(said)
}

#[test]
fn lists_of_directories(rt: HostRuntime) -> Result<(), Fail> {
    ask_all(rt.alloc(), LISTS, |alloc, question| {
        list_in_words(alloc, &directory(alloc, question)?)
    })
}

/// What a call of `rows` fills.
struct Filled {
    rows: Vec<Row>,
    ends: Vec<u64>,
    text: Vec<u8>,
}

impl Drop for Filled {
    fn drop(self) {
        let Filled {
            rows: _rows,
            ends: _ends,
            text: _text,
        } = self;
    }
}

fn room_for(alloc: Global, answer: &Answer, tags: usize) -> Result<Filled, Fail> {
    let rows = usize::try_from(answer.rows)?;
    let blank = Row {
        at: 0,
        level: 0,
        kind: 0,
        in_use: 0,
    };
    Ok(Filled {
        rows: vec![in alloc; blank; rows]?,
        ends: vec![in alloc; 0; rows.checked_mul(tags).ok_or("many values")?]?,
        text: vec![in alloc; 0; usize::try_from(answer.text)?]?,
    })
}

fn tags_in(alloc: Global, words: &str) -> Result<Vec<u32>, Fail> {
    let mut tags = Vec::new(alloc);
    for word in words.split(' ') {
        if !word.is_empty() {
            tags.push(tag_of(word)?.number())?;
        }
    }
    Ok(tags)
}

fn push_rows(said: &mut String, rows: &[Row]) -> Result<(), AllocError> {
    for row in rows {
        let Row {
            at,
            level,
            kind,
            in_use,
        } = *row;
        write!(said, " {at} {level} {kind} {in_use}")?;
    }
    Ok(())
}

fn rows_in_words(alloc: Global, question: &str) -> Result<String, Fail> {
    let (name, tags) = question.split_once(';').ok_or("no tags")?;
    let (bytes, tags) = (directory(alloc, name)?, tags_in(alloc, tags)?);
    let mut answer = no_answer();
    let status = rows(alloc, &bytes, &tags, &mut [], &mut [], &mut [], &mut answer);
    if status > ROOM {
        return Ok(words(alloc, status, &answer)?);
    }
    let mut filled = room_for(alloc, &answer, tags.len())?;
    let status = rows(
        alloc,
        &bytes,
        &tags,
        &mut filled.rows,
        &mut filled.ends,
        &mut filled.text,
        &mut answer,
    );
    let mut said = words(alloc, status, &answer)?;
    said.push(':')?;
    push_rows(&mut said, &filled.rows)?;
    said.push(':')?;
    push_texts(alloc, &mut said, &filled.text, &filled.ends)?;
    Ok(said)
}

/// Gives the status and the front of a directory.
pub(crate) fn front_in_words(alloc: Global, bytes: &[u8]) -> Result<String, Fail> {
    let (mut ends, mut unreached, mut answer) = ([0; 3], 0, no_answer());
    let status = front(
        alloc,
        bytes,
        &mut ends,
        &mut [],
        &mut unreached,
        &mut answer,
    );
    if status != ROOM {
        return Ok(words(alloc, status, &answer)?);
    }
    let mut text = vec![in alloc; 0; usize::try_from(answer.text)?]?;
    let status = front(
        alloc,
        bytes,
        &mut ends,
        &mut text,
        &mut unreached,
        &mut answer,
    );
    let mut said = words(alloc, status, &answer)?;
    said.push(':')?;
    push_texts(alloc, &mut said, &text, &ends)?;
    write!(said, " {unreached}")?;
    Ok(said)
}

#[test]
fn fronts_of_directories(rt: HostRuntime) -> Result<(), Fail> {
    ask_all(rt.alloc(), FRONTS, |alloc, question| {
        front_in_words(alloc, &directory(alloc, question)?)
    })
}

/// A recorded name. Then the status and the sizes of its spellings, and each of them, or the sizes alone where the room
/// is short of one end, or of one byte.
const SPELLINGS: &str = "\
IM1 > 0 36 8 0: 'IM1 'im1 'IM1.;1 'IM1;1 'IM1. 'im1.;1 'im1;1 'im1. 1 36 8 0 1 36 8 0
A_9 > 0 36 8 0: 'A_9 'a_9 'A_9.;1 'A_9;1 'A_9. 'a_9.;1 'a_9;1 'a_9. 1 36 8 0 1 36 8 0";

fn spellings_in_words(alloc: Global, name: &str) -> Result<String, Fail> {
    let mut answer = no_answer();
    let (mut ends, mut text) = (vec![in alloc; 0; 8]?, vec![in alloc; 0; 36]?);
    let status = spellings(alloc, name.as_bytes(), &mut ends, &mut text, &mut answer);
    let mut said = words(alloc, status, &answer)?;
    said.push(':')?;
    push_texts(alloc, &mut said, &text, &ends)?;
    for (ends_len, text_len) in [(7, 36), (8, 35)] {
        let (mut ends, mut text) = (vec![in alloc; 0; ends_len]?, vec![in alloc; 0; text_len]?);
        let status = spellings(alloc, name.as_bytes(), &mut ends, &mut text, &mut answer);
        let again = words(alloc, status, &answer)?;
        write!(said, " {again}")?;
    }
    Ok(said)
}

#[test]
fn rows_of_directories_and_spellings_of_names(rt: HostRuntime) -> Result<(), Fail> {
    ask_all(rt.alloc(), ROWS, rows_in_words)?;
    ask_all(rt.alloc(), SPELLINGS, spellings_in_words)
}
