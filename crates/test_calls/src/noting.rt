//! What merges of directories note.

use crate::answers::{no_answer, push_texts, words};
use crate::making::sets_in;
use dd_calls::{Answer, ROOM, Texts};
use dd_making::{NoteRow, Sum, notes};
use dd_vectors::ask_all;
use std::alloc::Global;
use std::test::Fail;

/// Sets with what is put into their bytes; the File-set ID; and the UID. Then the status and the sizes; how many images
/// there are, are kept, left out, repeated and withdrawn; of each note its row; and all texts; or the fault.
const NOTES: &str = "\
one+one;; > 0 0 0 0: 2 1 0 1 0
image+second;; > 0 18 1 3: 2 2 0 0 0 | 2 0 0 2 'P1 'ROE^JANE 'DOE^JOHN
one+v2;;2.25.0 > 0 0 0 0: 1 1 0 0 0
one;disc; > 72 0 0 0 (0000,0000) 0
one;;01 > 71 0 0 0 (0000,0000) 0
one+v1;; > 52 0 0 0 (0000,0000) 1
one+study;; > 41 0 0 0 (0000,0000) 0
image+named;; > 0 79 1 3: 2 1 1 0 0 | 1 0 1 0 'PT000001\\ST000001\\SE000001\\IM000001 \
'PT000001\\ST000001\\SE000001\\IM000001 '1.2.3.4.5
image+named+named+second;; > 0 79 1 3: 4 2 1 1 0 | 1 0 1 0 'PT000001\\ST000001\\SE000001\\IM000001 \
'PT000001\\ST000001\\SE000001\\IM000001 '1.2.3.4.5
one+gone 916 '5;; > 0 0 0 0: 2 0 0 0 2";

struct Filled {
    rows: Vec<NoteRow>,
    ends: Vec<u64>,
    text: Vec<u8>,
    sum: Sum,
}

impl Drop for Filled {
    fn drop(self) {
        let Filled {
            rows: _rows,
            ends: _ends,
            text: _text,
            sum: _,
        } = self;
    }
}

fn room_for(alloc: Global, answer: &Answer) -> Result<Filled, Fail> {
    let row = NoteRow {
        kind: 0,
        set: 0,
        kept: 0,
        names: 0,
    };
    let sum = Sum {
        images: 0,
        kept: 0,
        left_out: 0,
        repeated: 0,
        withdrawn: 0,
    };
    Ok(Filled {
        rows: vec![in alloc; row; usize::try_from(answer.rows)?]?,
        ends: vec![in alloc; 0; usize::try_from(answer.files)?]?,
        text: vec![in alloc; 0; usize::try_from(answer.text)?]?,
        sum,
    })
}

/// Asks with the rooms that the answer wants.
fn ask(
    alloc: Global,
    sets: &Texts,
    label: (&str, &str),
    answer: &mut Answer,
) -> Result<(u32, Filled), Fail> {
    let mut filled = room_for(alloc, answer)?;
    let Filled {
        rows,
        ends,
        text,
        sum,
    } = &mut filled;
    let (id, uid) = (label.0.as_bytes(), label.1.as_bytes());
    let status = notes(
        alloc, &sets.text, &sets.ends, id, uid, rows, ends, text, sum, answer,
    );
    Ok((status, filled))
}

fn notes_in_words(alloc: Global, question: &str) -> Result<String, Fail> {
    let (sets, label) = question.split_once(';').ok_or("no label")?;
    let label = label.split_once(';').ok_or("no UID")?;
    let (sets, mut answer) = (sets_in(alloc, sets)?, no_answer());
    let (mut status, mut filled) = ask(alloc, &sets, label, &mut answer)?;
    if status == ROOM {
        (status, filled) = ask(alloc, &sets, label, &mut answer)?;
    }
    let mut said = words(alloc, status, &answer)?;
    if status < ROOM {
        let Sum {
            images,
            kept,
            left_out,
            repeated,
            withdrawn,
        } = filled.sum;
        write!(said, ": {images} {kept} {left_out} {repeated} {withdrawn}")?;
        push_rows(&mut said, &filled.rows)?;
        push_texts(alloc, &mut said, &filled.text, &filled.ends)?;
    }
    Ok(said)
}

fn push_rows(said: &mut String, rows: &[NoteRow]) -> Result<(), Fail> {
    for row in rows {
        let NoteRow {
            kind,
            set,
            kept,
            names,
        } = *row;
        write!(said, " | {kind} {set} {kept} {names}")?;
    }
    Ok(())
}

#[test]
fn notes_of_merges(rt: HostRuntime) -> Result<(), Fail> {
    ask_all(rt.alloc(), NOTES, notes_in_words)
}
