//! What a merge of directories says beside its directory.

ghost use Rattle.std.specs.Prelude.{◌≡◌, ◌≢◌, ◌<◌, ◌⊎◌, [], IfErr, IfOk, IsOk, map};
ghost use Rattle.dd_engine.specs.declared.choice.Choice.{Choice};
ghost use Rattle.dd_calls.specs.Sizes.{by_number};
ghost use Rattle.dd_making.specs.Cuts.{AreEnds, cuts};
ghost use Rattle.dd_making.specs.Merges.{AsksFor, IsNotMade, IsRefusedMerge};
ghost use Rattle.dd_making.specs.Notes.{AreNotesOf};
ghost use Rattle.dd_making.specs.Noted.{AreNoted, GivesNotes, IsWiderTable, LacksNoteRoom, TableLiesIn, note_rooms};
ghost use Rattle.dd_making.specs.Noted.{sum_of, table_size};
ghost use Rattle.dd_making.specs.Refusals.{IsFault};

use crate::choosing::choice_of;
use crate::cutting::pieces;
use crate::note_rows::{NoteRow, NoteTable};
use crate::refusals::merge_refusal;
use dd_calls::{Answer, DONE, MEMORY, ROOM};
use dd_engine::{Choice, NotedMerge, merge_with_notes};
use dd_layout::Limits;
use std::alloc::Global;

/// The images of the sets of a merge, by what became of them.
#[repr(C)]
#[derive(Debug, Clone, Copy, PartialEq, Eq)]
pub struct Sum {
    /// The IMAGE records that the walks of the sets reach.
    pub images: u64,
    /// The images of the directory, each with its first file.
    pub kept: u64,
    /// Those of whose instance other bytes are kept.
    pub left_out: u64,
    /// The others: each repeats one that is kept.
    pub repeated: u64,
    /// Those whose instance is withdrawn.
    pub withdrawn: u64,
}

/// Holds what is noted of a merge.
#[derive(Drop)]
struct MergeNotes {
    table: NoteTable,
    sum: Sum,
}

/// Merges as `merge` does, and gives the notes of it to the front of `rows`: each file that is left out, in the order
/// in which they came, and then each Patient ID with several names, in rising order. Their texts go to `text`, and
/// `text_ends` has where each of them ends. `sum` counts the images. It answers 0 then, and as files how many texts
/// there are.
///
/// Else nothing of these is changed, and the status is that of `merge`, where 1 speaks of these rooms.
pub fn notes(
    alloc: Global,
    bytes: &[u8],
    ends: &[u64],
    id: &[u8],
    uid: &[u8],
    rows: &mut [NoteRow],
    text_ends: &mut [u64],
    text: &mut [u8],
    sum: &mut Sum,
    answer: &mut Answer,
) -> u32
    ensures given { result ≡ 0 → GivesNotes id.now uid.now (cuts 0 bytes.now ends.now)
        (note_rooms rows.old text_ends.old text.old sum.old)
        (note_rooms rows.new text_ends.new text.new sum.new) answer.new }
    ensures room { result ≡ 1 → LacksNoteRoom id.now uid.now (cuts 0 bytes.now ends.now)
        (note_rooms rows.old text_ends.old text.old sum.old) answer.new }
    ensures ends { result < 2 → AreEnds 0 bytes.now ends.now }
    ensures refused { 1 < result → IsRefusedMerge id.now uid.now bytes.now ends.now answer.new }
    ensures status { 1 < result → result ≡ answer.new.fault }
    ensures same { result ≢ 0 → note_rooms rows.new text_ends.new text.new sum.new
        ≡ note_rooms rows.old text_ends.old text.old sum.old }
{
    match notes_of(alloc, bytes, ends, id, uid) {
        Ok(notes) => notes.give(rows, text_ends, text, sum, answer),
        Err(refusal) => {
            *answer = refusal;
            refusal.fault
        }
    }
}

fn notes_of(
    alloc: Global,
    bytes: &[u8],
    ends: &[u64],
    id: &[u8],
    uid: &[u8],
) -> Result<MergeNotes, Answer>
    ensures noted { IfOk result (λ notes. (choice : Choice) × AsksFor id.now uid.now choice
        × AreNoted choice (cuts 0 bytes.now ends.now) notes.table notes.sum) }
    ensures ends { IsOk result → AreEnds 0 bytes.now ends.now }
    ensures refused { IfErr result (IsRefusedMerge id.now uid.now bytes.now ends.now) }
    ensures fault { IfErr result (λ answer. IsFault answer.fault) }
{
    let Choice { id, uid } = choice_of(id, uid)?;
    let sets = pieces(alloc, bytes, ends)?;
    note_sets(alloc, &sets, &Choice { id, uid })
}

fn note_sets(alloc: Global, sets: &[&[u8]], choice: &Choice) -> Result<MergeNotes, Answer>
    ensures noted { IfOk result (λ notes.
        AreNoted choice.now (map (λ set. set.now) sets.now) notes.table notes.sum) }
    ensures refused { IfErr result (IsNotMade choice.now [] (map (λ set. set.now) sets.now)) }
    ensures fault { IfErr result (λ answer. IsFault answer.fault) }
{
    match merge_with_notes(alloc, sets, choice, Limits::of_bytes(u32::MAX)) {
        Ok(noted) => MergeNotes::of(alloc, &noted),
        Err(noted) => Err(merge_refusal(&noted.fault)),
    }
}

impl MergeNotes {
    /// Makes this of what was merged. 91 where an allocation is refused.
    fn of(alloc: Global, noted: &NotedMerge<'_>) -> Result<MergeNotes, Answer>
        ensures table { IfOk result (λ notes. AreNotesOf noted.now.notes notes.table) }
        ensures sum { IfOk result (λ notes. notes.sum ≡ sum_of noted.now) }
        ensures memory { IfErr result (λ answer. answer ≡ by_number 91) }
    {
        match NoteTable::of(alloc, &noted.notes) {
            Ok(table) => Ok(MergeNotes {
                table,
                sum: sum_of(noted),
            }),
            Err(_) => Err(Answer::of_number(MEMORY)),
        }
    }

    /// Gives all of it to these and answers 0, where each part fits; else 1, and they are as before. `answer` has its
    /// sizes.
    fn give(
        &self,
        rows: &mut [NoteRow],
        text_ends: &mut [u64],
        text: &mut [u8],
        sum: &mut Sum,
        answer: &mut Answer,
    ) -> u32
        ensures lies { result ≡ 0 → TableLiesIn self.now.table
            (note_rooms rows.old text_ends.old text.old sum.old)
            (note_rooms rows.new text_ends.new text.new sum.new) }
        ensures sum { result ≡ 0 → sum.new ≡ self.now.sum }
        ensures wider { result ≢ 0 → IsWiderTable self.now.table
            (note_rooms rows.old text_ends.old text.old sum.old) }
        ensures same { result ≢ 0 → note_rooms rows.new text_ends.new text.new sum.new
            ≡ note_rooms rows.old text_ends.old text.old sum.old }
        ensures status { (result ≡ 0) ⊎ (result ≡ 1) }
        ensures size { answer.new ≡ table_size self.now.table }
    {
        let (count, texts) = (self.table.rows.len(), &self.table.texts);
        *answer = Answer::sized(
            texts.text.len() as u64,
            count as u64,
            texts.ends.len() as u64,
        );
        if count > rows.len() || !texts.give(text, text_ends) {
            return ROOM;
        }
        rows[..count].copy_from_slice(&self.table.rows);
        *sum = self.sum;
        DONE
    }
}

fn sum_of(noted: &NotedMerge<'_>) -> Sum
    ensures { result ≡ sum_of noted.now }
{
    let images = noted.sets.images;
    let kept = noted.merged.plan.versions().len();
    let left_out = noted.notes.left_out.len();
    let withdrawn = noted.sets.all_withdrawn;
    let others = images.saturating_sub(kept).saturating_sub(left_out);
    Sum {
        images: images as u64,
        kept: kept as u64,
        left_out: left_out as u64,
        repeated: others.saturating_sub(withdrawn) as u64,
        withdrawn: withdrawn as u64,
    }
}
