//! Directories of the images of directories.

ghost use Rattle.std.specs.Prelude.{◌≡◌, ◌≢◌, ◌<◌, [], IfErr, IfOk, IsOk, map};
ghost use Rattle.dd_engine.specs.declared.choice.Choice.{Choice};
ghost use Rattle.dd_making.specs.Cuts.{AreEnds, cuts};
ghost use Rattle.dd_making.specs.Merges.{AsksFor, GivesMade, IsMade, IsNotMade, IsRefusedMerge, LacksRoom, rooms};
ghost use Rattle.dd_making.specs.Refusals.{IsFault};

use crate::choosing::choice_of;
use crate::cutting::pieces;
use crate::made::Made;
use crate::refusals::merge_refusal;
use dd_calls::Answer;
use dd_engine::{Choice, merge_engine};
use dd_layout::Limits;
use std::alloc::Global;

/// Merges the directories that stand one after the other in `bytes` and end at `ends`. The label has this File-set ID,
/// and this UID or, where it is empty, the one that follows from the directory. Gives the directory of all their images
/// to the front of `text`. For each image, in the order of its records, it gives the number of the set that has its
/// file to `sets`. It gives the File ID there to `files`, which ends at the number in `file_ends`. It answers 0 then.
///
/// Else nothing of these is changed, and the status is, in this order:
///
/// - 72 where `id` is no File-set ID, 71 where `uid` is neither empty nor a UID
/// - 2 where `ends` do not rise or pass `bytes`
/// - the number of the fault of `merge_engine`
/// - 91 where an allocation is refused, at any time
/// - 1 where a room is too short
pub fn merge(
    alloc: Global,
    bytes: &[u8],
    ends: &[u64],
    id: &[u8],
    uid: &[u8],
    text: &mut [u8],
    sets: &mut [u64],
    file_ends: &mut [u64],
    files: &mut [u8],
    answer: &mut Answer,
) -> u32
    ensures made { result ≡ 0 → GivesMade id.now uid.now [] (cuts 0 bytes.now ends.now)
        (rooms text.old sets.old file_ends.old files.old)
        (rooms text.new sets.new file_ends.new files.new) answer.new }
    ensures room { result ≡ 1 → LacksRoom id.now uid.now [] (cuts 0 bytes.now ends.now)
        (rooms text.old sets.old file_ends.old files.old) answer.new }
    ensures ends { result < 2 → AreEnds 0 bytes.now ends.now }
    ensures refused { 1 < result → IsRefusedMerge id.now uid.now bytes.now ends.now answer.new }
    ensures status { 1 < result → result ≡ answer.new.fault }
    ensures same { result ≢ 0 → rooms text.new sets.new file_ends.new files.new
        ≡ rooms text.old sets.old file_ends.old files.old }
{
    match made_of(alloc, bytes, ends, id, uid) {
        Ok(made) => made.give(text, sets, file_ends, files, answer),
        Err(refusal) => {
            *answer = refusal;
            refusal.fault
        }
    }
}

fn made_of(alloc: Global, bytes: &[u8], ends: &[u64], id: &[u8], uid: &[u8]) -> Result<Made, Answer>
    ensures made { IfOk result (λ made. (choice : Choice) × AsksFor id.now uid.now choice
        × IsMade choice [] (cuts 0 bytes.now ends.now) made) }
    ensures ends { IsOk result → AreEnds 0 bytes.now ends.now }
    ensures refused { IfErr result (IsRefusedMerge id.now uid.now bytes.now ends.now) }
    ensures fault { IfErr result (λ answer. IsFault answer.fault) }
{
    let Choice { id, uid } = choice_of(id, uid)?;
    let sets = pieces(alloc, bytes, ends)?;
    merge_sets(alloc, &sets, &Choice { id, uid })
}

fn merge_sets(alloc: Global, sets: &[&[u8]], choice: &Choice) -> Result<Made, Answer>
    ensures made { IfOk result (IsMade choice.now [] (map (λ set. set.now) sets.now)) }
    ensures refused { IfErr result (IsNotMade choice.now [] (map (λ set. set.now) sets.now)) }
    ensures fault { IfErr result (λ answer. IsFault answer.fault) }
{
    match merge_engine(alloc, sets, choice, Limits::of_bytes(u32::MAX)) {
        Ok(merged) => Made::of(alloc, &merged),
        Err(fault) => Err(merge_refusal(&fault)),
    }
}
