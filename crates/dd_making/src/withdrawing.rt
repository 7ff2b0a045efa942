//! Directories from which instances are withdrawn.

ghost use Rattle.std.specs.Prelude.{◌≡◌, ◌≢◌, ◌<◌, ◌∷◌, ◌⊎◌, [], IfErr, IfOk, IsOk, map};
ghost use Rattle.std.specs.List.{AllByRecursion};
ghost use Rattle.dd_elem.specs.Uid.{IsUid};
ghost use Rattle.dd_engine.specs.declared.choice.Choice.{Choice};
ghost use Rattle.dd_calls.specs.Sizes.{by_number};
ghost use Rattle.dd_making.specs.Cuts.{AreEnds, cuts};
ghost use Rattle.dd_making.specs.Merges.{AsksFor, GivesMade, HasNoUid, IsMade, IsNotMade, IsRefusedWithdrawal};
ghost use Rattle.dd_making.specs.Merges.{LacksRoom, rooms};
ghost use Rattle.dd_making.specs.Refusals.{IsFault};

use crate::choosing::choice_of;
use crate::cutting::pieces;
use crate::made::Made;
use crate::refusals::{merge_refusal, of_input};
use dd_calls::{Answer, MEMORY};
use dd_elem::Uid;
use dd_engine::{Choice, withdraw_engine};
use dd_layout::Limits;
use std::alloc::Global;

/// Withdraws instances from the directory in `bytes`: those whose SOP Instance UIDs stand one after the other in
/// `uids`, and end at `uid_ends`. It gives and answers what `merge` does, under the same label.
///
/// Refused as `merge` is, where 2 speaks of `uid_ends` and `uids`. After that, and before the directory is looked at,
/// 71 names the first text that is no UID, by its number.
pub fn withdraw(
    alloc: Global,
    bytes: &[u8],
    uids: &[u8],
    uid_ends: &[u64],
    id: &[u8],
    uid: &[u8],
    text: &mut [u8],
    sets: &mut [u64],
    file_ends: &mut [u64],
    files: &mut [u8],
    answer: &mut Answer,
) -> u32
    ensures made { result ≡ 0 → GivesMade id.now uid.now (cuts 0 uids.now uid_ends.now) (bytes.now ∷ [])
        (rooms text.old sets.old file_ends.old files.old)
        (rooms text.new sets.new file_ends.new files.new) answer.new }
    ensures room { result ≡ 1 → LacksRoom id.now uid.now (cuts 0 uids.now uid_ends.now) (bytes.now ∷ [])
        (rooms text.old sets.old file_ends.old files.old) answer.new }
    ensures ends { result < 2 → AreEnds 0 uids.now uid_ends.now }
    ensures uids { result < 2 → AllByRecursion IsUid (cuts 0 uids.now uid_ends.now) }
    ensures refused { 1 < result
        → IsRefusedWithdrawal id.now uid.now bytes.now uids.now uid_ends.now answer.new }
    ensures status { 1 < result → result ≡ answer.new.fault }
    ensures same { result ≢ 0 → rooms text.new sets.new file_ends.new files.new
        ≡ rooms text.old sets.old file_ends.old files.old }
{
    match made_of(alloc, bytes, uids, uid_ends, id, uid) {
        Ok(made) => made.give(text, sets, file_ends, files, answer),
        Err(refusal) => {
            *answer = refusal;
            refusal.fault
        }
    }
}

fn made_of(
    alloc: Global,
    bytes: &[u8],
    uids: &[u8],
    uid_ends: &[u64],
    id: &[u8],
    uid: &[u8],
) -> Result<Made, Answer>
    ensures made { IfOk result (λ made. (choice : Choice) × AsksFor id.now uid.now choice
        × IsMade choice (cuts 0 uids.now uid_ends.now) (bytes.now ∷ []) made) }
    ensures ends { IsOk result → AreEnds 0 uids.now uid_ends.now }
    ensures uids { IsOk result → AllByRecursion IsUid (cuts 0 uids.now uid_ends.now) }
    ensures refused { IfErr result
        (IsRefusedWithdrawal id.now uid.now bytes.now uids.now uid_ends.now) }
    ensures fault { IfErr result (λ answer. IsFault answer.fault) }
{
    let Choice { id, uid } = choice_of(id, uid)?;
    let texts = pieces(alloc, uids, uid_ends)?;
    withdraw_texts(alloc, bytes, &texts, &Choice { id, uid })
}

fn withdraw_texts(
    alloc: Global,
    bytes: &[u8],
    texts: &[&[u8]],
    choice: &Choice,
) -> Result<Made, Answer>
    ensures made { IfOk result (IsMade choice.now (map (λ text. text.now) texts.now) (bytes.now ∷ [])) }
    ensures uids { IsOk result → AllByRecursion IsUid (map (λ text. text.now) texts.now) }
    ensures refused { IfErr result (λ answer. HasNoUid (map (λ text. text.now) texts.now) answer
        ⊎ IsNotMade choice.now (map (λ text. text.now) texts.now) (bytes.now ∷ []) answer) }
    ensures fault { IfErr result (λ answer. IsFault answer.fault) }
{
    let uids = uids_of(alloc, texts)?;
    match withdraw_engine(alloc, bytes, &uids, choice, Limits::of_bytes(u32::MAX)) {
        Ok(merged) => Made::of(alloc, &merged),
        Err(fault) => Err(merge_refusal(&fault)),
    }
}

/// Reads each text as a UID. 71 names the first that is no UID; 91 where an allocation is refused.
fn uids_of(alloc: Global, texts: &[&[u8]]) -> Result<Vec<Uid>, Answer>
    ensures uids { IfOk result (λ uids. uids.items ≡ map (λ text. text.now) texts.now) }
    ensures each { IsOk result → AllByRecursion IsUid (map (λ text. text.now) texts.now) }
    ensures refused { IfErr result (λ answer. HasNoUid (map (λ text. text.now) texts.now) answer
        ⊎ (answer ≡ by_number 91)) }
    ensures fault { IfErr result (λ answer. IsFault answer.fault) }
{
    let mut uids = Vec::new(alloc);
    for text in texts {
        let Ok(uid) = Uid::new(text) else {
            return Err(of_input(71, uids.len() as u64));
        };
        let Ok(()) = uids.push(uid) else {
            return Err(Answer::of_number(MEMORY));
        };
    }
    Ok(uids)
}
