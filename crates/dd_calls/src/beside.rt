//! The values of a directory of any producer beside its records.

ghost use Rattle.std.specs.Prelude.{◌≡◌, ◌≢◌, ◌⊎◌, ◌≤◌, ◌<◌, ◌∷◌, [], IfOk, IfErr, length, option_map, unwrap_or};
ghost use Rattle.dd_walk.specs.ReadAnswers.{SaysMemory};
ghost use Rattle.dd_walk.specs.Reading.{Refuses};
ghost use Rattle.dd_calls.specs.Answers.{IsRefused};
ghost use Rattle.dd_calls.specs.Beside.{IsGivenBeside, IsWiderBeside, SaysBeside};
ghost use Rattle.dd_calls.specs.Sizes.{over, sized};
ghost use Rattle.dd_calls.specs.Texts.{AreTexts};

use crate::answer::{Answer, DONE, ROOM};
use crate::texts::Texts;
use dd_walk::{DirFault, read_directory};
use std::alloc::{AllocError, Global};

/// Holds the values of a directory beside its records.
#[derive(Drop)]
struct FrontValues {
    values: Texts,
    unreached: u64,
}

/// Gives three values of the directory in `bytes` to the fronts of `text` and `ends`. These are its File-set ID, its
/// UID (PS3.3 section F.3.2.1), and its withdrawn SOP Instance UIDs, with `\` between them. Gives `unreached` how many
/// of its items no offset reaches, and answers 0. The values stand in `text` one after the other, without their
/// padding, and `ends` has where each of them ends. One that the directory lacks has no bytes.
///
/// Else nothing of them is changed, and the status is 1 where `ends` or `text` is too short, or the number of the
/// fault of `read_directory`. `answer` has how many values there are, as rows, and how long the text is, or where the
/// fault is.
pub fn front(
    alloc: Global,
    bytes: &[u8],
    ends: &mut [u64],
    text: &mut [u8],
    unreached: &mut u64,
    answer: &mut Answer,
) -> u32
    ensures given { result ≡ 0 → IsGivenBeside bytes.now ends.old text.old ends.new text.new
        unreached.new answer.new }
    ensures longer { result ≡ 1 → IsWiderBeside bytes.now (length ends.old) (length text.old)
        answer.new }
    ensures refused { result ≢ 0 → result ≢ 1 → IsRefused bytes.now result answer.new }
    ensures same_ends { result ≢ 0 → ends.new ≡ ends.old }
    ensures same_text { result ≢ 0 → text.new ≡ text.old }
    ensures same_count { result ≢ 0 → unreached.new ≡ unreached.old }
{
    match front_of(alloc, bytes) {
        Ok(front) => give_front(&front, ends, text, unreached, answer),
        Err(fault) => {
            *answer = Answer::of_directory(&fault, 0);
            answer.fault
        }
    }
}

fn front_of(alloc: Global, bytes: &[u8]) -> Result<FrontValues, DirFault>
    ensures front { IfOk result (λ front. SaysBeside bytes.now front.values front.unreached) }
    ensures refused { IfErr result (λ fault. SaysMemory fault ⊎ Refuses bytes.now fault) }
{
    let forest = read_directory(alloc, bytes)?;
    let withdrawn = value_or_none(forest.withdrawn);
    let values = three_texts(alloc, forest.id, forest.uid.as_bytes(), withdrawn)?;
    Ok(FrontValues {
        values,
        unreached: forest.unreached,
    })
}

fn three_texts<'a>(
    alloc: Global,
    first: &'a [u8],
    second: &'a [u8],
    third: &'a [u8],
) -> Result<Texts, AllocError>
    ensures { IfOk result (AreTexts (first.now ∷ second.now ∷ third.now ∷ [])) }
{
    Texts::of(alloc, &[first, second, third])
}

/// Gives no bytes where there is no value.
fn value_or_none(value: Option<&[u8]>) -> &[u8]
    ensures { result.now ≡ unwrap_or (option_map (λ value. value.now) value.entry) [] }
{
    match value {
        Some(value) => value,
        None => &[],
    }
}

/// Gives the values to the fronts of these, where each fits.
fn give_front(
    front: &FrontValues,
    ends: &mut [u64],
    text: &mut [u8],
    unreached: &mut u64,
    answer: &mut Answer,
) -> u32
    ensures count { result ≡ 0 → unreached.new ≡ front.now.unreached }
    ensures ends { result ≡ 0 → ends.new ≡ over front.now.values.ends.items ends.old }
    ensures text { result ≡ 0 → text.new ≡ over front.now.values.text.items text.old }
    ensures fit_ends { result ≡ 0 → length front.now.values.ends.items ≤ length ends.old }
    ensures fit_text { result ≡ 0 → length front.now.values.text.items ≤ length text.old }
    ensures room { result ≢ 0 → (length ends.old < length front.now.values.ends.items)
        ⊎ (length text.old < length front.now.values.text.items) }
    ensures same_ends { result ≢ 0 → ends.new ≡ ends.old }
    ensures same_text { result ≢ 0 → text.new ≡ text.old }
    ensures same_count { result ≢ 0 → unreached.new ≡ unreached.old }
    ensures status { (result ≡ 0) ⊎ (result ≡ 1) }
    ensures size { answer.new ≡ sized (length front.now.values.text.items)
        (length front.now.values.ends.items) 0 }
{
    let values = &front.values;
    *answer = Answer::sized(values.text.len() as u64, values.ends.len() as u64, 0);
    if !values.give(text, ends) {
        return ROOM;
    }
    *unreached = front.unreached;
    DONE
}
