//! The names under which systems show a recorded name of a disc.

ghost use Rattle.std.specs.Prelude.{◌≡◌, ◌≢◌, ◌≤◌, ◌<◌, ◌⊎◌, IfOk, length};
ghost use Rattle.dd_spelling.specs.Spellings.{shown, spelled};
ghost use Rattle.dd_calls.specs.Sizes.{by_number, over, sized};
ghost use Rattle.dd_calls.specs.Spelled.{AreGivenNames, AreLongerNames};
ghost use Rattle.dd_calls.specs.Texts.{AreTexts};

use crate::answer::{Answer, DONE, MEMORY, ROOM};
use crate::texts::Texts;
use dd_spelling::Spelling;
use std::alloc::{AllocError, Global};

/// Gives the names under which a system may show `name`, a part of a File ID, to the fronts of `text` and `ends`, and
/// answers 0. They stand in `text` one after the other, in the order in which the program looks for them, and `ends`
/// has where each of them ends.
///
/// Else nothing of them is changed, and the status is 1 where `ends` or `text` is too short, or 91 where an allocation
/// is refused. `answer` has how many names there are, as rows, and how long the text is.
pub fn spellings(
    alloc: Global,
    name: &[u8],
    ends: &mut [u64],
    text: &mut [u8],
    answer: &mut Answer,
) -> u32
    ensures given { result ≡ 0 → AreGivenNames name.now ends.old text.old ends.new text.new answer.new }
    ensures longer { result ≡ 1 → AreLongerNames name.now (length ends.old) (length text.old) answer.new }
    ensures refused { result ≢ 0 → result ≢ 1 → (result ≡ 91) × (answer.new ≡ by_number 91) }
    ensures same_ends { result ≢ 0 → ends.new ≡ ends.old }
    ensures same_text { result ≢ 0 → text.new ≡ text.old }
{
    match names_of(alloc, name) {
        Ok(names) => give_names(&names, ends, text, answer),
        Err(_) => {
            *answer = Answer::of_number(MEMORY);
            MEMORY
        }
    }
}

fn names_of(alloc: Global, name: &[u8]) -> Result<Texts, AllocError>
    ensures { IfOk result (AreTexts (shown name.now)) }
{
    let mut names = Texts::new(alloc);
    for spelling in dd_spelling::spellings() {
        names.put(&spelled(alloc, name, spelling)?)?;
    }
    Ok(names)
}

fn spelled(alloc: Global, name: &[u8], spelling: Spelling) -> Result<Vec<u8>, AllocError>
    ensures { IfOk result (λ bytes. bytes.items ≡ spelled spelling name.now) }
{
    let mut bytes = Vec::new(alloc);
    bytes.extend_from_slice(name)?;
    if spelling.is_small {
        bytes.make_ascii_lowercase();
    }
    bytes.extend_from_slice(spelling.ending.as_bytes())?;
    Ok(bytes)
}

fn give_names(names: &Texts, ends: &mut [u64], text: &mut [u8], answer: &mut Answer) -> u32
    ensures ends { result ≡ 0 → ends.new ≡ over names.now.ends.items ends.old }
    ensures text { result ≡ 0 → text.new ≡ over names.now.text.items text.old }
    ensures fit_ends { result ≡ 0 → length names.now.ends.items ≤ length ends.old }
    ensures fit_text { result ≡ 0 → length names.now.text.items ≤ length text.old }
    ensures room { result ≢ 0 → (length ends.old < length names.now.ends.items)
        ⊎ (length text.old < length names.now.text.items) }
    ensures same_ends { result ≢ 0 → ends.new ≡ ends.old }
    ensures same_text { result ≢ 0 → text.new ≡ text.old }
    ensures status { (result ≡ 0) ⊎ (result ≡ 1) }
    ensures size { answer.new ≡ sized (length names.now.text.items) (length names.now.ends.items) 0 }
{
    *answer = Answer::sized(names.text.len() as u64, names.ends.len() as u64, 0);
    if names.give(text, ends) { DONE } else { ROOM }
}
