//! The records of a directory of any producer, as lines.

ghost use Rattle.std.specs.Prelude.{◌≡◌, ◌≢◌, ◌⊎◌, ◌≤◌, ◌<◌, length, IfOk, IfErr};
ghost use Rattle.dd_walk.specs.ReadAnswers.{SaysMemory};
ghost use Rattle.dd_walk.specs.Reading.{Refuses};
ghost use Rattle.dd_calls.specs.Answers.{IsListing, IsListed, IsLonger, IsRefused};
ghost use Rattle.dd_calls.specs.Sizes.{over, sized};

use crate::answer::{Answer, DONE, ROOM};
use crate::buffer::Buffer;
use dd_json::Style;
use dd_report::{Form, list_records};
use dd_walk::{DirFault, read_directory};
use std::alloc::Global;

/// Lists the records of the directory in `bytes`, as `dicomdir list` does (PS3.3 section F.3), to the front of `out`,
/// and answers 0. Else nothing of `out` is changed, and the status is 1 where the list is longer than `out`, or the
/// number of the fault of `read_directory`. `answer` has the length of the list, or where the fault is.
pub fn list(alloc: Global, bytes: &[u8], out: &mut [u8], answer: &mut Answer) -> u32
    // The whole list, or none of it.
    ensures listed { result ≡ 0 → IsListed bytes.now out.old out.new answer.new }
    ensures longer { result ≡ 1 → IsLonger bytes.now (length out.old) answer.new }
    ensures refused { result ≢ 0 → result ≢ 1 → IsRefused bytes.now result answer.new }
    ensures same { result ≢ 0 → out.new ≡ out.old }
{
    match listing_of(alloc, bytes) {
        Ok(text) => give(&text, out, answer),
        Err(fault) => {
            *answer = Answer::of_directory(&fault, 0);
            answer.fault
        }
    }
}

fn listing_of(alloc: Global, bytes: &[u8]) -> Result<Vec<u8>, DirFault>
    ensures text { IfOk result (λ text. IsListing bytes.now text.items) }
    ensures refused { IfErr result (λ fault. SaysMemory fault ⊎ Refuses bytes.now fault) }
{
    let forest = read_directory(alloc, bytes)?;
    let mut buffer = Buffer::with_capacity(alloc, 0)?;
    match list_records(&forest, Form::Short, Style::Text, &mut buffer) {
        Ok(()) => Ok(buffer.into_bytes()),
        Err(_) => Err(DirFault::Memory),
    }
}

/// Gives the text to the front of `out`, where it fits, and answers 0; else 1, and `out` is as before. `answer` has
/// its length.
pub fn give(text: &[u8], out: &mut [u8], answer: &mut Answer) -> u32
    ensures done { result ≡ 0 → out.new ≡ over text.now out.old }
    ensures fits { result ≡ 0 → length text.now ≤ length out.old }
    ensures room { result ≢ 0 → length out.old < length text.now }
    ensures same { result ≢ 0 → out.new ≡ out.old }
    ensures status { (result ≡ 0) ⊎ (result ≡ 1) }
    ensures size { answer.new ≡ sized (length text.now) 0 0 }
{
    *answer = Answer::sized(text.len() as u64, 0, 0);
    if text.len() > out.len() {
        return ROOM;
    }
    out[..text.len()].copy_from_slice(text);
    DONE
}
