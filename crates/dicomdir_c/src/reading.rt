//! Directories of any producer.

ghost use Rattle.std.specs.Prelude.{◌≡◌, ◌≢◌, length};
ghost use Rattle.dd_calls.specs.Answers.{IsListed, IsLonger, IsRefused};
ghost use Rattle.dd_calls.specs.Beside.{IsGivenBeside, IsWiderBeside};
ghost use Rattle.dd_calls.specs.Rows.{AreGiven, AreWider};
ghost use Rattle.dd_calls.specs.Sizes.{by_number};
ghost use Rattle.dd_calls.specs.Spelled.{AreGivenNames, AreLongerNames};

use dd_calls::{Answer, Row};
use std::alloc::Global;

/// Rises where a function comes, and changes where one is gone or does something else.
const INTERFACE: u32 = 2;

/// Gives the number of this interface.
#[unsafe(no_mangle)]
pub extern "C" fn dicomdir_interface() -> u32
    ensures { result ≡ INTERFACE }
{
    INTERFACE
}

/// Lists the records of the directory in `bytes`.
#[unsafe(no_mangle)]
pub extern "C" fn dicomdir_list(
    alloc: Global,
    bytes: &[u8],
    out: &mut [u8],
    answer: &mut Answer,
) -> u32
    ensures listed { result ≡ 0 → IsListed bytes.now out.old out.new answer.new }
    ensures longer { result ≡ 1 → IsLonger bytes.now (length out.old) answer.new }
    ensures refused { result ≢ 0 → result ≢ 1 → IsRefused bytes.now result answer.new }
    ensures same { result ≢ 0 → out.new ≡ out.old }
{
    dd_calls::list(alloc, bytes, out, answer)
}

/// Gives a row for each record of the directory in `bytes`, and its values at these tags.
#[unsafe(no_mangle)]
pub extern "C" fn dicomdir_rows(
    alloc: Global,
    bytes: &[u8],
    tags: &[u32],
    rows: &mut [Row],
    ends: &mut [u64],
    text: &mut [u8],
    answer: &mut Answer,
) -> u32
    ensures given { result ≡ 0 → AreGiven bytes.now tags.now rows.old ends.old text.old
        rows.new ends.new text.new answer.new }
    ensures longer { result ≡ 1 → AreWider bytes.now tags.now (length rows.old) (length ends.old)
        (length text.old) answer.new }
    ensures refused { result ≢ 0 → result ≢ 1 → IsRefused bytes.now result answer.new }
    ensures same_rows { result ≢ 0 → rows.new ≡ rows.old }
    ensures same_ends { result ≢ 0 → ends.new ≡ ends.old }
    ensures same_text { result ≢ 0 → text.new ≡ text.old }
{
    dd_calls::rows(alloc, bytes, tags, rows, ends, text, answer)
}

/// Gives the File-set ID and the UID of the directory in `bytes`, the UIDs that it withdraws, and how many of its
/// items are not reached.
#[unsafe(no_mangle)]
pub extern "C" fn dicomdir_front(
    alloc: Global,
    bytes: &[u8],
    ends: &mut [u64],
    text: &mut [u8],
    unreached: &mut u64,
    answer: &mut Answer,
) -> u32
    ensures given { result ≡ 0 → IsGivenBeside bytes.now ends.old text.old ends.new text.new
        unreached.new answer.new }
    ensures longer { result ≡ 1 → IsWiderBeside bytes.now (length ends.old) (length text.old)
        answer.new }
    ensures refused { result ≢ 0 → result ≢ 1 → IsRefused bytes.now result answer.new }
    ensures same_ends { result ≢ 0 → ends.new ≡ ends.old }
    ensures same_text { result ≢ 0 → text.new ≡ text.old }
    ensures same_count { result ≢ 0 → unreached.new ≡ unreached.old }
{
    dd_calls::front(alloc, bytes, ends, text, unreached, answer)
}

/// Gives the names under which a system may show `name`, a part of a File ID.
#[unsafe(no_mangle)]
pub extern "C" fn dicomdir_spellings(
    alloc: Global,
    name: &[u8],
    ends: &mut [u64],
    text: &mut [u8],
    answer: &mut Answer,
) -> u32
    ensures given { result ≡ 0 → AreGivenNames name.now ends.old text.old ends.new text.new answer.new }
    ensures longer { result ≡ 1 → AreLongerNames name.now (length ends.old) (length text.old) answer.new }
    ensures refused { result ≢ 0 → result ≢ 1 → (result ≡ 91) × (answer.new ≡ by_number 91) }
    ensures same_ends { result ≢ 0 → ends.new ≡ ends.old }
    ensures same_text { result ≢ 0 → text.new ≡ text.old }
{
    dd_calls::spellings(alloc, name, ends, text, answer)
}
