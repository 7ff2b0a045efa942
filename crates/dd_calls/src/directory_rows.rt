//! The records of a directory of any producer, as rows of a table.

ghost use Rattle.std.specs.Prelude.{◌≡◌, ◌≢◌, ◌⊎◌, ◌≤◌, ◌<◌, length, IfOk, IfErr};
ghost use Rattle.dd_walk.specs.ReadAnswers.{SaysMemory};
ghost use Rattle.dd_walk.specs.Reading.{Refuses};
ghost use Rattle.dd_calls.specs.Answers.{IsRefused};
ghost use Rattle.dd_calls.specs.Rows.{IsTable, AreWider, AreGiven};
ghost use Rattle.dd_calls.specs.Sizes.{over, sized};

use crate::answer::{Answer, DONE, ROOM};
use crate::table::{Row, Table, add_trees};
use dd_walk::{DirFault, read_directory};
use std::alloc::Global;

/// Gives a row for each record of the directory in `bytes` (PS3.3 section F.3.2.2), depth first, to the front of
/// `rows`. Gives the values of each at these tags to the fronts of `text` and `ends`, and answers 0. The values stand
/// in `text` one after the other, without their padding, and `ends` has where each of them ends.
///
/// Else nothing of them is changed, and the status is 1 where one of the three is too short, or the number of the
/// fault of `read_directory`. `answer` has how many rows there are and how long the text is, or where the fault is.
pub fn rows(
    alloc: Global,
    bytes: &[u8],
    tags: &[u32],
    rows: &mut [Row],
    ends: &mut [u64],
    text: &mut [u8],
    answer: &mut Answer,
) -> u32
    ensures given { result ≡ 0 → AreGiven bytes.now tags.now rows.old ends.old text.old
        rows.new ends.new text.new answer.new }
    ensures longer { result ≡ 1 → AreWider bytes.now tags.now (length rows.old) (length ends.old)
        (length text.old) answer.new }
    ensures refused { result ≢ 0 → result ≢ 1 → IsRefused bytes.now result answer.new }
    ensures same_rows { result ≢ 0 → rows.new ≡ rows.old }
    ensures same_ends { result ≢ 0 → ends.new ≡ ends.old }
    ensures same_text { result ≢ 0 → text.new ≡ text.old }
{
    match table_of(alloc, bytes, tags) {
        Ok(table) => give_table(&table, rows, ends, text, answer),
        Err(fault) => {
            *answer = Answer::of_directory(&fault, 0);
            answer.fault
        }
    }
}

fn table_of(alloc: Global, bytes: &[u8], tags: &[u32]) -> Result<Table, DirFault>
    ensures table { IfOk result (IsTable bytes.now tags.now) }
    ensures refused { IfErr result (λ fault. SaysMemory fault ⊎ Refuses bytes.now fault) }
{
    let forest = read_directory(alloc, bytes)?;
    let mut table = Table::new(alloc);
    add_trees(&forest.trees, 0, tags, &mut table)?;
    Ok(table)
}

/// Gives the table to the fronts of these, where each fits.
fn give_table(
    table: &Table,
    rows: &mut [Row],
    ends: &mut [u64],
    text: &mut [u8],
    answer: &mut Answer,
) -> u32
    ensures rows { result ≡ 0 → rows.new ≡ over table.now.rows.items rows.old }
    ensures ends { result ≡ 0 → ends.new ≡ over table.now.values.ends.items ends.old }
    ensures text { result ≡ 0 → text.new ≡ over table.now.values.text.items text.old }
    ensures fit_rows { result ≡ 0 → length table.now.rows.items ≤ length rows.old }
    ensures fit_ends { result ≡ 0 → length table.now.values.ends.items ≤ length ends.old }
    ensures fit_text { result ≡ 0 → length table.now.values.text.items ≤ length text.old }
    ensures room { result ≢ 0 → (length rows.old < length table.now.rows.items)
        ⊎ ((length ends.old < length table.now.values.ends.items)
        ⊎ (length text.old < length table.now.values.text.items)) }
    ensures same_rows { result ≢ 0 → rows.new ≡ rows.old }
    ensures same_ends { result ≢ 0 → ends.new ≡ ends.old }
    ensures same_text { result ≢ 0 → text.new ≡ text.old }
    ensures status { (result ≡ 0) ⊎ (result ≡ 1) }
    ensures size { answer.new ≡ sized (length table.now.values.text.items) (length table.now.rows.items) 0 }
{
    *answer = Answer::sized(table.values.text.len() as u64, table.rows.len() as u64, 0);
    if table.rows.len() > rows.len() || !table.values.give(text, ends) {
        return ROOM;
    }
    rows[..table.rows.len()].copy_from_slice(&table.rows);
    DONE
}
