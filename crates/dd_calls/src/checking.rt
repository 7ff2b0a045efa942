//! Checks files that a caller has by the records of their directory.

ghost use Rattle.std.specs.Prelude.{◌≡◌, ◌≢◌, ◌⊎◌, ◌<◌, ◌&&◌, IfErr, IfOk, IfSome, List, None, Some, length, map};
ghost use Rattle.std.specs.Prelude.{if◌then◌else◌, nat_le, option_map, slice_get, slice_range};
ghost use Rattle.dd_walk.specs.ReadAnswers.{SaysMemory};
ghost use Rattle.dd_walk.specs.Reading.{Refuses};
ghost use Rattle.dd_report.specs.Agreements.{Standing as Record};
ghost use Rattle.dd_calls.specs.Answers.{IsRefused};
ghost use Rattle.dd_calls.specs.Findings.{AreFound, FindingsGiven, IsAmiss, finding_row, found_there, rows_from};
ghost use Rattle.dd_calls.specs.Sizes.{by_number, sized};
ghost use Rattle.dd_calls.specs.Standings.{seen_by, standing_view};

use crate::answer::{ARGUMENTS, Answer, DONE, ROOM};
use crate::finding_row::FindingRow;
use crate::given_file::GivenFile;
use crate::judging::judge;
use crate::standing::{Standing, standings_of};
use dd_elem::Memory;
use dd_report::Comparison;
use dd_walk::{DirFault, read_directory};
use std::alloc::Global;

/// Gives what a check by this comparison finds of each of these files to the front of `findings`, and answers 0. The
/// records of the files stand in the directory `bytes`. What is given of each stands in `contents`, one after the
/// other. A file of which the digest alone is given is judged by its digest alone. Where a head comes after the digest,
/// the head stands for the file in a comparison of keys, as `heads_stand_for_files` says.
///
/// Else nothing of `findings` is changed, and the status is:
///
/// - 1 where it is shorter than `files`
/// - the number of the fault of `read_directory`
/// - 2 where a row is past the records, an end before the last one or past `contents`, or a form above 4. It is 2, too,
///   where a digest has another length than 32 bytes
/// - 91 where an allocation is refused
pub fn findings(
    alloc: Global,
    bytes: &[u8],
    files: &[GivenFile],
    contents: &[u8],
    comparison: Comparison,
    findings: &mut [FindingRow],
    answer: &mut Answer,
) -> u32
    ensures given { result ≡ 0 → FindingsGiven bytes.now comparison files.now contents.now
        findings.old findings.new answer.new }
    ensures room { result ≡ 1 → (length findings.old < length files.now)
        × (answer.new ≡ sized 0 (length files.now) 0) }
    ensures amiss { result ≡ 2 → IsAmiss bytes.now comparison files.now contents.now
        × (answer.new ≡ by_number 2) }
    ensures refused { result ≢ 0 → result ≢ 1 → result ≢ 2 → IsRefused bytes.now result answer.new }
    ensures same { result ≢ 0 → findings.new ≡ findings.old }
{
    if files.len() > findings.len() {
        *answer = Answer::sized(0, files.len() as u64, 0);
        return ROOM;
    }
    match rows_of(alloc, bytes, files, contents, comparison) {
        Ok(Some(rows)) => {
            *answer = Answer::sized(0, rows.len() as u64, 0);
            findings[..rows.len()].copy_from_slice(&rows);
            DONE
        }
        Ok(None) => {
            *answer = Answer::of_number(ARGUMENTS);
            ARGUMENTS
        }
        Err(fault) => {
            *answer = Answer::of_directory(&fault, 0);
            answer.fault
        }
    }
}

/// Gives None where one of the files is amiss.
fn rows_of(
    alloc: Global,
    bytes: &[u8],
    files: &[GivenFile],
    contents: &[u8],
    comparison: Comparison,
) -> Result<Option<Vec<FindingRow>>, DirFault>
    ensures found { IfOk result (λ rows. IfSome rows (λ rows.
        AreFound bytes.now comparison files.now contents.now rows.items)) }
    ensures few { IfOk result (λ rows. IfSome rows (λ rows. length rows.items ≡ length files.now)) }
    ensures amiss { IfOk result (λ rows. rows ≡ None → IsAmiss bytes.now comparison files.now contents.now) }
    ensures refused { IfErr result (λ fault. SaysMemory fault ⊎ Refuses bytes.now fault) }
{
    let forest = read_directory(alloc, bytes)?;
    let records = standings_of(alloc, &forest.trees)?;
    Ok(judge_all(alloc, &records, files, contents, comparison)?)
}

/// Gives None where one of the files is amiss.
fn judge_all(
    alloc: Global,
    records: &[Standing<'_, '_>],
    files: &[GivenFile],
    contents: &[u8],
    comparison: Comparison,
) -> Result<Option<Vec<FindingRow>>, Memory>
    ensures found { IfOk result (λ rows. (all : List Record)
        → map standing_view records.now ≡ map seen_by all
        → option_map (λ rows. rows.items) rows ≡ rows_from comparison all contents.now 0 files.now) }
    ensures few { IfOk result (λ rows. IfSome rows (λ rows. length rows.items ≡ length files.now)) }
{
    let mut rows = Vec::with_capacity(alloc, files.len())?;
    let mut start = 0;
    for file in files {
        let Some(given) = piece(contents, start, file.end) else {
            return Ok(None);
        };
        let Some(row) = judge_row(alloc, records, file, given, comparison)? else {
            return Ok(None);
        };
        rows.push(row)?;
        start = file.end;
    }
    Ok(Some(rows))
}

/// Gives the bytes between these places, where they are in order and within.
fn piece(contents: &[u8], start: u64, end: u64) -> Option<&[u8]>
    ensures { option_map (λ piece. piece.now) result
        ≡ (if nat_le start end && nat_le end (length contents.now)
        then Some (slice_range contents.now start end) else None) }
{
    if start <= end && end <= contents.len() as u64 {
        Some(&contents[start as usize..end as usize])
    } else {
        None
    }
}

/// Gives None where there is no such record, or the file is given in no form.
fn judge_row(
    alloc: Global,
    records: &[Standing<'_, '_>],
    file: &GivenFile,
    given: &[u8],
    comparison: Comparison,
) -> Result<Option<FindingRow>, Memory>
    ensures { IfOk result (λ row. (all : List Record) → map standing_view records.now ≡ map seen_by all
        → row ≡ option_map finding_row
        (found_there comparison file.now.given given.now (slice_get all file.now.row))) }
{
    if file.row >= records.len() as u64 {
        return Ok(None);
    }
    let standing = &records[file.row as usize];
    judge(alloc, standing, file.given, given, comparison)
}
