//! Runs over the disc after steps, which put files there or are runs.

use crate::runs::disc::{are_equal, disc, put_files};
use crate::runs::runs::end_of;
use dd_mem_files::MemFiles;
use std::alloc::Global;
use std::test::Fail;

/// Makes the disc after steps, separated by `; `.
fn disc_after(alloc: Global, steps: &str) -> Result<MemFiles, Fail> {
    let mut files = disc(alloc)?;
    for step in steps.split("; ") {
        take_step(alloc, step, &mut files)?;
    }
    Ok(files)
}

const RUNS: [&str; 4] = ["index ", "merge ", "withdraw ", "stage "];

/// Runs a line, which must succeed, has hard links refused, has the first reader of a file fail, has writes fail after
/// some bytes, has a later call refused, has a file change at its second opening to what another has, or puts files.
fn take_step(alloc: Global, step: &str, files: &mut MemFiles) -> Result<(), Fail> {
    if step == "no links" {
        files.refuse_links();
        return Ok(());
    }
    if let Some(path) = step.strip_prefix("unread ") {
        files.fail_read(path, 1, 0)?;
        return Ok(());
    }
    if let Some(after) = step.strip_prefix("full ") {
        files.fail_write(after.parse()?);
        return Ok(());
    }
    if let Some(number) = step.strip_prefix("refused ") {
        files.fail_call(number.parse()?);
        return Ok(());
    }
    if let Some(words) = step.strip_prefix("later ") {
        let (path, other) = words.split_once('=').ok_or("no other file")?;
        let bytes = files.bytes(other).ok_or("no such file")?.to_vec(alloc)?;
        files.put_later(path, &bytes)?;
        return Ok(());
    }
    if !RUNS.iter().any(|run| step.starts_with(run)) {
        return put_files(alloc, files, step);
    }
    if !end_by(alloc, step, files)?.as_str().starts_with("0 ") {
        return Err("a step was refused".into());
    }
    Ok(())
}

pub(crate) fn end_by(alloc: Global, line: &str, files: &mut MemFiles) -> Result<String, Fail> {
    let line = format!(in alloc; "- - dicomdir {line}")?;
    end_of(alloc, line.as_str(), files)
}

/// Runs the line of `steps: line`: what is on the disc beside the rest, the line, its status, what both outputs hold,
/// and whether some file is new or has changed.
pub(crate) fn ran(alloc: Global, question: &str) -> Result<String, Fail> {
    let (steps, line) = question.split_once(": ").ok_or("no steps")?;
    let mut files = disc_after(alloc, steps)?;
    let end = end_of(alloc, line, &mut files)?;
    let are_kept = are_equal(alloc, &files, &disc_after(alloc, steps)?)?;
    let kept = if are_kept { "kept" } else { "changed" };
    Ok(format!(in alloc; "{end} {kept}")?)
}

/// Says whether, after the steps of `steps: line > step`, the line leaves the files that the last step does, however it
/// ends.
pub(crate) fn leave_the_same(alloc: Global, case: &str) -> Result<bool, Fail> {
    let (question, step) = case.split_once(" > ").ok_or("no other step")?;
    let (steps, line) = question.split_once(": ").ok_or("no steps")?;
    let mut files = disc_after(alloc, steps)?;
    end_by(alloc, line, &mut files)?;
    let mut others = disc_after(alloc, steps)?;
    take_step(alloc, step, &mut others)?;
    are_equal(alloc, &files, &others)
}
