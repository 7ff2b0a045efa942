ghost use Rattle.std.specs.Prelude.{◌≡◌, ◌≢◌, ◌<◌, ◌≤◌, ◌↔◌, ◌⊎◌, ℕ, All, List, IfErr, IfOk, IsErr, IsOk, IsTrue, OnOk};
ghost use Rattle.std.specs.Prelude.{false, length, true};
ghost use Rattle.dd_elem.specs.Device.{HasFailed};
ghost use Rattle.dd_engine.specs.Indexed.{IsNamed, IsWithin};
ghost use Rattle.dd_engine.specs.Noting.{AreBelow, IsBelow};
ghost use Rattle.dd_sources.specs.declared.engine_fault.EngineFault.TheVariants as engine;
ghost use Rattle.dd_files.specs.Keeping.{IfSaid};
ghost use Rattle.dd_files.specs.Reasons.{HasCounted, HasFailedReader};
ghost use Rattle.dd_layout.specs.declared.fault.PlanFault.{PlanFault};
ghost use Rattle.dd_line.specs.Line.{words_of};
ghost use Rattle.dd_lines.specs.Text.{TakesText};
ghost use Rattle.dicomdir.specs.FileSupply.{bytes_read};
ghost use Rattle.dicomdir.specs.Indexes.{CountsPicks, DoneIndexes, Indexes, IsIndexStatus, has_failed, status_past};
ghost use Rattle.dd_file_set.specs.Left.{MakesDirectoryLast};
ghost use Rattle.dd_inputs.specs.ListedNames.{AreOfSources, HavePaths};
ghost use Rattle.dicomdir.specs.Noted.{IsNotedIndex};
ghost use Rattle.dicomdir.specs.Prints.{PrintsIndex};
ghost use Rattle.dd_faults.specs.Refusal.{IsOfWork};
ghost use Rattle.dd_faults.specs.Reasons.{IsDue, IsOfEngine};
ghost use Rattle.dicomdir.specs.Said.{SaysNotes};
ghost use Rattle.dicomdir.specs.Grounds.{GroundsOfIndex, HaveNoPlan, run_fault};

use crate::dates::keep_dates;
use crate::file_supply::FileSupply;
use crate::making::{Making, make_file_set, tell_plan_of_images};
use crate::note_lines::{
    has_notes, refuse_noted, tell_conflict, tell_left_out, tell_names, tell_skipped,
};
use crate::origins::SourceFiles;
use crate::source_counts::SourceCounts;
use crate::sum::{Sum, show_sum};
use crate::unread::{BadNames, Unread};
use dd_elem::{Memory, Write};
use dd_engine::{NotedFault, NotedIndex, PastFailures, index_past_failures, index_with_notes};
use dd_faults::{ProgramFault, Refusal, Subject};
use dd_file_set::FileSet;
use dd_files::{Files, Hints, Progress, SOURCE_LIMIT, Step};
use dd_json::Style;
use dd_keys::KeyFault;
use dd_layout::Limits;
use dd_sources::EngineFault;
use std::alloc::Global;
use std::fmt;

/// Runs `index`: reads all sources, prints what is skipped and what is noted, and makes the file-set of the others, or
/// prints what would be made.
pub(crate) fn run_index<F: Files + Progress + Hints, O: Write>(
    making: Making<'_>,
    sources: &[String],
    files: &mut F,
    out: &mut O,
) -> Result<u8, Refusal>
    requires { AreOfSources (words_of sources.now) making.bad_names.now }
    ensures refusal { IfErr result (IsOfWork (length sources.now)) }
    ensures due { IfErr result (λ refusal. IsDue F.In.Read (F.refusals files.new) (F.Write.failures files.new)
        making.entry.strict refusal.fault) }
    ensures grounds { (names : List (List ℕ))
        → HavePaths names (words_of sources.now) making.entry.bad_names.now
        → IfErr result (λ refusal. GroundsOfIndex making.entry.keep_going making.entry.names.now.choice
        making.entry.max_bytes names (F.held files.old) (F.held files.new) refusal.fault) }
    ensures failed { IfOk result (λ status. status ≡ 1 → HasFailed (O.failures out.old) (O.failures out.new)) }
    ensures status { IfOk result (IsIndexStatus making.entry.keep_going) }
    ensures dry { making.entry.dry_run ≡ true → F.held files.new ≡ F.held files.old }
    ensures last { IfSaid (MakesDirectoryLast making.entry.folder.now) (F.held files.old) (F.held files.new) }
    ensures made { (names : List (List ℕ))
        → HavePaths names (words_of sources.now) making.entry.bad_names.now
        → making.entry.dry_run ≡ false
        → DoneIndexes result making.entry.names.now.choice making.entry.max_bytes names
        making.entry.folder.now (F.held files.old) (F.held files.new) }
    ensures printed { (names : List (List ℕ))
        → HavePaths names (words_of sources.now) making.entry.bad_names.now
        → IfOk result (λ status. status ≢ 1 → PrintsIndex O.Write making.entry.style making.entry.dry_run
        making.entry.strict making.entry.keep_going making.entry.names.now.choice making.entry.max_bytes names
        status (F.held files.old) out.old out.new) }
{
    let mut sum = Sum::new();
    let done = index_sources(making, sources, &mut sum, files, out);
    if making.explains && matches!(done, Ok(0 | 3)) {
        show_sum(&sum, making.style, files);
    }
    done
}

/// Does so, and counts what becomes of the sources.
#[tactic(auto, using(crate::proofs::MadeLast::same_directory))]
fn index_sources<F: Files + Progress + Hints, O: Write>(
    making: Making<'_>,
    sources: &[String],
    sum: &mut Sum,
    files: &mut F,
    out: &mut O,
) -> Result<u8, Refusal>
    requires { AreOfSources (words_of sources.now) making.bad_names.now }
    ensures refusal { IfErr result (IsOfWork (length sources.now)) }
    ensures due { IfErr result (λ refusal. IsDue F.In.Read (F.refusals files.new) (F.Write.failures files.new)
        making.entry.strict refusal.fault) }
    ensures grounds { (names : List (List ℕ))
        → HavePaths names (words_of sources.now) making.entry.bad_names.now
        → IfErr result (λ refusal. GroundsOfIndex making.entry.keep_going making.entry.names.now.choice
        making.entry.max_bytes names (F.held files.old) (F.held files.new) refusal.fault) }
    ensures failed { IfOk result (λ status. status ≡ 1 → HasFailed (O.failures out.old) (O.failures out.new)) }
    ensures status { IfOk result (IsIndexStatus making.entry.keep_going) }
    ensures dry { making.entry.dry_run ≡ true → F.held files.new ≡ F.held files.old }
    ensures last { IfSaid (MakesDirectoryLast making.entry.folder.now) (F.held files.old) (F.held files.new) }
    ensures made { (names : List (List ℕ))
        → HavePaths names (words_of sources.now) making.entry.bad_names.now
        → making.entry.dry_run ≡ false
        → DoneIndexes result making.entry.names.now.choice making.entry.max_bytes names
        making.entry.folder.now (F.held files.old) (F.held files.new) }
    ensures printed { (names : List (List ℕ))
        → HavePaths names (words_of sources.now) making.entry.bad_names.now
        → IfOk result (λ status. status ≢ 1 → PrintsIndex O.Write making.entry.style making.entry.dry_run
        making.entry.strict making.entry.keep_going making.entry.names.now.choice making.entry.max_bytes names
        status (F.held files.old) out.old out.new) }
{
    let mut counts = counts_of(making.alloc, sources.len())?;
    files.begin_step(Step::Reading, sources.len() as u64);
    let answer = index_files(making, sources, &mut counts, files);
    files.hide_line();
    let past = match answer {
        Ok(past) => past,
        Err(fault) => return Err(refuse(sources, &fault, making.style, out)),
    };
    let bad_names = BadNames::Listed(making.bad_names);
    if tell_noted(&past, sources, bad_names, making.style, out).is_err() {
        return Ok(1);
    }
    *sum = Sum::of(&past, bad_names, sources);
    refuse_noted(making.strict, is_noted(&past.noted))?;
    let indexed = &past.noted.indexed;
    keep_dates(making.explains_in_words(), &indexed.plan, files);
    if making.dry_run {
        let images = bytes_of(&indexed.picks, &counts);
        let status = tell_plan_of_images(&indexed.plan, images, making.style, out);
        return Ok(status_past(status, &indexed.skipped));
    }
    let set = FileSet {
        folder: making.folder,
        plan: &indexed.plan,
        origins: &SourceFiles { paths: sources },
        picks: &indexed.picks,
    };
    let status = make_file_set(making.alloc, &set, making.style, files, out)?;
    Ok(status_past(status, &indexed.skipped))
}

/// Gives the status of a run whose output worked or failed, by the sources that it skipped: 3 where one could not be
/// opened or read.
pub(crate) fn status_past(status: u8, skipped: &[(usize, KeyFault)]) -> u8
    requires { status ≤ 1 }
    ensures { result ≡ status_past status skipped.now }
{
    if status == 0 && has_failed(skipped) {
        3
    } else {
        status
    }
}

fn has_failed(skipped: &[(usize, KeyFault)]) -> bool
    ensures { result ≡ has_failed skipped.now }
{
    skipped.iter().any(|skip| matches!(skip.1, KeyFault::Read))
}

pub(crate) fn is_noted(noted: &NotedIndex) -> bool
    ensures { IsTrue result ↔ IsNotedIndex noted.now }
{
    !noted.indexed.skipped.is_empty() || has_notes(&noted.notes)
}

pub(crate) fn tell_noted<O: Write>(
    past: &PastFailures,
    sources: &[String],
    bad_names: BadNames<'_>,
    style: Style,
    out: &mut O,
) -> fmt::Result
    requires within { IsWithin (length sources.now) past.now.noted.indexed }
    requires below { AreBelow (λ at. at) (length sources.now) past.now.noted.notes.left_out.items }
    ensures told { OnOk result ((text : List ℕ)
        × SaysNotes style (words_of sources.now) past.now.noted text
        × TakesText O.Write out.old out.new text) }
    ensures worked { IsOk result → O.failures out.new ≡ O.failures out.old }
    ensures failed { IsErr result → HasFailed (O.failures out.old) (O.failures out.new) }
{
    let NotedIndex { indexed, notes } = &past.noted;
    let unread = Unread::of(past, bad_names);
    tell_skipped(&indexed.skipped, unread, sources, style, out)?;
    tell_left_out(&notes.left_out, sources, style, out)?;
    tell_names(&notes.names, style, out)
}

/// Gives the bytes that were read of the sources of these numbers, up to `u64::MAX`.
fn bytes_of(picks: &[usize], counts: &[SourceCounts]) -> u64
    requires { All (λ at. at < length counts.now) picks.now }
    ensures { result ≡ bytes_read counts.now picks.now }
{
    let mut bytes = 0u64;
    for at in picks {
        bytes = bytes.saturating_add(counts[*at].bytes);
    }
    bytes
}

fn index_files<F: Files + Progress>(
    making: Making<'_>,
    sources: &[String],
    counts: &mut [SourceCounts],
    files: &mut F,
) -> Result<PastFailures, NotedFault<EngineFault, usize>>
    requires counted { length counts.old ≡ length sources.now }
    requires named { AreOfSources (words_of sources.now) making.bad_names.now }
    ensures answers { (names : List (List ℕ))
        → HavePaths names (words_of sources.now) making.entry.bad_names.now
        → IfOk result (λ past. Indexes making.entry.keep_going making.entry.names.now.choice
        making.entry.max_bytes names (F.held files.old) past.noted) }
    ensures named { IfErr result (λ noted. IsNamed (length sources.now) noted.fault) }
    ensures conflict { IfErr result (λ noted. IsBelow (λ at. at) (length sources.now) noted.conflict) }
    ensures within { IfOk result (λ past. IsWithin (length sources.now) past.noted.indexed) }
    ensures below { IfOk result (λ past.
        AreBelow (λ at. at) (length sources.now) past.noted.notes.left_out.items) }
    ensures counted { length counts.new ≡ length counts.old }
    ensures bytes { (names : List (List ℕ))
        → HavePaths names (words_of sources.now) making.entry.bad_names.now
        → IfOk result (λ past. CountsPicks names counts.new past.noted.indexed.picks.items (F.held files.old)) }
    ensures kept { F.held files.new ≡ F.held files.old }
    ensures grounds { (names : List (List ℕ))
        → HavePaths names (words_of sources.now) making.entry.bad_names.now
        → IfErr result (λ noted. (fault : PlanFault) → noted.fault ≡ engine.Plan fault
        → HaveNoPlan making.entry.keep_going making.entry.names.now.choice making.entry.max_bytes names
        (F.held files.old) fault) }
    ensures absent { IfErr result (λ noted. (at : ℕ)
        → noted.fault ≡ engine.Absent at → HasCounted (F.refusals files.new)) }
    ensures unread { IfErr result (λ noted. (at : ℕ)
        → noted.fault ≡ engine.Unread at → HasFailedReader F.In.Read) }
{
    let mut failed = None;
    let mut supply = FileSupply::new(files, sources, counts, making.bad_names, &mut failed);
    let limits = Limits::of_bytes(making.max_bytes);
    let Making { alloc, names, .. } = making;
    if making.keep_going {
        return index_past_failures(alloc, &mut supply, &names.choice, limits, SOURCE_LIMIT);
    }
    match index_with_notes(alloc, &mut supply, &names.choice, limits, SOURCE_LIMIT) {
        Ok(noted) => Ok(PastFailures {
            noted,
            absent: Vec::new(alloc),
        }),
        Err(noted) => Err(NotedFault {
            fault: supply.said(noted.fault),
            conflict: noted.conflict,
        }),
    }
}

fn counts_of(alloc: Global, sources: usize) -> Result<Vec<SourceCounts>, Memory>
    ensures { IfOk result (λ counts. length counts.items ≡ sources) }
{
    let mut counts = Vec::with_capacity(alloc, sources)?;
    for _ in 0..sources {
        counts.push(SourceCounts::new())?;
    }
    Ok(counts)
}

/// Gives the refusal. Where two instances conflict, prints first which sources have them.
fn refuse<O: Write>(
    sources: &[String],
    noted: &NotedFault<EngineFault, usize>,
    style: Style,
    out: &mut O,
) -> Refusal
    requires named { IsNamed (length sources.now) noted.now.fault }
    requires conflict { IsBelow (λ at. at) (length sources.now) noted.now.conflict }
    ensures refusal { IsOfWork (length sources.now) result }
    ensures found { result.fault ≡ run_fault noted.now.fault }
    ensures fault { IsOfEngine result.fault
        ⊎ ((at : ℕ) × (noted.now.fault ≡ engine.Absent at) × (result.fault ≡ ProgramFault.Absent))
        ⊎ ((at : ℕ) × (noted.now.fault ≡ engine.Unread at) × (result.fault ≡ ProgramFault.Unread)) }
{
    match noted.fault {
        EngineFault::Memory => Refusal::memory(),
        EngineFault::Absent(at) => Refusal::of(Subject::Source(at), ProgramFault::Absent),
        EngineFault::Unread(at) => Refusal::of(Subject::Source(at), ProgramFault::Unread),
        EngineFault::Plan(fault) => {
            tell_conflict(&fault, &noted.conflict, sources, style, out);
            Refusal::general(ProgramFault::Plan(fault))
        }
    }
}
