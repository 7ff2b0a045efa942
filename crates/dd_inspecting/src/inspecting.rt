//! The commands that read one file-set.
ghost use Rattle.std.specs.Prelude.{◌≡◌, ◌<◌, ◌≤◌, ◌⊎◌, ℕ, List, IfErr, IfOk, OnErr, OnOk, false, string_bytes};
ghost use Rattle.dd_elem.specs.Device.{HasFailed};
ghost use Rattle.dd_lines.specs.Text.{FailsInText, TakesText};
ghost use Rattle.dd_inspecting.specs.Inspecting.{ChecksSet, IsBrokenLine, ListsSet, comparison_by, form_by};
ghost use Rattle.dd_refusals.specs.Styles.{style_by};
ghost use Rattle.dd_faults.specs.Refusal.{IsOfWork};
ghost use Rattle.dd_faults.specs.Reasons.{IsDue};
ghost use Rattle.dd_inspecting.specs.Grounds.{GroundsOfCheck, GroundsOfList};

use crate::set_directory::{directory_bytes, refusal_of};
use dd_elem::Write;
use dd_faults::Refusal;
use dd_files::{Files, FoundPaths, Progress};
use dd_json::Style;
use dd_line::{CheckRequest, ListRequest};
use dd_lines::print_line;
use dd_messages::print_broken_json;
use dd_refusals::{Words, style_for};
use dd_report::{Check, Comparison, Form, Listing, ReportFault, check_records, list_file_set};
use dd_walk::{DirFault, read_directory};
use std::alloc::Global;
use std::fmt;

/// Gives the check that a request asks for.
pub fn check_of(alloc: Global, check: &CheckRequest) -> Check<'_>
    ensures folder { result.folder.now ≡ string_bytes check.now.set }
    ensures comparison { result.comparison ≡ comparison_by check.now.keys check.now.strict }
    ensures style { result.style ≡ style_by check.now.json }
{
    Check {
        alloc,
        folder: check.set.as_str(),
        comparison: Comparison {
            keys: check.keys,
            strict: check.strict,
        },
        style: style_for(check.json),
    }
}

/// Gives the listing that a request asks for.
pub fn listing_of(alloc: Global, list: &ListRequest) -> Listing<'_>
    ensures folder { result.folder.now ≡ string_bytes list.now.set }
    ensures form { result.form ≡ form_by list.now.long }
    ensures style { result.style ≡ style_by list.now.json }
{
    Listing {
        alloc,
        folder: list.set.as_str(),
        form: if list.long { Form::Long } else { Form::Short },
        style: style_for(list.json),
    }
}

/// Prints what is found of a file-set, and gives the status: 3 where something is, or the directory can't be read.
/// Refused where its bytes can't be read.
pub fn run_check<F: Files + Progress, O: Write>(
    check: Check<'_>,
    files: &mut F,
    out: &mut O,
) -> Result<u8, Refusal>
    ensures refusal { (paths : ℕ) → 0 < paths → IfErr result (IsOfWork paths) }
    ensures due { IfErr result (λ refusal. IsDue F.In.Read (F.refusals files.new) (F.Write.failures files.new)
        false refusal.fault) }
    ensures grounds { IfErr result (λ refusal.
        GroundsOfCheck check.entry.folder.now (F.held files.old) refusal.fault) }
    ensures failed { IfOk result (λ status. status ≡ 1 → HasFailed (O.failures out.old) (O.failures out.new)) }
    ensures status { IfOk result (λ status. (status ≤ 1) ⊎ (status ≡ 3)) }
    ensures checks { IfOk result (λ status. ChecksSet F.In.Read check.entry.folder.now (F.held files.old)
        check.entry.comparison check.entry.style O.Write status
        (F.refusals files.old) (F.refusals files.new) out.old out.new) }
    ensures kept { F.held files.new ≡ F.held files.old }
{
    let bytes = directory_bytes(check.alloc, 0, check.folder, files)?;
    let forest = match read_directory(check.alloc, &bytes) {
        Ok(forest) => forest,
        Err(fault) if fault.is_want_of_memory() => return Err(Refusal::memory()),
        Err(fault) => return Ok(tell_broken(&fault, check.style, out)),
    };
    match check_records(check, &forest, files, out) {
        Ok(false) => Ok(0),
        Ok(true) => Ok(3),
        Err(ReportFault::Unsent) => Ok(1),
        Err(ReportFault::Memory) => Err(Refusal::memory()),
    }
}

/// Prints why a directory can't be read, as a finding, and gives the status.
fn tell_broken<O: Write>(fault: &DirFault, style: Style, out: &mut O) -> u8
    ensures status { (result ≡ 1) ⊎ (result ≡ 3) }
    ensures printed { result ≡ 3 → (text : List ℕ)
        × IsBrokenLine style text × TakesText O.Write out.old out.new text }
    ensures failed { result ≡ 1 → (text : List ℕ)
        × IsBrokenLine style text × FailsInText O.Write out.old out.new text }
{
    let words = Words::of(fault);
    match print_broken(words.as_str(), style, out) {
        Ok(()) => 3,
        Err(_) => 1,
    }
}

fn print_broken<O: Write>(words: &str, style: Style, out: &mut O) -> fmt::Result
    ensures printed { OnOk result ((text : List ℕ)
        × IsBrokenLine style text × TakesText O.Write out.old out.new text) }
    ensures failed { OnErr result ((text : List ℕ)
        × IsBrokenLine style text × FailsInText O.Write out.old out.new text) }
{
    match style {
        Style::Text => print_line(&["BROKEN ", words], out),
        Style::Json => print_broken_json(words, out),
    }
}

/// Prints what the directory of a file-set says, and gives the status. Refused where it can't be read (51 to 58).
pub fn run_list<F: FoundPaths, O: Write>(
    listing: Listing<'_>,
    files: &mut F,
    out: &mut O,
) -> Result<u8, Refusal>
    ensures refusal { (paths : ℕ) → 0 < paths → IfErr result (IsOfWork paths) }
    ensures due { IfErr result (λ refusal. IsDue F.In.Read (F.refusals files.new) (F.Write.failures files.new)
        false refusal.fault) }
    ensures grounds { IfErr result (λ refusal.
        GroundsOfList listing.entry.folder.now (F.held files.old) refusal.fault) }
    ensures failed { IfOk result (λ status. status ≡ 1 → HasFailed (O.failures out.old) (O.failures out.new)) }
    ensures status { IfOk result (λ status. status ≤ 1) }
    ensures lists { IfOk result (λ status. ListsSet O.Write F.is_shown listing.entry.style listing.entry.form
        listing.entry.folder.now (F.held files.old) status out.old out.new) }
    ensures kept { F.held files.new ≡ F.held files.old }
{
    let bytes = directory_bytes(listing.alloc, 0, listing.folder, files)?;
    let forest = match read_directory(listing.alloc, &bytes) {
        Ok(forest) => forest,
        Err(fault) => return Err(refusal_of(0, fault)),
    };
    match list_file_set(listing, &forest, files, out) {
        Ok(()) => Ok(0),
        Err(ReportFault::Unsent) => Ok(1),
        Err(ReportFault::Memory) => Err(Refusal::memory()),
    }
}
