//! The command `stage`: makes a pile of sources.
ghost use Rattle.std.specs.Prelude.{◌≡◌, ◌≢◌, ◌<◌, ◌⊎◌, ℕ, List, [], Err, IfErr, IfOk, IsErr, IsOk, OnOk, Some};
ghost use Rattle.std.specs.Prelude.{false, length, map, slice_get, string_bytes, true};
ghost use Rattle.dd_elem.specs.Device.{HasFailed};
ghost use Rattle.dd_files.specs.Keeping.{IfSaid};
ghost use Rattle.dd_line.specs.Line.{words_of};
ghost use Rattle.dd_lines.specs.Text.{TakesText};
ghost use Rattle.dd_pile.specs.Refusals.{IsDueTo, Names};
ghost use Rattle.dd_inputs.specs.From.{from_text, looked_up};
ghost use Rattle.dd_refusals.specs.Styles.{style_by};
ghost use Rattle.dicomdir.specs.Last.{StagesListLast};
ghost use Rattle.dd_faults.specs.Refusal.{IsOfWork};
ghost use Rattle.dd_faults.specs.Reasons.{IsDue};
ghost use Rattle.dicomdir.specs.FileSupply.{is_one};
ghost use Rattle.dicomdir.specs.Indexes.{IsIndexStatus};
ghost use Rattle.dd_inputs.specs.ListedNames.{AreRising, HavePaths};
ghost use Rattle.dd_pile.specs.declared.source.StageSource.{StageSource};
ghost use Rattle.dicomdir.specs.Stages.{MakesNamed, Stages, fault_of, staged_text, staged_words, status_staged};
ghost use Rattle.dicomdir.specs.Grounds.{GroundsOfStage, HasNoList};

use crate::file_supply::contains;
use crate::making::status_of;
use crate::pile_path::{PileFolder, PilePath};
use crate::staged_json;
use dd_elem::{Memory, Write};
use dd_faults::{PathText, ProgramFault, Refusal, Subject};
use dd_files::{Files, Progress};
use dd_inputs::looked_up;
use dd_json::Style;
use dd_line::StageRequest;
use dd_lines::print_line;
use dd_pile::{STAGED, StageRefusal, StageSource, StageSum, stage_sources};
use dd_refusals::style_for;
use itoa::Buffer;
use std::alloc::Global;
use std::fmt;

/// The sources of a pile.
#[derive(Clone, Copy)]
pub(crate) struct Sources<'a> {
    /// Their names. One that is not UTF-8 stands there as lines show it.
    pub(crate) names: &'a [String],
    /// The numbers of these, in rising order.
    pub(crate) bad_names: &'a [usize],
}

/// Runs `stage`: copies each source to the pile and lists it, and prints how many there are. 3 where it keeps going and
/// one was not read.
pub(crate) fn run_stage<F: Files + Progress, O: Write>(
    alloc: Global,
    stage: &StageRequest,
    sources: Sources<'_>,
    files: &mut F,
    out: &mut O,
) -> Result<u8, Refusal>
    requires { AreRising sources.bad_names.now }
    ensures refusal { IfErr result (IsOfWork (length sources.entry.names.now)) }
    ensures due { IfErr result (λ refusal. IsDue F.In.Read (F.refusals files.new) (F.Write.failures files.new)
        false refusal.fault) }
    ensures grounds { (names : List (List ℕ))
        → HavePaths names (words_of sources.entry.names.now) sources.entry.bad_names.now
        → IfErr result (λ refusal. GroundsOfStage (from_text stage.now.from) (string_bytes stage.now.pile)
        names (F.held files.old) (F.held files.new) refusal.fault) }
    ensures failed { IfOk result (λ status. status ≡ 1 → HasFailed (O.failures out.old) (O.failures out.new)) }
    ensures status { sources.entry.bad_names.now ≡ [] ⊎ (stage.now.keep_going ≡ true)
        → IfOk result (IsIndexStatus stage.now.keep_going) }
    ensures last { IfSaid (StagesListLast (string_bytes stage.now.pile)) (F.held files.old) (F.held files.new) }
    ensures staged { (names : List (List ℕ))
        → HavePaths names (words_of sources.entry.names.now) sources.entry.bad_names.now
        → (stage.now.keep_going ≡ false → sources.entry.bad_names.now ≡ [])
        → IfOk result (λ status. status ≢ 1 → Stages O.Write (style_by stage.now.json) stage.now.keep_going
        (from_text stage.now.from) (string_bytes stage.now.pile) names status
        (F.held files.old) (F.held files.new) out.old out.new) }
{
    match stage_named(alloc, stage, sources, files) {
        Ok(sum) => Ok(status_past(tell_staged(&sum, style_for(stage.json), out), &sum)),
        Err(refusal) => Err(refusal_of(refusal)),
    }
}

/// Gives the status of a run with this sum, where its output has this status.
fn status_past(status: u8, sum: &StageSum) -> u8
    ensures { result ≡ status_staged status sum.now }
{
    match status {
        0 if sum.unread != 0 => 3,
        status => status,
    }
}

/// Makes the pile of these sources.
#[tactic(auto, using(crate::proofs::MadeLast::same_list))]
fn stage_named<F: Files + Progress>(
    alloc: Global,
    stage: &StageRequest,
    sources: Sources<'_>,
    files: &mut F,
) -> Result<StageSum, StageRefusal>
    requires { AreRising sources.bad_names.now }
    ensures refusal { IfErr result (Names (λ at. at < length sources.entry.names.now)) }
    ensures due { IfErr result (IsDueTo F.In.Read (F.refusals files.new) (F.Write.failures files.new)) }
    ensures last { IfSaid (StagesListLast (string_bytes stage.now.pile)) (F.held files.old) (F.held files.new) }
    ensures made { (names : List (List ℕ))
        → HavePaths names (words_of sources.entry.names.now) sources.entry.bad_names.now
        → (stage.now.keep_going ≡ false → sources.entry.bad_names.now ≡ [])
        → IfOk result (λ sum. MakesNamed stage.now.keep_going (from_text stage.now.from)
        (string_bytes stage.now.pile) names sum (F.held files.old) (F.held files.new)) }
    ensures large { (names : List (List ℕ))
        → HavePaths names (words_of sources.entry.names.now) sources.entry.bad_names.now
        → result ≡ Err StageRefusal.ListTooLarge → HasNoList (from_text stage.now.from)
        (string_bytes stage.now.pile) names (F.held files.old) (F.held files.new) }
{
    let pile = PileOf {
        path: stage.pile.as_str(),
        keeps_going: stage.keep_going,
    };
    match &stage.from {
        None => stage_at(alloc, pile, sources.names, sources, files),
        Some(from) => {
            let paths = all_looked_up(alloc, from.as_str(), sources.names)?;
            stage_at(alloc, pile, &paths, sources, files)
        }
    }
}

/// Gives the paths at which these names are looked up in the folder `from`.
fn all_looked_up(alloc: Global, from: &str, names: &[String]) -> Result<Vec<String>, Memory>
    ensures paths { IfOk result (λ paths.
        words_of paths.items ≡ map (looked_up from.now) (words_of names.now)) }
    ensures count { IfOk result (λ paths. length paths.items ≡ length names.now) }
{
    let mut paths = Vec::with_capacity(alloc, names.len())?;
    for name in names {
        paths.push(looked_up(alloc, from, name.as_str())?)?;
    }
    Ok(paths)
}

/// The pile that a line asks for.
#[derive(Clone, Copy)]
struct PileOf<'a> {
    path: &'a str,
    keeps_going: bool,
}

/// Makes the pile of the sources at these paths.
#[tactic(auto, using(crate::proofs::MadeLast::same_list, crate::proofs::MadeLast::list_cuts))]
fn stage_at<F: Files + Progress>(
    alloc: Global,
    pile: PileOf<'_>,
    paths: &[String],
    sources: Sources<'_>,
    files: &mut F,
) -> Result<StageSum, StageRefusal>
    requires count { length paths.now ≡ length sources.names.now }
    requires rising { AreRising sources.bad_names.now }
    ensures refusal { IfErr result (Names (λ at. at < length sources.entry.names.now)) }
    ensures due { IfErr result (IsDueTo F.In.Read (F.refusals files.new) (F.Write.failures files.new)) }
    ensures last { IfSaid (StagesListLast pile.entry.path.now) (F.held files.old) (F.held files.new) }
    ensures made { (from : List ℕ) (names : List (List ℕ))
        → words_of paths.now ≡ map (looked_up from) (words_of sources.entry.names.now)
        → HavePaths names (words_of sources.entry.names.now) sources.entry.bad_names.now
        → (pile.entry.keeps_going ≡ false → sources.entry.bad_names.now ≡ [])
        → IfOk result (λ sum. MakesNamed pile.entry.keeps_going from pile.entry.path.now names sum
        (F.held files.old) (F.held files.new)) }
    ensures large { (from : List ℕ) (names : List (List ℕ))
        → words_of paths.now ≡ map (looked_up from) (words_of sources.entry.names.now)
        → HavePaths names (words_of sources.entry.names.now) sources.entry.bad_names.now
        → result ≡ Err StageRefusal.ListTooLarge
        → HasNoList from pile.entry.path.now names (F.held files.old) (F.held files.new) }
{
    let staged = sources_at(alloc, paths, sources)?;
    stage_sources(alloc, pile.path, &staged, pile.keeps_going, files)
}

fn sources_at<'a>(
    alloc: Global,
    paths: &'a [String],
    sources: Sources<'a>,
) -> Result<Vec<StageSource<'a>>, Memory>
    requires count { length paths.now ≡ length sources.names.now }
    requires rising { AreRising sources.bad_names.now }
    ensures paths { IfOk result (λ staged.
        map (λ source. source.path.now) staged.items ≡ words_of paths.now) }
    ensures names { IfOk result (λ staged.
        map (λ source. source.name.now) staged.items ≡ words_of sources.entry.names.now) }
    ensures bad { IfOk result (λ staged. (at : ℕ) (source : StageSource) → slice_get staged.items at ≡ Some source
        → source.is_bad_name ≡ is_one sources.entry.bad_names.now at) }
    ensures count { IfOk result (λ staged. length staged.items ≡ length sources.entry.names.now) }
{
    let mut staged = Vec::with_capacity(alloc, sources.names.len())?;
    for (at, name) in sources.names.iter().enumerate() {
        staged.push(StageSource {
            path: paths[at].as_str(),
            name: name.as_bytes(),
            is_bad_name: contains(sources.bad_names, at),
        })?;
    }
    Ok(staged)
}

/// Gives the refusal of a pile that was not made.
fn refusal_of(refusal: StageRefusal) -> Refusal
    ensures work { (count : ℕ) → Names (λ at. at < count) refusal → IsOfWork count result }
    ensures fault { result.fault ≡ fault_of refusal }
{
    match refusal {
        StageRefusal::ListTooLarge => Refusal::general(ProgramFault::ListTooLarge),
        StageRefusal::Memory => Refusal::memory(),
        StageRefusal::Absent(at) => Refusal::of(Subject::Source(at), ProgramFault::Absent),
        StageRefusal::Unread(at) => Refusal::of(Subject::Source(at), ProgramFault::Unread),
        StageRefusal::CopyUnmade(at) => {
            Refusal::of(Subject::InPile(copy_of(at)), ProgramFault::Create)
        }
        StageRefusal::CopyUnsent(at) => {
            Refusal::of(Subject::InPile(copy_of(at)), ProgramFault::Unsent)
        }
        StageRefusal::FolderUnmade(at) => {
            Refusal::of(Subject::InPile(folder_of(at)), ProgramFault::Folder)
        }
        StageRefusal::PileUnmade => Refusal::of(Subject::Folder, ProgramFault::Folder),
        StageRefusal::ListUnmade => Refusal::of(Subject::InPile(list_path()), ProgramFault::Create),
        StageRefusal::ListUnsent => Refusal::of(Subject::InPile(list_path()), ProgramFault::Unsent),
        StageRefusal::Unstored => Refusal::of(Subject::Unstored, ProgramFault::Unsent),
    }
}

/// Gives the path in the pile of the copy of the source with this number, from 0.
fn copy_of(at: usize) -> PathText {
    PathText::of(&PilePath(at.saturating_add(1)))
}

/// Gives the path in the pile of the folder of that copy.
fn folder_of(at: usize) -> PathText {
    PathText::of(&PileFolder(at.saturating_add(1)))
}

fn list_path() -> PathText {
    PathText::of(&STAGED)
}

/// Prints how many sources the pile has. Gives the status: 1 where the output failed.
fn tell_staged<O: Write>(sum: &StageSum, style: Style, out: &mut O) -> u8
    ensures status { (result ≡ 0) ⊎ (result ≡ 1) }
    ensures done { result ≡ 0 → TakesText O.Write out.old out.new (staged_text style sum.now) }
    ensures failed { result ≡ 1 → HasFailed (O.failures out.old) (O.failures out.new) }
{
    match style {
        Style::Text => status_of(print_staged(sum, out)),
        Style::Json => status_of(staged_json::print_staged(sum, out)),
    }
}

fn print_staged<O: Write>(sum: &StageSum, out: &mut O) -> fmt::Result
    ensures told { OnOk result (TakesText O.Write out.old out.new (staged_words sum.now)) }
    ensures worked { IsOk result → O.failures out.new ≡ O.failures out.old }
    ensures failed { IsErr result → HasFailed (O.failures out.old) (O.failures out.new) }
{
    let (mut sources, mut skipped, mut bytes) = (Buffer::new(), Buffer::new(), Buffer::new());
    let (sources, skipped) = (sources.format(sum.sources), skipped.format(sum.skipped));
    let bytes = bytes.format(sum.bytes);
    print_line(
        &[
            "DONE ",
            sources,
            " sources, ",
            skipped,
            " skipped, ",
            bytes,
            " bytes of images",
        ],
        out,
    )
}
