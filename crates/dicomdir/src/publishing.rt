//! The command `publish`: makes a file-set of piles.
ghost use Rattle.std.specs.Prelude.{◌≡◌, ◌≢◌, ◌<◌, ◌≤◌, ◌⊎◌, ℕ, All, Bool, List, Err, IfErr, IfOk, Ok, Option};
ghost use Rattle.std.specs.Prelude.{false, length, true};
ghost use Rattle.dd_elem.specs.Device.{HasFailed};
ghost use Rattle.dd_engine.specs.Found.{HasFound};
ghost use Rattle.dd_engine.specs.Indexed.{Indexes, IsWithin};
ghost use Rattle.dd_engine.specs.IndexNotes.{NotesIndex};
ghost use Rattle.dd_keys.specs.Sources.{Answer};
ghost use Rattle.dd_engine.specs.Noting.{AreBelow, IsBelow};
ghost use Rattle.dd_engine.specs.declared.choice.Choice.{Choice};
ghost use Rattle.dd_files.specs.Files.{Held};
ghost use Rattle.dd_files.specs.Keeping.{IfSaid};
ghost use Rattle.dd_layout.specs.declared.fault.PlanFault.{PlanFault};
ghost use Rattle.dd_line.specs.Line.{words_of};
ghost use Rattle.dicomdir.specs.Indexes.{limits_of};
ghost use Rattle.dd_file_set.specs.Left.{MakesDirectoryLast};
ghost use Rattle.dicomdir.specs.Publishes.{DonePublishes, PrintsPublish, placed_bytes};
ghost use Rattle.dd_faults.specs.Refusal.{IsOfWork};
ghost use Rattle.dd_faults.specs.Reasons.{IsDue, IsOfEngine};
ghost use Rattle.dicomdir.specs.Grounds.{GroundsOfPiles, PilesHaveNoPlan};

use crate::dates::keep_dates;
use crate::index::{is_noted, status_past, tell_noted};
use crate::making::{Making, make_file_set, tell_plan_of_images};
use crate::note_lines::{refuse_noted, tell_conflict};
use crate::origins::PileFiles;
use crate::piles::{Piled, Place, read_piles};
use crate::sum::{Sum, show_sum};
use crate::unread::{BadNames, UnreadStaged};
use dd_elem::Write;
use dd_engine::{FoundSources, NotedFault, PastFailures, publish_engine};
use dd_faults::{ProgramFault, Refusal};
use dd_file_set::FileSet;
use dd_files::{Files, Hints, Progress};
use dd_json::Style;
use dd_layout::Limits;
use dd_sources::EngineFault;

/// Runs `publish`: reads the lists of all these piles, prints what is skipped and what is noted, and makes the file-set
/// of their images, or prints what would be made. The status is 3 where one of their sources was not read.
pub(crate) fn run_publish<F: Files + Progress + Hints, O: Write>(
    making: Making<'_>,
    piles: &[String],
    files: &mut F,
    out: &mut O,
) -> Result<u8, Refusal>
    ensures refusal { IfErr result (IsOfWork (length piles.now)) }
    ensures due { IfErr result (λ refusal. IsDue F.In.Read (F.refusals files.new) (F.Write.failures files.new)
        making.entry.strict refusal.fault) }
    ensures grounds { IfErr result (λ refusal. GroundsOfPiles making.entry.names.now.choice making.entry.max_bytes
        (words_of piles.now) making.entry.link (F.held files.old) (F.held files.new)
        refusal.subject refusal.fault) }
    ensures failed { IfOk result (λ status. status ≡ 1 → HasFailed (O.failures out.old) (O.failures out.new)) }
    ensures status { IfOk result (λ status. (status ≤ 1) ⊎ (status ≡ 3)) }
    ensures dry { making.entry.dry_run ≡ true → F.held files.new ≡ F.held files.old }
    ensures last { IfSaid (MakesDirectoryLast making.entry.folder.now) (F.held files.old) (F.held files.new) }
    ensures made { making.entry.dry_run ≡ false
        → DonePublishes result making.entry.names.now.choice making.entry.max_bytes
        (words_of piles.now) (making.entry.link ≡ true) making.entry.folder.now
        (F.held files.old) (F.held files.new) }
    ensures printed { IfOk result (λ status. status ≢ 1 → PrintsPublish O.Write making.entry.style
        making.entry.dry_run making.entry.strict making.entry.names.now.choice making.entry.max_bytes
        (words_of piles.now) status (F.held files.old) out.old out.new) }
{
    let mut sum = Sum::new();
    let done = publish_piles(making, piles, &mut sum, files, out);
    if making.explains && matches!(done, Ok(0 | 3)) {
        show_sum(&sum, making.style, files);
    }
    done
}

/// Does so, and counts what becomes of the sources.
#[tactic(auto, using(crate::proofs::MadeLast::same_directory))]
fn publish_piles<F: Files + Progress + Hints, O: Write>(
    making: Making<'_>,
    piles: &[String],
    sum: &mut Sum,
    files: &mut F,
    out: &mut O,
) -> Result<u8, Refusal>
    ensures refusal { IfErr result (IsOfWork (length piles.now)) }
    ensures due { IfErr result (λ refusal. IsDue F.In.Read (F.refusals files.new) (F.Write.failures files.new)
        making.entry.strict refusal.fault) }
    ensures grounds { IfErr result (λ refusal. GroundsOfPiles making.entry.names.now.choice making.entry.max_bytes
        (words_of piles.now) making.entry.link (F.held files.old) (F.held files.new)
        refusal.subject refusal.fault) }
    ensures failed { IfOk result (λ status. status ≡ 1 → HasFailed (O.failures out.old) (O.failures out.new)) }
    ensures status { IfOk result (λ status. (status ≤ 1) ⊎ (status ≡ 3)) }
    ensures dry { making.entry.dry_run ≡ true → F.held files.new ≡ F.held files.old }
    ensures last { IfSaid (MakesDirectoryLast making.entry.folder.now) (F.held files.old) (F.held files.new) }
    ensures made { making.entry.dry_run ≡ false
        → DonePublishes result making.entry.names.now.choice making.entry.max_bytes
        (words_of piles.now) (making.entry.link ≡ true) making.entry.folder.now
        (F.held files.old) (F.held files.new) }
    ensures printed { IfOk result (λ status. status ≢ 1 → PrintsPublish O.Write making.entry.style
        making.entry.dry_run making.entry.strict making.entry.names.now.choice making.entry.max_bytes
        (words_of piles.now) status (F.held files.old) out.old out.new) }
{
    let Piled {
        names,
        places,
        said,
        unread: UnreadStaged { absent, bad_names },
        found,
    } = read_piles(making.alloc, piles, files)?;
    let past = match past_of(making, found, absent) {
        Ok(past) => past,
        Err(fault) => return Err(refuse(&names, &fault, making.style, out)),
    };
    let bad_names = BadNames::Staged(&bad_names);
    if tell_noted(&past, &names, bad_names, making.style, out).is_err() {
        return Ok(1);
    }
    *sum = Sum::of(&past, bad_names, &names);
    refuse_noted(making.strict, is_noted(&past.noted))?;
    let indexed = &past.noted.indexed;
    keep_dates(making.explains_in_words(), &indexed.plan, files);
    if making.dry_run {
        let images = bytes_of(&indexed.picks, &places);
        let status = tell_plan_of_images(&indexed.plan, images, making.style, out);
        return Ok(status_past(status, &indexed.skipped));
    }
    let set = FileSet {
        folder: making.folder,
        plan: &indexed.plan,
        origins: &PileFiles {
            folders: piles,
            places: &places,
            said: &said,
            link: making.link,
        },
        picks: &indexed.picks,
    };
    let status = make_file_set(making.alloc, &set, making.style, files, out)?;
    Ok(status_past(status, &indexed.skipped))
}

/// Plans the file-set of what was found of the sources, all of which were read.
fn past_of(
    making: Making<'_>,
    found: FoundSources,
    absent: Vec<usize>,
) -> Result<PastFailures, NotedFault<EngineFault, usize>>
    ensures notes { (answers : List Answer) → HasFound answers found
        → IfOk result (λ past. NotesIndex making.entry.names.now.choice (limits_of making.entry.max_bytes) answers
        (Ok past.noted)) }
    ensures within { (answers : List Answer) → HasFound answers found
        → IfOk result (λ past. IsWithin (length answers) past.noted.indexed) }
    ensures below { (answers : List Answer) → HasFound answers found
        → IfOk result (λ past. AreBelow (λ at. at) (length answers) past.noted.notes.left_out.items) }
    ensures conflict { (answers : List Answer) → HasFound answers found
        → IfErr result (λ noted. IsBelow (λ at. at) (length answers) noted.conflict) }
    ensures refused { (answers : List Answer) → HasFound answers found
        → IfErr result (λ noted. Indexes making.entry.names.now.choice (limits_of making.entry.max_bytes) answers
        (Err noted.fault)) }
{
    let limits = Limits::of_bytes(making.max_bytes);
    let Making { alloc, names, .. } = making;
    let noted = publish_engine(alloc, found, &names.choice, limits)?;
    Ok(PastFailures { noted, absent })
}

/// Gives the bytes of the copies at these numbers, up to `u64::MAX`.
fn bytes_of(picks: &[usize], places: &[Place]) -> u64
    requires { All (λ at. at < length places.now) picks.now }
    ensures { result ≡ placed_bytes places.now picks.now }
{
    let mut bytes = 0u64;
    for at in picks {
        bytes = bytes.saturating_add(places[*at].size);
    }
    bytes
}

/// Gives the refusal. Where two instances conflict, prints first which sources have them. All sources were read before,
/// so no other refusal names one.
fn refuse<O: Write>(
    names: &[String],
    noted: &NotedFault<EngineFault, usize>,
    style: Style,
    out: &mut O,
) -> Refusal
    requires { IsBelow (λ at. at) (length names.now) noted.now.conflict }
    ensures work { (paths : ℕ) → IsOfWork paths result }
    ensures engine { IsOfEngine result.fault }
    ensures grounds { (choice : Choice) → (bytes : ℕ) → (piles : List (List ℕ)) → (links : Bool)
        → (old : Option Held) → (new : Option Held)
        → ((fault : PlanFault) → noted.now.fault ≡ EngineFault.Plan fault
        → PilesHaveNoPlan choice bytes piles old fault)
        → GroundsOfPiles choice bytes piles links old new result.subject result.fault }
{
    match noted.fault {
        EngineFault::Plan(fault) => {
            tell_conflict(&fault, &noted.conflict, names, style, out);
            Refusal::general(ProgramFault::Plan(fault))
        }
        _ => Refusal::memory(),
    }
}
