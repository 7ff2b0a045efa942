//! The commands `merge` and `withdraw`: make a file-set of others.
ghost use Rattle.std.specs.Prelude.{◌≡◌, ◌↔◌, ◌<◌, ◌≤◌, ℕ, List, [], IfErr, IfOk, IsErr, IsOk, IsTrue, OnOk};
ghost use Rattle.std.specs.Prelude.{◌∷◌, ◌++◌, None, false, length, map, string_bytes, true};
ghost use Rattle.dd_elem.specs.Device.{HasFailed};
ghost use Rattle.dd_engine.specs.Merging.{IsNamedSet};
ghost use Rattle.dd_engine.specs.Noting.{IsBelow};
ghost use Rattle.dd_files.specs.Keeping.{IfSaid};
ghost use Rattle.dd_line.specs.Line.{words_of};
ghost use Rattle.dd_lines.specs.Text.{TakesText};
ghost use Rattle.dd_file_set.specs.Left.{MakesDirectoryLast};
ghost use Rattle.dd_file_set.specs.Made.{MakesFileSet};
ghost use Rattle.dicomdir.specs.Origins.{IsMemberPath};
ghost use Rattle.dicomdir.specs.Merges.{DoneMerges};
ghost use Rattle.dicomdir.specs.Noted.{IsNoted, NamesBelow};
ghost use Rattle.dicomdir.specs.Prints.{PrintsMerge, last_line};
ghost use Rattle.dd_faults.specs.Refusal.{IsOfWork, IsStrict};
ghost use Rattle.dd_faults.specs.Reasons.{IsDue, IsOfEngine};
ghost use Rattle.dicomdir.specs.Reasons.{set_refusal};
ghost use Rattle.dicomdir.specs.Said.{SaysSetNotes};
ghost use Rattle.dd_faults.specs.Grounds.{GroundsOfMaking};
ghost use Rattle.dicomdir.specs.Grounds.{GroundsOfSets, HasUnfitImage};

use crate::dates::keep_dates;
use crate::making::{Making, make_file_set, tell_counts};
use crate::note_lines::{has_notes, refuse_noted, tell_conflict, tell_left_out, tell_names};
use crate::origins::SetFiles;
use crate::set_directories::read_directories;
use crate::set_note_lines::{has_set_notes, tell_unlisted, tell_unreached, tell_withdrawn};
use crate::set_sum::{SetSum, show_set_sum};
use dd_elem::{Memory, Write};
use dd_engine::{MergeFault, NotedFault, NotedMerge, Pick, merge_with_notes, withdraw_with_notes};
use dd_faults::{ProgramFault, Refusal, Subject};
use dd_file_set::FileSet;
use dd_files::{Files, Hints, Progress};
use dd_json::Style;
use dd_layout::Limits;
use dd_messages::Ending;
use std::alloc::Global;
use std::{fmt, slice};

/// Runs `merge`: reads the directories of all these file-sets, prints what is noted, and makes a file-set of their
/// images, or prints what would be made.
pub(crate) fn run_merge<F: Files + Progress + Hints, O: Write>(
    making: Making<'_>,
    sets: &[String],
    files: &mut F,
    out: &mut O,
) -> Result<u8, Refusal>
    ensures refusal { IfErr result (IsOfWork (length sets.now)) }
    ensures due { IfErr result (λ refusal. IsDue F.In.Read (F.refusals files.new) (F.Write.failures files.new)
        making.entry.strict refusal.fault) }
    ensures grounds { IfErr result (λ refusal. GroundsOfSets making.entry.names.now.choice making.entry.max_bytes
        [] (words_of sets.now) making.entry.link (F.held files.old) (F.held files.new)
        refusal.subject refusal.fault) }
    ensures failed { IfOk result (λ status. status ≡ 1 → HasFailed (O.failures out.old) (O.failures out.new)) }
    ensures status { IfOk result (λ status. status ≤ 1) }
    ensures dry { making.entry.dry_run ≡ true → F.held files.new ≡ F.held files.old }
    ensures last { IfSaid (MakesDirectoryLast making.entry.folder.now) (F.held files.old) (F.held files.new) }
    ensures made { making.entry.dry_run ≡ false
        → DoneMerges result making.entry.names.now.choice making.entry.max_bytes []
        (words_of sets.now) (making.entry.link ≡ true) making.entry.folder.now
        (F.held files.old) (F.held files.new) }
    ensures printed { IfOk result (λ status. status ≡ 0 → PrintsMerge O.Write making.entry.style
        making.entry.dry_run making.entry.strict making.entry.names.now.choice making.entry.max_bytes
        [] (words_of sets.now) (F.held files.old) out.old out.new) }
{
    let mut sum = SetSum::new();
    let done = merge_sets(making, sets, &mut sum, files, out);
    if making.explains && matches!(done, Ok(0)) {
        show_set_sum(&sum, making.style, files);
    }
    done
}

/// Does so, and counts what becomes of the images.
#[tactic(auto, using(crate::proofs::MadeLast::same_directory))]
fn merge_sets<F: Files + Progress + Hints, O: Write>(
    making: Making<'_>,
    sets: &[String],
    sum: &mut SetSum,
    files: &mut F,
    out: &mut O,
) -> Result<u8, Refusal>
    ensures refusal { IfErr result (IsOfWork (length sets.now)) }
    ensures due { IfErr result (λ refusal. IsDue F.In.Read (F.refusals files.new) (F.Write.failures files.new)
        making.entry.strict refusal.fault) }
    ensures grounds { IfErr result (λ refusal. GroundsOfSets making.entry.names.now.choice making.entry.max_bytes
        [] (words_of sets.now) making.entry.link (F.held files.old) (F.held files.new)
        refusal.subject refusal.fault) }
    ensures failed { IfOk result (λ status. status ≡ 1 → HasFailed (O.failures out.old) (O.failures out.new)) }
    ensures status { IfOk result (λ status. status ≤ 1) }
    ensures dry { making.entry.dry_run ≡ true → F.held files.new ≡ F.held files.old }
    ensures last { IfSaid (MakesDirectoryLast making.entry.folder.now) (F.held files.old) (F.held files.new) }
    ensures made { making.entry.dry_run ≡ false
        → DoneMerges result making.entry.names.now.choice making.entry.max_bytes []
        (words_of sets.now) (making.entry.link ≡ true) making.entry.folder.now
        (F.held files.old) (F.held files.new) }
    ensures printed { IfOk result (λ status. status ≡ 0 → PrintsMerge O.Write making.entry.style
        making.entry.dry_run making.entry.strict making.entry.names.now.choice making.entry.max_bytes
        [] (words_of sets.now) (F.held files.old) out.old out.new) }
{
    let directories = read_directories(making.alloc, sets, files)?;
    let slices = slices(making.alloc, &directories)?;
    let limits = Limits::of_bytes(making.max_bytes);
    let noted = match merge_with_notes(making.alloc, &slices, &making.names.choice, limits) {
        Ok(noted) => noted,
        Err(fault) => return Err(refuse(sets, &fault, making.style, out)),
    };
    *sum = SetSum::of(&noted, sets.len());
    let origins = SetFiles {
        folders: sets,
        directories: &slices,
        link: making.link,
    };
    write_noted(making, &origins, &noted, files, out)
}

/// Runs `withdraw` on this file-set: makes a file-set of all its images but the ones that the line withdraws, or
/// prints what would be made.
pub(crate) fn run_withdraw<F: Files + Progress + Hints, O: Write>(
    making: Making<'_>,
    set: &String,
    files: &mut F,
    out: &mut O,
) -> Result<u8, Refusal>
    ensures refusal { (paths : ℕ) → 0 < paths → IfErr result (IsOfWork paths) }
    ensures due { IfErr result (λ refusal. IsDue F.In.Read (F.refusals files.new) (F.Write.failures files.new)
        making.entry.strict refusal.fault) }
    ensures grounds { IfErr result (λ refusal. GroundsOfSets making.entry.names.now.choice making.entry.max_bytes
        making.entry.names.now.withdrawn.items (string_bytes set.now ∷ []) false (F.held files.old) (F.held files.new)
        refusal.subject refusal.fault) }
    ensures failed { IfOk result (λ status. status ≡ 1 → HasFailed (O.failures out.old) (O.failures out.new)) }
    ensures status { IfOk result (λ status. status ≤ 1) }
    ensures dry { making.entry.dry_run ≡ true → F.held files.new ≡ F.held files.old }
    ensures last { IfSaid (MakesDirectoryLast making.entry.folder.now) (F.held files.old) (F.held files.new) }
    ensures made { making.entry.dry_run ≡ false
        → DoneMerges result making.entry.names.now.choice making.entry.max_bytes
        making.entry.names.now.withdrawn.items (string_bytes set.now ∷ []) ⊥ making.entry.folder.now
        (F.held files.old) (F.held files.new) }
    ensures printed { IfOk result (λ status. status ≡ 0 → PrintsMerge O.Write making.entry.style
        making.entry.dry_run making.entry.strict making.entry.names.now.choice making.entry.max_bytes
        making.entry.names.now.withdrawn.items (string_bytes set.now ∷ []) (F.held files.old) out.old out.new) }
{
    let mut sum = SetSum::new();
    let done = withdraw_of(making, slice::from_ref(set), &mut sum, files, out);
    if making.explains && matches!(done, Ok(0)) {
        show_set_sum(&sum, making.style, files);
    }
    match done {
        Ok(status) => Ok(status),
        Err(refusal) => Err(refusal),
    }
}

#[tactic(auto, using(crate::proofs::MadeLast::same_directory))]
fn withdraw_of<F: Files + Progress + Hints, O: Write>(
    making: Making<'_>,
    sets: &[String],
    sum: &mut SetSum,
    files: &mut F,
    out: &mut O,
) -> Result<u8, Refusal>
    requires { length sets.now ≡ 1 }
    ensures refusal { IfErr result (IsOfWork 1) }
    ensures due { IfErr result (λ refusal. IsDue F.In.Read (F.refusals files.new) (F.Write.failures files.new)
        making.entry.strict refusal.fault) }
    ensures grounds { IfErr result (λ refusal. GroundsOfSets making.entry.names.now.choice making.entry.max_bytes
        making.entry.names.now.withdrawn.items (words_of sets.now) false (F.held files.old) (F.held files.new)
        refusal.subject refusal.fault) }
    ensures failed { IfOk result (λ status. status ≡ 1 → HasFailed (O.failures out.old) (O.failures out.new)) }
    ensures status { IfOk result (λ status. status ≤ 1) }
    ensures dry { making.entry.dry_run ≡ true → F.held files.new ≡ F.held files.old }
    ensures last { IfSaid (MakesDirectoryLast making.entry.folder.now) (F.held files.old) (F.held files.new) }
    ensures made { making.entry.dry_run ≡ false
        → DoneMerges result making.entry.names.now.choice making.entry.max_bytes
        making.entry.names.now.withdrawn.items (words_of sets.now) ⊥ making.entry.folder.now
        (F.held files.old) (F.held files.new) }
    ensures printed { IfOk result (λ status. status ≡ 0 → PrintsMerge O.Write making.entry.style
        making.entry.dry_run making.entry.strict making.entry.names.now.choice making.entry.max_bytes
        making.entry.names.now.withdrawn.items (words_of sets.now) (F.held files.old) out.old out.new) }
{
    let directories = read_directories(making.alloc, sets, files)?;
    let slices = slices(making.alloc, &directories)?;
    let limits = Limits::of_bytes(making.max_bytes);
    let noted = match withdraw_with_notes(
        making.alloc,
        slices[0],
        &making.names.withdrawn,
        &making.names.choice,
        limits,
    ) {
        Ok(noted) => noted,
        Err(fault) => return Err(refuse(sets, &fault, making.style, out)),
    };
    *sum = SetSum::of(&noted, sets.len());
    let origins = SetFiles {
        folders: sets,
        directories: &slices,
        link: false,
    };
    write_noted(making, &origins, &noted, files, out)
}

/// Prints what is noted of these file-sets, and then makes what was planned of them, or prints what would be made.
/// Answers the status.
#[tactic(auto, using(crate::proofs::MadeLast::same_directory))]
fn write_noted<'a, F: Files + Progress + Hints, O: Write>(
    making: Making<'_>,
    sets: &SetFiles<'_, 'a>,
    noted: &NotedMerge<'a>,
    files: &mut F,
    out: &mut O,
) -> Result<u8, Refusal>
    requires { NamesBelow (length sets.now.folders.now) noted.now }
    ensures refusal { IfErr result (IsOfWork (length sets.now.folders.now)) }
    ensures due { IfErr result (λ refusal. IsDue F.In.Read (F.refusals files.new) (F.Write.failures files.new)
        making.entry.strict refusal.fault) }
    ensures grounds { IfErr result (λ refusal. GroundsOfMaking (HasUnfitImage
        (IsMemberPath (words_of sets.now.folders.now)) (λ _ _. sets.now.link ≡ true) (λ _. None)
        (sets.now.link ≡ true) noted.now.merged.plan noted.now.merged.picks.items (F.held files.new))
        (IsNoted noted.now) refusal.fault) }
    ensures failed { IfOk result (λ status. status ≡ 1 → HasFailed (O.failures out.old) (O.failures out.new)) }
    ensures status { IfOk result (λ status. status ≤ 1) }
    ensures dry { making.entry.dry_run ≡ true → F.held files.new ≡ F.held files.old }
    ensures last { IfSaid (MakesDirectoryLast making.entry.folder.now) (F.held files.old) (F.held files.new) }
    ensures strict { making.entry.strict ≡ true → IsNoted noted.now
        → IfOk result (λ status. status ≡ 1) × IfErr result IsStrict
        × (F.held files.new ≡ F.held files.old) }
    ensures made { making.entry.dry_run ≡ false → IfOk result (λ status. status ≡ 0
        → MakesFileSet
        (IsMemberPath (words_of sets.now.folders.now)) (λ _ _. sets.now.link ≡ true) (λ _. None)
        making.entry.folder.now noted.now.merged.plan noted.now.merged.picks.items
        (F.held files.old) (F.held files.new)) }
    ensures printed { IfOk result (λ status. status ≡ 0 → (notes : List ℕ)
        × SaysSetNotes making.entry.style (words_of sets.now.folders.now) noted.now notes
        × (making.entry.strict ≡ true → ¬ IsNoted noted.now)
        × TakesText O.Write out.old out.new
        (notes ++ last_line making.entry.style making.entry.dry_run noted.now.merged.plan)) }
{
    if tell_noted(noted, sets.folders, making.strict, making.style, out).is_err() {
        return Ok(1);
    }
    refuse_noted(making.strict, is_noted(noted))?;
    keep_dates(making.explains_in_words(), &noted.merged.plan, files);
    if making.dry_run {
        let plan = &noted.merged.plan;
        return Ok(tell_counts(Ending::Planned, plan, making.style, out));
    }
    let set = FileSet {
        folder: making.folder,
        plan: &noted.merged.plan,
        origins: sets,
        picks: &noted.merged.picks,
    };
    make_file_set(making.alloc, &set, making.style, files, out)
}

fn is_noted(noted: &NotedMerge<'_>) -> bool
    ensures { IsTrue result ↔ IsNoted noted.now }
{
    has_notes(&noted.notes) || has_set_notes(&noted.sets)
}

/// Prints what is noted of these file-sets: records that are not reached, files left out, images withdrawn, UIDs in no
/// record, and Patient IDs with more than one name. It fails only where the output failed.
fn tell_noted<O: Write>(
    noted: &NotedMerge<'_>,
    folders: &[String],
    is_strict: bool,
    style: Style,
    out: &mut O,
) -> fmt::Result
    requires { NamesBelow (length folders.now) noted.now }
    ensures said { (is_strict ≡ true → noted.now.sets.withdrawn.items ≡ [])
        → OnOk result ((text : List ℕ)
        × SaysSetNotes style (words_of folders.now) noted.now text
        × TakesText O.Write out.old out.new text) }
    ensures worked { IsOk result → O.failures out.new ≡ O.failures out.old }
    ensures failed { IsErr result → HasFailed (O.failures out.old) (O.failures out.new) }
{
    let NotedMerge {
        merged: _merged,
        notes,
        sets,
    } = noted;
    tell_unreached(&sets.unreached, folders, style, out)?;
    tell_left_out(&notes.left_out, folders, style, out)?;
    tell_withdrawn(&sets.withdrawn, folders, is_strict, style, out)?;
    tell_unlisted(&sets.unlisted, style, out)?;
    tell_names(&notes.names, style, out)
}

pub(crate) fn slices<'a>(alloc: Global, all: &'a [Vec<u8>]) -> Result<Vec<&'a [u8]>, Memory>
    ensures count { IfOk result (λ slices. length slices.items ≡ length all.now) }
    ensures bytes { IfOk result (λ slices.
        map (λ slice. slice.now) slices.items ≡ map (λ bytes. bytes.items) all.now) }
{
    let mut slices = Vec::with_capacity(alloc, all.len())?;
    for bytes in all {
        slices.push(bytes.as_slice())?;
    }
    Ok(slices)
}

/// Prints which files have the two instances that conflict, if the plan is refused for two, and gives the refusal.
fn refuse<O: Write>(
    folders: &[String],
    noted: &NotedFault<MergeFault, Pick<'_>>,
    style: Style,
    out: &mut O,
) -> Refusal
    requires named { IsNamedSet (length folders.now) noted.now.fault }
    requires conflict { IsBelow (λ pick. pick.set) (length folders.now) noted.now.conflict }
    ensures work { IsOfWork (length folders.now) result }
    ensures engine { IsOfEngine result.fault }
    ensures refusal { result ≡ set_refusal noted.now.fault }
{
    match noted.fault {
        MergeFault::Memory => Refusal::memory(),
        MergeFault::Dir(at, fault) => Refusal::of(Subject::Source(at), ProgramFault::Dir(fault)),
        MergeFault::Own(at, fault) => Refusal::of(Subject::Source(at), ProgramFault::Own(fault)),
        MergeFault::Plan(fault) => {
            tell_conflict(&fault, &noted.conflict, folders, style, out);
            Refusal::general(ProgramFault::Plan(fault))
        }
    }
}
