//! Prints what a command says of its sources before it makes anything.
ghost use Rattle.std.specs.Prelude.{◌≡◌, ◌↔◌, ◌<◌, ℕ, List, All, IfErr, IsErr, IsOk, IsTrue, OnOk};
ghost use Rattle.std.specs.Prelude.{length, true};
ghost use Rattle.dd_elem.specs.Device.{HasFailed};
ghost use Rattle.dd_engine.specs.Noting.{AreBelow, IsBelow};
ghost use Rattle.dd_line.specs.Line.{words_of};
ghost use Rattle.dd_lines.specs.Text.{TakesText};
ghost use Rattle.dd_messages.specs.NoteLines.{left_out_line};
ghost use Rattle.dicomdir.specs.Noted.{HasNotes};
ghost use Rattle.dd_faults.specs.Refusal.{IsOfWork, IsStrict};
ghost use Rattle.dicomdir.specs.Said.{AreLines, IsLeftOut, IsNames, IsSkip, shown_text};

use crate::shown_path::{ShownFile, ShownPath};
use crate::unread::Unread;
use dd_elem::{Uid, Write};
use dd_engine::{ConflictingFiles, LeftOut, Notes, PatientNames};
use dd_faults::{ProgramFault, Refusal};
use dd_json::Style;
use dd_keys::KeyFault;
use dd_layout::PlanFault;
use dd_lines::print_line;
use dd_messages::{
    print_conflict_json, print_left_out, print_left_out_json, print_names, print_names_json,
    tell_skip,
};
use dd_refusals::Words;
use std::fmt::{self, InlineText};
use std::str;

/// The text of a UID: it has at most 64 characters (PS3.5 section 9.1).
pub(crate) type UidText = InlineText<64>;

/// Prints each source that is skipped, and why.
pub(crate) fn tell_skipped<O: Write>(
    skipped: &[(usize, KeyFault)],
    unread: Unread<'_>,
    sources: &[String],
    style: Style,
    out: &mut O,
) -> fmt::Result
    requires { All (λ skip. skip.0 < length sources.now) skipped.now }
    ensures told { OnOk result ((text : List ℕ)
        × AreLines (IsSkip style (words_of sources.now)) skipped.now text
        × TakesText O.Write out.old out.new text) }
    ensures worked { IsOk result → O.failures out.new ≡ O.failures out.old }
    ensures failed { IsErr result → HasFailed (O.failures out.old) (O.failures out.new) }
{
    for (at, fault) in skipped {
        let words = match fault {
            KeyFault::Read => Words::of(&unread.fault_of(*at)),
            fault => Words::of(fault),
        };
        tell_skip(sources[*at].as_str(), words.as_str(), style, out)?;
    }
    Ok(())
}

/// Prints each file that is left out, and which one is kept. `paths` are the sources, or the folders of the file-sets.
pub(crate) fn tell_left_out<T: ShownFile, O: Write>(
    left_out: &[LeftOut<T>],
    paths: &[String],
    style: Style,
    out: &mut O,
) -> fmt::Result
    requires { AreBelow T.number (length paths.now) left_out.now }
    ensures told { OnOk result ((text : List ℕ)
        × AreLines (IsLeftOut style (T.shows (words_of paths.now))) left_out.now text
        × TakesText O.Write out.old out.new text) }
    ensures worked { IsOk result → O.failures out.new ≡ O.failures out.old }
    ensures failed { IsErr result → HasFailed (O.failures out.old) (O.failures out.new) }
{
    for note in left_out {
        let file = note.file.path_among(paths);
        let kept = note.kept.path_among(paths);
        tell_left_out_for(file, kept, &note.instance, style, out)?;
    }
    Ok(())
}

fn tell_left_out_for<O: Write>(
    file: ShownPath<'_>,
    kept: ShownPath<'_>,
    instance: &Uid,
    style: Style,
    out: &mut O,
) -> fmt::Result
    ensures told { OnOk result (TakesText O.Write out.old out.new
        (left_out_line style (shown_text file.entry) (shown_text kept.entry) instance.now)) }
    ensures worked { IsOk result → O.failures out.new ≡ O.failures out.old }
    ensures failed { IsErr result → HasFailed (O.failures out.old) (O.failures out.new) }
{
    let (inside, kept_inside) = (file.inside, kept.inside);
    let (inside, kept_inside) = (inside.as_str(), kept_inside.as_str());
    let uid = uid_text(instance);
    match style {
        Style::Text => print_left_out(
            (file.folder, file.joint, inside),
            (kept.folder, kept.joint, kept_inside),
            uid,
            out,
        ),
        Style::Json => print_left_out_json(
            &[file.folder, file.joint, inside],
            &[kept.folder, kept.joint, kept_inside],
            uid,
            out,
        ),
    }
}

/// Gives the characters of a UID.
#[tactic(auto, using(dd_elem::proofs::UidText::IsUtf8_from_IsUid))]
pub(crate) fn uid_text(uid: &Uid) -> &str
    ensures { result.now ≡ uid.now }
{
    match str::from_utf8(uid.as_bytes()) {
        Ok(text) => text,
        Err(_) => "",
    }
}

/// Prints the Patient IDs that have more than one name.
pub(crate) fn tell_names<O: Write>(
    patients: &[PatientNames],
    style: Style,
    out: &mut O,
) -> fmt::Result
    ensures told { OnOk result ((text : List ℕ) × AreLines (IsNames style) patients.now text
        × TakesText O.Write out.old out.new text) }
    ensures worked { IsOk result → O.failures out.new ≡ O.failures out.old }
    ensures failed { IsErr result → HasFailed (O.failures out.old) (O.failures out.new) }
{
    for patient in patients {
        tell_names_of(patient, style, out)?;
    }
    Ok(())
}

/// Prints the line of a patient, with at most ten names.
fn tell_names_of<O: Write>(patient: &PatientNames, style: Style, out: &mut O) -> fmt::Result
    ensures told { OnOk result ((line : List ℕ) × IsNames style patient.now line
        × TakesText O.Write out.old out.new line) }
    ensures worked { IsOk result → O.failures out.new ≡ O.failures out.old }
    ensures failed { IsErr result → HasFailed (O.failures out.old) (O.failures out.new) }
{
    let (id, names) = (patient.id().as_bytes(), patient.names());
    match style {
        Style::Text => print_names(id, names, out),
        Style::Json => print_names_json(id, names, out),
    }
}

/// Prints which files have the two instances that conflict, if the plan is refused for two. `paths` are the sources, or
/// the folders of the file-sets. Where the output fails, nothing more is printed.
pub(crate) fn tell_conflict<T: ShownFile, O: Write>(
    fault: &PlanFault,
    conflict: &Option<ConflictingFiles<T>>,
    paths: &[String],
    style: Style,
    out: &mut O,
)
    requires { IsBelow T.number (length paths.now) conflict.now }
{
    if let (PlanFault::Conflict(one, other), Some(files)) = (fault, conflict) {
        if tell_has(files.one.path_among(paths), one, style, out).is_ok() {
            let _ = tell_has(files.other.path_among(paths), other, style, out);
        }
    }
}

fn tell_has<O: Write>(
    file: ShownPath<'_>,
    instance: &Uid,
    style: Style,
    out: &mut O,
) -> fmt::Result {
    let inside = file.inside;
    let uid = UidText::of(instance);
    let (inside, uid) = (inside.as_str(), uid.as_str());
    match style {
        Style::Text => print_has((file.folder, file.joint, inside), uid, out),
        Style::Json => print_conflict_json(&[file.folder, file.joint, inside], uid, out),
    }
}

fn print_has<O: Write>(file: (&str, &str, &str), uid: &str, out: &mut O) -> fmt::Result {
    let (folder, joint, inside) = file;
    print_line(&["NOTE ", folder, joint, inside, ": has ", uid], out)
}

pub(crate) fn has_notes<T>(notes: &Notes<T>) -> bool
    ensures { IsTrue result ↔ HasNotes notes.now }
{
    !notes.left_out.is_empty() || !notes.names.is_empty()
}

/// Refuses a run with `--strict` where a line SKIP or NOTE was printed about its sources.
pub(crate) fn refuse_noted(strict: bool, is_noted: bool) -> Result<(), Refusal>
    ensures refuses { IsErr result ↔ (strict ≡ true) × (is_noted ≡ true) }
    ensures fault { IfErr result IsStrict }
    ensures refusal { (paths : ℕ) → IfErr result (IsOfWork paths) }
{
    if strict && is_noted {
        return Err(Refusal::general(ProgramFault::Strict));
    }
    Ok(())
}
