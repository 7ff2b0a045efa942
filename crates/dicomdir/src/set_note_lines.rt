//! Prints what `merge` and `withdraw` say of whole file-sets and of withdrawn instances before they make anything.
ghost use Rattle.std.specs.Prelude.{◌≡◌, ◌↔◌, ◌<◌, ℕ, List, [], All, IsErr, IsOk, IsTrue, OnOk};
ghost use Rattle.std.specs.Prelude.{length, true};
ghost use Rattle.dd_elem.specs.Device.{HasFailed};
ghost use Rattle.dd_line.specs.Line.{words_of};
ghost use Rattle.dd_lines.specs.Text.{TakesText};
ghost use Rattle.dd_messages.specs.NoteLines.{unreached_line};
ghost use Rattle.dicomdir.specs.Noted.{HasSetNotes};
ghost use Rattle.dd_refusals.specs.Faults.{path_at};
ghost use Rattle.dicomdir.specs.Said.{AreLines, IsUnlisted, IsUnreached};

use crate::note_lines::{UidText, uid_text};
use crate::shown_path::{ShownFile, ShownPath};
use dd_elem::{Uid, Write};
use dd_engine::{Pick, SetNotes, Unreached, WithdrawnImage};
use dd_json::Style;
use dd_lines::print_line;
use dd_messages::{print_withdrawn_json, tell_unlisted_uid, tell_unreached_set};
use std::fmt;

/// Prints which file-sets have records that are not reached, and how many.
pub(crate) fn tell_unreached<O: Write>(
    unreached: &[Unreached],
    folders: &[String],
    style: Style,
    out: &mut O,
) -> fmt::Result
    requires { All (λ note. note.set < length folders.now) unreached.now }
    ensures told { OnOk result ((text : List ℕ)
        × AreLines (IsUnreached style (words_of folders.now)) unreached.now text
        × TakesText O.Write out.old out.new text) }
    ensures worked { IsOk result → O.failures out.new ≡ O.failures out.old }
    ensures failed { IsErr result → HasFailed (O.failures out.old) (O.failures out.new) }
{
    for note in unreached {
        tell_unreached_in(note, folders, style, out)?;
    }
    Ok(())
}

fn tell_unreached_in<O: Write>(
    note: &Unreached,
    folders: &[String],
    style: Style,
    out: &mut O,
) -> fmt::Result
    requires { note.now.set < length folders.now }
    ensures told { OnOk result (TakesText O.Write out.old out.new
        (unreached_line style (path_at (words_of folders.now) note.now.set) note.now.records)) }
    ensures worked { IsOk result → O.failures out.new ≡ O.failures out.old }
    ensures failed { IsErr result → HasFailed (O.failures out.old) (O.failures out.new) }
{
    tell_unreached_set(folders[note.set].as_str(), note.records, style, out)
}

/// Prints each image whose instance a file-set in one of these folders withdraws, and which set that is. A withdrawal
/// is to pass from site to site without a word, so it prints nothing unless the run is strict.
pub(crate) fn tell_withdrawn<O: Write>(
    withdrawn: &[WithdrawnImage<Pick<'_>>],
    folders: &[String],
    is_strict: bool,
    style: Style,
    out: &mut O,
) -> fmt::Result
    requires { All (λ image. (image.file.set < length folders.now)
        × (image.by < length folders.now)) withdrawn.now }
    ensures none { (is_strict ≡ true → withdrawn.now ≡ []) → out.new ≡ out.old }
    ensures worked { IsOk result → O.failures out.new ≡ O.failures out.old }
    ensures failed { IsErr result → HasFailed (O.failures out.old) (O.failures out.new) }
{
    if !is_strict {
        return Ok(());
    }
    for image in withdrawn {
        let file = image.file.path_among(folders);
        let by = folders[image.by].as_str();
        tell_withdrawn_in(file, by, &image.instance, style, out)?;
    }
    Ok(())
}

fn tell_withdrawn_in<O: Write>(
    file: ShownPath<'_>,
    by: &str,
    instance: &Uid,
    style: Style,
    out: &mut O,
) -> fmt::Result
    ensures worked { IsOk result → O.failures out.new ≡ O.failures out.old }
    ensures failed { IsErr result → HasFailed (O.failures out.old) (O.failures out.new) }
{
    let uid = UidText::of(instance);
    let inside = file.inside;
    let (inside, uid) = (inside.as_str(), uid.as_str());
    match style {
        Style::Text => print_withdrawn((file.folder, file.joint, inside), by, uid, out),
        Style::Json => { print_withdrawn_json(&[file.folder, file.joint, inside], by, uid, out) }
    }
}

fn print_withdrawn<O: Write>(
    file: (&str, &str, &str),
    by: &str,
    uid: &str,
    out: &mut O,
) -> fmt::Result
    ensures worked { IsOk result → O.failures out.new ≡ O.failures out.old }
    ensures failed { IsErr result → HasFailed (O.failures out.old) (O.failures out.new) }
{
    let (folder, joint, inside) = file;
    print_line(
        &[
            "NOTE ",
            folder,
            joint,
            inside,
            ": withdrawn in ",
            by,
            ": ",
            uid,
        ],
        out,
    )
}

/// Prints the UIDs of the command line that no record lists.
pub(crate) fn tell_unlisted<O: Write>(unlisted: &[Uid], style: Style, out: &mut O) -> fmt::Result
    ensures told { OnOk result ((text : List ℕ) × AreLines (IsUnlisted style) unlisted.now text
        × TakesText O.Write out.old out.new text) }
    ensures worked { IsOk result → O.failures out.new ≡ O.failures out.old }
    ensures failed { IsErr result → HasFailed (O.failures out.old) (O.failures out.new) }
{
    for instance in unlisted {
        tell_unlisted_uid(uid_text(instance), style, out)?;
    }
    Ok(())
}

pub(crate) fn has_set_notes(notes: &SetNotes<'_>) -> bool
    ensures { IsTrue result ↔ HasSetNotes notes.now }
{
    !notes.unreached.is_empty() || !notes.withdrawn.is_empty() || !notes.unlisted.is_empty()
}
