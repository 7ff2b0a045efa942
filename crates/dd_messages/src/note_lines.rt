ghost use Rattle.std.specs.Prelude.{◌≡◌, ◌++◌, List, ℕ, IsErr, IsOk, OnOk};
ghost use Rattle.dd_elem.specs.Device.{HasFailed};
ghost use Rattle.dd_lines.specs.Text.{TakesText};
ghost use Rattle.dd_messages.specs.NoteLines.{left_out_words, names_words, skip_line, unlisted_line, unreached_line};
ghost use Rattle.dd_messages.specs.NoteLines.{unreached_words};
ghost use Rattle.serde_json.specs.Data.{Data};

use crate::note_json::{print_skip_json, print_unlisted_json, print_unreached_json};
use dd_elem::{Key, Write};
use dd_json::Style;
use dd_lines::{print_line, show_line};
use itoa::Buffer;
use std::fmt;

/// Prints that the source at this path is skipped, for the fault of these words.
pub fn tell_skip<O: Write>(path: &str, words: &str, style: Style, out: &mut O) -> fmt::Result
    ensures told { OnOk result ((fault : Data)
        × TakesText O.Write out.old out.new (skip_line style path.now words.now fault)) }
    ensures worked { IsOk result → O.failures out.new ≡ O.failures out.old }
    ensures failed { IsErr result → HasFailed (O.failures out.old) (O.failures out.new) }
{
    match style {
        Style::Text => print_line(&["SKIP ", path, ": ", words], out),
        Style::Json => print_skip_json(path, words, out),
    }
}

/// Prints that the first file is left out for the second. The pieces of each path stand one after the other.
pub fn print_left_out<O: Write>(
    file: (&str, &str, &str),
    kept: (&str, &str, &str),
    uid: &str,
    out: &mut O,
) -> fmt::Result
    ensures told { OnOk result (TakesText O.Write out.old out.new (left_out_words
        (file.entry.0.now ++ (file.entry.1.now ++ file.entry.2.now))
        (kept.entry.0.now ++ (kept.entry.1.now ++ kept.entry.2.now)) uid.now)) }
    ensures worked { IsOk result → O.failures out.new ≡ O.failures out.old }
    ensures failed { IsErr result → HasFailed (O.failures out.old) (O.failures out.new) }
{
    let (folder, joint, inside) = file;
    let (kept_folder, kept_joint, kept_inside) = kept;
    print_line(
        &[
            "NOTE ",
            folder,
            joint,
            inside,
            ": left out for ",
            kept_folder,
            kept_joint,
            kept_inside,
            ": same SOP Instance UID ",
            uid,
            ", other bytes",
        ],
        out,
    )
}

/// Prints a Patient ID with its names, ten at most, and how many it has.
pub fn print_names<O: Write>(id: &[u8], names: &[Key], out: &mut O) -> fmt::Result
    ensures told { OnOk result ((more : List (List ℕ))
        × TakesText O.Write out.old out.new (names_words id.now more)) }
    ensures worked { IsOk result → O.failures out.new ≡ O.failures out.old }
    ensures failed { IsErr result → HasFailed (O.failures out.old) (O.failures out.new) }
{
    let mut count = Buffer::new();
    let count = count.format(names.len()).as_bytes();
    show_line(
        &[
            b"NOTE -: Patient ID ",
            id,
            or_none(id),
            b" has ",
            count,
            b" names: ",
            name_at(names, 0),
            mark_before(names, 1),
            name_at(names, 1),
            mark_before(names, 2),
            name_at(names, 2),
            mark_before(names, 3),
            name_at(names, 3),
            mark_before(names, 4),
            name_at(names, 4),
            mark_before(names, 5),
            name_at(names, 5),
            mark_before(names, 6),
            name_at(names, 6),
            mark_before(names, 7),
            name_at(names, 7),
            mark_before(names, 8),
            name_at(names, 8),
            mark_before(names, 9),
            name_at(names, 9),
            mark_behind(names),
        ],
        out,
    )
}

/// Gives what follows the ID: `NOID` also stands for a patient without an ID.
fn or_none(id: &[u8]) -> &[u8] {
    if id == b"NOID".as_slice() {
        b" or none"
    } else {
        b""
    }
}

fn name_at(names: &[Key], at: usize) -> &[u8] {
    match names.get(at) {
        Some(name) if name.as_bytes().is_empty() => b"-",
        Some(name) => name.as_bytes(),
        None => b"",
    }
}

fn mark_before(names: &[Key], at: usize) -> &[u8] {
    if at < names.len() { b", " } else { b"" }
}

fn mark_behind(names: &[Key]) -> &[u8] {
    if names.len() > 10 { b", .." } else { b"" }
}

/// Prints how many records of a file-set are not reached.
pub fn tell_unreached_set<O: Write>(
    set: &str,
    records: u64,
    style: Style,
    out: &mut O,
) -> fmt::Result
    ensures told { OnOk result (TakesText O.Write out.old out.new
        (unreached_line style set.now records)) }
    ensures worked { IsOk result → O.failures out.new ≡ O.failures out.old }
    ensures failed { IsErr result → HasFailed (O.failures out.old) (O.failures out.new) }
{
    match style {
        Style::Text => print_unreached(set, records, out),
        Style::Json => print_unreached_json(set, records, out),
    }
}

fn print_unreached<O: Write>(set: &str, records: u64, out: &mut O) -> fmt::Result
    ensures told { OnOk result (TakesText O.Write out.old out.new (unreached_words set.now records)) }
    ensures worked { IsOk result → O.failures out.new ≡ O.failures out.old }
    ensures failed { IsErr result → HasFailed (O.failures out.old) (O.failures out.new) }
{
    let mut count = Buffer::new();
    let count = count.format(records);
    print_line(
        &["NOTE ", set, ": ", count, " records are not reached"],
        out,
    )
}

/// Prints that no record lists the instance.
pub fn tell_unlisted_uid<O: Write>(uid: &str, style: Style, out: &mut O) -> fmt::Result
    ensures told { OnOk result (TakesText O.Write out.old out.new (unlisted_line style uid.now)) }
    ensures worked { IsOk result → O.failures out.new ≡ O.failures out.old }
    ensures failed { IsErr result → HasFailed (O.failures out.old) (O.failures out.new) }
{
    match style {
        Style::Text => print_line(&["NOTE -: ", uid, " is in no record"], out),
        Style::Json => print_unlisted_json(uid, out),
    }
}
