//! What a command says of its sources and of the file-set that it makes, as JSON objects.
ghost use Rattle.std.specs.Prelude.{◌≡◌, IsErr, IsOk, OnOk, length};
ghost use Rattle.dd_elem.specs.Device.{HasFailed};
ghost use Rattle.dd_json.specs.Values.{json_line, value_of};
ghost use Rattle.dd_lines.specs.Text.{TakesText, joined};
ghost use Rattle.dd_messages.specs.Counts.{counts_json, images_json};
ghost use Rattle.dd_messages.specs.NoteLines.{conflict_json, left_out_json, names_json, skip_json, unlisted_json};
ghost use Rattle.dd_messages.specs.NoteLines.{unreached_json, withdrawn_json};
ghost use Rattle.serde_json.specs.Data.{Data};

use crate::fault_json::FaultWords;
use dd_elem::{Key, Write};
use dd_json::{Json, print_json};
use std::fmt;

/// The most names of a Patient ID that are shown.
const MOST_NAMES: usize = 10;

/// Prints that a source is skipped, and the fault that has these words.
pub(crate) fn print_skip_json<O: Write>(path: &str, words: &str, out: &mut O) -> fmt::Result
    ensures told { OnOk result ((fault : Data)
        × TakesText O.Write out.old out.new (json_line (skip_json path.now fault))) }
    ensures worked { IsOk result → O.failures out.new ≡ O.failures out.old }
    ensures failed { IsErr result → HasFailed (O.failures out.old) (O.failures out.new) }
{
    match FaultWords::of(words).class_name() {
        Some(class) => print_skip_of_class(path, words, class, out),
        None => print_skip_of(path, words, out),
    }
}

/// Prints the same of a class with a name.
fn print_skip_of_class<O: Write>(path: &str, words: &str, class: &str, out: &mut O) -> fmt::Result
    ensures told { OnOk result ((fault : Data)
        × TakesText O.Write out.old out.new (json_line (skip_json path.now fault))) }
    ensures worked { IsOk result → O.failures out.new ≡ O.failures out.old }
    ensures failed { IsErr result → HasFailed (O.failures out.old) (O.failures out.new) }
{
    let fault = FaultWords::of(words);
    print_skip_for(path, Json::Object(&fault.members_of_class(class)), out)
}

fn print_skip_of<O: Write>(path: &str, words: &str, out: &mut O) -> fmt::Result
    ensures told { OnOk result ((fault : Data)
        × TakesText O.Write out.old out.new (json_line (skip_json path.now fault))) }
    ensures worked { IsOk result → O.failures out.new ≡ O.failures out.old }
    ensures failed { IsErr result → HasFailed (O.failures out.old) (O.failures out.new) }
{
    let fault = FaultWords::of(words);
    match fault.cause() {
        None => print_skip_for(path, Json::Object(&fault.members()), out),
        Some(cause) => {
            let cause = cause.named();
            let members = fault.members_with(&cause);
            print_skip_for(path, Json::Object(&members), out)
        }
    }
}

fn print_skip_for<'t, O: Write>(path: &'t str, fault: Json<'t>, out: &mut O) -> fmt::Result
    ensures told { OnOk result (TakesText O.Write out.old out.new
        (json_line (skip_json path.now (value_of fault.entry)))) }
    ensures worked { IsOk result → O.failures out.new ≡ O.failures out.old }
    ensures failed { IsErr result → HasFailed (O.failures out.old) (O.failures out.new) }
{
    print_json(
        &Json::Object(&[
            ("line", Json::Text("SKIP")),
            ("path", Json::Text(path)),
            ("fault", fault),
        ]),
        out,
    )
}

/// Prints that the first file is left out for the second. The pieces of each path stand one after the other.
pub fn print_left_out_json<'t, O: Write>(
    file: &'t [&'t str],
    kept: &'t [&'t str],
    uid: &'t str,
    out: &mut O,
) -> fmt::Result
    ensures told { OnOk result (TakesText O.Write out.old out.new
        (json_line (left_out_json (joined file.now) (joined kept.now) uid.now))) }
    ensures worked { IsOk result → O.failures out.new ≡ O.failures out.old }
    ensures failed { IsErr result → HasFailed (O.failures out.old) (O.failures out.new) }
{
    print_json(
        &Json::Object(&[
            ("line", Json::Text("NOTE")),
            ("kind", Json::Text("left_out")),
            ("path", Json::Texts(file)),
            ("kept", Json::Texts(kept)),
            ("uid", Json::Text(uid)),
        ]),
        out,
    )
}

/// Prints a Patient ID with its names, ten at most, and how many it has.
pub fn print_names_json<O: Write>(id: &[u8], names: &[Key], out: &mut O) -> fmt::Result
    ensures told { OnOk result ((shown : Data) × TakesText O.Write out.old out.new
        (json_line (names_json id.now (length names.now) shown))) }
    ensures worked { IsOk result → O.failures out.new ≡ O.failures out.old }
    ensures failed { IsErr result → HasFailed (O.failures out.old) (O.failures out.new) }
{
    let shown = [
        name_at(names, 0),
        name_at(names, 1),
        name_at(names, 2),
        name_at(names, 3),
        name_at(names, 4),
        name_at(names, 5),
        name_at(names, 6),
        name_at(names, 7),
        name_at(names, 8),
        name_at(names, 9),
    ];
    let count = names.len().min(MOST_NAMES);
    print_names_of(id, names.len() as u64, &shown[..count], out)
}

fn name_at(names: &[Key], at: usize) -> Json<'_> {
    match names.get(at) {
        Some(name) => Json::Shown(name.as_bytes()),
        None => Json::Null,
    }
}

fn print_names_of<'t, O: Write>(
    id: &'t [u8],
    count: u64,
    names: &'t [Json<'t>],
    out: &mut O,
) -> fmt::Result
    ensures told { OnOk result ((shown : Data) × TakesText O.Write out.old out.new
        (json_line (names_json id.now count shown))) }
    ensures worked { IsOk result → O.failures out.new ≡ O.failures out.old }
    ensures failed { IsErr result → HasFailed (O.failures out.old) (O.failures out.new) }
{
    print_json(
        &Json::Object(&[
            ("line", Json::Text("NOTE")),
            ("kind", Json::Text("names")),
            ("patient_id", Json::Shown(id)),
            ("count", Json::Number(count)),
            ("names", Json::Array(names)),
        ]),
        out,
    )
}

/// Prints that the file has an instance that conflicts with another one.
pub fn print_conflict_json<'t, O: Write>(
    file: &'t [&'t str],
    uid: &'t str,
    out: &mut O,
) -> fmt::Result
    ensures told { OnOk result (TakesText O.Write out.old out.new
        (json_line (conflict_json (joined file.now) uid.now))) }
    ensures worked { IsOk result → O.failures out.new ≡ O.failures out.old }
    ensures failed { IsErr result → HasFailed (O.failures out.old) (O.failures out.new) }
{
    print_json(
        &Json::Object(&[
            ("line", Json::Text("NOTE")),
            ("kind", Json::Text("conflict")),
            ("path", Json::Texts(file)),
            ("uid", Json::Text(uid)),
        ]),
        out,
    )
}

/// Prints how many records of a file-set are not reached.
pub(crate) fn print_unreached_json<O: Write>(set: &str, records: u64, out: &mut O) -> fmt::Result
    ensures told { OnOk result (TakesText O.Write out.old out.new
        (json_line (unreached_json set.now records))) }
    ensures worked { IsOk result → O.failures out.new ≡ O.failures out.old }
    ensures failed { IsErr result → HasFailed (O.failures out.old) (O.failures out.new) }
{
    print_json(
        &Json::Object(&[
            ("line", Json::Text("NOTE")),
            ("kind", Json::Text("unreached")),
            ("path", Json::Text(set)),
            ("records", Json::Number(records)),
        ]),
        out,
    )
}

/// Prints that the file-set in the folder `by` withdraws the instance of the file.
pub fn print_withdrawn_json<'t, O: Write>(
    file: &'t [&'t str],
    by: &'t str,
    uid: &'t str,
    out: &mut O,
) -> fmt::Result
    ensures told { OnOk result (TakesText O.Write out.old out.new
        (json_line (withdrawn_json (joined file.now) by.now uid.now))) }
    ensures worked { IsOk result → O.failures out.new ≡ O.failures out.old }
    ensures failed { IsErr result → HasFailed (O.failures out.old) (O.failures out.new) }
{
    print_json(
        &Json::Object(&[
            ("line", Json::Text("NOTE")),
            ("kind", Json::Text("withdrawn")),
            ("path", Json::Texts(file)),
            ("by", Json::Text(by)),
            ("uid", Json::Text(uid)),
        ]),
        out,
    )
}

/// Prints that no record lists the instance.
pub(crate) fn print_unlisted_json<O: Write>(uid: &str, out: &mut O) -> fmt::Result
    ensures told { OnOk result (TakesText O.Write out.old out.new
        (json_line (unlisted_json uid.now))) }
    ensures worked { IsOk result → O.failures out.new ≡ O.failures out.old }
    ensures failed { IsErr result → HasFailed (O.failures out.old) (O.failures out.new) }
{
    print_json(
        &Json::Object(&[
            ("line", Json::Text("NOTE")),
            ("kind", Json::Text("unlisted")),
            ("uid", Json::Text(uid)),
        ]),
        out,
    )
}

/// Prints how many images a file-set has, and how many bytes its directory has.
pub fn print_counts_json<O: Write>(
    word: &str,
    instances: u64,
    bytes: u64,
    out: &mut O,
) -> fmt::Result
    ensures told { OnOk result (TakesText O.Write out.old out.new
        (json_line (counts_json word.now instances bytes))) }
    ensures worked { IsOk result → O.failures out.new ≡ O.failures out.old }
    ensures failed { IsErr result → HasFailed (O.failures out.old) (O.failures out.new) }
{
    print_json(
        &Json::Object(&[
            ("line", Json::Text(word)),
            ("instances", Json::Number(instances)),
            ("bytes", Json::Number(bytes)),
        ]),
        out,
    )
}

/// Prints the same of a file-set that would be made, with the number of bytes of its images.
pub fn print_images_json<O: Write>(
    instances: u64,
    bytes: u64,
    images: u64,
    out: &mut O,
) -> fmt::Result
    ensures told { OnOk result (TakesText O.Write out.old out.new
        (json_line (images_json instances bytes images))) }
    ensures worked { IsOk result → O.failures out.new ≡ O.failures out.old }
    ensures failed { IsErr result → HasFailed (O.failures out.old) (O.failures out.new) }
{
    print_json(
        &Json::Object(&[
            ("line", Json::Text("PLAN")),
            ("instances", Json::Number(instances)),
            ("bytes", Json::Number(bytes)),
            ("image_bytes", Json::Number(images)),
        ]),
        out,
    )
}
