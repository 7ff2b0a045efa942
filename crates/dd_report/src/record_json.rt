//! The records of a directory, and what is withdrawn, as JSON objects.
ghost use Rattle.std.specs.Prelude.{◌≡◌, ◌∷◌, [], codes};
ghost use Rattle.dd_set.specs.Views.{set_view};
ghost use Rattle.dd_walk.specs.ForestViews.{tree_view};
ghost use Rattle.dd_report.specs.FoundRecords.{found_line, found_row, path_data};
ghost use Rattle.dd_report.specs.Listing.{elements_in, members_with, named_members, record_json, record_members};
ghost use Rattle.dd_report.specs.Listing.{set_json, totals_json, uid_members, withdrawn_json};
ghost use Rattle.dd_report.specs.MemberTexts.{back_text, front_text, member_text, more_text, open_text};
ghost use Rattle.dd_report.specs.declared.known.Form.TheVariants.{Long};
ghost use Rattle.dd_json.specs.declared.value.Json.{Object};
ghost use Rattle.dd_json.specs.Values.{json_line, members_in, members_view, printed, value_of};
ghost use Rattle.dd_lines.specs.Telling.{Tells, way_of};

use crate::findings::{file_in, value_in};
use crate::found_records::FoundRecord;
use crate::known::Form;
use crate::listing::{label_tag, uid_tag};
use dd_dicom_json::{CharacterSet, add_elements};
use dd_elem::Write;
use dd_json::{Json, add_json, add_json_line, add_member_name, add_raw};
use dd_lines::LineBuffer;
use dd_set::DataSet;
use dd_walk::Tree;
use std::fmt;

/// Adds the object of a record. File ID and UID are members only where the record has them; in the long form the last
/// member is the data set.
pub(crate) fn add_record<W: Write>(
    tree: &Tree<'_>,
    level: u64,
    form: Form,
    lines: &mut LineBuffer<'_, W>,
) -> fmt::Result
    ensures same { lines.new.to.ghost_name ≡ lines.old.to.ghost_name }
    ensures written { Tells result (json_line (record_json form level (tree_view tree.now).node))
        (way_of W.Write lines.old) (way_of W.Write lines.new) }
{
    add_front(tree, level, lines)?;
    add_back(&tree.set, form, lines)
}

/// Adds the members that each form has.
fn add_front<W: Write>(tree: &Tree<'_>, level: u64, lines: &mut LineBuffer<'_, W>) -> fmt::Result
    ensures same { lines.new.to.ghost_name ≡ lines.old.to.ghost_name }
    ensures written { Tells result (front_text (record_members level (tree_view tree.now).node))
        (way_of W.Write lines.old) (way_of W.Write lines.new) }
{
    add_named(tree, level, lines)?;
    add_uid(value_in(tree, uid_tag(tree.kind)), lines)
}

/// Adds the UID where there is one.
fn add_uid<W: Write>(uid: &[u8], lines: &mut LineBuffer<'_, W>) -> fmt::Result
    ensures same { lines.new.to.ghost_name ≡ lines.old.to.ghost_name }
    ensures written { Tells result (more_text (members_in (uid_members uid.now)))
        (way_of W.Write lines.old) (way_of W.Write lines.new) }
{
    if uid.is_empty() {
        return Ok(());
    }
    add_member("uid", &Json::Shown(uid), lines)
}

/// Opens the object with all other members.
fn add_named<W: Write>(tree: &Tree<'_>, level: u64, lines: &mut LineBuffer<'_, W>) -> fmt::Result
    ensures same { lines.new.to.ghost_name ≡ lines.old.to.ghost_name }
    ensures written { Tells result (front_text (named_members level (tree_view tree.now).node))
        (way_of W.Write lines.old) (way_of W.Write lines.new) }
{
    let file = file_in(tree);
    let key = value_in(tree, label_tag(tree.kind));
    if file.is_empty() {
        add_without_file(tree, level, key, lines)
    } else {
        add_with_file(tree, level, file, key, lines)
    }
}

fn add_without_file<'t, W: Write>(
    tree: &Tree<'t>,
    level: u64,
    key: &'t [u8],
    lines: &mut LineBuffer<'_, W>,
) -> fmt::Result
    ensures same { lines.new.to.ghost_name ≡ lines.old.to.ghost_name }
    ensures written { Tells result (front_text (members_with level (tree_view tree.now).node [] key.now))
        (way_of W.Write lines.old) (way_of W.Write lines.new) }
{
    let kind = tree.kind;
    open_record(
        &[
            ("offset", Json::Number(u64::from(tree.at))),
            ("level", Json::Number(level)),
            ("type", Json::Shown(kind)),
            ("in_use", Json::Boolean(tree.in_use)),
            ("key", Json::Shown(key)),
        ],
        lines,
    )
}

fn add_with_file<'t, W: Write>(
    tree: &Tree<'t>,
    level: u64,
    file: &'t [u8],
    key: &'t [u8],
    lines: &mut LineBuffer<'_, W>,
) -> fmt::Result
    ensures same { lines.new.to.ghost_name ≡ lines.old.to.ghost_name }
    ensures written { Tells result (front_text (members_with level (tree_view tree.now).node
        ((codes "file", printed file.now) ∷ []) key.now))
        (way_of W.Write lines.old) (way_of W.Write lines.new) }
{
    let kind = tree.kind;
    open_record(
        &[
            ("offset", Json::Number(u64::from(tree.at))),
            ("level", Json::Number(level)),
            ("type", Json::Shown(kind)),
            ("in_use", Json::Boolean(tree.in_use)),
            ("file", Json::Shown(file)),
            ("key", Json::Shown(key)),
        ],
        lines,
    )
}

/// Opens the object of a record with its line's name and these members.
fn open_record<W: Write>(members: &[(&str, Json<'_>)], lines: &mut LineBuffer<'_, W>) -> fmt::Result
    ensures same { lines.new.to.ghost_name ≡ lines.old.to.ghost_name }
    ensures written { Tells result (open_text (value_of (Object members.entry)))
        (way_of W.Write lines.old) (way_of W.Write lines.new) }
{
    add_raw("{\"line\":\"RECORD\"", lines)?;
    add_members(members, lines)
}

/// Adds each member after a comma.
fn add_members<W: Write>(members: &[(&str, Json<'_>)], lines: &mut LineBuffer<'_, W>) -> fmt::Result
    ensures same { lines.new.to.ghost_name ≡ lines.old.to.ghost_name }
    ensures written { Tells result (more_text (members_view members.now))
        (way_of W.Write lines.old) (way_of W.Write lines.new) }
{
    for member in members {
        add_member(member.0, &member.1, lines)?;
    }
    Ok(())
}

fn add_member<W: Write>(name: &str, value: &Json<'_>, lines: &mut LineBuffer<'_, W>) -> fmt::Result
    ensures same { lines.new.to.ghost_name ≡ lines.old.to.ghost_name }
    ensures written { Tells result (member_text name.now (value_of value.now))
        (way_of W.Write lines.old) (way_of W.Write lines.new) }
{
    add_raw(",", lines)?;
    add_member_name(name, lines)?;
    add_json(value, lines)
}

/// Adds what the form adds to the other members, and ends the line.
fn add_back<W: Write>(set: &DataSet<'_>, form: Form, lines: &mut LineBuffer<'_, W>) -> fmt::Result
    ensures same { lines.new.to.ghost_name ≡ lines.old.to.ghost_name }
    ensures written { Tells result (back_text (elements_in form (set_view set.now)))
        (way_of W.Write lines.old) (way_of W.Write lines.new) }
{
    match form {
        Form::Short => add_raw("}\n", lines),
        Form::Long => add_set_member(set, lines),
    }
}

/// Adds the data set in the DICOM JSON model as the last member, and ends the line.
fn add_set_member<W: Write>(set: &DataSet<'_>, lines: &mut LineBuffer<'_, W>) -> fmt::Result
    ensures same { lines.new.to.ghost_name ≡ lines.old.to.ghost_name }
    ensures written { Tells result (back_text (elements_in Long (set_view set.now)))
        (way_of W.Write lines.old) (way_of W.Write lines.new) }
{
    add_raw(",\"elements\":", lines)?;
    add_elements(set, CharacterSet::Ascii, lines)?;
    add_raw("}\n", lines)
}

/// Adds the object of a record in the long form, with the path of its file before the data set.
pub(crate) fn add_found_record<W: Write>(
    found: &FoundRecord<'_, '_>,
    lines: &mut LineBuffer<'_, W>,
) -> fmt::Result
    ensures same { lines.new.to.ghost_name ≡ lines.old.to.ghost_name }
    ensures written { Tells result (found_line (found_row found.now))
        (way_of W.Write lines.old) (way_of W.Write lines.new) }
{
    add_front(found.tree, found.level, lines)?;
    add_path(found, lines)?;
    add_set_member(&found.tree.set, lines)
}

fn add_path<W: Write>(found: &FoundRecord<'_, '_>, lines: &mut LineBuffer<'_, W>) -> fmt::Result
    ensures same { lines.new.to.ghost_name ≡ lines.old.to.ghost_name }
    ensures written { Tells result (member_text (codes "path") (path_data (found_row found.now).path))
        (way_of W.Write lines.old) (way_of W.Write lines.new) }
{
    match &found.path {
        Some(path) => add_member("path", &Json::Text(path.as_str()), lines),
        None => add_member("path", &Json::Null, lines),
    }
}

/// Adds the object of a piece of the value that names the withdrawn UIDs.
pub(crate) fn add_withdrawn<W: Write>(piece: &[u8], lines: &mut LineBuffer<'_, W>) -> fmt::Result
    ensures same { lines.new.to.ghost_name ≡ lines.old.to.ghost_name }
    ensures written { Tells result (json_line (withdrawn_json piece.now))
        (way_of W.Write lines.old) (way_of W.Write lines.new) }
{
    add_json_line(
        &Json::Object(&[
            ("line", Json::Text("WITHDRAWN")),
            ("uid", Json::Shown(piece)),
        ]),
        lines,
    )
}

/// Adds the object of how many records and unreached items there are.
pub(crate) fn add_totals<W: Write>(
    records: u64,
    unreached: u64,
    lines: &mut LineBuffer<'_, W>,
) -> fmt::Result
    ensures same { lines.new.to.ghost_name ≡ lines.old.to.ghost_name }
    ensures written { Tells result (json_line (totals_json records unreached))
        (way_of W.Write lines.old) (way_of W.Write lines.new) }
{
    add_json_line(
        &Json::Object(&[
            ("line", Json::Text("RECORDS")),
            ("records", Json::Number(records)),
            ("unreached", Json::Number(unreached)),
        ]),
        lines,
    )
}

/// Adds the object of the File-set ID and the UID of a directory.
pub(crate) fn add_set<'v, W: Write>(
    id: &'v [u8],
    uid: &'v [u8],
    lines: &mut LineBuffer<'_, W>,
) -> fmt::Result
    ensures same { lines.new.to.ghost_name ≡ lines.old.to.ghost_name }
    ensures written { Tells result (json_line (set_json id.now uid.now))
        (way_of W.Write lines.old) (way_of W.Write lines.new) }
{
    add_json_line(
        &Json::Object(&[
            ("line", Json::Text("FILE-SET")),
            ("id", Json::Shown(id)),
            ("uid", Json::Shown(uid)),
        ]),
        lines,
    )
}
