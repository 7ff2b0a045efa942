//! What is found of files, as JSON objects.
ghost use Rattle.std.specs.Prelude.{◌≡◌, ◌++◌, [], codes};
ghost use Rattle.dd_report.specs.declared.findings.Finding.TheVariants.{BadId, Differs, Mislabelled, NoFile};
ghost use Rattle.dd_report.specs.FindingJson.{cause_json, digests_json, fault_json, fault_line, file_json};
ghost use Rattle.dd_report.specs.FindingJson.{finding_json, named_json, right_json, tag_json, unreached_json};
ghost use Rattle.dd_json.specs.declared.value.Json.{Joined, Object};
ghost use Rattle.dd_json.specs.Values.{json_line, printed, value_of};
ghost use Rattle.dd_lines.specs.Telling.{Tells, way_of};

use crate::findings::Finding;
use crate::words::{set_words, tag_text};
use dd_elem::{Tag, Write};
use dd_files::digest_text;
use dd_json::{Json, add_json_line};
use dd_lines::LineBuffer;
use dd_part10::FileFault;
use std::fmt;

/// `at` is the offset of the record, `file` its File ID.
pub(crate) fn add_finding<W: Write>(
    at: u32,
    file: &[u8],
    finding: &Finding,
    lines: &mut LineBuffer<'_, W>,
) -> fmt::Result
    ensures same { lines.new.to.ghost_name ≡ lines.old.to.ghost_name }
    ensures written { Tells result (json_line (finding_json at file.now finding.now))
        (way_of W.Write lines.old) (way_of W.Write lines.new) }
{
    match finding {
        Finding::BadId => add_bad_id(at, lines),
        Finding::Missing => add_file("MISSING", file, lines),
        Finding::Unreadable => add_file("UNREADABLE", file, lines),
        Finding::Differs { recorded, found } => { add_differs(file, recorded, found, lines) }
        Finding::Mislabelled(tag) => add_tag(file, *tag, lines),
        Finding::NoFile(fault) => add_fault(file, fault, lines),
        Finding::NoDigest => add_file("NODIGEST", file, lines),
    }
}

fn add_bad_id<W: Write>(at: u32, lines: &mut LineBuffer<'_, W>) -> fmt::Result
    ensures same { lines.new.to.ghost_name ≡ lines.old.to.ghost_name }
    ensures written { Tells result (json_line (finding_json at [] BadId))
        (way_of W.Write lines.old) (way_of W.Write lines.new) }
{
    add_json_line(
        &Json::Object(&[
            ("line", Json::Text("BADID")),
            ("offset", Json::Number(u64::from(at))),
        ]),
        lines,
    )
}

/// Adds the object with the name of the line and the File ID alone.
fn add_file<'v, W: Write>(
    line: &'v str,
    file: &'v [u8],
    lines: &mut LineBuffer<'_, W>,
) -> fmt::Result
    ensures same { lines.new.to.ghost_name ≡ lines.old.to.ghost_name }
    ensures written { Tells result (json_line (file_json line.now file.now []))
        (way_of W.Write lines.old) (way_of W.Write lines.new) }
{
    add_json_line(
        &Json::Object(&[("line", Json::Text(line)), ("file", Json::Shown(file))]),
        lines,
    )
}

fn add_differs<W: Write>(
    file: &[u8],
    recorded: &[u8; 32],
    found: &[u8; 32],
    lines: &mut LineBuffer<'_, W>,
) -> fmt::Result
    ensures same { lines.new.to.ghost_name ≡ lines.old.to.ghost_name }
    ensures written { Tells result (json_line (finding_json 0 file.now (Differs recorded.now found.now)))
        (way_of W.Write lines.old) (way_of W.Write lines.new) }
{
    let (recorded, found) = (digest_text(recorded), digest_text(found));
    add_digests(file, &recorded[..], &found[..], lines)
}

fn add_digests<'v, W: Write>(
    file: &'v [u8],
    recorded: &'v [u8],
    found: &'v [u8],
    lines: &mut LineBuffer<'_, W>,
) -> fmt::Result
    ensures same { lines.new.to.ghost_name ≡ lines.old.to.ghost_name }
    ensures written { Tells result (json_line (digests_json file.now recorded.now found.now))
        (way_of W.Write lines.old) (way_of W.Write lines.new) }
{
    add_json_line(
        &Json::Object(&[
            ("line", Json::Text("DIFFERS")),
            ("file", Json::Shown(file)),
            ("recorded", Json::Shown(recorded)),
            ("found", Json::Shown(found)),
        ]),
        lines,
    )
}

fn add_tag<W: Write>(file: &[u8], tag: Tag, lines: &mut LineBuffer<'_, W>) -> fmt::Result
    ensures same { lines.new.to.ghost_name ≡ lines.old.to.ghost_name }
    ensures written { Tells result (json_line (finding_json 0 file.now (Mislabelled tag)))
        (way_of W.Write lines.old) (way_of W.Write lines.new) }
{
    add_tag_text(file, &tag_text(tag)[..], lines)
}

fn add_tag_text<'v, W: Write>(
    file: &'v [u8],
    tag: &'v [u8],
    lines: &mut LineBuffer<'_, W>,
) -> fmt::Result
    ensures same { lines.new.to.ghost_name ≡ lines.old.to.ghost_name }
    ensures written { Tells result (json_line (tag_json file.now tag.now))
        (way_of W.Write lines.old) (way_of W.Write lines.new) }
{
    add_json_line(
        &Json::Object(&[
            ("line", Json::Text("MISLABELLED")),
            ("file", Json::Shown(file)),
            ("tag", Json::Shown(tag)),
        ]),
        lines,
    )
}

fn add_fault<W: Write>(file: &[u8], fault: &FileFault, lines: &mut LineBuffer<'_, W>) -> fmt::Result
    ensures same { lines.new.to.ghost_name ≡ lines.old.to.ghost_name }
    ensures written { Tells result (json_line (finding_json 0 file.now (NoFile fault.now)))
        (way_of W.Write lines.old) (way_of W.Write lines.new) }
{
    let cause = cause_of(fault);
    match fault {
        FileFault::NotPart10 => add_words(file, cause, b"21 NotPart10", b"", lines),
        FileFault::GroupLength => add_words(file, cause, b"22 GroupLength", b"", lines),
        FileFault::MetaMissing(tag) => {
            add_words(file, cause, b"23 MetaMissing ", &tag_text(*tag)[..], lines)
        }
        FileFault::MetaUid(tag) => {
            add_words(file, cause, b"24 MetaUid ", &tag_text(*tag)[..], lines)
        }
        FileFault::OtherSyntax(uid) => {
            add_words(file, cause, b"25 OtherSyntax ", uid.as_bytes(), lines)
        }
        FileFault::Meta(fault) => add_words(file, cause, b"26 Meta ", set_words(*fault), lines),
        FileFault::Set(fault) => add_words(file, cause, b"27 Set ", set_words(*fault), lines),
    }
}

/// The number and the name of a fault.
#[derive(Clone, Copy)]
struct Cause {
    number: u64,
    name: &'static str,
}

impl Cause {
    fn new(number: u64, name: &'static str) -> Cause
        ensures { named_json result.number result.name.now ≡ named_json number name.now }
    {
        Cause { number, name }
    }
}

fn cause_of(fault: &FileFault) -> Cause
    ensures { named_json result.number result.name.now ≡ cause_json fault.now }
{
    match fault {
        FileFault::NotPart10 => Cause::new(21, "NotPart10"),
        FileFault::GroupLength => Cause::new(22, "GroupLength"),
        FileFault::MetaMissing(_) => Cause::new(23, "MetaMissing"),
        FileFault::MetaUid(_) => Cause::new(24, "MetaUid"),
        FileFault::OtherSyntax(_) => Cause::new(25, "OtherSyntax"),
        FileFault::Meta(_) => Cause::new(26, "Meta"),
        FileFault::Set(_) => Cause::new(27, "Set"),
    }
}

fn add_words<W: Write>(
    file: &[u8],
    cause: Cause,
    words: &[u8],
    of: &[u8],
    lines: &mut LineBuffer<'_, W>,
) -> fmt::Result
    ensures same { lines.new.to.ghost_name ≡ lines.old.to.ghost_name }
    ensures written { Tells result
        (json_line (fault_line file.now (fault_json (printed (codes "31 File " ++ (words.now ++ of.now)))
        (named_json cause.number cause.name.now))))
        (way_of W.Write lines.old) (way_of W.Write lines.new) }
{
    let cause = [
        ("number", Json::Number(cause.number)),
        ("name", Json::Text(cause.name)),
    ];
    add_fault_parts(file, &[b"31 File ", words, of], &cause, lines)
}

/// Adds the object of a fault that is said in these parts, with the members of its cause.
fn add_fault_parts<'v, W: Write>(
    file: &'v [u8],
    words: &'v [&'v [u8]],
    cause: &'v [(&'v str, Json<'v>)],
    lines: &mut LineBuffer<'_, W>,
) -> fmt::Result
    ensures same { lines.new.to.ghost_name ≡ lines.old.to.ghost_name }
    ensures written { Tells result
        (json_line (fault_line file.now (fault_json (value_of (Joined words.entry)) (value_of (Object cause.entry)))))
        (way_of W.Write lines.old) (way_of W.Write lines.new) }
{
    let fault = [
        ("number", Json::Number(31)),
        ("name", Json::Text("File")),
        ("words", Json::Joined(words)),
        ("cause", Json::Object(cause)),
    ];
    add_fault_members(file, &fault, lines)
}

fn add_fault_members<'v, W: Write>(
    file: &'v [u8],
    fault: &'v [(&'v str, Json<'v>)],
    lines: &mut LineBuffer<'_, W>,
) -> fmt::Result
    ensures same { lines.new.to.ghost_name ≡ lines.old.to.ghost_name }
    ensures written { Tells result (json_line (fault_line file.now (value_of (Object fault.entry))))
        (way_of W.Write lines.old) (way_of W.Write lines.new) }
{
    add_json_line(
        &Json::Object(&[
            ("line", Json::Text("MISLABELLED")),
            ("file", Json::Shown(file)),
            ("fault", Json::Object(fault)),
        ]),
        lines,
    )
}

/// Adds how many items no offset reaches.
pub(crate) fn add_unreached<W: Write>(unreached: u64, lines: &mut LineBuffer<'_, W>) -> fmt::Result
    ensures same { lines.new.to.ghost_name ≡ lines.old.to.ghost_name }
    ensures written { Tells result (json_line (unreached_json unreached))
        (way_of W.Write lines.old) (way_of W.Write lines.new) }
{
    add_json_line(
        &Json::Object(&[
            ("line", Json::Text("UNREACHED")),
            ("items", Json::Number(unreached)),
        ]),
        lines,
    )
}

/// Adds that nothing is found of this many records.
pub(crate) fn add_right<W: Write>(records: u64, lines: &mut LineBuffer<'_, W>) -> fmt::Result
    ensures same { lines.new.to.ghost_name ≡ lines.old.to.ghost_name }
    ensures written { Tells result (json_line (right_json records))
        (way_of W.Write lines.old) (way_of W.Write lines.new) }
{
    add_json_line(
        &Json::Object(&[
            ("line", Json::Text("OK")),
            ("records", Json::Number(records)),
        ]),
        lines,
    )
}
