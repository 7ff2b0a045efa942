//! What became of the sources of an index, for a person.
ghost use Rattle.std.specs.Prelude.{◌≡◌, List, Ok, length};
ghost use Rattle.dd_engine.specs.IndexNotes.{NotesIndex};
ghost use Rattle.dd_keys.specs.Sources.{Answer};
ghost use Rattle.dd_engine.specs.declared.choice.Choice.{Choice};
ghost use Rattle.dd_layout.specs.Limits.{Limits};
ghost use Rattle.dicomdir.specs.Sum.{AddsUp, CountsSources};

use crate::skipped_classes::{SkippedClasses, show_classes};
use crate::unread::{BadNames, Unread};
use dd_engine::PastFailures;
use dd_faults::ProgramFault;
use dd_files::{Files, Hints};
use dd_grammar::SetFault;
use dd_json::Style;
use dd_keys::KeyFault;
use dd_part10::FileFault;
use itoa::Buffer;

/// What to do first about a source that is skipped for a fault, by its number and that of its cause.
const FIRST_STEPS: [&str; ROWS] = [
    "31 File 21: no DICOM file; where dcmdump IN can read it, dcmconv IN OUT makes it one",
    "31 File 25: dcmconv +te IN OUT writes such a file anew, or for JPEG dcmdjpeg IN OUT",
    "31 File 27 Set 1: the file is cut: fetch it anew",
    "31: dcmconv IN OUT writes such a file anew, where dcmdump IN can read it",
    "32: make their file-set with another program; a DICOMDIR is no image",
    "33: mend it where it was made: a record needs this key",
    "34: mend it where it was made: this key has to be a UID",
    "35: mend it where it was made: a key has at most 1024 bytes",
    "36: mend it where it was made: this key has to be a value",
    "37: dcmconv IN OUT writes such a file anew",
    "39: a file-set has no file of more than 4294967295 bytes",
    "92: each name of a list ends in a zero byte, not a line feed: use find -print0, or tr '\\n' '\\0'",
    "92: is the name right, and may you read it? ls -lb shows it",
    "93: try to copy it by cp: mend the disc where that fails too",
    "99: give the file a name that is UTF-8",
];

const ROWS: usize = 15;

/// The row of a source of a class that is not taken.
const OTHER_CLASS: usize = 4;

/// The most first steps that are shown.
const MOST: usize = 5;

/// The sources of an index, by what became of them.
#[derive(Clone, Copy)]
pub(crate) struct Sum {
    pub(crate) sources: usize,
    /// The images of the file-set, each with its first source.
    pub(crate) kept: usize,
    /// The sources without a version.
    pub(crate) skipped: usize,
    /// The sources of whose instance other bytes are kept.
    pub(crate) left_out: usize,
    /// The others: each repeats a source that is kept.
    pub(crate) repeated: usize,
    /// For which of the first steps some source was skipped.
    rows: [bool; ROWS],
    /// How many sources were skipped for which class.
    classes: SkippedClasses,
}

impl Sum {
    pub(crate) fn new() -> Sum {
        Sum {
            sources: 0,
            kept: 0,
            skipped: 0,
            left_out: 0,
            repeated: 0,
            rows: [false; ROWS],
            classes: SkippedClasses::new(),
        }
    }

    pub(crate) fn of(past: &PastFailures, bad_names: BadNames<'_>, sources: &[String]) -> Sum
        ensures counts { CountsSources past.now.noted (length sources.now) result }
        ensures adds { (choice : Choice) (limits : Limits) (answers : List Answer)
            → length answers ≡ length sources.now → NotesIndex choice limits answers (Ok past.now.noted)
            → AddsUp result }
    {
        let noted = &past.noted;
        let kept = noted.indexed.plan.versions().len();
        let skipped = noted.indexed.skipped.len();
        let left_out = noted.notes.left_out.len();
        let others = sources.len().saturating_sub(kept).saturating_sub(skipped);
        Sum {
            sources: sources.len(),
            kept,
            skipped,
            left_out,
            repeated: others.saturating_sub(left_out),
            rows: rows_of(&noted.indexed.skipped, Unread::of(past, bad_names), sources),
            classes: SkippedClasses::of(&noted.indexed.skipped),
        }
    }
}

fn rows_of(skipped: &[(usize, KeyFault)], unread: Unread<'_>, sources: &[String]) -> [bool; ROWS] {
    let mut rows = [false; ROWS];
    for (at, fault) in skipped {
        let row = match fault {
            KeyFault::Read => row_of_unread(&unread.fault_of(*at), sources.get(*at)),
            fault => row_of(fault),
        };
        if let Some(row) = rows.get_mut(row) {
            *row = true;
        }
    }
    rows
}

/// Gives the row of a source of this name that was not read.
fn row_of_unread(fault: &ProgramFault, name: Option<&String>) -> usize {
    match (fault, name) {
        (ProgramFault::Absent, Some(name)) if name.contains('\n') => 11,
        (ProgramFault::Absent, _) => 12,
        (ProgramFault::Unread, _) => 13,
        (ProgramFault::BadName(_), _) => 14,
        _ => ROWS,
    }
}

/// Gives the row of the fault among the first steps. A source that was read is not skipped for the last two faults.
fn row_of(fault: &KeyFault) -> usize {
    match fault {
        KeyFault::File(FileFault::NotPart10) => 0,
        KeyFault::File(FileFault::OtherSyntax(_)) => 1,
        KeyFault::File(FileFault::Set(SetFault::Truncated)) => 2,
        KeyFault::File(_) => 3,
        KeyFault::NotImage(_) => OTHER_CLASS,
        KeyFault::MissingKey(_) => 5,
        KeyFault::BadKeyUid(_) => 6,
        KeyFault::KeyTooLong(_) => 7,
        KeyFault::KeyIsSequence(_) => 8,
        KeyFault::MetaMismatch(_) => 9,
        KeyFault::FileTooLong => 10,
        KeyFault::Read | KeyFault::Memory => ROWS,
    }
}

/// Shows what was kept, and counts the sources. A text also says what to do about skipped ones.
pub(crate) fn show_sum<F: Files + Hints>(sum: &Sum, style: Style, files: &mut F)
    ensures kept { F.held files.new ≡ F.held files.old }
{
    files.show_kept();
    match style {
        Style::Text => {
            show_first_steps(sum, files);
            show_counts(sum, files);
        }
        Style::Json => show_counts_json(sum, files),
    }
}

fn show_counts<F: Files + Hints>(sum: &Sum, files: &mut F)
    ensures kept { F.held files.new ≡ F.held files.old }
{
    let (mut sources, mut kept, mut skipped) = (Buffer::new(), Buffer::new(), Buffer::new());
    let (mut left_out, mut repeated) = (Buffer::new(), Buffer::new());
    files.show_line(&[
        sources.format(sum.sources),
        " sources: ",
        kept.format(sum.kept),
        " kept, ",
        skipped.format(sum.skipped),
        " skipped, ",
        left_out.format(sum.left_out),
        " left out, ",
        repeated.format(sum.repeated),
        " repeated",
        word_of_none(sum.kept),
    ]);
}

fn show_counts_json<F: Files + Hints>(sum: &Sum, files: &mut F)
    ensures kept { F.held files.new ≡ F.held files.old }
{
    let (mut sources, mut kept, mut skipped) = (Buffer::new(), Buffer::new(), Buffer::new());
    let (mut left_out, mut repeated) = (Buffer::new(), Buffer::new());
    files.show_line(&[
        "{\"line\":\"SUM\",\"sources\":",
        sources.format(sum.sources),
        ",\"kept\":",
        kept.format(sum.kept),
        ",\"skipped\":",
        skipped.format(sum.skipped),
        ",\"left_out\":",
        left_out.format(sum.left_out),
        ",\"repeated\":",
        repeated.format(sum.repeated),
        "}",
    ]);
}

/// Says that nothing was kept, where that is so.
pub(crate) fn word_of_none(kept: usize) -> &'static str {
    if kept == 0 {
        ": the file-set has no image"
    } else {
        ""
    }
}

fn show_first_steps<F: Files + Hints>(sum: &Sum, files: &mut F)
    ensures kept { F.held files.new ≡ F.held files.old }
{
    let mut left = MOST;
    for (row, (step, is_met)) in FIRST_STEPS.iter().zip(sum.rows.iter()).enumerate() {
        if left > 0 && *is_met {
            if row == OTHER_CLASS {
                show_classes(&sum.classes, files);
            }
            files.show_line(&["  help: ", step]);
            left -= 1;
        }
    }
}
