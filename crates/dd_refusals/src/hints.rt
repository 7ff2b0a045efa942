//! What a person may do first, below the line of a fault.

use crate::refusal::Paths;
use dd_elem::Write;
use dd_faults::{ProgramFault, Refusal, Subject};
use dd_files::{Cause, DIRECTORY, Hints};
use dd_layout::PlanFault;
use dd_line::Request;
use dd_lines::print_line;
use dd_messages::{ShellPath, ShellPathText, ShownHints};
use dd_walk::DirFault;

/// The first step about a fault.
#[derive(Clone, Copy)]
enum FirstStep {
    Words(&'static str),
    /// The path that the fault concerns stands between these words.
    WithPath(&'static str, &'static str),
}

pub(crate) fn hints_of<F: Hints>(
    refusal: &Refusal,
    request: &Request,
    paths: Paths<'_>,
    files: &F,
) -> ShownHints {
    let cause = cause_of(&refusal.fault, files);
    let path = path_of(&refusal.subject, paths);
    match first_step(refusal, request, paths, files) {
        FirstStep::Words(words) => ShownHints {
            cause,
            before: words,
            path: ShellPathText::new(),
            after: "",
        },
        FirstStep::WithPath(before, after) => ShownHints {
            cause,
            before,
            path: ShellPathText::of(ShellPath(path)),
            after,
        },
    }
}

fn cause_of<F: Hints>(fault: &ProgramFault, files: &F) -> Cause {
    if is_of_system(fault) {
        files.cause()
    } else {
        Cause::new()
    }
}

/// Prints the system's words, if there are any, and what to do first. A failure of the writer changes nothing.
pub(crate) fn print_hints<W: Write>(hints: &ShownHints, to: &mut W) {
    let cause = hints.cause.as_str();
    if !cause.is_empty() {
        let _ = print_line(&["  cause: ", cause], to);
    }
    let (before, path, after) = (hints.before(), hints.path.as_str(), hints.after());
    let _ = print_line(&["  help: ", before, path, after], to);
}

/// Says whether the fault is one that the system may have words for.
fn is_of_system(fault: &ProgramFault) -> bool {
    matches!(
        fault,
        ProgramFault::Absent
            | ProgramFault::Unread
            | ProgramFault::Create
            | ProgramFault::Folder
            | ProgramFault::Unsent
    )
}

/// Gives the path of the line that the subject concerns, or else an empty one.
fn path_of<'a>(subject: &Subject, paths: Paths<'a>) -> &'a str {
    match subject {
        Subject::General => "",
        Subject::Source(at)
        | Subject::SetDirectory(at)
        | Subject::SetFile(at, _)
        | Subject::PileFile(at, _) => match paths.sources.get(*at) {
            Some(path) => path.as_str(),
            None => "",
        },
        Subject::Folder
        | Subject::InPile(_)
        | Subject::Directory
        | Subject::Image(_)
        | Subject::ImageFolder(_) => paths.folder,
        Subject::List => paths.list,
        Subject::Unstored => paths.unstored,
    }
}

fn first_step<F: Hints>(
    refusal: &Refusal,
    request: &Request,
    paths: Paths<'_>,
    files: &F,
) -> FirstStep {
    let path = path_of(&refusal.subject, paths);
    match &refusal.fault {
        fault if is_of_system(fault) && path.is_empty() => {
            FirstStep::Words("the name is empty: is a variable of the command line not set?")
        }
        ProgramFault::Plan(fault) => FirstStep::Words(step_of_plan(fault)),
        ProgramFault::Dir(fault) => FirstStep::Words(step_of_directory(fault)),
        ProgramFault::Uid(_) => FirstStep::Words(step_of_uid(request)),
        ProgramFault::Absent if is_of_lines(&refusal.subject, paths) => FirstStep::Words(
            "each name of a list ends in a zero byte, not a line feed: use find -print0, or tr '\\n' '\\0'",
        ),
        ProgramFault::Absent => step_of_absent(&refusal.subject, path, files),
        ProgramFault::Unread => step_of_unread(&refusal.subject, path, files),
        ProgramFault::Changed => step_of_changed(&refusal.subject),
        ProgramFault::Create => FirstStep::Words(step_of_create(&refusal.subject)),
        fault => FirstStep::Words(step_of(fault)),
    }
}

/// The first step about a fault that asks for the same whatever it concerns.
fn step_of(fault: &ProgramFault) -> &'static str {
    match fault {
        ProgramFault::SetId(_) => "an ID has up to 16 characters of A to Z, 0 to 9 and _",
        ProgramFault::TooLong => "leave it out, or make two lists",
        ProgramFault::ListTooLarge => "make two piles, each of some of the sources",
        ProgramFault::BadStage(_) =>
            "its list is not whole, or was changed: remove the pile and stage it anew",
        ProgramFault::Own(_) => {
            "only a DICOMDIR of this program can be merged: index the images of the set instead"
        }
        ProgramFault::Folder => {
            "the first path of the line is the new folder: take one below a folder where you may write"
        }
        ProgramFault::Unsent => "make room, and take a new folder; df and df -i show what is free",
        ProgramFault::Strict => "mend or leave out what the lines name, or run without --strict",
        ProgramFault::BadName(_) => "end each name by a zero byte, as find -print0 does",
        _ => "free memory, or make two file-sets",
    }
}

/// `withdraw` may be given the name of a file, or a File ID.
fn step_of_uid(request: &Request) -> &'static str {
    match request {
        Request::Withdraw(withdraw) if withdraw.instances.iter().any(is_like_name) => {
            "the UID of an image is its (0008,0018), which list --long shows: digits and dots"
        }
        _ => "a UID has up to 64 digits and dots, and no number such as 02",
    }
}

fn is_like_name(word: &String) -> bool {
    word.chars()
        .any(|c| c.is_ascii_alphabetic() || c == '\\' || c == '/')
}

/// A pile is the folder that is made only where it is named as such or by what is in it.
fn step_of_create(subject: &Subject) -> &'static str {
    match subject {
        Subject::Folder | Subject::InPile(_) => {
            "take a new folder: PILE is there, maybe from an earlier run"
        }
        _ => "take a new folder: OUT has a file-set, or files of an earlier run",
    }
}

fn step_of_plan(fault: &PlanFault) -> &'static str {
    match fault {
        PlanFault::Conflict(_, _) => {
            "compare (0010,0020), (0020,000D) and (0020,000E) of both files; leave one out"
        }
        PlanFault::TooMany(_) => "make two file-sets",
        PlanFault::TooLarge => "give a greater --max-bytes, or make two file-sets",
        PlanFault::Memory => "free memory, or make two file-sets",
    }
}

fn step_of_directory(fault: &DirFault) -> &'static str {
    match fault {
        DirFault::LastRoot => "its files are as good as before: index the images anew",
        _ => "the DICOMDIR can't be followed: index the images anew",
    }
}

/// Says whether a source looks like the lines of a list that has no zero byte.
fn is_of_lines(subject: &Subject, paths: Paths<'_>) -> bool {
    match subject {
        Subject::Source(_) => !paths.list.is_empty() && path_of(subject, paths).contains('\n'),
        _ => false,
    }
}

fn step_of_absent<F: Hints>(subject: &Subject, path: &str, files: &F) -> FirstStep {
    match subject {
        Subject::SetDirectory(_) if files.is_folder(path) => {
            FirstStep::Words("that folder has no DICOMDIR: is it the folder of a file-set?")
        }
        Subject::SetDirectory(_) if is_directory(path) => {
            FirstStep::Words("SET is the folder that has the DICOMDIR, not the DICOMDIR itself")
        }
        Subject::SetDirectory(_) => FirstStep::WithPath(
            "no folder is there: is the name right, and is the disc mounted? ls -lb ",
            "",
        ),
        Subject::SetFile(_, _) => {
            FirstStep::WithPath("dicomdir check ", " names each file that is not there")
        }
        Subject::PileFile(_, _) => {
            FirstStep::Words("PILE is a folder that stage made; stage it anew where files are gone")
        }
        Subject::Source(_) => FirstStep::WithPath(
            "--keep-going skips it; is the name right, and may you read it? ls -lb ",
            "",
        ),
        _ => FirstStep::WithPath("is the name right, and may you read it? ls -lb ", ""),
    }
}

/// Says whether the path ends in the name of a directory, as a system may show it.
fn is_directory(path: &str) -> bool {
    let name = path.rsplit('/').next().unwrap_or("");
    match name.get(..DIRECTORY.len()) {
        Some(name) => name.eq_ignore_ascii_case(DIRECTORY),
        None => false,
    }
}

fn step_of_unread<F: Hints>(subject: &Subject, path: &str, files: &F) -> FirstStep {
    match subject {
        Subject::Source(_) if files.is_folder(path) => FirstStep::WithPath(
            "a folder: name its files, as by find ",
            " -type f -print0 | dicomdir index OUT --files0-from -",
        ),
        Subject::Source(_) => FirstStep::Words(
            "--keep-going skips it; else copy it by cp, and mend the disc where that fails too",
        ),
        _ => FirstStep::Words("try to copy it by cp: mend the disc where that fails too"),
    }
}

fn step_of_changed(subject: &Subject) -> FirstStep {
    match subject {
        Subject::SetFile(_, _) => {
            FirstStep::WithPath(
                "dicomdir check --keys ",
                " says which files differ, and by what",
            )
        }
        Subject::PileFile(_, _) => {
            FirstStep::Words("the pile was changed: remove it and stage its sources anew")
        }
        _ => FirstStep::Words("run again when nobody writes to the file"),
    }
}
