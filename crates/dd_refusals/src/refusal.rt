ghost use Rattle.std.specs.Prelude.{◌≡◌, ◌↔◌, ◌⊎◌, []};
ghost use Rattle.dd_faults.specs.Refusal.{IsBadLine};
ghost use Rattle.dd_line.specs.Line.{words_of};
ghost use Rattle.dd_messages.specs.FaultLines.{style_of};
ghost use Rattle.dd_refusals.specs.Faults.{TellsOf, path_at};

use dd_elem::Write;
use dd_faults::{ImageFolder, ImagePath, ImagePathText, ProgramFault, Refusal, Subject};
use dd_files::DIRECTORY;
use dd_messages::{FaultLine, RefusalForm, print_fault, print_general, print_inside};
use std::fmt::InlineText;

/// The paths of a run.
#[derive(Clone, Copy)]
pub struct Paths<'a> {
    /// What it makes; may be empty.
    pub folder: &'a str,
    /// The sources, or the folders of the file-sets or piles that are read.
    pub sources: &'a [String],
    /// The list of names; may be empty.
    pub list: &'a str,
    /// What was not stored.
    pub unstored: &'a str,
}

impl Paths<'_> {
    /// Gives the paths of a run that has none.
    pub fn none() -> Paths<'static>
        ensures folder { result.folder.now ≡ [] }
        ensures sources { result.sources.now ≡ [] }
        ensures list { result.list.now ≡ [] }
        ensures unstored { result.unstored.now ≡ [] }
    {
        Paths {
            folder: "",
            sources: &[],
            list: "",
            unstored: "",
        }
    }
}

/// The words of a fault, which always fit.
pub type Words = InlineText<256>;

/// Prints a refusal as one line, without allocating, and gives the exit status: 2 where the command line is at fault,
/// else 1. A failure of the writer changes nothing.
pub(crate) fn tell<W: Write>(
    refusal: &Refusal,
    paths: Paths<'_>,
    form: RefusalForm<'_>,
    to: &mut W,
) -> u8
    ensures line { result ≡ 2 ↔ IsBadLine refusal.now.fault }
    ensures status { (result ≡ 1) ⊎ (result ≡ 2) }
    ensures told { TellsOf W.Write (style_of form.entry) paths.entry.folder.now (words_of paths.entry.sources.now)
        paths.entry.list.now refusal.now.subject to.old to.new }
{
    let words = Words::of(&refusal.fault);
    let line = FaultLine {
        words: words.as_str(),
        form,
    };
    print_of(&refusal.subject, paths, line, to);
    status_of(&refusal.fault)
}

/// Prints the line with the path that the subject concerns.
fn print_of<W: Write>(subject: &Subject, paths: Paths<'_>, line: FaultLine<'_>, to: &mut W)
    ensures { TellsOf W.Write (style_of line.entry.form) paths.entry.folder.now (words_of paths.entry.sources.now)
        paths.entry.list.now subject.now to.old to.new }
{
    let Paths {
        folder,
        sources,
        list,
        unstored,
    } = paths;
    match subject {
        Subject::General => print_general(line, to),
        Subject::Source(at) => print_fault(path_at(sources, *at), line, to),
        Subject::SetDirectory(at) => print_inside(path_at(sources, *at), DIRECTORY, line, to),
        Subject::SetFile(at, path) => {
            print_inside(path_at(sources, *at), path.as_str(), line, to);
        }
        Subject::PileFile(at, path) => {
            print_inside(path_at(sources, *at), path.as_str(), line, to);
        }
        Subject::InPile(path) => print_inside(folder, path.as_str(), line, to),
        Subject::Folder => print_fault(folder, line, to),
        Subject::Directory => print_inside(folder, DIRECTORY, line, to),
        Subject::Image(file) => {
            let name = ImagePathText::of(&ImagePath(*file));
            print_inside(folder, name.as_str(), line, to);
        }
        Subject::ImageFolder(file) => {
            let name = ImagePathText::of(&ImageFolder(*file));
            print_inside(folder, name.as_str(), line, to);
        }
        Subject::List => print_fault(list, line, to),
        Subject::Unstored => print_fault(unstored, line, to),
    }
}

/// Gives the path of this number, or an empty one past the last.
fn path_at(paths: &[String], at: usize) -> &str
    ensures { result.now ≡ path_at (words_of paths.now) at }
{
    match paths.get(at) {
        Some(path) => path.as_str(),
        None => "",
    }
}

fn status_of(fault: &ProgramFault) -> u8
    ensures line { result ≡ 2 ↔ IsBadLine fault.now }
    ensures status { (result ≡ 1) ⊎ (result ≡ 2) }
{
    match fault {
        ProgramFault::Uid(_) | ProgramFault::SetId(_) => 2,
        _ => 1,
    }
}
