//! What a person is told where a run is refused.
ghost use Rattle.std.specs.Prelude.{◌≡◌, length};
ghost use Rattle.dd_faults.specs.Refusal.{IsOfWork};
ghost use Rattle.dd_line.specs.Line.{words_of};
ghost use Rattle.dd_refusals.specs.Faults.{TellsRefusal};
ghost use Rattle.dd_inputs.specs.From.{given_list};

use dd_elem::Write;
use dd_faults::Refusal;
use dd_files::{Files, Hints, Progress};
use dd_inputs::{LinePaths, from_of, list_of};
use dd_line::Request;
use dd_refusals::{Paths, tell_with_hints};

/// Erases the line of progress, prints why the work was refused, shows what was kept, and answers the status.
pub(crate) fn tell_refusal<F: Files + Progress + Hints, E: Write>(
    refusal: &Refusal,
    request: &Request,
    paths: LinePaths<'_>,
    files: &mut F,
    err: &mut E,
) -> u8
    requires { IsOfWork (length paths.sources.now) refusal.now }
    ensures status { result ≡ 1 }
    ensures told { TellsRefusal E.Write request.now paths.entry.folder.now (words_of paths.entry.sources.now)
        (given_list request.now) refusal.now.subject err.old err.new }
    ensures kept { F.held files.new ≡ F.held files.old }
    ensures counts { (F.refusals files.new ≡ F.refusals files.old)
        × (F.Write.failures files.new ≡ F.Write.failures files.old) }
{
    files.hide_line();
    let paths = Paths {
        folder: paths.folder,
        sources: paths.sources,
        list: list_of(request),
        unstored: as_given(request, files.unstored()),
    };
    let status = tell_with_hints(refusal, request, paths, files, err);
    files.show_kept();
    status
}

pub(crate) fn tell_empty<F: Hints, E: Write>(
    refusal: &Refusal,
    request: &Request,
    paths: LinePaths<'_>,
    files: &F,
    err: &mut E,
) -> u8
    requires { IsOfWork (length paths.sources.now) refusal.now }
    ensures status { result ≡ 1 }
    ensures told { TellsRefusal E.Write request.now paths.entry.folder.now (words_of paths.entry.sources.now)
        (given_list request.now) refusal.now.subject err.old err.new }
{
    let paths = Paths {
        folder: paths.folder,
        sources: paths.sources,
        list: list_of(request),
        unstored: "",
    };
    tell_with_hints(refusal, request, paths, files, err)
}

/// Gives a path of the new file-set as the line spells it: without the folder in which it was looked up, which is `.`
/// itself. All paths of a pile are as the line spells them.
fn as_given<'a>(request: &Request, path: &'a str) -> &'a str {
    let from = from_of(request).trim_end_matches('/');
    if matches!(request, Request::Stage(_)) || from.is_empty() {
        return path;
    }
    if path == from {
        return ".";
    }
    let inside = path.strip_prefix(from).unwrap_or("");
    inside.strip_prefix('/').unwrap_or(path)
}
