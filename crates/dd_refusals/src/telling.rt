ghost use Rattle.std.specs.Prelude.{◌≡◌, ◌↔◌, ◌⊎◌, false, true};
ghost use Rattle.dd_faults.specs.Refusal.{IsBadLine};
ghost use Rattle.dd_line.specs.Line.{words_of};
ghost use Rattle.dd_line.specs.Requests.{is_json};
ghost use Rattle.dd_refusals.specs.Faults.{HasNoHints, TellsRefusal, is_quiet, is_verbose};

use crate::hints::{hints_of, print_hints};
use crate::line_flags::{is_quiet, is_verbose, style_of};
use crate::refusal::{Paths, tell};
use dd_elem::Write;
use dd_faults::Refusal;
use dd_files::Hints;
use dd_json::Style;
use dd_line::Request;
use dd_messages::RefusalForm;

/// Says whether hints are shown: JSON objects have them even where no person reads the error output.
pub fn shows_hints<F: Hints>(request: &Request, files: &F) -> bool
    ensures lines { result ≡ true → HasNoHints request.now → is_json request.now ≡ true }
    ensures verbose { is_verbose request.now ≡ true → result ≡ true }
    ensures quiet { is_quiet request.now ≡ true → is_verbose request.now ≡ false → result ≡ false }
    ensures json { is_json request.now ≡ true → is_quiet request.now ≡ false → result ≡ true }
{
    let has_reader = style_of(request) == Style::Json || files.has_reader();
    is_verbose(request) || (!is_quiet(request) && has_reader)
}

/// Prints why the work was refused, with hints where these are shown, and answers the status.
pub fn tell_with_hints<F: Hints, E: Write>(
    refusal: &Refusal,
    request: &Request,
    paths: Paths<'_>,
    files: &F,
    err: &mut E,
) -> u8
    ensures line { result ≡ 2 ↔ IsBadLine refusal.now.fault }
    ensures status { (result ≡ 1) ⊎ (result ≡ 2) }
    ensures told { TellsRefusal E.Write request.now paths.entry.folder.now (words_of paths.entry.sources.now)
        paths.entry.list.now refusal.now.subject err.old err.new }
{
    let hints = if shows_hints(request, files) {
        Some(hints_of(refusal, request, paths, files))
    } else {
        None
    };
    if style_of(request) == Style::Json {
        return tell(refusal, paths, RefusalForm::Json(hints.as_ref()), err);
    }
    let status = tell(refusal, paths, RefusalForm::Words, err);
    if let Some(hints) = &hints {
        print_hints(hints, err);
    }
    status
}
