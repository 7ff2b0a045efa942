ghost use Rattle.std.specs.Prelude.{◌++◌, ℕ, List, None, Some};
ghost use Rattle.dd_files.specs.Paths.{IsPathIn};
ghost use Rattle.dd_messages.specs.FaultLines.{TellsFault, style_of};

use crate::fault_json::print_fault_json;
use crate::shown_hints::ShownHints;
use dd_elem::Write;
use dd_files::is_joined_by_slash;
use dd_json::Json;
use dd_lines::print_line;

/// How the line of a refusal is printed.
#[derive(Clone, Copy)]
pub enum RefusalForm<'a> {
    /// In words.
    Words,
    /// As a JSON object, with these hints as members.
    Json(Option<&'a ShownHints>),
}

/// What the line of a refusal says besides a path, and how.
#[derive(Clone, Copy)]
pub struct FaultLine<'a> {
    /// Those of the fault.
    pub words: &'a str,
    /// In words or JSON.
    pub form: RefusalForm<'a>,
}

/// Prints the line of a fault that concerns no path.
pub fn print_general<W: Write>(line: FaultLine<'_>, to: &mut W)
    ensures { TellsFault W.Write (style_of line.entry.form) None to.old to.new }
{
    let _ = match line.form {
        RefusalForm::Words => print_line(&["FAULT -: ", line.words], to),
        RefusalForm::Json(hints) => print_fault_json(Json::Null, line.words, hints, to),
    };
}

/// Prints the line with this path.
pub fn print_fault<W: Write>(path: &str, line: FaultLine<'_>, to: &mut W)
    ensures { TellsFault W.Write (style_of line.entry.form) (Some path.now) to.old to.new }
{
    print_at("", "", path, line, to);
}

/// Prints the line with the path of this name in the folder.
pub fn print_inside<W: Write>(folder: &str, name: &str, line: FaultLine<'_>, to: &mut W)
    ensures { (path : List ℕ) × IsPathIn folder.now name.now path
        × TellsFault W.Write (style_of line.entry.form) (Some path) to.old to.new }
{
    print_at(folder, joint_of(folder), name, line, to);
}

/// Gives what stands between the folder and a name in it.
fn joint_of(folder: &str) -> &'static str
    ensures { (name : List ℕ) → IsPathIn folder.now name (folder.now ++ result.now ++ name) }
{
    if is_joined_by_slash(folder) { "/" } else { "" }
}

/// Prints the line with the path of these parts, one after the other.
fn print_at<'t, W: Write>(
    folder: &'t str,
    joint: &'t str,
    name: &'t str,
    line: FaultLine<'_>,
    to: &mut W,
)
    ensures { TellsFault W.Write (style_of line.entry.form) (Some (folder.now ++ joint.now ++ name.now))
        to.old to.new }
{
    let _ = match line.form {
        RefusalForm::Words => print_line(&["FAULT ", folder, joint, name, ": ", line.words], to),
        RefusalForm::Json(hints) => {
            print_fault_json(Json::Texts(&[folder, joint, name]), line.words, hints, to)
        }
    };
}
