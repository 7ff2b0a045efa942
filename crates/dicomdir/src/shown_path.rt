ghost use Rattle.std.specs.Prelude.{◌≡◌, ◌<◌, ℕ, List, length};
ghost use Rattle.dd_line.specs.Line.{words_of};
ghost use Rattle.dd_refusals.specs.Faults.{path_at};
ghost use Rattle.dicomdir.specs.Said.{ShowsMember, shown_text};

use dd_engine::Pick;
use dd_faults::{IdPath, PathText};
use dd_files::is_joined_by_slash;

/// The path of a source, or of a file in a file-set.
#[derive(Clone, Copy)]
pub(crate) struct ShownPath<'a> {
    /// The source, or the folder of the file-set.
    pub(crate) folder: &'a str,
    /// The separator, which may be empty.
    pub(crate) joint: &'a str,
    /// The path in the folder, empty for a source.
    pub(crate) inside: PathText,
}

/// A file that lines of the output name: a source, or a file of a file-set.
pub(crate) trait ShownFile {
    // The number of the source, or of the file-set.
    ghost number: { Self → ℕ };

    // How its path prints, where these are the paths.
    ghost shows: { List (List ℕ) → Self → List ℕ → Type 0 };

    /// Gives its path. `paths` are the sources, or the folders of the file-sets.
    fn path_among<'a>(&self, paths: &'a [String]) -> ShownPath<'a>
        requires { number self.now < length paths.now }
        ensures { shows (words_of paths.now) self.now (shown_text result) };
}

impl ShownFile for usize {
    ghost number = { λ at. at };

    ghost shows = { λ paths at text. text ≡ path_at paths at };

    fn path_among<'a>(&self, paths: &'a [String]) -> ShownPath<'a> {
        ShownPath {
            folder: paths[*self].as_str(),
            joint: "",
            inside: PathText::new(),
        }
    }
}

impl ShownFile for Pick<'_> {
    ghost number = { λ pick. pick.set };

    ghost shows = { λ folders pick text. ShowsMember folders pick text };

    fn path_among<'a>(&self, paths: &'a [String]) -> ShownPath<'a> {
        let folder = paths[self.set].as_str();
        ShownPath {
            folder,
            joint: if is_joined_by_slash(folder) { "/" } else { "" },
            inside: PathText::of(&IdPath(self.file)),
        }
    }
}
