ghost use Rattle.std.specs.Prelude.{◌≡◌};

use crate::shell_path::ShellPathText;
use dd_files::Cause;

/// What a person is shown below a fault.
#[derive(Drop)]
pub struct ShownHints {
    /// The system's words; empty where it has none for the fault.
    pub cause: Cause,
    /// What to do first: these words, the path, and the words after it.
    pub before: &'static str,
    /// It may be empty.
    pub path: ShellPathText,
    /// Stands after it.
    pub after: &'static str,
}

impl ShownHints {
    /// Gives the words before the path.
    pub fn before(&self) -> &str
        ensures { result.now ≡ self.now.before.now }
    {
        self.before
    }

    /// Gives the words after the path.
    pub fn after(&self) -> &str
        ensures { result.now ≡ self.now.after.now }
    {
        self.after
    }
}
