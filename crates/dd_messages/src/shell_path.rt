use std::fmt::{self, InlineText, Write};

/// The most letters of a path that is shown.
const LETTERS: usize = 200;

// Each letter has four bytes, also a quotation mark that is escaped, and `./` stands between two marks.
const LENGTH: usize = 4 * LETTERS + 4;

/// The text of a path as a shell reads it.
pub type ShellPathText = InlineText<LENGTH>;

/// Shows a path as a shell reads it (POSIX, section 2.2.2): between quotation marks, with `./` before one that begins
/// like an option. A path with a control character or over 200 letters is shown as FOLDER.
#[derive(Clone, Copy)]
pub struct ShellPath<'a>(pub &'a str);

impl fmt::Display for ShellPath<'_> {
    fn fmt<W: fmt::Write>(&self, f: &mut fmt::Formatter<W>) -> fmt::Result {
        if !is_shown(self.0) {
            return f.write_str("FOLDER");
        }
        f.write_char('\'')?;
        if self.0.starts_with('-') {
            f.write_str("./")?;
        }
        for c in self.0.chars() {
            match c {
                '\'' => f.write_str("'\\''")?,
                c => f.write_char(c)?,
            }
        }
        f.write_char('\'')
    }
}

fn is_shown(path: &str) -> bool {
    path.chars().count() <= LETTERS && !path.chars().any(char::is_control)
}
