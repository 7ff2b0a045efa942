//! Paths in a file-set.

use dd_elem::FileId;
use dd_files::path_char;
use std::fmt::{self, InlineText, Write};

/// The most characters of a component of a File ID (PS3.10 section 8.2).
const COMPONENT: usize = 8;

/// The length of four full components with separators.
const PATH_LENGTH: usize = 4 * COMPONENT + 3;

/// Is the length of the path of the folder of an image in its file-set.
pub const FOLDER_LENGTH: usize = 3 * COMPONENT + 2;

/// The text of the path of an image in its file-set, or of its folder.
pub type ImagePathText = InlineText<PATH_LENGTH>;

/// Shows the path of an image in its file-set: its File ID, with `/` between the components (PS3.10 section 8.2).
#[derive(Clone, Copy)]
pub struct ImagePath(pub FileId);

impl fmt::Display for ImagePath {
    fn fmt<W: fmt::Write>(&self, f: &mut fmt::Formatter<W>) -> fmt::Result {
        write_path(&self.0.text(), PATH_LENGTH, f)
    }
}

/// Shows the path of the folder of an image in its file-set.
#[derive(Clone, Copy)]
pub struct ImageFolder(pub FileId);

impl fmt::Display for ImageFolder {
    fn fmt<W: fmt::Write>(&self, f: &mut fmt::Formatter<W>) -> fmt::Result {
        write_path(&self.0.text(), FOLDER_LENGTH, f)
    }
}

/// The length of eight full components with separators, which is the longest File ID.
const FILE_ID_LENGTH: usize = 8 * COMPONENT + 7;

/// The text of a path in a file-set or in a pile.
pub type PathText = InlineText<FILE_ID_LENGTH>;

/// Shows the path of a file in its file-set: these bytes, a File ID, with `/` between the components.
#[derive(Clone, Copy)]
pub struct IdPath<'a>(pub &'a [u8]);

impl fmt::Display for IdPath<'_> {
    fn fmt<W: fmt::Write>(&self, f: &mut fmt::Formatter<W>) -> fmt::Result {
        write_path(self.0, self.0.len(), f)
    }
}

fn write_path<W: fmt::Write>(text: &[u8], count: usize, f: &mut fmt::Formatter<W>) -> fmt::Result {
    for byte in text.iter().take(count) {
        f.write_char(path_char(*byte))?;
    }
    Ok(())
}
