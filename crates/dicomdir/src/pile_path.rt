//! Paths in a pile.

use std::fmt::{self, Write};

/// How many copies are in one folder of a pile.
const FOLDER_COPIES: usize = 1000;

/// Shows the path of a copy in its pile, by the number of its source, from 1.
#[derive(Clone, Copy)]
pub(crate) struct PilePath(pub(crate) usize);

impl fmt::Display for PilePath {
    fn fmt<W: fmt::Write>(&self, f: &mut fmt::Formatter<W>) -> fmt::Result {
        let number = self.0;
        let folder = number / FOLDER_COPIES;
        write!(f, "{folder:03}/{number:06}")
    }
}

/// Shows the path of the folder of that copy in the pile.
#[derive(Clone, Copy)]
pub(crate) struct PileFolder(pub(crate) usize);

impl fmt::Display for PileFolder {
    fn fmt<W: fmt::Write>(&self, f: &mut fmt::Formatter<W>) -> fmt::Result {
        let folder = self.0 / FOLDER_COPIES;
        write!(f, "{folder:03}")
    }
}
