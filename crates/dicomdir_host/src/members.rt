//! Looks up the files of file-sets by the names that systems show, and those of piles by their own.
ghost use Rattle.std.specs.Prelude.{IfOk};
ghost use Rattle.std.specs.Fs.{IsSymlink, file_type};

use crate::again::{Links, look};
use crate::path_buffer::PathBuffer;
use crate::search::{Search, tried};
use dd_spelling::spellings;
use std::fs::{self, Metadata};
use std::io::{self, ErrorKind};

/// The last look-up. Its folder is kept for the next one.
#[derive(Drop)]
pub(crate) struct Members {
    /// The length of the path `set`, or `usize::MAX` while no folder is kept.
    set_len: usize,
    search: Search,
    /// The folder as recorded, with the `/` after it.
    recorded: PathBuffer,
    /// The folder as shown, and after it the name that was looked up.
    place: PathBuffer,
    /// The length of the folder in `place`.
    folder_len: usize,
}

impl Members {
    pub(crate) fn new() -> Self {
        Members {
            set_len: usize::MAX,
            search: Search::Shown,
            recorded: PathBuffer::new(),
            place: PathBuffer::new(),
            folder_len: 0,
        }
    }

    /// Gives the path of the file that was found last.
    pub(crate) fn place(&self) -> &str {
        self.place.as_str()
    }

    /// Looks up the file at this path below the folder `set`. Of the spellings of each name below it, the first that is
    /// there is taken. A symbolic link counts as not there.
    pub(crate) fn find<R: fs::Files>(
        &mut self,
        rt: &R,
        set: &str,
        path: &str,
        search: Search,
    ) -> io::Result<Metadata>
        ensures no_link { IfOk result (λ found. ¬ IsSymlink (file_type found)) }
    {
        let (folder, name) = split_name(path);
        if self.set_len != set.len() || self.search != search || self.recorded.as_str() != folder {
            self.set_len = usize::MAX;
            self.search = search;
            self.enter(rt, set, folder)?;
        }
        self.place.truncate(self.folder_len);
        find_name(rt, name, search, &mut self.place)
    }

    fn enter<R: fs::Files>(&mut self, rt: &R, set: &str, folder: &str) -> io::Result<()> {
        self.recorded.truncate(0);
        self.place.truncate(0);
        let (above, below) = split_set(set, folder);
        self.place.push(above)?;
        for name in below.split_terminator('/') {
            find_name(rt, name, self.search, &mut self.place)?;
            self.place.push("/")?;
        }
        self.folder_len = self.place.len();
        self.recorded.push(folder)?;
        self.set_len = set.len();
        Ok(())
    }
}

fn split_name(path: &str) -> (&str, &str) {
    match path.rfind('/') {
        Some(at) => path
            .split_at_checked(at.saturating_add(1))
            .unwrap_or(("", path)),
        None => ("", path),
    }
}

/// Splits a path below `set` after `set` and the `/` that follows.
fn split_set<'a>(set: &str, path: &'a str) -> (&'a str, &'a str) {
    let Some(below) = path.strip_prefix(set) else {
        return (path, "");
    };
    let below = below.strip_prefix('/').unwrap_or(below);
    let above = path.len().saturating_sub(below.len());
    path.split_at_checked(above).unwrap_or((path, ""))
}

/// Looks for the spellings of the name, and adds the one found to the place. The error is the first that says more than
/// that nothing is there.
fn find_name<R: fs::Files>(
    rt: &R,
    name: &str,
    search: Search,
    place: &mut PathBuffer,
) -> io::Result<Metadata>
    ensures no_link { IfOk result (λ found. ¬ IsSymlink (file_type found)) }
{
    let folder_len = place.len();
    let mut refused = io::Error::from(ErrorKind::NotFound);
    for spelling in tried(search, &spellings()) {
        place.truncate(folder_len);
        place.push_spelled(name, *spelling)?;
        match look(rt, place.as_str(), Links::Kept) {
            Ok(found) if !found.is_symlink() => return Ok(found),
            Ok(_) => {}
            Err(error) if refused.kind() == ErrorKind::NotFound => refused = error,
            Err(_) => {}
        }
    }
    Err(refused)
}
