//! Calls of the system, made again where a signal interrupts them (EINTR).

use crate::counted::TRIES;
use std::fs::{self, Metadata, OpenFile};
use std::io::{self, ErrorKind};

#[derive(Clone, Copy)]
pub(crate) enum Links {
    /// What the link leads to is meant.
    Followed,
    /// The link itself is meant, and so it is no file and no folder.
    Kept,
}

pub(crate) fn look<R: fs::Files>(rt: &R, path: &str, links: Links) -> io::Result<Metadata> {
    for _ in 0..TRIES {
        let answer = match links {
            Links::Followed => fs::metadata(rt, path),
            Links::Kept => fs::symlink_metadata(rt, path),
        };
        match answer {
            Err(error) if error.kind() == ErrorKind::Interrupted => {}
            answer => return answer,
        }
    }
    Err(io::Error::from(ErrorKind::Interrupted))
}

pub(crate) fn look_at_open<F: OpenFile>(file: &F) -> io::Result<Metadata> {
    for _ in 0..TRIES {
        match file.metadata() {
            Err(error) if error.kind() == ErrorKind::Interrupted => {}
            answer => return answer,
        }
    }
    Err(io::Error::from(ErrorKind::Interrupted))
}

pub(crate) fn is_folder<R: fs::Files>(rt: &R, path: &str, links: Links) -> bool {
    match look(rt, path, links) {
        Ok(found) => found.is_dir(),
        Err(_) => false,
    }
}

/// A name that is there after an interrupted call counts as given.
pub(crate) fn link_file<R: fs::Files>(rt: &R, original: &str, name: &str) -> io::Result<()> {
    let mut is_interrupted = false;
    for _ in 0..TRIES {
        match fs::hard_link(rt, original, name) {
            Err(error) if error.kind() == ErrorKind::Interrupted => is_interrupted = true,
            Err(error) if is_interrupted && error.kind() == ErrorKind::AlreadyExists => {
                return Ok(());
            }
            answer => return answer,
        }
    }
    Err(io::Error::from(ErrorKind::Interrupted))
}

/// A folder that is there after an interrupted call counts as made.
pub(crate) fn make_folder<R: fs::Files>(rt: &R, path: &str, links: Links) -> io::Result<()> {
    let mut is_interrupted = false;
    for _ in 0..TRIES {
        match fs::create_dir(rt, path) {
            Err(error) if error.kind() == ErrorKind::Interrupted => is_interrupted = true,
            Err(_) if is_interrupted && is_folder(rt, path, links) => return Ok(()),
            answer => return answer,
        }
    }
    Err(io::Error::from(ErrorKind::Interrupted))
}
