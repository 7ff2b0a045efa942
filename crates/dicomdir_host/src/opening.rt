ghost use Rattle.std.specs.Io.{ReadsAtMost};

use crate::again::{Links, look, look_at_open};
use crate::system::System;
use std::fs::{self, File, Metadata};
use std::io::{self, Read};
use std::os::unix::fs::MetadataExt;

#[derive(Drop)]
pub enum Input<F: Read + Drop, S: Read + Drop> {
    /// A plain file whose size is said to be 0.
    Empty,
    /// A plain file, or a folder, whose reads are refused. The number is the size that the system gave when it was
    /// opened, or 0.
    File(F, u64),
    Standard(S),
}

impl<F: Read + Drop, S: Read + Drop> Input<F, S> {
    pub(crate) fn said_size(&self) -> u64 {
        match self {
            Input::File(_, size) => *size,
            Input::Empty | Input::Standard(_) => 0,
        }
    }
}

impl<F: Read + Drop, S: Read + Drop> Read for Input<F, S> {
    fn read(&mut self, buf: &mut [u8]) -> io::Result<usize>
        ensures { ReadsAtMost result buf.new }
    {
        match self {
            Input::Empty => Ok(0),
            Input::File(file, _) => file.read(buf),
            Input::Standard(input) => input.read(buf),
        }
    }
}

/// Opens the file or folder that was seen. Refused where anything else was seen, since to open it could wait, and where
/// what was opened is another one.
///
/// A plain file whose size is said to be 0 is empty, and is not read: some of the system's own files say so, and a read
/// of them waits.
pub(crate) fn open_seen<R: System>(
    rt: &R,
    path: &str,
    seen: &Metadata,
) -> io::Result<Input<R::File, R::Stdin>> {
    if !seen.is_file() && !seen.is_dir() {
        return Err(io::Error::other("no file and no folder"));
    }
    let (file, opened) = open_same(rt, path, seen)?;
    if opened.is_file() && opened.len() == 0 {
        return Ok(Input::Empty);
    }
    Ok(Input::File(file, opened.len()))
}

/// Refused where what was opened is not what was seen.
pub(crate) fn open_same<R: fs::Files>(
    rt: &R,
    path: &str,
    seen: &Metadata,
) -> io::Result<(R::File, Metadata)> {
    let file = File::open(rt, path)?;
    let opened = look_at_open(&file)?;
    if !is_same(seen, &opened) {
        return Err(io::Error::other("another file than was seen"));
    }
    Ok((file, opened))
}

/// Refuses the path unless the file that was seen is there. A symbolic link to that file is refused, too.
pub(crate) fn require_same<R: fs::Files>(rt: &R, path: &str, seen: &Metadata) -> io::Result<()> {
    let found = look(rt, path, Links::Kept)?;
    if !is_same(seen, &found) {
        return Err(io::Error::other("another file than was seen"));
    }
    Ok(())
}

/// Opens a pipe or a device, too. It may wait.
pub(crate) fn open_any<R: System>(rt: &R, path: &str) -> io::Result<Input<R::File, R::Stdin>> {
    Ok(Input::File(File::open(rt, path)?, 0))
}

/// Compares the kind, the device and the inode.
fn is_same(seen: &Metadata, opened: &Metadata) -> bool {
    seen.is_file() == opened.is_file()
        && seen.is_dir() == opened.is_dir()
        && seen.dev() == opened.dev()
        && seen.ino() == opened.ino()
}
