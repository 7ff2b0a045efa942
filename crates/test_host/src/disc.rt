//! A disc in memory in place of the files of the system. One call of it can be made to fail.
ghost use Rattle.std.specs.Io.{ReadsAtMost};

use crate::disc_file::{DiscFile, borrowed};
use crate::power_cut::{Entry, Kind, all_last, may_break, parent};
use crate::screen::Screen;
use std::alloc::{Allocator, Global};
use std::cell::RefCell;
use std::fs::{Files, Metadata, OpenOptions};
use std::io::{self, Empty, ErrorKind, Read};

// The most bytes of one read or write.
pub(crate) const STEP: usize = 1000;

#[derive(Clone, Copy, PartialEq)]
pub(crate) enum Call {
    Open,
    Create,
    Folder,
    Link,
    Read,
    Write,
    Store,
    Look,
    LookAtOpen,
    /// On failure, the opened file becomes a pipe.
    Stay,
    /// Fails after the folder or the hard link was made.
    Made,
    Show,
    Clock,
}

/// The disc has its entries in the order in which they were made, the next call that fails, and the terminal. It logs
/// what was to be made and what was stored, in order, and what was looked at. It says how many files are open and may
/// be, and after how many calls a power cut would have left a whole directory without its images.
pub(crate) struct Disc {
    alloc: Global,
    pub(crate) entries: Vec<Entry>,
    failing: Option<Call>,
    kind: ErrorKind,
    log: String,
    looks: String,
    pub(crate) open: usize,
    most_open: usize,
    broken: usize,
    pub(crate) screen: Screen,
}

// By hand, so that dropping it is one call.
impl Drop for Disc {
    fn drop(self) {
        let Disc {
            alloc: _,
            entries: _entries,
            failing: _,
            kind: _,
            log: _log,
            looks: _looks,
            open: _,
            most_open: _,
            broken: _,
            screen: _screen,
        } = self;
    }
}

impl Disc {
    /// Makes a disc with the current folder. Any number of files can be open.
    pub(crate) fn new(alloc: Global) -> io::Result<Self> {
        let mut disc = Disc {
            alloc,
            entries: Vec::new(alloc),
            failing: None,
            kind: ErrorKind::Other,
            log: String::new(alloc),
            looks: String::new(alloc),
            open: 0,
            most_open: usize::MAX,
            broken: 0,
            screen: Screen::new(alloc),
        };
        disc.put(".", Kind::Folder)?;
        Ok(disc)
    }

    pub(crate) fn open_at_most(&mut self, most: usize) {
        self.most_open = most;
    }

    /// Says after how many calls a power cut would have left a whole directory without its images.
    pub(crate) fn broken(&self) -> usize {
        self.broken
    }

    /// Says whether all that is there is stored.
    pub(crate) fn lasts(&self) -> bool {
        all_last(&self.entries)
    }

    pub(crate) fn log(&self) -> &str {
        self.log.as_str()
    }

    /// The paths that were looked at, in order, except links that were followed.
    pub(crate) fn looks(&self) -> &str {
        self.looks.as_str()
    }

    pub(crate) fn note(&mut self, what: &str, path: &str) -> io::Result<()> {
        if !self.log.is_empty() {
            self.log.push_str(", ")?;
        }
        self.log.push_str(what)?;
        self.log.push(' ')?;
        self.log.push_str(path)?;
        Ok(())
    }

    // Counts a state that a power cut would break.
    fn look(&mut self) {
        if may_break(&self.entries) {
            self.broken = self.broken.saturating_add(1);
        }
    }

    // Stores the entry, under each of its names, and the names in it.
    fn keep(&mut self, node: usize, path: &str) {
        for entry in self.entries.iter_mut() {
            if entry.node == node {
                entry.lasting = entry.bytes.len();
            }
            if parent(entry.path.as_str()) == path {
                entry.is_named = true;
            }
        }
    }

    pub(crate) fn store(&mut self, place: usize) -> io::Result<()> {
        self.pass(Call::Store)?;
        let pause = self.screen.pause;
        self.screen.wait(pause);
        let Some(entry) = self.entries.get(place) else {
            return Err(io::Error::from(ErrorKind::NotFound));
        };
        let node = entry.node;
        let path = String::from_str(self.alloc, entry.path.as_str())?;
        self.note("store", path.as_str())?;
        self.keep(node, path.as_str());
        self.look();
        Ok(())
    }

    /// Has the next such call fail, but none after it.
    pub(crate) fn fail(&mut self, call: Call, kind: ErrorKind) {
        self.failing = Some(call);
        self.kind = kind;
    }

    // Adds an empty entry, and gives its index.
    pub(crate) fn make(&mut self, path: &str, kind: Kind, is_named: bool) -> io::Result<usize> {
        let place = self.entries.len();
        self.entries.push(Entry {
            path: String::from_str(self.alloc, path)?,
            kind,
            node: place,
            bytes: Vec::new(self.alloc),
            lasting: 0,
            is_named,
        })?;
        self.look();
        Ok(place)
    }

    /// Adds an empty entry whose name is stored, and gives its index.
    pub(crate) fn put(&mut self, path: &str, kind: Kind) -> io::Result<usize> {
        self.make(path, kind, true)
    }

    /// Makes a file with all its bytes, which are not stored.
    pub(crate) fn spill(&mut self, path: &str) -> io::Result<()> {
        let place = self.make(path, Kind::File, false)?;
        self.add(place, b"xyz")
    }

    pub(crate) fn add(&mut self, place: usize, bytes: &[u8]) -> io::Result<()> {
        match self.entries.get_mut(place) {
            Some(entry) => entry.bytes.extend_from_slice(bytes)?,
            None => return Err(io::Error::from(ErrorKind::NotFound)),
        }
        self.look();
        Ok(())
    }

    pub(crate) fn bytes(&self, path: &str) -> Option<&[u8]> {
        let entry = self.entries.get(self.find(path)?)?;
        Some(entry.bytes.as_slice())
    }

    pub(crate) fn find(&self, path: &str) -> Option<usize> {
        self.entries
            .iter()
            .position(|entry| entry.path.as_str() == path)
    }

    fn kind(&self, path: &str) -> Option<Kind> {
        Some(self.entries.get(self.find(path)?)?.kind)
    }

    pub(crate) fn metadata(&self, place: usize) -> io::Result<Metadata> {
        let Some(entry) = self.entries.get(place) else {
            return Err(io::Error::from(ErrorKind::NotFound));
        };
        Ok(match entry.kind {
            Kind::File => Metadata::of_file(entry.bytes.len() as u64),
            Kind::Silent => Metadata::of_file(0),
            Kind::Folder => Metadata::of_dir(),
            // The only metadata of neither a file nor a folder that can be made.
            Kind::Pipe | Kind::Link => Metadata::of_symlink(0),
        })
    }

    fn look_at(&mut self, path: &str) -> io::Result<Metadata> {
        self.pass(Call::Look)?;
        if !self.looks.is_empty() {
            self.looks.push_str(", ")?;
        }
        self.looks.push_str(path)?;
        match self.find(path) {
            Some(place) => self.metadata(place),
            None => Err(io::Error::from(ErrorKind::NotFound)),
        }
    }

    // Makes the file a pipe, if `Stay` is to fail.
    fn swap(&mut self, place: usize) {
        if self.pass(Call::Stay).is_err() {
            if let Some(entry) = self.entries.get_mut(place) {
                entry.kind = Kind::Pipe;
            }
        }
    }

    pub(crate) fn pass(&mut self, call: Call) -> io::Result<()> {
        if self.failing == Some(call) {
            self.failing = None;
            return Err(error_of(self.kind));
        }
        Ok(())
    }

    fn open(&mut self, how: &OpenOptions, path: &str) -> io::Result<usize> {
        match self.find(path) {
            Some(_) if how.asks_create_new() => Err(io::Error::from(ErrorKind::AlreadyExists)),
            Some(place) => {
                if how.asks_truncate() {
                    self.clear(place);
                }
                Ok(place)
            }
            None if how.asks_create_new() || how.asks_create() => {
                self.note("make", path)?;
                self.make(path, Kind::File, false)
            }
            None => Err(io::Error::from(ErrorKind::NotFound)),
        }
    }

    // Refuses a new name whose path is taken, or whose parent is no folder.
    pub(crate) fn has_room_for(&self, path: &str) -> io::Result<()> {
        if self.kind(path).is_some() {
            return Err(io::Error::from(ErrorKind::AlreadyExists));
        }
        let Some((parent, _)) = path.rsplit_once('/') else {
            return Ok(());
        };
        match self.kind(parent) {
            Some(Kind::Folder | Kind::Link) => Ok(()),
            Some(_) => Err(io::Error::from(ErrorKind::NotADirectory)),
            None => Err(io::Error::from(ErrorKind::NotFound)),
        }
    }

    fn clear(&mut self, place: usize) {
        if let Some(entry) = self.entries.get_mut(place) {
            entry.bytes.clear();
        }
    }

    pub(crate) fn read(&self, place: usize, from: usize, buf: &mut [u8]) -> io::Result<usize>
        ensures { ReadsAtMost result buf.new }
    {
        let Some(entry) = self.entries.get(place) else {
            return Err(io::Error::from(ErrorKind::NotFound));
        };
        if entry.kind == Kind::Folder {
            return Err(io::Error::from_raw_os_error(21));
        }
        let mut rest = entry.bytes.get(from..).unwrap_or(&[]);
        let wanted = buf.len().min(STEP);
        rest.read(&mut buf[..wanted])
    }
}

// As Linux has it: EIO, EACCES and EXDEV.
fn error_of(kind: ErrorKind) -> io::Error {
    match kind {
        ErrorKind::Other => io::Error::from_raw_os_error(5),
        ErrorKind::PermissionDenied => io::Error::from_raw_os_error(13),
        ErrorKind::CrossesDevices => io::Error::from_raw_os_error(18),
        kind => io::Error::from(kind),
    }
}

#[derive(Clone, Copy)]
pub(crate) struct DiscFiles<'a>(pub(crate) &'a RefCell<Disc>);

impl<'a> Files for DiscFiles<'a> {
    type File = DiscFile<'a>;

    type Dir = Empty;

    fn open_file(&self, how: &OpenOptions, path: &str) -> io::Result<DiscFile<'a>> {
        how.check()?;
        let mut disc = borrowed(self.0)?;
        disc.pass(if how.asks_write() {
            Call::Create
        } else {
            Call::Open
        })?;
        if disc.open >= disc.most_open {
            return Err(io::Error::from_raw_os_error(24));
        }
        let place = disc.open(how, path)?;
        disc.swap(place);
        disc.open = disc.open.saturating_add(1);
        Ok(DiscFile {
            disc: self.0,
            place,
            from: 0,
        })
    }

    fn metadata(&self, path: &str) -> io::Result<Metadata> {
        let mut disc = borrowed(self.0)?;
        match disc.kind(path) {
            Some(Kind::Link) => Ok(Metadata::of_dir()),
            _ => disc.look_at(path),
        }
    }

    fn create_dir(&self, path: &str) -> io::Result<()> {
        let mut disc = borrowed(self.0)?;
        disc.pass(Call::Folder)?;
        disc.note("folder", path)?;
        disc.has_room_for(path)?;
        disc.make(path, Kind::Folder, false)?;
        disc.pass(Call::Made)
    }

    fn hard_link(&self, original: &str, link: &str) -> io::Result<()> {
        let mut disc = borrowed(self.0)?;
        disc.link(original, link)
    }

    fn open_dir(&self, _path: &str) -> io::Result<Empty> {
        Err(io::Error::from(ErrorKind::Unsupported))
    }

    fn symlink_metadata(&self, path: &str) -> io::Result<Metadata> {
        let mut disc = borrowed(self.0)?;
        disc.look_at(path)
    }

    fn copy(&self, _from: &str, _to: &str) -> io::Result<u64> {
        Err(io::Error::from(ErrorKind::Unsupported))
    }

    fn rename(&self, _from: &str, _to: &str) -> io::Result<()> {
        Err(io::Error::from(ErrorKind::Unsupported))
    }

    fn remove_file(&self, _path: &str) -> io::Result<()> {
        Err(io::Error::from(ErrorKind::Unsupported))
    }

    fn remove_dir(&self, _path: &str) -> io::Result<()> {
        Err(io::Error::from(ErrorKind::Unsupported))
    }

    fn remove_dir_all<B: Allocator>(&self, _alloc: B, _path: &str) -> io::Result<()> {
        Err(io::Error::from(ErrorKind::Unsupported))
    }
}
