ghost use Rattle.std.specs.Prelude.{◌≡◌, ◌↔◌, ◌⊎◌, ◌<◌, ◌++◌, ◌∷◌, [], None, Some, length, map, option_map};
ghost use Rattle.std.specs.Prelude.{IfSome, IsErr, IsOk, IsSome, IsTrue, string_bytes};
ghost use Rattle.dd_elem.specs.Device.{HasWorked, counted, last_count};
ghost use Rattle.dicomdir_host.specs.Directory.{IsDirectoryPath};
ghost use Rattle.dicomdir_host.specs.Storing.{IsStored, Names, WaitsLast};

use crate::again::{Links, is_folder, look, make_folder};
use crate::counted::Counted;
use crate::last_refusal::LastRefusal;
use crate::members::Members;
use crate::opening::{Input, open_any, open_seen};
use crate::output::{self, Output};
use crate::path_folder::{bare, before_slash, folder_of};
use crate::progress_line::ProgressLine;
use crate::search::Search;
use crate::storing::Unstored;
use crate::system::System;
use dd_files::{DIRECTORY, NotDone};
use dd_slots::Lanes;
use std::alloc::Global;
use std::fmt::InlineText;
use std::io;

// The most ended files that wait to be stored.
const BATCH: usize = 100;

// EMFILE and ENFILE: the process, or the system, has no more descriptors.
const NO_MORE: [i32; 2] = [24, 23];

/// The files of the system, written through a buffer. A new file never takes the place of one that is there, and takes
/// nothing more once a write to it has failed.
///
/// A file that has ended stays open until it is stored. `store_batch` stores these files where 100 wait; `store` stores
/// them and the names of all files and folders that were made, and those in each folder that `folder` was asked for. A
/// folder that can't be opened for that is not stored. All is stored, too, before a file named DICOMDIR is started.
/// What could not be stored stays lost: each later `store`, `store_batch` and start of a DICOMDIR is refused.
///
/// Where the system gives no more descriptors, the files that wait are stored and closed, and the call is made again.
///
/// A source is a file or a folder, also through links; a folder opens, and its read fails. A pipe, a socket or a device
/// is taken for not there, since to open it could wait. So is a source that, once opened, is not what was there before.
/// A plain file whose size is said to be 0 is taken for empty.
///
/// A file of a file-set is a source that is looked up in each spelling in which systems show a disc; one of a pile is
/// looked up at its own path. No link is followed below the folder of a file-set or pile, nor below the folder that is
/// written to.
///
/// Only a plain file of a file-set gets a hard link. Where the new name turns out to be another file, the call is
/// refused as for an absent file, and the name stays. Else it counts as a file that has ended. Where the file was
/// stored before, its new name alone waits.
///
/// A list of names may be a pipe or a device, too, and `-` is the standard input. A call that opens or reads it may
/// wait.
///
/// Progress is one line on the error output, where that is a terminal. It starts after half a second, and each line
/// stays for at least a tenth of a second. While files are stored one by one, it counts these. A failed write to the
/// terminal counts as no failure.
pub struct HostFiles<'a, R: System> {
    pub(crate) rt: &'a R,
    pub(crate) alloc: Global,
    pub(crate) output: Counted<Output<R::File>>,
    // The file that is being written.
    path: Option<String>,
    pub(crate) unstored: Unstored<R::File>,
    // The folder that was made last, and how much of its path may lead over links.
    folder: String,
    out_len: usize,
    pub(crate) members: Members,
    pub(crate) progress: ProgressLine<R::Terminal>,
    pub(crate) last: &'a LastRefusal,
    pub(crate) refusals: u64,
    pub(crate) lanes: Lanes,
    pub(crate) kept: KeptLines,
}

/// The lines that are kept until they are shown.
pub(crate) type KeptLines = InlineText<2048>;

// By hand, so that dropping it is one call.
impl<R: System> Drop for HostFiles<'_, R> {
    fn drop(self) {
        let HostFiles {
            rt: _,
            alloc: _,
            output: _output,
            path: _path,
            unstored: _unstored,
            folder: _folder,
            out_len: _,
            members: _members,
            progress: _progress,
            last: _,
            refusals: _,
            lanes: _,
            kept: _,
        } = self;
    }
}

// A directory is a file named DICOMDIR (PS3.10 section 8.6).
fn is_directory(path: &str) -> bool
    ensures { IsTrue result ↔ IsDirectoryPath path.now }
{
    match path.as_bytes().strip_suffix(DIRECTORY.as_bytes()) {
        Some(folder) => folder.is_empty() || folder.ends_with(b"/"),
        None => false,
    }
}

fn has_no_more(error: &io::Error) -> bool {
    match error.raw_os_error() {
        Some(code) => NO_MORE.contains(&code),
        None => false,
    }
}

impl<'a, R: System> HostFiles<'a, R> {
    /// Makes the files of the system; none is being written. What the system refuses is remembered in `last`.
    pub fn new(alloc: Global, rt: &'a R, last: &'a LastRefusal, lanes: Lanes) -> Self
        ensures { result.refusals ≡ 0 }
    {
        HostFiles {
            rt,
            alloc,
            output: Counted::new(Output::new()),
            path: None,
            unstored: Unstored::new(alloc),
            folder: String::new(alloc),
            out_len: 0,
            members: Members::new(),
            progress: ProgressLine::new(rt.terminal()),
            last,
            refusals: 0,
            lanes,
            kept: KeptLines::new(),
        }
    }

    /// Counts a call that was refused.
    pub(crate) fn answer(&mut self, is_done: bool) -> Result<(), NotDone>
        requires { IsTrue is_done → self.old.refusals < last_count }
        ensures worked { IsOk result → HasWorked self.old.refusals self.new.refusals }
        ensures refused { IsErr result → self.new.refusals ≡ counted self.old.refusals }
        ensures same { self.new ≡ record self.old { refusals = self.new.refusals } }
    {
        if is_done {
            return Ok(());
        }
        self.refusals = self.refusals.saturating_add(1);
        Err(NotDone)
    }

    /// Says whether to make a call with this answer again: it got no descriptor, and files that waited are now closed.
    pub(crate) fn makes_room<T>(&mut self, answer: &io::Result<T>) -> bool
        ensures none { self.old.unstored.files.items ≡ [] → self.new.unstored ≡ self.old.unstored }
        ensures files { (self.new.unstored ≡ self.old.unstored)
            ⊎ (self.new.unstored.files.items ≡ []) }
        ensures lost { IsSome self.old.unstored.lost
            → self.new.unstored.lost ≡ self.old.unstored.lost }
        ensures folders { self.new.unstored.folders ≡ self.old.unstored.folders }
        ensures same { self.new
            ≡ record self.old { unstored = self.new.unstored; progress = self.new.progress } }
    {
        match answer {
            Err(error) if has_no_more(error) && self.unstored.files_len() > 0 => {
                let _ = self.unstored.store_files(self.rt, &mut self.progress);
                true
            }
            _ => false,
        }
    }

    pub(crate) fn open(&mut self, path: &str) -> io::Result<Input<R::File, R::Stdin>>
        ensures same { self.new
            ≡ record self.old { unstored = self.new.unstored; progress = self.new.progress } }
    {
        let seen = look(self.rt, path, Links::Followed)?;
        let answer = open_seen(self.rt, path, &seen);
        if self.makes_room(&answer) {
            return open_seen(self.rt, path, &seen);
        }
        answer
    }

    pub(crate) fn open_member(
        &mut self,
        set: &str,
        path: &str,
        search: Search,
    ) -> io::Result<Input<R::File, R::Stdin>>
        ensures same { self.new ≡ record self.old {
          unstored = self.new.unstored;
          members = self.new.members;
          progress = self.new.progress;
        } }
    {
        let seen = self.members.find(self.rt, set, path, search)?;
        let answer = open_seen(self.rt, self.members.place(), &seen);
        if self.makes_room(&answer) {
            return open_seen(self.rt, self.members.place(), &seen);
        }
        answer
    }

    pub(crate) fn open_names(&mut self, path: &str) -> io::Result<Input<R::File, R::Stdin>>
        ensures same { self.new
            ≡ record self.old { unstored = self.new.unstored; progress = self.new.progress } }
    {
        if path == "-" {
            return Ok(Input::Standard(self.rt.standard_input()));
        }
        let answer = open_any(self.rt, path);
        if self.makes_room(&answer) {
            return open_any(self.rt, path);
        }
        answer
    }

    fn open_new(&mut self, path: &str) -> io::Result<Output<R::File>>
        ensures none { self.old.unstored.files.items ≡ [] → self.new.unstored ≡ self.old.unstored }
        ensures folders { self.new.unstored.folders ≡ self.old.unstored.folders }
        ensures same { self.new
            ≡ record self.old { unstored = self.new.unstored; progress = self.new.progress } }
    {
        let answer = output::start(self.alloc, self.rt, path);
        if self.makes_room(&answer) {
            return output::start(self.alloc, self.rt, path);
        }
        answer
    }

    // Makes a folder, unless it is there. It may be a link if its path has at most `out_len` bytes.
    fn make_one(&mut self, path: &str, out_len: usize) -> io::Result<()>
        ensures same { self.new
            ≡ record self.old { unstored = self.new.unstored; progress = self.new.progress } }
    {
        let links = if path.len() > out_len {
            Links::Kept
        } else {
            Links::Followed
        };
        let folder = self.unstored.room(folder_of(path))?;
        match make_folder(self.rt, path, links) {
            Ok(()) => Ok(self.unstored.name(folder)?),
            Err(_) if is_folder(self.rt, path, links) => Ok(()),
            Err(error) => Err(error),
        }
    }

    fn make_above(&mut self, path: &str, out_len: usize) -> io::Result<()>
        ensures same { self.new
            ≡ record self.old { unstored = self.new.unstored; progress = self.new.progress } }
    {
        for at in 1..path.len() {
            if let Some(folder) = before_slash(path, at) {
                self.make_one(folder, out_len)?;
            }
        }
        Ok(())
    }

    /// Makes a folder with its parents, unless it was made last. The empty path is the current folder. A name after
    /// the first `out_len` bytes of the path must not be a link.
    pub(crate) fn make(&mut self, path: &str, out_len: usize) -> io::Result<()>
        ensures same { self.new ≡ record self.old {
          folder = self.new.folder;
          out_len = self.new.out_len;
          unstored = self.new.unstored;
          progress = self.new.progress;
        } }
    {
        if path.is_empty() || (self.folder.as_str() == path && self.out_len == out_len) {
            return Ok(());
        }
        let made = String::from_str(self.alloc, path)?;
        self.make_above(path, out_len)?;
        self.make_one(path, out_len)?;
        self.folder = made;
        self.out_len = out_len;
        Ok(())
    }

    /// Makes the folder that is written to, as `make` does. The names in it are to be stored, whatever is made there.
    pub(crate) fn make_out(&mut self, path: &str) -> io::Result<()>
        ensures waits { IsOk result → WaitsLast path.now self.new.unstored.folders.items }
        ensures same { self.new ≡ record self.old {
          folder = self.new.folder;
          out_len = self.new.out_len;
          unstored = self.new.unstored;
          progress = self.new.progress;
        } }
    {
        let folder = self.unstored.room(bare(path))?;
        self.make(path, path.len())?;
        self.unstored.name(folder)?;
        Ok(())
    }

    pub(crate) fn start(&mut self, path: &str) -> io::Result<()>
        ensures directory { IsOk result → IsDirectoryPath path.now
            → (self.new.unstored.files.items ≡ []) × (self.new.unstored.lost ≡ None)
            × Names path.now [] self.new.unstored.folders.items }
        ensures image { IsOk result → ¬ IsDirectoryPath path.now
            → Names path.now self.old.unstored.folders.items self.new.unstored.folders.items }
        ensures path { IsOk result → option_map (λ path. string_bytes path) self.new.path
            ≡ Some path.now }
        ensures kept { IsErr result → (self.new.path ≡ self.old.path)
            × (self.new.output ≡ self.old.output) }
        ensures counts { self.new.output.counts ≡ self.old.output.counts }
        ensures refusals { self.new.refusals ≡ self.old.refusals }
    {
        if is_directory(path) {
            self.unstored.store(self.rt, &mut self.progress)?;
        }
        let folder = self.unstored.room(folder_of(path))?;
        let name = String::from_str(self.alloc, path)?;
        let device = self.open_new(path)?;
        self.unstored.name(folder)?;
        self.output.device = device;
        self.path = Some(name);
        Ok(())
    }

    /// The file stays open until it is stored.
    pub(crate) fn end(&mut self) -> io::Result<()>
        ensures ended { self.new.path ≡ None }
        ensures none { self.old.path ≡ None → IsErr result }
        ensures remembered { IsOk result → IfSome self.old.path (λ path.
            map (λ ended. ended.path) self.new.unstored.files.items
            ≡ map (λ ended. ended.path) self.old.unstored.files.items ++ path ∷ []) }
        ensures counts { self.new.output.counts ≡ self.old.output.counts }
        ensures refusals { self.new.refusals ≡ self.old.refusals }
    {
        let Some(path) = self.path.take() else {
            return Err(io::Error::other("no file is being written"));
        };
        let file = self.output.device.take()?;
        self.unstored.keep(path, file)?;
        Ok(())
    }

    pub(crate) fn store_all(&mut self) -> io::Result<()>
        ensures stored { IsOk result
            → IsStored self.new.unstored.files.items self.new.unstored.folders.items self.new.unstored.lost }
        ensures lost { IsErr result ↔ IsSome self.new.unstored.lost }
        ensures same { self.new
            ≡ record self.old { unstored = self.new.unstored; progress = self.new.progress } }
    {
        self.unstored.store(self.rt, &mut self.progress)
    }

    pub(crate) fn store_waiting(&mut self) -> io::Result<()>
        ensures batch { IsOk result → length self.new.unstored.files.items < BATCH }
        ensures lost { IsErr result ↔ IsSome self.new.unstored.lost }
        ensures same { self.new
            ≡ record self.old { unstored = self.new.unstored; progress = self.new.progress } }
    {
        if self.unstored.files_len() >= BATCH {
            return self.unstored.store_files(self.rt, &mut self.progress);
        }
        self.unstored.answer()
    }
}
