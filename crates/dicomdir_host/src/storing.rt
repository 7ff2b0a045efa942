ghost use Rattle.std.specs.Prelude.{◌≡◌, ◌↔◌, ◌⊎◌, ◌++◌, ◌∷◌, [], None, Some, length, string_bytes};
ghost use Rattle.std.specs.Prelude.{Err, IfErr, IfOk, IfSome, IsErr, IsOk, IsSome, IsTrue};
ghost use Rattle.std.specs.IoError.{error_kind};
ghost use Rattle.dicomdir_host.specs.Storing.{IsStored};

use crate::again::{Links, look};
use crate::progress_line::ProgressLine;
use std::alloc::{AllocError, Global};
use std::fs::{self, File, OpenFile};
use std::io::{self, ErrorKind};
use std::mem;
use std::time::Clock;

#[derive(Drop)]
pub(crate) struct Ended<F: Drop> {
    path: String,
    file: F,
}

/// What was made and is not stored yet: files that have ended, which stay open until then, and names in folders. What
/// could not be stored is lost for good.
pub(crate) struct Unstored<F: Drop> {
    alloc: Global,
    files: Vec<Ended<F>>,
    // The folders of the names.
    folders: Vec<String>,
    // The first file or folder that could not be stored.
    lost: Option<String>,
}

// By hand, so that dropping it is one call.
impl<F: Drop> Drop for Unstored<F> {
    fn drop(self) {
        let Unstored {
            alloc: _,
            files: _files,
            folders: _folders,
            lost: _lost,
        } = self;
    }
}

impl<F: OpenFile + Drop> Unstored<F> {
    pub(crate) fn new(alloc: Global) -> Self
        ensures { IsStored result.files.items result.folders.items result.lost }
    {
        Unstored {
            alloc,
            files: Vec::new(alloc),
            folders: Vec::new(alloc),
            lost: None,
        }
    }

    pub(crate) fn files_len(&self) -> usize
        ensures { result ≡ length self.now.files.items }
    {
        self.files.len()
    }

    /// Gives the path of what was lost, or else the current folder.
    pub(crate) fn lost(&self) -> &str
        ensures { IfSome self.now.lost (λ path. result.now ≡ string_bytes path) }
    {
        match &self.lost {
            Some(path) => path.as_str(),
            None => ".",
        }
    }

    /// Makes room for one more file and one more folder, and copies that folder's path.
    pub(crate) fn room(&mut self, folder: &str) -> Result<String, AllocError>
        ensures copied { IfOk result (λ path. string_bytes path ≡ folder.now) }
        ensures files { self.new.files.items ≡ self.old.files.items }
        ensures folders { self.new.folders.items ≡ self.old.folders.items }
        ensures lost { self.new.lost ≡ self.old.lost }
    {
        self.files.reserve(1)?;
        self.folders.reserve(1)?;
        String::from_str(self.alloc, folder)
    }

    /// Adds a folder whose new names are to be stored.
    pub(crate) fn name(&mut self, folder: String) -> Result<(), AllocError>
        ensures named { IsOk result → self.new.folders.items
            ≡ self.old.folders.items ++ folder ∷ [] }
        ensures same { self.new ≡ record self.old { folders = self.new.folders } }
    {
        self.folders.push(folder)?;
        Ok(())
    }

    pub(crate) fn keep(&mut self, path: String, file: F) -> Result<(), AllocError>
        ensures kept { IsOk result
            → self.new.files.items
            ≡ self.old.files.items ++ record { path = path; file = file } ∷ [] }
        ensures same { self.new ≡ record self.old { files = self.new.files } }
    {
        self.files.push(Ended { path, file })?;
        Ok(())
    }

    fn lose(&mut self, path: String)
        ensures first { self.old.lost ≡ None → self.new.lost ≡ Some path }
        ensures stays { IsSome self.old.lost → self.new.lost ≡ self.old.lost }
        ensures same { self.new ≡ record self.old { lost = self.new.lost } }
    {
        if self.lost.is_none() {
            self.lost = Some(path);
        }
    }

    pub(crate) fn answer(&self) -> io::Result<()>
        ensures { IsOk result ↔ (self.now.lost ≡ None) }
    {
        match &self.lost {
            Some(_) => Err(io::Error::other("not stored")),
            None => Ok(()),
        }
    }

    /// Makes the system store the files, closes them, and shows the progress.
    pub(crate) fn store_files<C: Clock, W: io::Write + Drop>(
        &mut self,
        clock: &C,
        progress: &mut ProgressLine<W>,
    ) -> io::Result<()>
        ensures closed { self.new.files.items ≡ [] }
        ensures done { IsOk result ↔ (self.new.lost ≡ None) }
        ensures stays { IsSome self.old.lost → self.new.lost ≡ self.old.lost }
        ensures folders { self.new.folders ≡ self.old.folders }
    {
        let files = mem::replace(&mut self.files, Vec::new(self.alloc));
        for ended in files {
            let Ended { path, file } = ended;
            progress.store(clock);
            if file.sync_all().is_err() {
                self.lose(path);
            }
        }
        self.answer()
    }

    // Stores each folder once.
    fn store_folders<R: fs::Files>(&mut self, rt: &R) -> io::Result<()>
        ensures none { self.new.folders.items ≡ [] }
        ensures done { IsOk result ↔ (self.new.lost ≡ None) }
        ensures stays { IsSome self.old.lost → self.new.lost ≡ self.old.lost }
        ensures files { self.new.files ≡ self.old.files }
    {
        self.folders.sort_unstable();
        self.folders.dedup();
        let folders = mem::replace(&mut self.folders, Vec::new(self.alloc));
        for folder in folders {
            if store_opened(open_folder(rt, folder.as_str())).is_err() {
                self.lose(folder);
            }
        }
        self.answer()
    }

    pub(crate) fn store<R: fs::Files + Clock, W: io::Write + Drop>(
        &mut self,
        rt: &R,
        progress: &mut ProgressLine<W>,
    ) -> io::Result<()>
        ensures stored { IsOk result
            → IsStored self.new.files.items self.new.folders.items self.new.lost }
        ensures lost { IsErr result → IsSome self.new.lost }
        ensures stays { IsSome self.old.lost → self.new.lost ≡ self.old.lost }
    {
        self.store_files(rt, progress)?;
        self.store_folders(rt)
    }
}

// Refuses what is no folder, since to open it could wait.
fn open_folder<R: fs::Files>(rt: &R, path: &str) -> io::Result<R::File> {
    if !look(rt, path, Links::Followed)?.is_dir() {
        return Err(io::Error::other("no folder"));
    }
    File::open(rt, path)
}

// EINVAL, ENOTSUP and ENOSYS: the file system has no call that stores a folder.
fn stores_no_folder(error: &io::Error) -> bool
    ensures { IsTrue result ↔ ((error_kind error.now ≡ ErrorKind.InvalidInput)
        ⊎ (error_kind error.now ≡ ErrorKind.Unsupported)) }
{
    matches!(
        error.kind(),
        ErrorKind::InvalidInput | ErrorKind::Unsupported
    )
}

// Stores the names in a folder. One that was not opened is refused for the same reason.
fn store_opened<F: OpenFile + Drop>(opened: io::Result<F>) -> io::Result<()>
    ensures { IfErr opened (λ error. result ≡ Err error) }
{
    let folder = opened?;
    match folder.sync_all() {
        Err(error) if stores_no_folder(&error) => Ok(()),
        answer => answer,
    }
}
