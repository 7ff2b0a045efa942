ghost use Rattle.std.specs.Prelude.{◌≡◌, ◌≢◌, ◌⊎◌, ◌++◌, ◌∷◌, [], map, string_bytes};
ghost use Rattle.std.specs.Prelude.{Err, IfOk, IsOk, IsSome};
ghost use Rattle.std.specs.Fs.{IsFile, file_type};
ghost use Rattle.dicomdir_host.specs.Folders.{IsFolderOf};
ghost use Rattle.dicomdir_host.specs.Storing.{Names, Waits};

use crate::again::link_file;
use crate::host_files::HostFiles;
use crate::opening::{open_same, require_same};
use crate::path_folder::folder_of;
use crate::search::Search;
use crate::system::System;
use dd_files::LinkFault;
use std::alloc::AllocError;
use std::fs::Metadata;
use std::io::{self, ErrorKind};

impl<'a, R: System> HostFiles<'a, R> {
    /// Looks the file up, and refuses all but a plain one.
    pub(crate) fn plain_member(
        &mut self,
        set: &str,
        path: &str,
        search: Search,
    ) -> io::Result<Metadata>
        ensures plain { IfOk result (λ seen. IsFile (file_type seen)) }
        ensures same { self.new ≡ record self.old { members = self.new.members } }
    {
        let seen = self.members.find(self.rt, set, path, search)?;
        if !seen.is_file() {
            return Err(io::Error::other("no plain file"));
        }
        Ok(seen)
    }

    fn room_for(&mut self, path: &str) -> Result<(String, String), AllocError>
        ensures folder { IfOk result (λ both. IsFolderOf path.now (string_bytes both.0)) }
        ensures path { IfOk result (λ both. string_bytes both.1 ≡ path.now) }
        ensures files { self.new.unstored.files.items ≡ self.old.unstored.files.items }
        ensures folders { self.new.unstored.folders.items ≡ self.old.unstored.folders.items }
        ensures lost { self.new.unstored.lost ≡ self.old.unstored.lost }
        ensures same { self.new ≡ record self.old { unstored = self.new.unstored } }
    {
        let folder = self.unstored.room(folder_of(path))?;
        let name = String::from_str(self.alloc, path)?;
        Ok((folder, name))
    }

    // Gives the file at `from` a hard link.
    fn make_link(&self, from: &str, path: &str) -> Result<(), LinkFault>
        ensures unchanged { result ≢ Err LinkFault.Changed }
    {
        match self.last.note(link_file(self.rt, from, path)) {
            Ok(()) => Ok(()),
            Err(error) if error.kind() == ErrorKind::AlreadyExists => Err(LinkFault::Taken),
            Err(_) => Err(LinkFault::Refused),
        }
    }

    // Opens the new name. Refused where it is another file than was seen, or a symbolic link.
    fn open_linked(&mut self, path: &str, seen: &Metadata) -> io::Result<(R::File, Metadata)>
        ensures files { (self.new.unstored ≡ self.old.unstored)
            ⊎ (self.new.unstored.files.items ≡ []) }
        ensures folders { self.new.unstored.folders ≡ self.old.unstored.folders }
        ensures lost { IsSome self.old.unstored.lost
            → self.new.unstored.lost ≡ self.old.unstored.lost }
        ensures same { self.new
            ≡ record self.old { unstored = self.new.unstored; progress = self.new.progress } }
    {
        require_same(self.rt, path, seen)?;
        let answer = open_same(self.rt, path, seen);
        if self.makes_room(&answer) {
            return open_same(self.rt, path, seen);
        }
        answer
    }

    // Adds the new name to what is to be stored, and keeps the file open until then.
    fn keep_linked(&mut self, folder: String, path: String, seen: &Metadata) -> io::Result<()>
        ensures named { IsOk result
            → self.new.unstored.folders.items ≡ self.old.unstored.folders.items ++ folder ∷ [] }
        ensures waits { IsOk result → Waits (string_bytes path)
            (map (λ ended. string_bytes ended.path) self.old.unstored.files.items)
            (map (λ ended. string_bytes ended.path) self.new.unstored.files.items) }
        ensures lost { IsSome self.old.unstored.lost
            → self.new.unstored.lost ≡ self.old.unstored.lost }
        ensures same { self.new ≡ record self.old {
          unstored = self.new.unstored;
          progress = self.new.progress;
        } }
    {
        self.unstored.name(folder)?;
        let (file, _opened) = self.open_linked(path.as_str(), seen)?;
        self.unstored.keep(path, file)?;
        Ok(())
    }

    /// Gives the plain file at `from` below `set` a hard link, which is to be stored. Absent where there is no such
    /// file, or the new name can't be opened as that file. Taken where something is at the path, and Refused where
    /// memory or the name is refused.
    pub(crate) fn add_link(&mut self, set: &str, from: &str, path: &str) -> Result<(), LinkFault>
        ensures unchanged { result ≢ Err LinkFault.Changed }
        ensures named { IsOk result
            → Names path.now self.old.unstored.folders.items self.new.unstored.folders.items }
        ensures waits { IsOk result → Waits path.now
            (map (λ ended. string_bytes ended.path) self.old.unstored.files.items)
            (map (λ ended. string_bytes ended.path) self.new.unstored.files.items) }
        ensures lost { IsSome self.old.unstored.lost
            → self.new.unstored.lost ≡ self.old.unstored.lost }
        ensures same { self.new ≡ record self.old {
          unstored = self.new.unstored;
          members = self.new.members;
          progress = self.new.progress;
        } }
    {
        let last = self.last;
        let Ok(seen) = last.note(self.plain_member(set, from, Search::Shown)) else {
            return Err(LinkFault::Absent);
        };
        let Ok((folder, name)) = self.room_for(path) else {
            return Err(LinkFault::Refused);
        };
        self.make_link(self.members.place(), path)?;
        match last.note(self.keep_linked(folder, name, &seen)) {
            Ok(()) => Ok(()),
            Err(_) => Err(LinkFault::Absent),
        }
    }

    // Adds the new name to what is to be stored. Refused where it is another file than was seen, or a symbolic link.
    fn keep_name(&mut self, folder: String, path: &str, seen: &Metadata) -> io::Result<()>
        ensures named { IsOk result
            → self.new.unstored.folders.items ≡ self.old.unstored.folders.items ++ folder ∷ [] }
        ensures files { self.new.unstored.files ≡ self.old.unstored.files }
        ensures lost { self.new.unstored.lost ≡ self.old.unstored.lost }
        ensures same { self.new ≡ record self.old { unstored = self.new.unstored } }
    {
        self.unstored.name(folder)?;
        require_same(self.rt, path, seen)
    }

    /// Gives the plain file at exactly the path `from` below `set` a hard link, of which the name alone is to be
    /// stored. Changed where that file has not `size` bytes. Absent, Taken and Refused come as from `add_link`, but no
    /// file is opened.
    pub(crate) fn add_stored_link(
        &mut self,
        set: &str,
        from: &str,
        path: &str,
        size: u64,
    ) -> Result<(), LinkFault>
        ensures named { IsOk result
            → Names path.now self.old.unstored.folders.items self.new.unstored.folders.items }
        ensures files { self.new.unstored.files.items ≡ self.old.unstored.files.items }
        ensures lost { self.new.unstored.lost ≡ self.old.unstored.lost }
        ensures same { self.new
            ≡ record self.old { unstored = self.new.unstored; members = self.new.members } }
    {
        let last = self.last;
        let Ok(seen) = last.note(self.plain_member(set, from, Search::Exact)) else {
            return Err(LinkFault::Absent);
        };
        if seen.len() != size {
            return Err(LinkFault::Changed);
        }
        let Ok(folder) = self.unstored.room(folder_of(path)) else {
            return Err(LinkFault::Refused);
        };
        self.make_link(self.members.place(), path)?;
        match last.note(self.keep_name(folder, path, &seen)) {
            Ok(()) => Ok(()),
            Err(_) => Err(LinkFault::Absent),
        }
    }
}
