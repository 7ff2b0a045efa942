ghost use Rattle.std.specs.Prelude.{◌≡◌, ◌≢◌, ◌↔◌, ◌<◌, [], ◌∷◌, ◌++◌, Err, None, Some, IsErr, IsOk, IsSome, OnErr};
ghost use Rattle.std.specs.Prelude.{IfOk, IfSome, IsSomeAnd, IsTrue, OnOk, codes, false, length, option_map};
ghost use Rattle.std.specs.Prelude.{string_bytes};
ghost use Rattle.dd_elem.specs.Device.{HasWorked, counted, last_count};
ghost use Rattle.dd_files.specs.Calls.{Create, Link, Store};
ghost use Rattle.dd_files.specs.Files.{end_of};
ghost use Rattle.dd_files.specs.FoundPaths.{IsFoundAt};
ghost use Rattle.dd_mem_files.specs.MemFiles.{LinksFile, MayCall, OpensOrRefuses, SetsFile, bytes_at, called, refused};
ghost use Rattle.dd_mem_files.specs.MemFiles.{told_of};
ghost use Rattle.dd_mem_files.specs.MemLaws.{held_grows, refusals_stay, told_contents};

use crate::calls::Call;
use crate::mem_files::MemFiles;
use crate::mem_reader::MemReader;
use dd_elem::Memory;
use dd_files::{Cause, Files, FoundPaths, Hints, LinkFault, NotDone, NotThere, Progress, Step};
use dd_slots::Lanes;

impl Files for MemFiles {
    type In = MemReader;

    ghost refusals = { λ s. s.refusals };

    ghost held = { told_of };

    ghost is_taken = { λ _ _. Unit {0} };

    ghost has_folder = { λ _ _. Unit {0} };

    /// Opens a copy of the file's bytes. NotThere where the call is to be refused, there is no such file, an allocation
    /// is refused or the refusals are at their last value. That counts as no opening.
    fn source(&mut self, path: &str) -> Result<MemReader, NotThere>
        ensures may { IsOk result → MayCall self.old }
        ensures opens { OpensOrRefuses (called self.old) self.new path.now result }
    {
        if self.count_call() {
            if let Some(reader) = self.open(path) {
                return Ok(reader);
            }
        }
        self.refuse();
        Err(NotThere)
    }

    /// Opens the file at the path like `source`, its names spelled as recorded.
    fn member(&mut self, _set: &str, path: &str) -> Result<MemReader, NotThere>
        ensures { OpensOrRefuses self.old self.new path.now result }
    {
        self.open_or_refuse(path)
    }

    /// Opens the file at the path like `member`.
    fn exact_file(&mut self, _set: &str, path: &str) -> Result<MemReader, NotThere>
        ensures { OpensOrRefuses self.old self.new path.now result }
    {
        self.open_or_refuse(path)
    }

    /// Opens the file at the path like `member`, also at the path `-`.
    fn names(&mut self, path: &str) -> Result<MemReader, NotThere>
        ensures { OpensOrRefuses self.old self.new path.now result }
    {
        self.open_or_refuse(path)
    }

    /// Says nothing.
    fn said_size(&self, _input: &MemReader) -> u64 {
        0
    }

    /// Says whether no file is at the path, nor below it as a folder.
    fn is_free(&self, path: &str) -> bool
        ensures { IsTrue result → bytes_at self.now.files path.now ≡ None }
    {
        self.bytes(path).is_none() && !self.has_below(path)
    }

    /// Succeeds where the call may be done, since every folder is there.
    fn folder(&mut self, _path: &str) -> Result<(), NotDone>
        ensures worked { IsOk result → HasWorked self.old.refusals self.new.refusals }
        ensures refused { IsErr result → self.new.refusals ≡ counted self.old.refusals }
        ensures done { IsOk result ↔ MayCall self.old }
        ensures ok { OnOk result (self.new ≡ called self.old) }
        ensures err { OnErr result (self.new ≡ refused self.old) }
    {
        if self.count_call() {
            return Ok(());
        }
        self.refuse();
        Err(NotDone)
    }

    /// Does what `folder` does, since no path is a link.
    fn folder_in(&mut self, _out: &str, path: &str) -> Result<(), NotDone>
        ensures worked { IsOk result → HasWorked self.old.refusals self.new.refusals }
        ensures refused { IsErr result → self.new.refusals ≡ counted self.old.refusals }
        ensures done { IsOk result ↔ MayCall self.old }
        ensures ok { OnOk result (self.new ≡ called self.old) }
        ensures err { OnErr result (self.new ≡ refused self.old) }
    {
        self.folder(path)
    }

    /// Starts an empty file at the path. NotDone where the call is to be refused, the path is there, an allocation is
    /// refused or the refusals are at their last value.
    fn create(&mut self, path: &str) -> Result<(), NotDone>
        ensures worked { IsOk result → HasWorked self.old.refusals self.new.refusals }
        ensures refused { IsErr result → self.new.refusals ≡ counted self.old.refusals }
        ensures may { IsOk result → MayCall self.old }
        ensures free { OnOk result (bytes_at self.old.files path.now ≡ None) }
        ensures ok { OnOk result (SetsFile self.old.files self.new.files path.now []) }
        ensures started { OnOk result (self.new.current ≡ Some path.now) }
        ensures kept { OnOk result (self.new.calls ≡ self.old.calls ++ Create path.now ∷ []) }
        ensures err { OnErr result (self.new ≡ refused self.old) }
        ensures same { OnOk result (self.new ≡ record (called self.old) {
          files = self.new.files;
          current = self.new.current;
          calls = self.new.calls;
        }) }
    {
        if self.count_call() && self.bytes(path).is_none() && self.start(path).is_ok() {
            return Ok(());
        }
        self.refuse();
        Err(NotDone)
    }

    /// Gives the path a copy of the file at `from`, its names spelled as recorded. Absent where there is no such file,
    /// a copy is refused or the refusals are at their last value. Taken where the path is there. Refused where hard
    /// links are to be refused, or an allocation is.
    fn link(&mut self, _set: &str, from: &str, path: &str) -> Result<(), LinkFault>
        ensures worked { IsOk result → HasWorked self.old.refusals self.new.refusals }
        ensures refused { IsErr result → self.new.refusals ≡ counted self.old.refusals }
        ensures may { IsOk result → self.old.planned.no_links ≡ false }
        ensures ok { OnOk result (LinksFile self.old.files self.new.files from.now path.now) }
        ensures unchanged { result ≢ Err LinkFault.Changed }
        ensures taken { result ≡ Err LinkFault.Taken → IsSome (bytes_at self.old.files path.now) }
        ensures kept { OnOk result (self.new.calls
            ≡ self.old.calls ++ Link from.now path.now ∷ []) }
        ensures err { OnErr result (self.new
            ≡ record self.old { refusals = counted self.old.refusals }) }
        ensures same { OnOk result (self.new
            ≡ record self.old { files = self.new.files; calls = self.new.calls }) }
    {
        let answer = if self.refusals < u64::MAX {
            self.copy_to(from, path)
        } else {
            Err(LinkFault::Absent)
        };
        if answer.is_err() {
            self.refuse();
        }
        answer
    }

    /// Does what `link` does where the file at `from` has `size` bytes. Changed where it has another number of bytes,
    /// unless the refusals are at their last value.
    fn link_stored(
        &mut self,
        _set: &str,
        from: &str,
        path: &str,
        size: u64,
    ) -> Result<(), LinkFault>
        ensures worked { IsOk result → HasWorked self.old.refusals self.new.refusals }
        ensures refused { IsErr result → self.new.refusals ≡ counted self.old.refusals }
        ensures may { IsOk result → self.old.planned.no_links ≡ false }
        ensures ok { OnOk result (LinksFile self.old.files self.new.files from.now path.now) }
        ensures size { OnOk result
            (IfSome (bytes_at self.old.files from.now) (λ bytes. length bytes ≡ size)) }
        ensures changed { result ≡ Err LinkFault.Changed ↔ (self.old.refusals < last_count)
            × IsSomeAnd (bytes_at self.old.files from.now) (λ bytes. length bytes ≢ size) }
        ensures taken { result ≡ Err LinkFault.Taken → IsSome (bytes_at self.old.files path.now) }
        ensures kept { OnOk result (self.new.calls
            ≡ self.old.calls ++ Link from.now path.now ∷ []) }
        ensures err { OnErr result (self.new
            ≡ record self.old { refusals = counted self.old.refusals }) }
        ensures same { OnOk result (self.new
            ≡ record self.old { files = self.new.files; calls = self.new.calls }) }
    {
        if self.refusals < u64::MAX && self.has_other_size(from, size) {
            self.refuse();
            return Err(LinkFault::Changed);
        }
        self.link("", from, path)
    }

    /// Ends the file that is being written. Writes then fail until the next file is started. NotDone where the call is
    /// to be refused, an allocation is refused or the refusals are at their last value.
    fn finish(&mut self) -> Result<(), NotDone>
        ensures worked { IsOk result → HasWorked self.old.refusals self.new.refusals }
        ensures refused { IsErr result → self.new.refusals ≡ counted self.old.refusals }
        ensures may { IsOk result → MayCall self.old }
        ensures ok { OnOk result (self.new ≡ record (called self.old) {
          current = None;
          calls = self.old.calls ++ end_of self.old.current;
        }) }
        ensures err { OnErr result (self.new ≡ refused self.old) }
    {
        if self.count_call() && self.end().is_ok() {
            return Ok(());
        }
        self.refuse();
        Err(NotDone)
    }

    /// Does nothing, and is not kept as a call: it puts that off to `store`.
    fn store_batch(&mut self) -> Result<(), NotDone>
        ensures worked { IsOk result → HasWorked self.old.refusals self.new.refusals }
        ensures refused { IsErr result → self.new.refusals ≡ counted self.old.refusals }
        ensures done { IsOk result ↔ (self.old.refusals < last_count) }
        ensures same { self.new ≡ self.old }
    {
        if self.refusals < u64::MAX {
            Ok(())
        } else {
            Err(NotDone)
        }
    }

    /// Keeps the call alone, since all is stored when it is made. NotDone where an allocation is refused or the
    /// refusals are at their last value.
    fn store(&mut self) -> Result<(), NotDone>
        ensures worked { IsOk result → HasWorked self.old.refusals self.new.refusals }
        ensures refused { IsErr result → self.new.refusals ≡ counted self.old.refusals }
        ensures ok { OnOk result (self.new
            ≡ record self.old { calls = self.old.calls ++ Store ∷ [] }) }
        ensures err { OnErr result (self.new
            ≡ record self.old { refusals = counted self.old.refusals }) }
    {
        if self.refusals < u64::MAX && self.calls.push(Call::Store).is_ok() {
            return Ok(());
        }
        self.refuse();
        Err(NotDone)
    }

    /// Names the current folder, since all is stored.
    fn unstored(&self) -> &str
        ensures { result.now ≡ codes "." }
    {
        "."
    }

    fn lanes(&self) -> Lanes {
        self.lanes
    }

    ghost same_refusals = { refusals_stay };

    ghost same_contents = { told_contents };

    ghost written_grows = { held_grows };
}

/// Finds a file at the path that is recorded, where it has bytes.
impl FoundPaths for MemFiles {
    ghost is_shown = { λ _ path at. at ≡ path };

    fn found_path(&mut self, _set: &str, path: &str) -> Result<Option<String>, Memory>
        ensures found { IfOk result (λ found. IsFoundAt (λ at. at ≡ path.now) (told_of self.old) path.now
            (option_map (λ at. string_bytes at) found)) }
        ensures same { self.new ≡ self.old }
    {
        self.recorded_path(path)
    }
}

/// Shows no progress.
impl Progress for MemFiles {
    ghost is_silent = { λ _. Unit {0} };

    fn begin_step(&mut self, _step: Step, _of: u64)
        ensures { self.new ≡ self.old }
    {}

    fn advance(&mut self)
        ensures { self.new ≡ self.old }
    {}

    fn hide_line(&mut self)
        ensures { self.new ≡ self.old }
    {}

    fn silence(&mut self)
        ensures { self.new ≡ self.old }
    {}
}

/// Has no reader and no folder, and shows nothing.
impl Hints for MemFiles {
    fn has_reader(&self) -> bool {
        false
    }

    fn cause(&self) -> Cause {
        Cause::new()
    }

    fn is_folder(&self, _path: &str) -> bool {
        false
    }

    fn show_line(&mut self, _pieces: &[&str])
        ensures { self.new ≡ self.old }
    {}

    fn keep_line(&mut self, _pieces: &[&str])
        ensures { self.new ≡ self.old }
    {}

    fn show_kept(&mut self)
        ensures { self.new ≡ self.old }
    {}
}
