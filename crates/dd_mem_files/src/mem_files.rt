//! Files in memory.
ghost use Rattle.std.specs.Prelude.{◌≡◌, ◌≢◌, ◌↔◌, [], ◌∷◌, ◌++◌, length, false, true, None, Some, Err, IsOk, IsSome};
ghost use Rattle.std.specs.Prelude.{IfOk, IfSome, IsSomeAnd, IsTrue, OnOk, OnErr, option_map, option_copied, string_bytes};
ghost use Rattle.dd_elem.specs.Device.{counted};
ghost use Rattle.dd_files.specs.Calls.{Create, Link};
ghost use Rattle.dd_files.specs.Files.{end_of};
ghost use Rattle.dd_mem_files.specs.KeptCalls.{call_of, calls_of};
ghost use Rattle.dd_mem_files.specs.MemFiles.{Adds, Gets, LinksFile, MayCall, Opens, OpensOrRefuses, SetsFile, Stored};
ghost use Rattle.dd_mem_files.specs.MemFiles.{bytes_at, called, change_of, due, listed, unread};
ghost use Rattle.dd_mem_files.specs.PlannedFaults.{after_write, fails_at, nothing_planned};

use crate::calls::Call;
use crate::contents::{append, set};
use crate::later::{Later, count_opening, due_bytes};
use crate::mem_reader::MemReader;
use crate::planned_faults::PlannedFaults;
use dd_elem::{Counts, Memory};
use dd_files::{LinkFault, NotDone, NotThere};
use dd_slots::Lanes;
use std::alloc::Global;
use std::collections::BTreeMap;
use std::marker::Model;

/// Holds files by their paths, and no folders. Where a file is to change later, the contract does not say what the
/// files hold.
#[derive(Debug)]
pub struct MemFiles {
    alloc: Global,
    files: BTreeMap<String, Vec<u8>>,
    current: Option<String>,
    pub(crate) calls: Vec<Call>,
    pub(crate) counts: Counts,
    pub(crate) refusals: u64,
    later: Option<Later>,
    planned: PlannedFaults,
    pub(crate) lanes: Lanes,
}

// By hand, so that dropping it is one call.
impl Drop for MemFiles {
    fn drop(self) {
        let MemFiles {
            alloc: _,
            files: _files,
            current: _current,
            calls: _calls,
            counts: _,
            refusals: _,
            later: _later,
            planned: _planned,
            lanes: _,
        } = self;
    }
}

impl Model for MemFiles {
    ghost Value = { Stored };

    ghost view = { λ s. record {
      files = listed s.files;
      current = option_map string_bytes s.current;
      calls = calls_of s.calls.items;
      counts = s.counts;
      refusals = s.refusals;
      later = option_map change_of s.later;
      planned = s.planned;
    } };
}

impl MemFiles {
    /// Makes an empty set of files, of which four are digested at once.
    pub fn new(alloc: Global) -> Self
        ensures { result ≡ record {
          files = [];
          current = None;
          calls = [];
          counts = record { calls = 0; failures = 0 };
          refusals = 0;
          later = None;
          planned = nothing_planned;
        } }
    {
        MemFiles {
            alloc,
            files: BTreeMap::new(alloc),
            current: None,
            calls: Vec::new(alloc),
            counts: Counts::new(),
            refusals: 0,
            later: None,
            planned: PlannedFaults::new(),
            lanes: Lanes::Four,
        }
    }

    /// Gives the path these bytes, whether it had some or not. Memory where an allocation is refused.
    pub fn put(&mut self, path: &str, bytes: &[u8]) -> Result<(), Memory>
        ensures ok { OnOk result (SetsFile self.old.files self.new.files path.now bytes.now) }
        ensures err { OnErr result (self.new ≡ self.old) }
        ensures same { self.new ≡ record self.old { files = self.new.files } }
    {
        set(self.alloc, &mut self.files, path, bytes)
    }

    /// Gives the path these bytes from its second opening on, counted from now. Memory where an allocation is refused.
    pub fn put_later(&mut self, path: &str, bytes: &[u8]) -> Result<(), Memory>
        ensures ok { OnOk result (self.new ≡ record self.old {
          later = Some (record { path = path.now; bytes = bytes.now; is_opened = false });
        }) }
        ensures err { OnErr result (self.new ≡ self.old) }
    {
        let path = String::from_str(self.alloc, path)?;
        let bytes = bytes.to_vec(self.alloc)?;
        self.later = Some(Later {
            path,
            bytes,
            is_opened: false,
        });
        Ok(())
    }

    /// Has this many files digested at once.
    pub fn set_lanes(&mut self, lanes: Lanes)
        ensures { self.new ≡ self.old }
    {
        self.lanes = lanes;
    }

    /// Makes writes fail once they have taken `after` bytes in all, counted from this call.
    pub fn fail_write(&mut self, after: u64)
        ensures { self.new ≡ record self.old { planned = record self.old.planned { room = Some after } } }
    {
        self.planned.fail_write(after);
    }

    /// Makes the n-th of the next calls of `source`, `folder`, `folder_in`, `create` and `finish` fail, counted
    /// together from 1; with 0 none fails. A later `fail_call` replaces this one.
    pub fn fail_call(&mut self, n: u32)
        ensures { self.new ≡ record self.old { planned = record self.old.planned { call = n } } }
    {
        self.planned.fail_call(n);
    }

    /// Makes the reader of a later opening of the path fail after `after` bytes. The next opening is number 1; with 0
    /// no reader fails. A later `fail_read` replaces this one. Memory where an allocation is refused.
    pub fn fail_read(&mut self, path: &str, opening: u32, after: u64) -> Result<(), Memory>
        ensures ok { OnOk result (self.new ≡ record self.old {
          planned = record self.old.planned {
            reader = Some (record { path = path.now; opening = opening; after = after });
          };
        }) }
        ensures err { OnErr result (self.new ≡ self.old) }
    {
        let path = String::from_str(self.alloc, path)?;
        self.planned.fail_read(path, opening, after);
        Ok(())
    }

    /// Makes the files refuse each hard link from now on.
    pub fn refuse_links(&mut self)
        ensures { self.new ≡ record self.old { planned = record self.old.planned { no_links = true } } }
    {
        self.planned.refuse_links();
    }

    /// Gives the bytes of the file at the path, where there is one.
    pub fn bytes(&self, path: &str) -> Option<&[u8]>
        ensures { option_copied result ≡ bytes_at self.now.files path.now }
    {
        match self.files.get(path) {
            Some(bytes) => Some(bytes.as_slice()),
            None => None,
        }
    }

    /// Gives a copy of the path, where its file has bytes. Memory where an allocation is refused.
    pub(crate) fn recorded_path(&self, path: &str) -> Result<Option<String>, Memory>
        ensures { IfOk result (λ found. option_map string_bytes found
            ≡ option_map (λ _. path.now) (bytes_at self.now.files path.now)) }
    {
        match self.bytes(path) {
            Some(_) => Ok(Some(String::from_str(self.alloc, path)?)),
            None => Ok(None),
        }
    }

    fn copy(&self, path: &str) -> Option<Vec<u8>>
        ensures { IfSome result (λ copy. bytes_at self.now.files path.now ≡ Some copy.items) }
    {
        self.bytes(path)?.to_vec(self.alloc).ok()
    }

    // Changes the file if it is to change at this opening, and gives a copy of its bytes. None where an allocation is
    // refused.
    fn reopen(&mut self, path: &str, copy: Vec<u8>) -> Option<Vec<u8>>
        requires { bytes_at self.old.files path.now ≡ Some copy.items }
        ensures gives { IfSome result (λ copy. bytes_at self.new.files path.now ≡ Some copy.items) }
        ensures some { IsSome result
            → Gets self.old.files self.new.files path.now (due self.old.later path.now) }
        ensures none { result ≡ None → self.new ≡ self.old }
        ensures same { self.new ≡ record self.old { files = self.new.files } }
    {
        let Some(bytes) = due_bytes(&self.later, path) else {
            return Some(copy);
        };
        let Ok(copy) = bytes.to_vec(self.alloc) else {
            return None;
        };
        match set(self.alloc, &mut self.files, path, bytes) {
            Ok(()) => Some(copy),
            Err(_) => None,
        }
    }

    /// Opens the file at the path. None where there is no such file or an allocation is refused.
    pub(crate) fn open(&mut self, path: &str) -> Option<MemReader>
        ensures gives { IfSome result (λ reader. bytes_at self.new.files path.now
            ≡ Some reader.left) }
        ensures new { IfSome result (λ reader. reader
            ≡ unread reader.left (fails_at self.old.planned.reader path.now)) }
        ensures opens { IsSome result → Opens self.old self.new path.now }
        ensures none { result ≡ None → self.new ≡ self.old }
    {
        let copy = self.copy(path)?;
        let copy = self.reopen(path, copy)?;
        count_opening(&mut self.later, path);
        Some(MemReader::new(copy, self.planned.open(path)))
    }

    /// Opens the file at the path, or counts a refusal: where `open` gives None or the refusals are at their last
    /// value.
    pub(crate) fn open_or_refuse(&mut self, path: &str) -> Result<MemReader, NotThere>
        ensures { OpensOrRefuses self.old self.new path.now result }
    {
        if self.refusals < u64::MAX {
            if let Some(reader) = self.open(path) {
                return Ok(reader);
            }
        }
        self.refuse();
        Err(NotThere)
    }

    // Gives the path these bytes by a call, which is kept. Memory where an allocation is refused.
    fn put_by(&mut self, call: Call, path: &str, content: &[u8]) -> Result<(), Memory>
        ensures ok { OnOk result (SetsFile self.old.files self.new.files path.now content.now) }
        ensures kept { OnOk result (self.new.calls ≡ self.old.calls ++ call_of call ∷ []) }
        ensures err { OnErr result (self.new ≡ self.old) }
        ensures same { self.new
            ≡ record self.old { files = self.new.files; calls = self.new.calls } }
    {
        self.calls.reserve(1)?;
        set(self.alloc, &mut self.files, path, content)?;
        self.calls.push(call)?;
        Ok(())
    }

    /// Starts an empty file at the path, to which later writes go.
    pub(crate) fn start(&mut self, path: &str) -> Result<(), Memory>
        ensures ok { OnOk result (SetsFile self.old.files self.new.files path.now []) }
        ensures started { OnOk result (self.new.current ≡ Some path.now) }
        ensures kept { OnOk result (self.new.calls ≡ self.old.calls ++ Create path.now ∷ []) }
        ensures err { OnErr result (self.new ≡ self.old) }
        ensures same { self.new ≡ record self.old {
          files = self.new.files;
          current = self.new.current;
          calls = self.new.calls;
        } }
    {
        let name = String::from_str(self.alloc, path)?;
        let call = Call::Create(String::from_str(self.alloc, path)?);
        self.put_by(call, path, &[])?;
        self.current = Some(name);
        Ok(())
    }

    /// Ends the file that is being written, where there is one.
    pub(crate) fn end(&mut self) -> Result<(), Memory>
        ensures ok { OnOk result (self.new ≡ record self.old {
          current = None;
          calls = self.old.calls ++ end_of self.old.current;
        }) }
        ensures err { OnErr result (self.new ≡ self.old) }
    {
        if self.current.is_some() {
            self.calls.reserve(1)?;
        }
        if let Some(path) = self.current.take() {
            self.calls.push(Call::End(path))?;
        }
        Ok(())
    }

    // Gives the path these bytes as a link to the file at `from`.
    fn put_link(&mut self, from: &str, path: &str, bytes: &[u8]) -> Result<(), Memory>
        ensures ok { OnOk result (SetsFile self.old.files self.new.files path.now bytes.now) }
        ensures kept { OnOk result (self.new.calls
            ≡ self.old.calls ++ Link from.now path.now ∷ []) }
        ensures err { OnErr result (self.new ≡ self.old) }
        ensures same { self.new
            ≡ record self.old { files = self.new.files; calls = self.new.calls } }
    {
        let from = String::from_str(self.alloc, from)?;
        let name = String::from_str(self.alloc, path)?;
        self.put_by(Call::Link(from, name), path, bytes)
    }

    /// Does what `link` does, but neither checks nor counts the refusals.
    pub(crate) fn copy_to(&mut self, from: &str, path: &str) -> Result<(), LinkFault>
        ensures ok { OnOk result (LinksFile self.old.files self.new.files from.now path.now) }
        ensures may { IsOk result → self.old.planned.no_links ≡ false }
        ensures unchanged { result ≢ Err LinkFault.Changed }
        ensures taken { result ≡ Err LinkFault.Taken → IsSome (bytes_at self.old.files path.now) }
        ensures kept { OnOk result (self.new.calls
            ≡ self.old.calls ++ Link from.now path.now ∷ []) }
        ensures err { OnErr result (self.new ≡ self.old) }
        ensures same { self.new
            ≡ record self.old { files = self.new.files; calls = self.new.calls } }
    {
        let Some(copy) = self.copy(from) else {
            return Err(LinkFault::Absent);
        };
        if self.bytes(path).is_some() {
            return Err(LinkFault::Taken);
        }
        if self.planned.refuses_links() {
            return Err(LinkFault::Refused);
        }
        match self.put_link(from, path, &copy) {
            Ok(()) => Ok(()),
            Err(_) => Err(LinkFault::Refused),
        }
    }

    /// Gives the calls so far, the first of them first.
    pub fn calls(&self) -> &[Call]
        ensures { calls_of result.now ≡ self.now.calls }
    {
        &self.calls
    }

    /// Says whether a file is at the path that has another number of bytes.
    pub(crate) fn has_other_size(&self, path: &str, size: u64) -> bool
        ensures { IsTrue result ↔ IsSomeAnd (bytes_at self.now.files path.now)
            (λ bytes. length bytes ≢ size) }
    {
        match self.bytes(path) {
            Some(bytes) => bytes.len() as u64 != size,
            None => false,
        }
    }

    /// Says whether a file is below this path as a folder.
    pub(crate) fn has_below(&self, folder: &str) -> bool {
        for (path, _) in self.files.iter() {
            if let Some(rest) = path.strip_prefix(folder)
                && rest.starts_with('/')
            {
                return true;
            }
        }
        false
    }

    pub(crate) fn count_call(&mut self) -> bool
        ensures may { IsTrue result ↔ MayCall self.old }
        ensures same { self.new ≡ called self.old }
    {
        let is_refused = self.planned.call();
        !is_refused && self.refusals < u64::MAX
    }

    pub(crate) fn refuse(&mut self)
        ensures { self.new ≡ record self.old { refusals = counted self.old.refusals } }
    {
        self.refusals = self.refusals.saturating_add(1);
    }

    /// Appends what a write takes of the bytes. NotDone where no file is being written, an allocation is refused or
    /// writes are to fail.
    pub(crate) fn append(&mut self, bytes: &[u8]) -> Result<usize, NotDone>
        ensures adds { Adds bytes.now result self.old self.new }
        ensures same { self.new ≡ record self.old {
          files = self.new.files;
          planned = after_write self.old.planned result;
        } }
    {
        let Some(n) = self.planned.taken_len(bytes.len()) else {
            return Err(NotDone);
        };
        match &self.current {
            Some(path) => append(&mut self.files, path.as_str(), &bytes[..n])?,
            None => return Err(NotDone),
        }
        self.planned.take(n);
        Ok(n)
    }
}
