//! Files that are read ahead of their copies, so that several are digested at once.

ghost use Rattle.std.specs.Prelude.{◌≡◌, ◌↔◌, ◌<◌, ◌≤◌, ◌+◌, true, length, min, IsTrue};
ghost use Rattle.dd_slots.specs.Slots.{lane_count};
ghost use Rattle.dd_stream.specs.Reads.{ReadsUpTo};
ghost use Rattle.dd_filing.specs.Ahead.{IsReadAhead, ahead_limit, first_left, no_files, with_file};
ghost use Rattle.dd_filing.specs.declared.places.Ahead.{Ahead};
ghost use Rattle.dd_filing.specs.declared.places.Ahead.TheVariants as known;

use crate::places::{Ahead, Places};
use dd_elem::Read;
use dd_slots::Lanes;
use std::alloc::Global;
use std::marker::Model;

/// The most files that are read ahead.
pub const FILES_AHEAD: usize = 8;

/// Reads ahead each of the next `FILES_AHEAD` files that has less than 8 MiB, where memory allows.
#[derive(Drop)]
pub struct FilesAhead {
    places: Places,
    past: usize,
    is_digested: bool,
}

impl Model for FilesAhead {
    ghost use Rattle.std.specs.Prelude.{◌≤◌};
    ghost use Rattle.dd_filing.specs.Ahead.{ArePlaces, NextFiles, files_of};

    ghost Value = { NextFiles };

    ghost view = { λ all.
        record { files = files_of all.places; past = all.past; digested = all.is_digested } };

    ghost invariant = { λ all.
        ArePlaces all.places all.is_digested × (all.past ≤ all.places.held) };
}

impl FilesAhead {
    /// Makes one of no files. Allocates nothing.
    pub fn new(alloc: Global) -> FilesAhead
        ensures { result ≡ no_files }
    {
        FilesAhead {
            places: Places::new(alloc),
            past: 0,
            is_digested: false,
        }
    }

    /// Forgets all files, and gives back memory above 128 KiB of each where eight are digested at once.
    pub fn release(&mut self, lanes: Lanes)
        ensures { self.new ≡ no_files }
    {
        self.places.release(lanes);
        self.past = 0;
        self.is_digested = false;
    }

    /// Reads the next file. Reads nothing where `FILES_AHEAD` files are there. A file that is too long, or whose
    /// allocation is refused, is `Unknown`.
    pub fn read<R: Read>(&mut self, alloc: Global, reader: &mut R)
        ensures room { length self.old.files < 8 → ReadsUpTo R.Read ahead_limit reader.old reader.new
            (λ given left failures after. (file : Ahead) × ((self.new ≡ with_file self.old file)
            × IsReadAhead file ahead_limit given left failures after)) }
        ensures full { 8 ≤ length self.old.files
            → (self.new ≡ self.old) × (reader.new ≡ reader.old) }
    {
        if self.is_full() {
            return;
        }
        self.places.latest.read(alloc, reader);
        self.is_digested = false;
        self.places.keep();
    }

    /// Keeps that the next file could not be opened, where fewer than `FILES_AHEAD` are there.
    pub fn refuse(&mut self)
        ensures room { length self.old.files < 8 → self.new ≡ with_file self.old known.Absent }
        ensures full { 8 ≤ length self.old.files → self.new ≡ self.old }
    {
        if self.is_full() {
            return;
        }
        self.places.latest.refuse();
        self.is_digested = false;
        self.places.keep();
    }

    /// Passes over the next file, of which nothing is known, where fewer than `FILES_AHEAD` are there.
    pub fn skip(&mut self)
        ensures room { length self.old.files < 8 → self.new ≡ with_file self.old known.Unknown }
        ensures full { 8 ≤ length self.old.files → self.new ≡ self.old }
    {
        if self.is_full() {
            return;
        }
        self.places.latest.clear();
        self.is_digested = false;
        self.places.keep();
    }

    fn is_full(&self) -> bool
        ensures { IsTrue result ↔ 8 ≤ length self.now.files }
    {
        self.places.held >= FILES_AHEAD
    }

    /// Says whether these files are to be digested before another is read: there are as many as lanes, or memory has no
    /// room for another.
    pub fn is_enough(&self, lanes: Lanes) -> bool
        ensures { lane_count lanes ≤ length self.now.files → IsTrue result }
    {
        self.places.held >= lanes.count() || self.places.bytes >= lanes.most_bytes()
    }

    /// Digests the files that were read, as many side by side as `lanes` says. Before that, a file that was read whole
    /// is `Unknown`.
    pub fn digest(&mut self, lanes: Lanes)
        ensures { self.new ≡ record {
          files = self.old.files;
          past = self.old.past;
          digested = true;
        } }
    {
        self.places.digest(lanes);
        self.is_digested = true;
    }

    /// Says whether all files are past.
    pub fn is_past(&self) -> bool
        ensures { IsTrue result ↔ length self.now.files ≤ self.now.past }
    {
        self.past >= self.places.held
    }

    /// Says what is known of the first file that is not past. `Unknown` where all are.
    pub fn next(&self) -> Ahead<'_>
        ensures { result ≡ first_left self.now }
    {
        self.places.ahead(self.past, self.is_digested)
    }

    /// Goes on to the next file, where one is left.
    pub fn pass(&mut self)
        ensures { self.new ≡ record {
          files = self.old.files;
          past = min (self.old.past + 1) (length self.old.files);
          digested = self.old.digested;
        } }
    {
        if !self.is_past() {
            self.past += 1;
        }
    }
}
