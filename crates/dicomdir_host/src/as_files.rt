//! Implements the traits of dd_files.
ghost use Rattle.std.specs.Prelude.{◌≡◌, ℕ, None, refl};

use crate::again::{Links, is_folder, look};
use crate::counted::{Counted, write_again};
use crate::host_files::{HostFiles, KeptLines};
use crate::noted::Noted;
use crate::opening::Input;
use crate::search::Search;
use crate::system::System;
use dd_elem::{Memory, Write};
use dd_files::{Cause, Files, FoundPaths, Hints, LinkFault, NotDone, NotThere, Progress, Step};
use dd_slots::Lanes;
use std::fmt::InlineText;
use std::io::{self, ErrorKind};

/// Limits the bytes of a line that is shown.
const LINE: usize = 256;

// Nothing can be at a path that leads nowhere, through a file, round a loop of links, or over a name that is too long.
fn holds_nothing(error: ErrorKind) -> bool {
    matches!(
        error,
        ErrorKind::NotFound
            | ErrorKind::NotADirectory
            | ErrorKind::FilesystemLoop
            | ErrorKind::InvalidFilename
    )
}

impl<R: System> Write for HostFiles<'_, R> {
    ghost calls = { λ s. s.output.counts.calls };

    ghost failures = { λ s. s.output.counts.failures };

    ghost contents = { λ _. None };

    ghost Rest = { ℕ };

    ghost rest = { λ s. s.refusals };

    fn write(&mut self, bytes: &[u8]) -> io::Result<usize> {
        self.last.note(self.output.write(bytes))
    }
}

impl<'a, R: System> Files for HostFiles<'a, R> {
    type In = Counted<Noted<'a, Input<R::File, R::Stdin>>>;

    ghost refusals = { λ s. s.refusals };

    ghost held = { λ _. None };

    ghost is_taken = { λ _ _. Unit {0} };

    ghost has_folder = { λ _ _. Unit {0} };

    fn source(&mut self, path: &str) -> Result<Self::In, NotThere> {
        let last = self.last;
        if self.refusals < u64::MAX {
            if let Ok(input) = last.note(self.open(path)) {
                return Ok(Counted::new(Noted::new(input, last)));
            }
        }
        self.refusals = self.refusals.saturating_add(1);
        Err(NotThere)
    }

    fn member(&mut self, set: &str, path: &str) -> Result<Self::In, NotThere> {
        let last = self.last;
        if self.refusals < u64::MAX {
            if let Ok(input) = last.note(self.open_member(set, path, Search::Shown)) {
                return Ok(Counted::new(Noted::new(input, last)));
            }
        }
        self.refusals = self.refusals.saturating_add(1);
        Err(NotThere)
    }

    fn exact_file(&mut self, set: &str, path: &str) -> Result<Self::In, NotThere> {
        let last = self.last;
        if self.refusals < u64::MAX {
            if let Ok(input) = last.note(self.open_member(set, path, Search::Exact)) {
                return Ok(Counted::new(Noted::new(input, last)));
            }
        }
        self.refusals = self.refusals.saturating_add(1);
        Err(NotThere)
    }

    fn names(&mut self, path: &str) -> Result<Self::In, NotThere> {
        let last = self.last;
        if self.refusals < u64::MAX {
            if let Ok(input) = last.note(self.open_names(path)) {
                return Ok(Counted::new(Noted::new(input, last)));
            }
        }
        self.refusals = self.refusals.saturating_add(1);
        Err(NotThere)
    }

    fn said_size(&self, input: &Self::In) -> u64 {
        input.device.device().said_size()
    }

    fn folder(&mut self, path: &str) -> Result<(), NotDone> {
        let last = self.last;
        let is_done = self.refusals < u64::MAX && last.note(self.make_out(path)).is_ok();
        self.answer(is_done)
    }

    fn folder_in(&mut self, out: &str, path: &str) -> Result<(), NotDone> {
        let last = self.last;
        let is_done = self.refusals < u64::MAX && last.note(self.make(path, out.len())).is_ok();
        self.answer(is_done)
    }

    fn is_free(&self, path: &str) -> bool {
        match self.last.note(look(self.rt, path, Links::Kept)) {
            Ok(_) => false,
            Err(error) => holds_nothing(error.kind()),
        }
    }

    fn create(&mut self, path: &str) -> Result<(), NotDone> {
        let last = self.last;
        if self.refusals < u64::MAX && last.note(self.start(path)).is_ok() {
            return Ok(());
        }
        self.answer(false)
    }

    fn link(&mut self, set: &str, from: &str, path: &str) -> Result<(), LinkFault> {
        let mut fault = LinkFault::Absent;
        if self.refusals < u64::MAX {
            match self.add_link(set, from, path) {
                Ok(()) => return Ok(()),
                Err(found) => fault = found,
            }
        }
        self.refusals = self.refusals.saturating_add(1);
        Err(fault)
    }

    fn link_stored(
        &mut self,
        set: &str,
        from: &str,
        path: &str,
        size: u64,
    ) -> Result<(), LinkFault> {
        let mut fault = LinkFault::Absent;
        if self.refusals < u64::MAX {
            match self.add_stored_link(set, from, path, size) {
                Ok(()) => return Ok(()),
                Err(found) => fault = found,
            }
        }
        self.refusals = self.refusals.saturating_add(1);
        Err(fault)
    }

    fn finish(&mut self) -> Result<(), NotDone> {
        let is_ended = self.last.note(self.end()).is_ok();
        let is_done = self.refusals < u64::MAX && is_ended;
        self.answer(is_done)
    }

    fn store_batch(&mut self) -> Result<(), NotDone> {
        let is_stored = self.last.note(self.store_waiting()).is_ok();
        let is_done = self.refusals < u64::MAX && is_stored;
        self.answer(is_done)
    }

    fn store(&mut self) -> Result<(), NotDone> {
        let is_stored = self.last.note(self.store_all()).is_ok();
        let is_done = self.refusals < u64::MAX && is_stored;
        self.answer(is_done)
    }

    fn unstored(&self) -> &str {
        self.unstored.lost()
    }

    fn lanes(&self) -> Lanes {
        self.lanes
    }

    ghost same_refusals = { λ _ _ same. same };

    ghost same_contents = { λ _. tt };

    ghost written_grows = { λ _ _ _ _ _. refl };
}

impl<R: System> FoundPaths for HostFiles<'_, R> {
    ghost is_shown = { λ _ _ _. Unit {0} };

    fn found_path(&mut self, set: &str, path: &str) -> Result<Option<String>, Memory> {
        if self.plain_member(set, path, Search::Shown).is_err() {
            return Ok(None);
        }
        let found = String::from_str(self.alloc, self.members.place())?;
        Ok(Some(found))
    }
}

impl<R: System> Progress for HostFiles<'_, R> {
    ghost is_silent = { λ s. s.progress.terminal ≡ None };

    fn begin_step(&mut self, step: Step, of: u64) {
        self.progress.begin(self.rt, step, of);
    }

    fn advance(&mut self) {
        self.progress.advance(self.rt);
    }

    fn hide_line(&mut self) {
        self.progress.hide();
    }

    fn silence(&mut self) {
        self.progress.end();
    }
}

impl<R: System> Hints for HostFiles<'_, R> {
    fn has_reader(&self) -> bool {
        self.rt.terminal().is_some()
    }

    fn cause(&self) -> Cause {
        self.last.words()
    }

    fn is_folder(&self, path: &str) -> bool {
        is_folder(self.rt, path, Links::Followed)
    }

    /// Shows at most 255 bytes. A failed write is ignored.
    fn show_line(&mut self, pieces: &[&str]) {
        self.progress.hide();
        let line = line_of(pieces);
        let _ = write_again(&mut self.rt.error_output(), line.as_str().as_bytes());
    }

    /// Keeps at most 255 bytes.
    fn keep_line(&mut self, pieces: &[&str]) {
        let line = line_of(pieces);
        self.kept = self.kept.and_str(line.as_str(), line.as_str().len());
    }

    /// A failed write is ignored.
    fn show_kept(&mut self) {
        let kept = self.kept;
        if kept.as_str().is_empty() {
            return;
        }
        self.kept = KeptLines::new();
        self.progress.hide();
        let _ = write_again(&mut self.rt.error_output(), kept.as_str().as_bytes());
    }
}

fn line_of(pieces: &[&str]) -> InlineText<LINE> {
    let mut line = InlineText::<LINE>::new();
    for piece in pieces {
        line = line.and_str(piece, piece.len());
    }
    line.and_str("\n", 1)
}
