//! Files that wait for their digests, until as many as there are lanes are digested at once.
ghost use Rattle.std.specs.Prelude.{◌≡◌, ◌<◌, ◌↔◌, ◌++◌, ◌∷◌, [], ℕ, List, None, IfOk, IsNone, IsTrue, false};
ghost use Rattle.std.specs.Prelude.{◌||◌, ◌+◌, Some, get_or, not, true};
ghost use Rattle.sha2.specs.Sha256.{sha256};
ghost use Rattle.dd_slots.specs.Slots.{lane_count};
ghost use Rattle.dd_stream.specs.Reads.{ReadsUpTo};
ghost use Rattle.dd_files.specs.ReadToEnd.{IsFilled};
ghost use Rattle.dd_version.specs.Fitting.{is_empty};
ghost use Rattle.dd_report.specs.Batches.{Adds, CanSettle, IsReady, KeepsPending, digest_line, files_of};
ghost use Rattle.dd_report.specs.Batches.{pending_files, pending_text, report_of};
ghost use Rattle.dd_report.specs.Checking.{file_line, most_read};
ghost use Rattle.dd_lines.specs.Telling.{Tells, way_of};

use crate::findings::{Expected, Finding, digest_finding};
use crate::telling::tell_finding;
use dd_elem::{Read, Write};
use dd_files::{Files, PIECE, Progress, SOURCE_LIMIT, fill_slot};
use dd_json::Style;
use dd_lines::LineBuffer;
use dd_slots::{Lanes, Slot, digest_slots};
use std::alloc::Global;
use std::{fmt, mem};

/// What the line of a finding says of a record, and how.
#[derive(Clone, Copy)]
pub(crate) struct Named<'t> {
    pub(crate) style: Style,
    /// The offset of the record.
    pub(crate) at: u32,
    /// The File ID of its file.
    pub(crate) file: &'t [u8],
}

/// A file that was read and waits for its digest.
#[derive(Drop)]
pub(crate) struct PendingFile<'t> {
    pub(crate) slot: Slot,
    named: Named<'t>,
    expected: Expected,
}

impl<'t> PendingFile<'t> {
    /// Allocates nothing.
    fn new(alloc: Global) -> PendingFile<'t> {
        PendingFile {
            slot: Slot::new(alloc),
            named: Named {
                style: Style::Text,
                at: 0,
                file: &[],
            },
            expected: Expected {
                recorded: [0; 32],
                otherwise: None,
            },
        }
    }

    /// Answers whether anything is found, where the bytes have this digest.
    fn tell<F: Files + Progress, W: Write>(
        &self,
        digest: [u8; 32],
        files: &mut F,
        lines: &mut LineBuffer<'_, W>,
    ) -> Result<bool, fmt::Error>
        ensures same { lines.new.to.ghost_name ≡ lines.old.to.ghost_name }
        ensures told { Tells result (digest_line self.now.named self.now.expected digest)
            (way_of W.Write lines.old) (way_of W.Write lines.new) }
        ensures found { IfOk result (λ found. found
            ≡ not (is_empty (digest_line self.now.named self.now.expected digest))) }
        ensures kept { F.held files.new ≡ F.held files.old }
        ensures refusals { F.refusals files.new ≡ F.refusals files.old }
    {
        if let Some(differs) = digest_finding(Some(self.expected.recorded), digest) {
            return self.tell_found(&differs, files, lines);
        }
        match &self.expected.otherwise {
            Some(finding) => self.tell_found(finding, files, lines),
            None => Ok(false),
        }
    }

    fn tell_found<F: Files + Progress, W: Write>(
        &self,
        finding: &Finding,
        files: &mut F,
        lines: &mut LineBuffer<'_, W>,
    ) -> Result<bool, fmt::Error>
        ensures same { lines.new.to.ghost_name ≡ lines.old.to.ghost_name }
        ensures told { Tells result (file_line self.now.named.style self.now.named.at self.now.named.file.now
            (Some finding.now))
            (way_of W.Write lines.old) (way_of W.Write lines.new) }
        ensures found { IfOk result (λ found. found ≡ true) }
        ensures kept { F.held files.new ≡ F.held files.old }
        ensures refusals { F.refusals files.new ≡ F.refusals files.old }
    {
        files.hide_line();
        match tell_finding(self.named, finding, lines) {
            Ok(()) => Ok(true),
            Err(fault) => Err(fault),
        }
    }
}

/// The last files that were read and wait for their digests: fewer than there are lanes, or as many that are to be
/// digested now.
#[derive(Drop)]
pub(crate) struct Batch<'t> {
    first: PendingFile<'t>,
    second: PendingFile<'t>,
    third: PendingFile<'t>,
    fourth: PendingFile<'t>,
    fifth: PendingFile<'t>,
    sixth: PendingFile<'t>,
    seventh: PendingFile<'t>,
    /// The file that is read next, which is the eighth where seven wait.
    pub(crate) next: PendingFile<'t>,
    /// How many wait.
    used: usize,
    /// The bytes that were read into the slots since these were empty.
    bytes: usize,
    lanes: Lanes,
    /// Whether anything was printed so far.
    pub(crate) found: bool,
    buffer: [u8; PIECE],
}

impl<'t> Batch<'t> {
    /// Allocates nothing.
    pub(crate) fn new(alloc: Global, lanes: Lanes) -> Batch<'t>
        ensures used { result.used ≡ 0 }
        ensures found { result.found ≡ false }
    {
        Batch {
            first: PendingFile::new(alloc),
            second: PendingFile::new(alloc),
            third: PendingFile::new(alloc),
            fourth: PendingFile::new(alloc),
            fifth: PendingFile::new(alloc),
            sixth: PendingFile::new(alloc),
            seventh: PendingFile::new(alloc),
            next: PendingFile::new(alloc),
            used: 0,
            bytes: 0,
            lanes,
            found: false,
            buffer: [0; PIECE],
        }
    }

    /// Reads a file to its end into the next slot. False where it cannot be read.
    pub(crate) fn fill<R: Read>(&mut self, reader: &mut R) -> bool
        ensures filled { ReadsUpTo R.Read most_read reader.old reader.new
            (IsFilled result self.new.next.slot most_read) }
        ensures pending { KeepsPending self.old self.new }
    {
        let is_whole = fill_slot(reader, &mut self.next.slot, &mut self.buffer, SOURCE_LIMIT);
        self.bytes = self.bytes.saturating_add(self.next.slot.len());
        is_whole
    }

    /// Adds the file in the next slot. Where as many files wait now as there are lanes, or their slots have no room for
    /// another's, digests them and prints what is found.
    pub(crate) fn add<F: Files + Progress, W: Write>(
        &mut self,
        named: Named<'t>,
        expected: Expected,
        files: &mut F,
        lines: &mut LineBuffer<'_, W>,
    ) -> fmt::Result
        requires ready { IsReady self.old }
        requires whole { self.old.next.slot.hasher ≡ None }
        ensures same { lines.new.to.ghost_name ≡ lines.old.to.ghost_name }
        ensures ready { IsReady self.new }
        ensures added { Adds result
            (digest_line named.entry expected (sha256 self.old.next.slot.kept.items))
            (report_of W.Write lines.old self.old) (report_of W.Write lines.new self.new) }
        ensures kept { F.held files.new ≡ F.held files.old }
        ensures refusals { F.refusals files.new ≡ F.refusals files.old }
    {
        self.next.named = named;
        self.next.expected = expected;
        self.shift();
        if self.is_full() {
            self.settle_all(files, lines)
        } else {
            Ok(())
        }
    }

    /// Digests the files that still wait, and prints what is found.
    pub(crate) fn settle<F: Files + Progress, W: Write>(
        &mut self,
        files: &mut F,
        lines: &mut LineBuffer<'_, W>,
    ) -> fmt::Result
        requires { IsReady self.old }
        ensures same { lines.new.to.ghost_name ≡ lines.old.to.ghost_name }
        ensures used { self.new.used ≡ 0 }
        ensures settled { Adds result [] (report_of W.Write lines.old self.old)
            (report_of W.Write lines.new self.new) }
        ensures kept { F.held files.new ≡ F.held files.old }
        ensures refusals { F.refusals files.new ≡ F.refusals files.old }
    {
        self.next.slot.clear();
        self.settle_all(files, lines)
    }

    fn is_full(&self) -> bool
        ensures { result ≡ false → self.now.used < lane_count self.now.lanes }
    {
        self.used >= self.lanes.count() || self.bytes >= self.lanes.most_bytes()
    }

    fn shift(&mut self)
        requires { self.old.used < 8 }
        ensures used { self.new.used ≡ self.old.used + 1 }
        ensures files { pending_files self.new ≡ pending_files self.old ++ self.old.next ∷ [] }
        ensures found { self.new.found ≡ self.old.found }
    {
        match self.used {
            0 => mem::swap(&mut self.first, &mut self.next),
            1 => mem::swap(&mut self.second, &mut self.next),
            2 => mem::swap(&mut self.third, &mut self.next),
            3 => mem::swap(&mut self.fourth, &mut self.next),
            4 => mem::swap(&mut self.fifth, &mut self.next),
            5 => mem::swap(&mut self.sixth, &mut self.next),
            6 => mem::swap(&mut self.seventh, &mut self.next),
            _ => (),
        }
        self.used += 1;
    }

    fn settle_all<F: Files + Progress, W: Write>(
        &mut self,
        files: &mut F,
        lines: &mut LineBuffer<'_, W>,
    ) -> fmt::Result
        requires { CanSettle self.old }
        ensures same { lines.new.to.ghost_name ≡ lines.old.to.ghost_name }
        ensures used { self.new.used ≡ 0 }
        ensures settled { Adds result [] (report_of W.Write lines.old self.old)
            (report_of W.Write lines.new self.new) }
        ensures kept { F.held files.new ≡ F.held files.old }
        ensures refusals { F.refusals files.new ≡ F.refusals files.old }
    {
        let printed = self.tell_all(files, lines);
        self.empty();
        match printed {
            Ok(found) => {
                self.found = found;
                Ok(())
            }
            Err(fault) => Err(fault),
        }
    }

    /// Answers whether anything was printed now or before.
    fn tell_all<F: Files + Progress, W: Write>(
        &self,
        files: &mut F,
        lines: &mut LineBuffer<'_, W>,
    ) -> Result<bool, fmt::Error>
        requires { CanSettle self.now }
        ensures same { lines.new.to.ghost_name ≡ lines.old.to.ghost_name }
        ensures told { Tells result (pending_text self.now)
            (way_of W.Write lines.old) (way_of W.Write lines.new) }
        ensures found { IfOk result (λ found.
            found ≡ (self.now.found || not (is_empty (pending_text self.now)))) }
        ensures kept { F.held files.new ≡ F.held files.old }
        ensures refusals { F.refusals files.new ≡ F.refusals files.old }
    {
        let ((a, b, c, d), (e, f, g, h)) = digest_slots(
            self.lanes,
            (
                &self.first.slot,
                &self.second.slot,
                &self.third.slot,
                &self.fourth.slot,
            ),
            (
                &self.fifth.slot,
                &self.sixth.slot,
                &self.seventh.slot,
                &self.next.slot,
            ),
        );
        let digests = [a, b, c, d, e, f, g, h];
        let mut found = self.found;
        for at in 0..self.used {
            found = self.file_at(at).tell(digests[at], files, lines)? || found;
        }
        Ok(found)
    }

    fn file_at(&self, at: usize) -> &PendingFile<'t>
        requires { at < 8 }
        ensures { result.now ≡ get_or (files_of self.now) at result.now }
    {
        match at {
            0 => &self.first,
            1 => &self.second,
            2 => &self.third,
            3 => &self.fourth,
            4 => &self.fifth,
            5 => &self.sixth,
            6 => &self.seventh,
            _ => &self.next,
        }
    }

    /// Empties the slots, so that none of these bytes are digested again. The fourth of four becomes the next again, so
    /// that batches of four give no fifth slot memory.
    fn empty(&mut self)
        ensures used { self.new.used ≡ 0 }
        ensures found { self.new.found ≡ self.old.found }
    {
        if self.used == 4 {
            mem::swap(&mut self.fourth, &mut self.next);
        }
        self.first.slot.release(self.lanes);
        self.second.slot.release(self.lanes);
        self.third.slot.release(self.lanes);
        self.fourth.slot.release(self.lanes);
        self.fifth.slot.release(self.lanes);
        self.sixth.slot.release(self.lanes);
        self.seventh.slot.release(self.lanes);
        self.next.slot.release(self.lanes);
        self.used = 0;
        self.bytes = 0;
    }
}
