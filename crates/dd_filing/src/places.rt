//! Places for what is known of files before they are copied.

ghost use Rattle.std.specs.Prelude.{◌≡◌, ◌<◌, ◌+◌, ◌++◌, ◌∷◌, [], Bool, false, get_or, option_map};
ghost use Rattle.dd_stream.specs.Reads.{ReadsUpTo};
ghost use Rattle.dd_filing.specs.Ahead.{ArePlaces, IsDigested, IsFoundBy, IsPlace, IsReadAhead, IsSentAhead};
ghost use Rattle.dd_filing.specs.Ahead.{ahead_limit, files_of, found_with, known_of, shown};
ghost use Rattle.dd_filing.specs.Copies.{IsAheadCopy};
ghost use Rattle.dd_filing.specs.declared.places.Ahead.TheVariants as known;
ghost use Rattle.dd_filing.specs.declared.places.Found.TheVariants.{Absent, Nothing};

use crate::agreeing::{Filed, Wanted};
use crate::copying::{FilingFault, filing_fault};
use crate::source_copies::SourceCopy;
use dd_elem::{Read, Write};
use dd_keys::{KeyFault, ingest_kept};
use dd_slots::{Lanes, Slot, digest_slots};
use dd_stream::send;
use dd_version::Version;
use std::alloc::Global;
use std::marker::Model;
use std::mem;

/// Limits the bytes of a file that is read ahead: one less than a slot keeps, which then need not hash a longer file.
pub const AHEAD_LIMIT: u64 = 8 * 1024 * 1024 - 1;

/// Says what is known of a file before it is copied.
#[derive(Drop)]
pub enum Ahead<'a> {
    /// Its bytes are known: all, or those before its reader failed.
    File(FileAhead<'a>),
    /// It could not be opened.
    Absent,
    /// Only a copy from its reader tells.
    Unknown,
}

/// Holds the bytes of a file that was read ahead. Where the reader came to its end, also the version of the file, or
/// the fault by which it has none.
#[derive(Drop)]
pub struct FileAhead<'a> {
    bytes: &'a [u8],
    found: Option<&'a Result<Version, KeyFault>>,
}

impl<'a> Model for FileAhead<'a> {
    ghost use Rattle.std.specs.Prelude.{IfSome, is_some};
    ghost use Rattle.dd_filing.specs.Copies.{IsFoundIn};
    ghost use Rattle.dd_filing.specs.Taken.{Taken};

    ghost Value = { Taken };

    ghost view = { λ file. record { bytes = file.bytes.now; whole = is_some file.found } };

    ghost invariant = { λ file. IfSome file.found (λ found. IsFoundIn file.bytes.now found.now) };
}

impl FileAhead<'_> {
    /// Writes the file, and says whether it is one of the wanted version. Unsent where the writer fails, after a
    /// first part; Unread where the reader of the file had failed.
    pub fn copy_to<W: Write>(
        &self,
        writer: &mut W,
        wanted: &Wanted<'_>,
    ) -> Result<Filed, FilingFault>
        ensures { IsSentAhead W.Write writer.old writer.new wanted.now.planned.now
            (option_map (λ said. said.now) wanted.now.said) result self.now }
    {
        match send(self.bytes, writer, 0) {
            Ok(_) => match self.found {
                Some(found) => Ok(Filed::of_found(found, wanted)),
                None => Err(FilingFault::Unread),
            },
            Err(_) => Err(FilingFault::Unsent),
        }
    }

    /// Writes the file, and gives its length with its version or fault. Unsent where the writer fails, after a first
    /// part; Unread where the reader of the file had failed; Memory where the version can't be copied.
    pub fn copy_source_to<W: Write>(&self, writer: &mut W) -> Result<SourceCopy, FilingFault>
        ensures { IsAheadCopy W.Write writer.old writer.new result self.now }
    {
        let Ok(size) = send(self.bytes, writer, 0) else {
            return Err(FilingFault::Unsent);
        };
        match self.found {
            Some(Ok(version)) => match version.copy() {
                Ok(version) => Ok(SourceCopy {
                    size,
                    found: Ok(version),
                }),
                Err(_) => Err(FilingFault::Memory),
            },
            Some(Err(fault)) => Ok(SourceCopy {
                size,
                found: Err(*fault),
            }),
            None => Err(FilingFault::Unread),
        }
    }
}

/// What was found of a file.
#[derive(Drop)]
pub(crate) enum Found {
    Nothing,
    /// It could not be opened.
    Absent,
    /// Its reader failed.
    Unread,
    /// Its reader came to its end. The digest of the version may be open.
    Whole(Result<Version, KeyFault>),
}

#[derive(Drop)]
pub(crate) struct Place {
    slot: Slot,
    found: Found,
}

impl Place {
    pub(crate) fn new(alloc: Global) -> Place
        ensures { result.found ≡ Nothing }
    {
        Place {
            slot: Slot::new(alloc),
            found: Found::Nothing,
        }
    }

    pub(crate) fn clear(&mut self)
        ensures { self.new.found ≡ Nothing }
    {
        self.slot.clear();
        self.found = Found::Nothing;
    }

    pub(crate) fn release(&mut self, lanes: Lanes)
        ensures { self.new.found ≡ Nothing }
    {
        self.slot.release(lanes);
        self.found = Found::Nothing;
    }

    pub(crate) fn refuse(&mut self)
        ensures { self.new.found ≡ Absent }
    {
        self.slot.clear();
        self.found = Found::Absent;
    }

    /// Finds nothing where the file is too long, or an allocation is refused.
    pub(crate) fn read<R: Read>(&mut self, alloc: Global, reader: &mut R)
        ensures place { IsPlace self.new.slot self.new.found false }
        ensures read { ReadsUpTo R.Read ahead_limit reader.old reader.new
            (IsReadAhead (known_of self.new) ahead_limit) }
    {
        let answer = ingest_kept(alloc, reader, &mut self.slot, AHEAD_LIMIT);
        self.found = found_by(answer);
    }

    pub(crate) fn ahead(&self, is_digested: bool) -> Ahead<'_>
        requires { IsPlace self.now.slot self.now.found is_digested }
        ensures { result ≡ shown is_digested (known_of self.now) }
    {
        match (&self.found, self.slot.bytes()) {
            (Found::Absent, _) => Ahead::Absent,
            (Found::Unread, Some(bytes)) => Ahead::File(FileAhead { bytes, found: None }),
            (Found::Whole(found), Some(bytes)) if is_digested => Ahead::File(FileAhead {
                bytes,
                found: Some(found),
            }),
            _ => Ahead::Unknown,
        }
    }
}

/// Holds up to eight places.
#[derive(Drop)]
pub(crate) struct Places {
    first: Place,
    second: Place,
    third: Place,
    fourth: Place,
    fifth: Place,
    sixth: Place,
    seventh: Place,
    /// The place of the next file: the eighth once seven are held.
    pub(crate) latest: Place,
    pub(crate) held: usize,
    /// The bytes of the held files that are in memory.
    pub(crate) bytes: usize,
}

impl Places {
    pub(crate) fn new(alloc: Global) -> Places
        ensures none { result.held ≡ 0 }
        ensures places { (digested : Bool) → ArePlaces result digested }
    {
        Places {
            first: Place::new(alloc),
            second: Place::new(alloc),
            third: Place::new(alloc),
            fourth: Place::new(alloc),
            fifth: Place::new(alloc),
            sixth: Place::new(alloc),
            seventh: Place::new(alloc),
            latest: Place::new(alloc),
            held: 0,
            bytes: 0,
        }
    }

    /// Forgets all files, and gives back memory above 128 KiB of each where eight are digested at once.
    pub(crate) fn release(&mut self, lanes: Lanes)
        ensures none { self.new.held ≡ 0 }
        ensures places { (digested : Bool) → ArePlaces self.new digested }
    {
        self.swap_back();
        self.first.release(lanes);
        self.second.release(lanes);
        self.third.release(lanes);
        self.fourth.release(lanes);
        self.fifth.release(lanes);
        self.sixth.release(lanes);
        self.seventh.release(lanes);
        self.latest.release(lanes);
        self.held = 0;
        self.bytes = 0;
    }

    /// Makes the place that was held last the latest again: places that were never held then get no memory.
    fn swap_back(&mut self) {
        match self.held {
            1 => mem::swap(&mut self.first, &mut self.latest),
            2 => mem::swap(&mut self.second, &mut self.latest),
            3 => mem::swap(&mut self.third, &mut self.latest),
            4 => mem::swap(&mut self.fourth, &mut self.latest),
            5 => mem::swap(&mut self.fifth, &mut self.latest),
            6 => mem::swap(&mut self.sixth, &mut self.latest),
            7 => mem::swap(&mut self.seventh, &mut self.latest),
            _ => (),
        }
    }

    /// Holds the latest place as well.
    pub(crate) fn keep(&mut self)
        requires { self.old.held < 8 }
        ensures held { self.new.held ≡ self.old.held + 1 }
        ensures files { files_of self.new ≡ files_of self.old ++ known_of self.old.latest ∷ [] }
        ensures places { (digested : Bool) → ArePlaces self.old digested → ArePlaces self.new digested }
    {
        self.bytes = self.bytes.saturating_add(self.latest.slot.len());
        match self.held {
            0 => mem::swap(&mut self.first, &mut self.latest),
            1 => mem::swap(&mut self.second, &mut self.latest),
            2 => mem::swap(&mut self.third, &mut self.latest),
            3 => mem::swap(&mut self.fourth, &mut self.latest),
            4 => mem::swap(&mut self.fifth, &mut self.latest),
            5 => mem::swap(&mut self.sixth, &mut self.latest),
            6 => mem::swap(&mut self.seventh, &mut self.latest),
            _ => (),
        }
        self.held += 1;
    }

    /// Sets the digests of all versions, as many side by side as `lanes` says.
    pub(crate) fn digest(&mut self, lanes: Lanes)
        ensures held { self.new.held ≡ self.old.held }
        ensures first { IsDigested self.old.first self.new.first }
        ensures second { IsDigested self.old.second self.new.second }
        ensures third { IsDigested self.old.third self.new.third }
        ensures fourth { IsDigested self.old.fourth self.new.fourth }
        ensures fifth { IsDigested self.old.fifth self.new.fifth }
        ensures sixth { IsDigested self.old.sixth self.new.sixth }
        ensures seventh { IsDigested self.old.seventh self.new.seventh }
        ensures latest { IsDigested self.old.latest self.new.latest }
    {
        let (front, back) = digest_slots(
            lanes,
            (
                &self.first.slot,
                &self.second.slot,
                &self.third.slot,
                &self.fourth.slot,
            ),
            (
                &self.fifth.slot,
                &self.sixth.slot,
                &self.seventh.slot,
                &self.latest.slot,
            ),
        );
        set_digest(&mut self.first.found, front.0);
        set_digest(&mut self.second.found, front.1);
        set_digest(&mut self.third.found, front.2);
        set_digest(&mut self.fourth.found, front.3);
        set_digest(&mut self.fifth.found, back.0);
        set_digest(&mut self.sixth.found, back.1);
        set_digest(&mut self.seventh.found, back.2);
        set_digest(&mut self.latest.found, back.3);
    }

    pub(crate) fn ahead(&self, at: usize, is_digested: bool) -> Ahead<'_>
        requires { ArePlaces self.now is_digested }
        ensures { result ≡ shown is_digested (get_or (files_of self.now) at known.Unknown) }
    {
        if at >= self.held {
            return Ahead::Unknown;
        }
        match at {
            0 => self.first.ahead(is_digested),
            1 => self.second.ahead(is_digested),
            2 => self.third.ahead(is_digested),
            3 => self.fourth.ahead(is_digested),
            4 => self.fifth.ahead(is_digested),
            5 => self.sixth.ahead(is_digested),
            6 => self.seventh.ahead(is_digested),
            _ => self.latest.ahead(is_digested),
        }
    }
}

fn found_by(answer: Result<Version, KeyFault>) -> Found
    ensures { IsFoundBy answer result }
{
    match answer {
        Ok(version) => Found::Whole(Ok(version)),
        Err(fault) => match filing_fault(&fault) {
            None => Found::Whole(Err(fault)),
            Some(FilingFault::Unread) => Found::Unread,
            Some(_) => Found::Nothing,
        },
    }
}

fn set_digest(found: &mut Found, digest: [u8; 32])
    ensures { found.new ≡ found_with found.old digest }
{
    if let Found::Whole(Ok(version)) = found {
        version.set_digest(digest);
    }
}
