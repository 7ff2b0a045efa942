//! Bytes of a reader that were read and not taken yet.

ghost use Rattle.std.specs.Prelude.{◌≡◌, ◌≤◌, ◌<◌, ◌+◌, ◌++◌, [], min, length, take, drop, IfSome, IsNone};
ghost use Rattle.dd_stream.specs.Bytes.{AreBytes};
ghost use Rattle.dd_stream.specs.Reads.{ReadsOnce};
ghost use Rattle.dd_stream.specs.Streams.{came};

use dd_elem::Read;
use std::marker::Model;

/// The most bytes of one read.
pub(crate) const PIECE: usize = 16_384;

#[derive(Drop)]
pub(crate) struct Kept {
    bytes: [u8; PIECE],
    at: usize,
    len: usize,
}

impl Model for Kept {
    ghost use Rattle.std.specs.Prelude.{◌≤◌, ◌+◌, ℕ, List, take, drop, length};

    ghost Value = { List ℕ };

    ghost view = { λ k. take k.len (drop k.at k.bytes) };

    ghost invariant = { λ k. k.at + k.len ≤ length k.bytes };
}

impl Kept {
    pub(crate) fn new() -> Kept
        ensures { result ≡ [] }
    {
        Kept {
            bytes: [0; PIECE],
            at: 0,
            len: 0,
        }
    }

    pub(crate) fn len(&self) -> usize
        ensures { result ≡ length self.now }
    {
        self.len
    }

    pub(crate) fn give(&mut self, room: &mut [u8]) -> usize
        ensures count { result ≡ min (length room.new) (length self.old) }
        ensures gave { self.old ≡ take result room.new ++ self.new }
    {
        let n = room.len().min(self.len);
        room[..n].copy_from_slice(&self.bytes[self.at..self.at + n]);
        self.at += n;
        self.len -= n;
        n
    }

    pub(crate) fn pass(&mut self, n: u64) -> u64
        ensures count { result ≡ min n (length self.old) }
        ensures gone { self.old ≡ take result self.old ++ self.new }
    {
        let n = n.min(self.len as u64);
        self.at += n as usize;
        self.len -= n as usize;
        n
    }

    /// Replaces the bytes by the bytes of one more read. None where the reader fails.
    pub(crate) fn refill<R: Read>(&mut self, reader: &mut R, most: usize) -> Option<usize>
        requires some { 0 < most }
        requires few { most ≤ PIECE }
        ensures few { length self.new ≤ most }
        ensures len { IfSome result (λ n. n ≡ length self.new) }
        ensures none { IsNone result → self.new ≡ [] }
        ensures bytes { AreBytes self.new }
        ensures read { ReadsOnce R.Read most result reader.old reader.new self.new }
    {
        self.at = 0;
        self.len = 0;
        let n = read_once(reader, &mut self.bytes[..most])?;
        self.len = n;
        Some(n)
    }
}

fn read_once<R: Read>(reader: &mut R, room: &mut [u8]) -> Option<usize>
    ensures bound { IfSome result (λ n. n ≤ length room.new) }
    ensures bytes { AreBytes room.new }
    ensures read { ReadsOnce R.Read (length room.new) result reader.old reader.new
        (came result room.new) }
{
    match reader.read(room) {
        Ok(n) => Some(n),
        Err(_) => None,
    }
}
