//! A reader over bytes in memory.
ghost use Rattle.std.specs.Prelude.{◌≡◌, [], ◌≤◌, ◌↔◌, ◌<◌, ◌+◌, max, length, take, drop, Some, IsOk, IsErr};
ghost use Rattle.std.specs.Prelude.{IsSome, IfSome};
ghost use Rattle.std.specs.Io.{ReadsAtMost};
ghost use Rattle.std.specs.Io.KnownBytes.{ReadConsumes};
ghost use Rattle.dd_vectors.specs.ByteSource.{Source, Reads, next_len};
ghost use Rattle.dd_elem.specs.Device.{counted, last_count, HasWorked, GivesTold, IsBeforeFail, read_piece};

use dd_elem::{Counts, Read};
use std::io;
use std::marker::Model;

/// Reads bytes in memory, at most a chosen number at once, and may fail for good after a chosen number.
#[derive(Debug, Drop)]
pub struct ByteSource<'a> {
    bytes: &'a [u8],
    at: usize,
    piece: u64,
    fails: Option<u64>,
    counts: Counts,
}

impl<'a> Model for ByteSource<'a> {
    ghost Value = { Source };

    ghost view = { λ s. record {
      given = take s.at s.bytes.now;
      left = drop s.at s.bytes.now;
      piece = s.piece;
      fails = s.fails;
      counts = s.counts;
    } };

    ghost invariant = { λ s. (s.at ≤ length s.bytes.now) × (0 < s.piece) };
}

impl<'a> ByteSource<'a> {
    /// Makes a reader of at most `piece` bytes per read; 0 counts as 1. With `fails` it fails for good after that
    /// number of bytes, before it ends.
    pub fn new(bytes: &'a [u8], piece: u64, fails: Option<u64>) -> Self
        ensures { result ≡ record {
          given = [];
          left = bytes.now;
          piece = max piece 1;
          fails = fails;
          counts = record { calls = 0; failures = 0 };
        } }
    {
        ByteSource {
            bytes,
            at: 0,
            piece: piece.max(1),
            fails,
            counts: Counts::new(),
        }
    }

    /// Says how many bytes the next read gives where no count is at its last value.
    fn next_len(&self, room: usize) -> Option<usize>
        ensures readable { IsSome result ↔ IsBeforeFail self.now.fails (length self.now.given) }
        ensures len { IfSome result (λ n. n ≡ next_len self.now room) }
    {
        let left = self.bytes.len() - self.at;
        let wanted = (room as u64).min(self.piece).min(left as u64);
        match self.fails {
            None => Some(wanted as usize),
            Some(fails) if (self.at as u64) < fails => {
                Some(wanted.min(fails - self.at as u64) as usize)
            }
            Some(_) => None,
        }
    }
}

impl Read for ByteSource<'_> {
    ghost calls = { λ s. s.counts.calls };

    ghost failures = { λ s. s.counts.failures };

    ghost remaining = { λ s. Some s.left };

    ghost Past = { Unit {0} };

    ghost has_given = { λ s _ bytes. bytes ≡ s.given };

    /// Gives as many of the next bytes as fit and as one read may give, up to where it fails for good. Fails there, and
    /// where a count is at its last value.
    fn read(&mut self, buf: &mut [u8]) -> io::Result<usize>
        ensures bound { ReadsAtMost result buf.new }
        ensures called { self.new.counts.calls ≡ counted self.old.counts.calls }
        ensures live { IsOk result → self.old.counts.calls < last_count }
        ensures worked { IsOk result → HasWorked self.old.counts.failures self.new.counts.failures }
        ensures failed { IsErr result → self.new.counts.failures
            ≡ counted self.old.counts.failures }
        ensures left { ReadConsumes (Some self.old.left) (Some self.new.left) result buf.new }
        ensures gives { GivesTold (λ s. s.given) self.old self.new (read_piece result buf.new) }

        // Exactly when it works, how many bytes come then, and what it is afterwards.
        ensures reads { Reads (length buf.old) result self.old self.new }
    {
        let next = self.next_len(buf.len());
        self.counts.begin()?;
        match next {
            None => {
                self.counts.fail();
                Err(io::Error::other("the source fails from here on"))
            }
            Some(n) => {
                buf[..n].copy_from_slice(&self.bytes[self.at..self.at + n]);
                self.at += n;
                Ok(n)
            }
        }
    }
}
