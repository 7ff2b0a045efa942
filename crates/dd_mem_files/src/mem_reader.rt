//! A reader of a file in memory.
ghost use Rattle.std.specs.Prelude.{◌≡◌, [], ◌≤◌, ◌↔◌, ◌<◌, length, take, drop, Some, IsOk, IsErr};
ghost use Rattle.std.specs.Prelude.{IsSome, IfSome};
ghost use Rattle.std.specs.Io.{ReadsAtMost};
ghost use Rattle.std.specs.Io.KnownBytes.{ReadConsumes};
ghost use Rattle.dd_elem.specs.Device.{counted, last_count, HasWorked, GivesTold, IsBeforeFail, read_piece};
ghost use Rattle.dd_mem_files.specs.MemReader.{Opened, Reads, next_len};

use dd_elem::{Counts, Read};
use std::io;
use std::marker::Model;

/// Reads a copy of a file's bytes, and may fail for good at a given place.
#[derive(Debug, Drop)]
pub struct MemReader {
    bytes: Vec<u8>,
    at: usize,
    fails: Option<u64>,
    counts: Counts,
}

impl Model for MemReader {
    ghost Value = { Opened };

    ghost view = { λ s. record {
      given = take s.at s.bytes.items;
      left = drop s.at s.bytes.items;
      fails = s.fails;
      counts = s.counts;
    } };

    ghost invariant = { λ s. s.at ≤ length s.bytes.items };
}

impl MemReader {
    /// With `Some(n)` the reader fails for good after n bytes, before it reports the end.
    pub(crate) fn new(bytes: Vec<u8>, fails: Option<u64>) -> Self
        ensures { result ≡ record {
          given = [];
          left = bytes.items;
          fails = fails;
          counts = record { calls = 0; failures = 0 };
        } }
    {
        MemReader {
            bytes,
            at: 0,
            fails,
            counts: Counts::new(),
        }
    }

    /// Says how many bytes the next read gives where no count is at its last value.
    fn next_len(&self, room: usize) -> Option<usize>
        ensures readable { IsSome result ↔ IsBeforeFail self.now.fails (length self.now.given) }
        ensures len { IfSome result (λ n. n ≡ next_len self.now room) }
    {
        let wanted = room.min(self.bytes.len() - self.at);
        match self.fails {
            None => Some(wanted),
            Some(fails) if (self.at as u64) < fails => {
                Some((wanted as u64).min(fails - self.at as u64) as usize)
            }
            Some(_) => None,
        }
    }
}

impl Read for MemReader {
    ghost calls = { λ s. s.counts.calls };

    ghost failures = { λ s. s.counts.failures };

    ghost remaining = { λ s. Some s.left };

    ghost Past = { Unit {0} };

    ghost has_given = { λ s _ bytes. bytes ≡ s.given };

    /// Gives as many of the next bytes as fit, up to the place where it fails for good. Fails there, and where a count
    /// is at its last value.
    fn read(&mut self, buf: &mut [u8]) -> io::Result<usize>
        ensures bound { ReadsAtMost result buf.new }
        ensures called { self.new.counts.calls ≡ counted self.old.counts.calls }
        ensures live { IsOk result → self.old.counts.calls < last_count }
        ensures worked { IsOk result → HasWorked self.old.counts.failures self.new.counts.failures }
        ensures failed { IsErr result → self.new.counts.failures
            ≡ counted self.old.counts.failures }
        ensures left { ReadConsumes (Some self.old.left) (Some self.new.left) result buf.new }
        ensures gives { GivesTold (λ s. s.given) self.old self.new (read_piece result buf.new) }
        ensures reads { Reads (length buf.old) result self.old self.new }
    {
        let next = self.next_len(buf.len());
        self.counts.begin()?;
        match next {
            None => {
                self.counts.fail();
                Err(io::Error::other("the file fails from here on"))
            }
            Some(n) => {
                buf[..n].copy_from_slice(&self.bytes[self.at..self.at + n]);
                self.at += n;
                Ok(n)
            }
        }
    }
}
