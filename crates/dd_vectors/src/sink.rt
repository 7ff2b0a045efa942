ghost use Rattle.std.specs.Prelude.{◌≡◌, ℕ, Option, [], ◌≤◌, ◌↔◌, ◌<◌, length, Some};
ghost use Rattle.std.specs.Prelude.{IsOk, IfOk, OnOk, OnErr, IsSome, IfSome, vec_capacity, is_ok};
ghost use Rattle.std.specs.Io.{WritesAtMost};
ghost use Rattle.std.specs.Io.KnownBytes.{WriteAppends};
ghost use Rattle.dd_vectors.specs.Sink.{Store, IsWritable, HasRoom, taken_len};
ghost use Rattle.dd_elem.specs.Counts.{counts_after};
ghost use Rattle.dd_elem.specs.Device.{IsBeforeFail};

use dd_elem::{Counts, Memory, Write};
use std::alloc::Global;
use std::io;
use std::marker::Model;

/// Writes to memory, and may fail for good after a chosen number of bytes.
#[derive(Debug, Drop)]
pub struct Sink {
    bytes: Vec<u8>,
    fails: Option<u64>,
    counts: Counts,
}

impl Model for Sink {
    ghost Value = { Store };

    ghost view = { λ s. record {
      bytes = s.bytes.items;
      capacity = vec_capacity s.bytes;
      fails = s.fails;
      counts = s.counts;
    } };
}

impl Sink {
    /// Makes an empty writer. With `fails` it fails for good after that number of bytes.
    pub fn new(alloc: Global, fails: Option<u64>) -> Self
        ensures { result ≡ record {
          bytes = [];
          capacity = 0;
          fails = fails;
          counts = record {
            calls = 0;
            failures = 0;
          };
        } }
    {
        Sink {
            bytes: Vec::new(alloc),
            fails,
            counts: Counts::new(),
        }
    }

    /// Gives the bytes that were written.
    pub fn bytes(&self) -> &[u8]
        ensures { result.now ≡ self.now.bytes }
    {
        &self.bytes
    }

    /// Gives the bytes that were written.
    pub fn into_bytes(self) -> Vec<u8>
        ensures { result.items ≡ self.bytes }
    {
        self.bytes
    }

    /// Makes room for `additional` bytes more, so that their writes need no allocation. Memory where that is refused.
    pub fn reserve(&mut self, additional: usize) -> Result<(), Memory>
        ensures ok { OnOk result (HasRoom self.new additional) }
        ensures same { self.new ≡ record self.old { capacity = self.new.capacity } }
        ensures grows { self.old.capacity ≤ self.new.capacity }
        ensures memory { OnErr result (¬ HasRoom self.old additional) }
        ensures err { OnErr result (self.new ≡ self.old) }
    {
        Ok(self.bytes.reserve(additional)?)
    }

    /// Says how many of `len` bytes the next write takes where no count is at its last value.
    fn taken_len(&self, len: usize) -> Option<usize>
        ensures writable { IsSome result ↔ IsBeforeFail self.now.fails (length self.now.bytes) }
        ensures len { IfSome result (λ n. n ≡ taken_len self.now len) }
    {
        let held = self.bytes.len() as u64;
        match self.fails {
            None => Some(len),
            Some(fails) if held < fails => Some((len as u64).min(fails - held) as usize),
            Some(_) => None,
        }
    }
}

impl Write for Sink {
    ghost calls = { λ s. s.counts.calls };

    ghost failures = { λ s. s.counts.failures };

    ghost contents = { λ s. Some s.bytes };

    ghost Rest = { Option ℕ };

    ghost rest = { λ s. s.fails };

    /// Writes the whole piece, or what fits before it fails for good. Takes nothing where it has failed, a count is at
    /// its last value or an allocation is refused.
    fn write(&mut self, bytes: &[u8]) -> io::Result<usize>
        ensures bound { WritesAtMost result bytes.now }
        ensures appends { WriteAppends (Some self.old.bytes)
            (Some self.new.bytes) result bytes.now }
        ensures writable { IsOk result → IsWritable self.old }
        ensures works { IsWritable self.old
            → HasRoom self.old (taken_len self.old (length bytes.now)) → IsOk result }
        ensures len { IfOk result (λ n. n ≡ taken_len self.old (length bytes.now)) }
        ensures counts { self.new.counts ≡ counts_after self.old.counts (is_ok result) }
        ensures fails { self.new.fails ≡ self.old.fails }
        ensures grows { self.old.capacity ≤ self.new.capacity }
    {
        self.counts.begin()?;
        if let Some(n) = self.taken_len(bytes.len()) {
            if self.bytes.extend_from_slice(&bytes[..n]).is_ok() {
                return Ok(n);
            }
        }
        self.counts.fail();
        Err(io::Error::other("the sink fails"))
    }
}
