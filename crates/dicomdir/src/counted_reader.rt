ghost use Rattle.std.specs.Prelude.{◌≡◌, IfSome, Option, false, length, min, true};
ghost use Rattle.dd_elem.specs.Device.{last_count};
ghost use Rattle.dd_files.specs.Reasons.{HasCounted};

use dd_elem::{Counts, Read};
use std::io;

/// A reader that counts its calls, its failures and its bytes from when it was made.
#[derive(Drop)]
pub(crate) struct CountedReader<R: Read + Drop> {
    reader: R,
    counts: Counts,
    bytes: u64,
    /// Whether a read of the reader itself failed.
    has_failed: bool,
    ghost failed: { has_failed ≡ true → HasCounted (R.failures reader) },
}

impl<R: Read + Drop> CountedReader<R> {
    pub(crate) fn new(reader: R) -> Self
        ensures reader { result.reader ≡ reader }
        ensures counts { result.counts ≡ record { calls = 0; failures = 0 } }
        ensures bytes { result.bytes ≡ 0 }
        ensures failed { result.has_failed ≡ false }
    {
        CountedReader {
            reader,
            counts: Counts::new(),
            bytes: 0,
            has_failed: false,
        }
    }

    pub(crate) fn counts(&self) -> Counts
        ensures { result ≡ self.now.counts }
    {
        self.counts
    }

    /// Gives how many bytes were read, up to `u64::MAX`.
    pub(crate) fn bytes(&self) -> u64
        ensures { result ≡ self.now.bytes }
    {
        self.bytes
    }

    /// Gives the reader where a read of it failed.
    pub(crate) fn into_failed(self) -> Option<R>
        ensures { IfSome result (λ reader. HasCounted (R.failures reader)) }
    {
        if self.has_failed {
            Some(self.reader)
        } else {
            None
        }
    }
}

impl<R: Read + Drop> Read for CountedReader<R> {
    ghost calls = { λ s. s.counts.calls };

    ghost failures = { λ s. s.counts.failures };

    ghost remaining = { λ s. R.remaining s.reader };

    ghost Past = { Option R.Past };

    ghost has_given = { λ s past bytes. (s.bytes ≡ min (length bytes) last_count)
        × IfSome past (λ past. R.has_given s.reader past bytes) };

    /// Reads as the reader does, but also fails where a count is at its last value.
    fn read(&mut self, buf: &mut [u8]) -> io::Result<usize> {
        self.counts.begin()?;
        let done = self.reader.read(buf);
        if done.is_err() {
            self.has_failed = true;
        }
        let n = self.counts.settle(done)?;
        self.bytes = self.bytes.saturating_add(n as u64);
        Ok(n)
    }
}
