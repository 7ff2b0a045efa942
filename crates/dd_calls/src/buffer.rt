//! A writer that keeps what it takes.

ghost use Rattle.std.specs.Prelude.{◌≡◌, [], Some, IfOk};

use dd_elem::{Counts, Memory, Write};
use std::alloc::Global;
use std::io;

/// Keeps in memory what is written. A write whose allocation is refused fails.
#[derive(Drop)]
pub struct Buffer {
    bytes: Vec<u8>,
    counts: Counts,
}

impl Buffer {
    /// Makes an empty buffer, with room for this many bytes. Memory where the allocation is refused.
    pub fn with_capacity(alloc: Global, capacity: usize) -> Result<Buffer, Memory>
        ensures { IfOk result (λ buffer. buffer.bytes.items ≡ []) }
    {
        Ok(Buffer {
            bytes: Vec::with_capacity(alloc, capacity)?,
            counts: Counts::new(),
        })
    }

    /// Gives the bytes that were written.
    pub fn into_bytes(self) -> Vec<u8>
        ensures { result.items ≡ self.bytes.items }
    {
        self.bytes
    }
}

impl Write for Buffer {
    ghost calls = { λ s. s.counts.calls };

    ghost failures = { λ s. s.counts.failures };

    ghost contents = { λ s. Some s.bytes.items };

    ghost Rest = { Unit {0} };

    ghost rest = { λ _. tt };

    fn write(&mut self, bytes: &[u8]) -> io::Result<usize> {
        self.counts.begin()?;
        if self.bytes.extend_from_slice(bytes).is_ok() {
            return Ok(bytes.len());
        }
        self.counts.fail();
        Err(io::Error::other("memory is refused"))
    }
}
