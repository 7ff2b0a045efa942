ghost use Rattle.std.specs.Prelude.{◌≡◌, None};
ghost use Rattle.std.specs.Io.{ReadsAtMost, WritesAtMost};

use dd_elem::{Counts, Read, Write};
use std::io::{self, ErrorKind};

/// Counts the calls and failures of a reader or writer of the system. Its contract says nothing of the bytes.
#[derive(Drop)]
pub struct Counted<T: Drop> {
    pub device: T,
    counts: Counts,
}

impl<T: Drop> Counted<T> {
    /// Wraps the device, with no call counted yet.
    pub fn new(device: T) -> Self
        ensures { result ≡ record { device = device; counts = record { calls = 0; failures = 0 } } }
    {
        Counted {
            device,
            counts: Counts::new(),
        }
    }
}

impl<T: io::Read + Drop> Read for Counted<T> {
    ghost calls = { λ s. s.counts.calls };

    ghost failures = { λ s. s.counts.failures };

    ghost remaining = { λ _. None };

    ghost Past = { Unit {0} };

    ghost has_given = { λ _ _ _. Unit {0} };

    fn read(&mut self, buf: &mut [u8]) -> io::Result<usize> {
        self.counts.begin()?;
        let done = read_again(&mut self.device, buf);
        self.counts.settle(done)
    }
}

impl<T: io::Write + Drop> Write for Counted<T> {
    ghost calls = { λ s. s.counts.calls };

    ghost failures = { λ s. s.counts.failures };

    ghost contents = { λ _. None };

    ghost Rest = { Unit {0} };

    ghost rest = { λ _. tt };

    fn write(&mut self, bytes: &[u8]) -> io::Result<usize> {
        self.counts.begin()?;
        match write_again(&mut self.device, bytes) {
            Ok(0) if !bytes.is_empty() => {
                self.counts.fail();
                Ok(0)
            }
            done => self.counts.settle(done),
        }
    }
}

/// Limits the tries of a call that signals interrupt.
pub(crate) const TRIES: u32 = 1000;

fn read_again<T: io::Read>(reader: &mut T, buf: &mut [u8]) -> io::Result<usize>
    ensures { ReadsAtMost result buf.new }
{
    for _ in 0..TRIES {
        match reader.read(buf) {
            Ok(n) => return Ok(n),
            Err(error) => {
                if error.kind() != ErrorKind::Interrupted {
                    return Err(error);
                }
            }
        }
    }
    Err(io::Error::from(ErrorKind::Interrupted))
}

/// Writes, again where a signal interrupts.
pub(crate) fn write_again<T: io::Write>(writer: &mut T, bytes: &[u8]) -> io::Result<usize>
    ensures { WritesAtMost result bytes.now }
{
    for _ in 0..TRIES {
        match writer.write(bytes) {
            Ok(n) => return Ok(n),
            Err(error) => {
                if error.kind() != ErrorKind::Interrupted {
                    return Err(error);
                }
            }
        }
    }
    Err(io::Error::from(ErrorKind::Interrupted))
}
