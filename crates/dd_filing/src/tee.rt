ghost use Rattle.std.specs.Prelude.{◌≡◌, ◌⊎◌, ℕ, List, Option};
ghost use Rattle.dd_elem.specs.Device.{either_fact};
ghost use Rattle.dd_elem.specs.declared.counts.Counts.{Counts};
ghost use Rattle.dd_filing.specs.Sent.{IsCounted, IsSent, late_count};
ghost use Rattle.dd_stream.specs.Sends.{counts_of};

use dd_elem::{Read, Write};
use dd_stream::send;
use std::io;

/// Sends to a writer what a reader gives. Once a write has failed, each later read fails and calls neither of them.
#[derive(Drop)]
pub(crate) struct Tee<'a, R: Read, W: Write> {
    pub reader: &'a mut R,
    pub writer: &'a mut W,
    /// How often the tee was read after a write failed.
    pub late: Option<u64>,
}

impl<R: Read, W: Write> Read for Tee<'_, R, W> {
    ghost calls = { λ t. late_count (R.calls t.reader.now) t.late };

    ghost failures = { λ t. late_count (R.failures t.reader.now) t.late };

    ghost remaining = { λ t. R.remaining t.reader.now };

    ghost Past = { ℕ × (ℕ × (((Option (List ℕ) × W.Rest) × Counts) ⊎ R.Past)) };

    ghost has_given = { λ t past bytes. (t.reader.ghost_name ≡ past.0)
        × ((t.writer.ghost_name ≡ past.1.0)
        × either_fact (λ start m. IsSent t.late m start.0
        (W.contents t.writer.now, W.rest t.writer.now)
        start.1 (counts_of W.Write t.writer.now) × IsCounted t.late (R.calls t.reader.now))
        (λ p m. R.has_given t.reader.now p m) past.1.1 bytes) };

    fn read(&mut self, buf: &mut [u8]) -> io::Result<usize> {
        match self.late {
            Some(late) => {
                self.late = Some(late.saturating_add(1));
                return Err(io::Error::other("a write failed before"));
            }
            None => {}
        }
        let n = self.reader.read(buf)?;
        match send(&buf[..n], self.writer, 0) {
            Ok(_) => {}
            Err(_) => self.late = Some(0),
        }
        Ok(n)
    }
}
