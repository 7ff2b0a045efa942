ghost use Rattle.std.specs.Prelude.{◌≡◌, ◌⊎◌, ℕ};
ghost use Rattle.dd_elem.specs.Device.{either_fact};
ghost use Rattle.dd_filing.specs.Copies.{length_of};

use dd_elem::Read;
use std::io;

/// Counts the bytes that a reader gives.
#[derive(Drop)]
pub(crate) struct Measured<'a, R: Read> {
    pub reader: &'a mut R,
    /// How many bytes it gave, up to `u64::MAX`.
    pub size: u64,
}

impl<R: Read> Read for Measured<'_, R> {
    ghost calls = { λ m. R.calls m.reader.now };

    ghost failures = { λ m. R.failures m.reader.now };

    ghost remaining = { λ m. R.remaining m.reader.now };

    ghost Past = { ℕ × (Unit {0} ⊎ R.Past) };

    ghost has_given = { λ m past bytes. (m.reader.ghost_name ≡ past.0)
        × either_fact (λ _ all. m.size ≡ length_of all)
        (λ p all. R.has_given m.reader.now p all) past.1 bytes };

    fn read(&mut self, buf: &mut [u8]) -> io::Result<usize> {
        let n = self.reader.read(buf)?;
        self.size = self.size.saturating_add(n as u64);
        Ok(n)
    }
}
