ghost use Rattle.std.specs.Prelude.{◌≡◌, ◌⊎◌, ℕ, []};
ghost use Rattle.sha2.specs.Hashers.{Holds256};
ghost use Rattle.dd_elem.specs.Device.{either_fact};
ghost use Rattle.dd_keys.specs.Digested.{IsDigested};
ghost use Rattle.dd_stream.specs.Reads.{ReadsUpTo};

use dd_elem::{Read, Tag};
use dd_part10::{Scanned, StreamFault, read_file};
use sha2::{Digest, Sha256};
use std::alloc::Global;
use std::io;

/// Takes the SHA-256 of all bytes that pass from a reader.
#[derive(Drop)]
pub(crate) struct Digesting<'r, R: Read> {
    pub reader: &'r mut R,
    pub hasher: Sha256,
}

impl<R: Read> Read for Digesting<'_, R> {
    ghost calls = { λ d. R.calls d.reader.now };

    ghost failures = { λ d. R.failures d.reader.now };

    ghost remaining = { λ d. R.remaining d.reader.now };

    ghost Past = { ℕ × (Unit {0} ⊎ R.Past) };

    ghost has_given = { λ d past bytes. (d.reader.ghost_name ≡ past.0)
        × either_fact (λ _ m. Holds256 d.hasher m)
        (λ p m. R.has_given d.reader.now p m) past.1 bytes };

    fn read(&mut self, buf: &mut [u8]) -> io::Result<usize> {
        let n = self.reader.read(buf)?;
        self.hasher.update(&buf[..n]);
        Ok(n)
    }
}

/// Holds what `read_file` answers, and the SHA-256 (FIPS 180-4) of all bytes that the reader gave.
#[derive(Debug, Drop)]
pub struct Digested {
    pub file: Result<Scanned, StreamFault>,
    pub digest: [u8; 32],
}

/// Reads a file as `read_file` does, and digests all bytes that the reader gives meanwhile, whether they are a file or
/// not.
pub fn read_digested<R: Read>(alloc: Global, reader: &mut R, wanted: &[Tag], limit: u64) -> Digested
    ensures { ReadsUpTo R.Read limit reader.old reader.new (IsDigested result wanted.now limit) }
{
    let mut digesting = Digesting {
        reader,
        hasher: Sha256::new(),
    };
    read_digesting(alloc, &mut digesting, wanted, limit)
}

fn read_digesting<R: Read>(
    alloc: Global,
    digesting: &mut Digesting<'_, R>,
    wanted: &[Tag],
    limit: u64,
) -> Digested
    requires { Holds256 digesting.old.hasher [] }
    ensures same { digesting.new.reader.ghost_name ≡ digesting.old.reader.ghost_name }
    ensures read { ReadsUpTo R.Read limit digesting.old.reader.now digesting.new.reader.now
        (IsDigested result wanted.now limit) }
{
    let file = read_file(alloc, digesting, wanted, limit);
    let digest = digesting.hasher.finalize_reset();
    Digested { file, digest }
}
