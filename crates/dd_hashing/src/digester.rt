//! A writer that hashes what it takes.

ghost use Rattle.std.specs.Prelude.{◌≡◌, [], Some};
ghost use Rattle.sha2.specs.Sha256.{sha256};
ghost use Rattle.dd_hashing.specs.Hashing.{FailsLate};

use crate::message::Message;
use dd_elem::{Counts, Write};
use sha2::{Digest, Sha256};
use std::io;
use std::marker::Model;

/// Takes all bytes, and keeps only what their SHA-256 (FIPS 180-4) requires.
#[derive(Drop)]
pub struct Digester {
    hasher: Sha256,
    message: Message,
    counts: Counts,
}

impl Model for Digester {
    ghost use Rattle.sha2.specs.Hashers.{Holds256};
    ghost use Rattle.dd_hashing.specs.Hashing.{FailsLate, Hashing};

    ghost Value = { Hashing };

    ghost view = { λ d. record { bytes = d.message.bytes; counts = d.counts } };

    ghost invariant = { λ d. Holds256 d.hasher d.message.bytes × FailsLate d.counts };
}

impl Digester {
    pub fn new() -> Digester
        ensures { result ≡ record { bytes = []; counts = record { calls = 0; failures = 0 } } }
    {
        Digester {
            hasher: Sha256::new(),
            message: Message::new(),
            counts: Counts::new(),
        }
    }

    /// States that a call of it failed only where the count of its calls is at its last value.
    pub fn fails_late(&self)
        ensures { FailsLate self.now.counts }
    {
        let _ = &self.counts;
    }

    pub fn digest(self) -> [u8; 32]
        ensures { result ≡ sha256 self.bytes }
    {
        let Digester {
            hasher,
            message: _message,
            counts: _counts,
        } = self;
        hasher.finalize()
    }
}

/// Fails only where a count is at its last value, so never in a program's life.
impl Write for Digester {
    ghost calls = { λ d. d.counts.calls };

    ghost failures = { λ d. d.counts.failures };

    ghost contents = { λ d. Some d.bytes };

    ghost Rest = { Unit {0} };

    ghost rest = { λ _. tt };

    fn write(&mut self, bytes: &[u8]) -> io::Result<usize> {
        self.counts.begin()?;
        self.hasher.update(bytes);
        self.message.add(bytes);
        Ok(bytes.len())
    }
}
