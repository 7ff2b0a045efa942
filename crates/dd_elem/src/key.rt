ghost use Rattle.std.specs.Prelude.{◌≡◌, ◌<◌, ◌↔◌, List, ℕ, length, IfOk, IsErr};
ghost use Rattle.dd_elem.specs.Clean.{clean_of};
ghost use Rattle.dd_elem.specs.KeyBytes.{most_in_place};
ghost use Rattle.dd_elem.specs.Key.{IsKey, max_key_length};

use crate::key_bytes::KeyBytes;
use crate::memory::Memory;
use crate::ordered::Ordered;
use crate::padding::clean;
use std::alloc::Global;
use std::cmp::Ordering;
use std::marker::Model;
use thiserror::Error;

/// The value of an element: at most 1,024 bytes that do not end in a NUL or a space. Up to 22 bytes are held in place
/// without an allocation; copies of a longer key share its bytes.
#[derive(Debug, Drop)]
pub struct Key {
    held: KeyBytes,
}

impl Model for Key {
    ghost use Rattle.std.specs.Prelude.{List, ℕ};
    ghost use Rattle.dd_elem.specs.KeyBytes.{key_bytes_view, IsKeyBytes};
    ghost use Rattle.dd_elem.specs.Key.{IsKey};

    ghost Value = { List ℕ };

    ghost view = { λ key. key_bytes_view key.held };

    ghost invariant = { λ key. IsKeyBytes key.held × IsKey (key_bytes_view key.held) };
}

/// Why no key was made.
#[derive(Clone, Copy, Debug, PartialEq, Eq, Error)]
pub enum KeyRefused {
    /// More than 1,024 bytes are left without padding.
    #[error("a key has at most 1024 bytes")]
    TooLong,
    /// An allocation was refused.
    #[error("91 Memory")]
    Memory,
}

impl Key {
    /// The most bytes of a key.
    pub const MAX_LEN: usize = 1024;

    /// Makes a key of the bytes without their padding (PS3.5 section 6.2). Allocates only where more than 22 bytes
    /// are left.
    #[tactic(auto, using(crate::proofs::Keys::IsKey_from_clean_of))]
    pub fn copy_of(alloc: Global, bytes: &[u8]) -> Result<Key, KeyRefused>
        ensures value { IfOk result (λ key. key ≡ clean_of bytes.now) }
        ensures too_long { (result ≡ Err KeyRefused.TooLong) ↔
            (max_key_length < length (clean_of bytes.now)) }
        ensures memory { result ≡ Err KeyRefused.Memory
            → most_in_place < length (clean_of bytes.now) }
    {
        let kept = clean(bytes);
        if kept.len() > Key::MAX_LEN {
            return Err(KeyRefused::TooLong);
        }
        match KeyBytes::of(alloc, kept) {
            Ok(held) => Ok(Key { held }),
            Err(_) => Err(KeyRefused::Memory),
        }
    }

    /// Gives the bytes, without padding.
    pub fn as_bytes(&self) -> &[u8]
        ensures value { result.now ≡ self.now }
        ensures valid { IsKey self.now }
    {
        self.held.as_slice()
    }

    /// Makes an equal key. Memory where no more copies can share its bytes, which are then more than 22.
    pub fn copy(&self) -> Result<Key, Memory>
        ensures value { IfOk result (λ key. key ≡ self.now) }
        ensures memory { IsErr result → most_in_place < length self.now }
    {
        Ok(Key {
            held: self.held.copy()?,
        })
    }
}

impl PartialEq for Key {
    ghost use Rattle.std.specs.Str.{bytes_eq};
    ghost use Rattle.std.proofs.Common.{rules};
    ghost use Rattle.std.specs.Cmp.Rules.{comparing};

    ghost eq = { bytes_eq };

    ghost laws = { Prim.search (comparing, rules) };

    fn eq(&self, other: &Key) -> bool {
        self.as_bytes() == other.as_bytes()
    }
}

/// Dictionary order: a proper prefix is smaller.
impl Ordered for Key {
    ghost use Rattle.std.proofs.lemmas.Cmp.{nat_list_cmp_total};
    ghost use Rattle.std.proofs.lemmas.Map.Lookups.{exact_bytes};
    ghost use Rattle.dd_elem.specs.Ordered.{bytes_cmp};

    ghost order = { bytes_cmp };

    ghost total = { nat_list_cmp_total };

    ghost apart = { exact_bytes };

    fn compare(&self, other: &Self) -> Ordering {
        self.as_bytes().cmp(other.as_bytes())
    }
}
