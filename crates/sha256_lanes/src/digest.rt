//! The hash value before a first block, and the digests after a last one (FIPS 180-4, 6.2.2).

ghost use Rattle.std.specs.Prelude.{◌≡◌, ◌<◌, ℕ, IsFalse, IsTrue};
ghost use Rattle.sha2.specs.Sha256.{digest_bytes, initial_hash_256};
ghost use Rattle.sha256_lanes.specs.Lanes.{lane};

use crate::constants::INITIAL;
use crate::functions::splat;
use std::simd::Simd;

/// Four messages.
pub type Four<'a> = (&'a [u8], &'a [u8], &'a [u8], &'a [u8]);

/// The digests of four messages.
pub type Digests = ([u8; 32], [u8; 32], [u8; 32], [u8; 32]);

/// Sets the initial hash value in each lane (5.3.3).
pub(crate) fn start<const N: usize>(hash: &mut [Simd<u32, N>; 8])
    ensures { (j : ℕ) → j < N → lane j hash.new ≡ initial_hash_256 }
{
    hash[0] = splat(INITIAL[0]);
    hash[1] = splat(INITIAL[1]);
    hash[2] = splat(INITIAL[2]);
    hash[3] = splat(INITIAL[3]);
    hash[4] = splat(INITIAL[4]);
    hash[5] = splat(INITIAL[5]);
    hash[6] = splat(INITIAL[6]);
    hash[7] = splat(INITIAL[7]);
}

/// Writes the digest of message `j` where its last block is in the hash value: eight words, high bytes first.
#[inline(always)]
pub(crate) fn end_lane<const N: usize>(
    digest: &mut [u8; 32],
    hash: &[Simd<u32, N>; 8],
    j: usize,
    is_last: bool,
)
    requires { j < N }
    ensures last { IsTrue is_last → digest.new ≡ digest_bytes (lane j hash.now) 8 }
    ensures more { IsFalse is_last → digest.new ≡ digest.old }
{
    if is_last {
        'words: for k in 0..8 {
            digest[4 * k..4 * k + 4].copy_from_slice(&hash[k].as_array()[j].to_be_bytes());
        }
    }
}
