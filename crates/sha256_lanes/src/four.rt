//! The digests of four messages, in lanes or one by one.

ghost use Rattle.std.specs.Prelude.{◌≡◌, ◌+◌, ◌^◌, ◌<◌, ◌≤◌, ℕ, length, slice_index};
ghost use Rattle.sha2.specs.Sha256.{compress, sha256, word_at};
ghost use Rattle.sha256_lanes.specs.Lanes.{lane, of_four};

use crate::compression::{compress, word_of};
use crate::digest::{Digests, Four, end_lane, start};
use crate::padding::{block, block_count, tail_of};
use sha2::{Digest, Sha256};
use std::simd::u32x4;

#[inline(always)]
fn words_of(b0: &[u8], b1: &[u8], b2: &[u8], b3: &[u8], at: usize) -> u32x4
    requires { (at + 4 ≤ length b0.now) × (at + 4 ≤ length b1.now)
        × (at + 4 ≤ length b2.now) × (at + 4 ≤ length b3.now) }
    ensures { (j : ℕ) → j < 4 → slice_index result j ≡ word_at (of_four b0.now b1.now b2.now b3.now j) at }
{
    let w0 = word_of(b0, at);
    let w1 = word_of(b1, at);
    let w2 = word_of(b2, at);
    let w3 = word_of(b3, at);
    u32x4::from_array([w0, w1, w2, w3])
}

/// Takes a block of each message into its hash value.
fn compress4(hash: &mut [u32x4; 8], b0: &[u8], b1: &[u8], b2: &[u8], b3: &[u8])
    requires { (length b0.now ≡ 64) × (length b1.now ≡ 64) × (length b2.now ≡ 64) × (length b3.now ≡ 64) }
    ensures { (j : ℕ) → j < 4
        → lane j hash.new ≡ compress (lane j hash.old) (of_four b0.now b1.now b2.now b3.now j) }
{
    let mut w = [u32x4::splat(0); 64];
    'load: for t in 0..16 {
        let word = words_of(b0, b1, b2, b3, 4 * t);
        w[t] = word;
    }
    compress(hash, &mut w);
}

/// Digests four messages in lanes. One that has ended leaves its lane to blocks that no digest looks at.
fn digest_in_lanes(a: &[u8], b: &[u8], c: &[u8], d: &[u8]) -> Digests
    ensures { result ≡ (sha256 a.now, sha256 b.now, sha256 c.now, sha256 d.now) }
{
    let (a_tail, b_tail, c_tail, d_tail) = (tail_of(a), tail_of(b), tail_of(c), tail_of(d));
    let (a_count, b_count) = (block_count(a), block_count(b));
    let (c_count, d_count) = (block_count(c), block_count(d));
    let mut digests = ([0; 32], [0; 32], [0; 32], [0; 32]);
    let mut hash = [u32x4::splat(0); 8];
    start(&mut hash);
    let longest = a_count.max(b_count).max(c_count).max(d_count);
    'run: for i in 0..longest {
        compress4(
            &mut hash,
            block(a, &a_tail, i),
            block(b, &b_tail, i),
            block(c, &c_tail, i),
            block(d, &d_tail, i),
        );
        end_lane(&mut digests.0, &hash, 0, i + 1 == a_count);
        end_lane(&mut digests.1, &hash, 1, i + 1 == b_count);
        end_lane(&mut digests.2, &hash, 2, i + 1 == c_count);
        end_lane(&mut digests.3, &hash, 3, i + 1 == d_count);
    }
    digests
}

/// Counts the blocks of the longest of four messages, and those of all four, each with one block of padding.
pub(crate) fn longest_and_all(messages: Four<'_>) -> (usize, usize)
    ensures longest { result.0 ≤ 2 ^ 58 }
    ensures all { result.1 ≤ 2 ^ 60 }
{
    let (a, b) = (messages.0.len() / 64 + 1, messages.1.len() / 64 + 1);
    let (c, d) = (messages.2.len() / 64 + 1, messages.3.len() / 64 + 1);
    (a.max(b).max(c).max(d), a + b + c + d)
}

/// Says whether lanes take less time than four digests by themselves. In lanes the longest message takes, as measured,
/// 9/5 of the time that it takes by itself, and the other three take none.
fn lanes_pay(messages: Four<'_>) -> bool {
    let (longest, all) = longest_and_all(messages);
    longest * 9 < all * 5
}

/// Gives the SHA-256 of each of four messages, in their order.
pub fn digest4(a: &[u8], b: &[u8], c: &[u8], d: &[u8]) -> Digests
    ensures { result ≡ (sha256 a.now, sha256 b.now, sha256 c.now, sha256 d.now) }
{
    if lanes_pay((a, b, c, d)) {
        digest_in_lanes(a, b, c, d)
    } else {
        (
            Sha256::digest(a),
            Sha256::digest(b),
            Sha256::digest(c),
            Sha256::digest(d),
        )
    }
}
