//! The digests of eight messages, in lanes or four by four.

ghost use Rattle.std.specs.Prelude.{◌≡◌, ◌+◌, ◌<◌, ◌≤◌, ℕ, length, slice_index};
ghost use Rattle.sha2.specs.Sha256.{compress, sha256, word_at};
ghost use Rattle.sha256_lanes.specs.Lanes.{lane, of_eight};
ghost use Rattle.sha256_lanes.specs.Padding.{block_count};

use crate::compression::{compress, word_of};
use crate::digest::{Digests, Four, end_lane, start};
use crate::four::{digest4, longest_and_all};
use crate::padding::{block, block_count, tail_of};
use std::simd::u32x8;

#[inline(always)]
fn words_of(front: Four<'_>, back: Four<'_>, at: usize) -> u32x8
    requires { (at + 4 ≤ length front.0.now) × (at + 4 ≤ length front.1.now)
        × (at + 4 ≤ length front.2.now) × (at + 4 ≤ length front.3.now)
        × (at + 4 ≤ length back.0.now) × (at + 4 ≤ length back.1.now)
        × (at + 4 ≤ length back.2.now) × (at + 4 ≤ length back.3.now) }
    ensures { (j : ℕ) → j < 8 → slice_index result j ≡ word_at
        (of_eight front.entry.0.now front.entry.1.now front.entry.2.now front.entry.3.now
        back.entry.0.now back.entry.1.now back.entry.2.now back.entry.3.now j) at }
{
    let w0 = word_of(front.0, at);
    let w1 = word_of(front.1, at);
    let w2 = word_of(front.2, at);
    let w3 = word_of(front.3, at);
    let w4 = word_of(back.0, at);
    let w5 = word_of(back.1, at);
    let w6 = word_of(back.2, at);
    let w7 = word_of(back.3, at);
    u32x8::from_array([w0, w1, w2, w3, w4, w5, w6, w7])
}

/// Takes a block of each message into its hash value.
fn compress8(hash: &mut [u32x8; 8], front: Four<'_>, back: Four<'_>)
    requires { (length front.0.now ≡ 64) × (length front.1.now ≡ 64)
        × (length front.2.now ≡ 64) × (length front.3.now ≡ 64)
        × (length back.0.now ≡ 64) × (length back.1.now ≡ 64)
        × (length back.2.now ≡ 64) × (length back.3.now ≡ 64) }
    ensures { (j : ℕ) → j < 8
        → lane j hash.new ≡ compress (lane j hash.old)
        (of_eight front.entry.0.now front.entry.1.now front.entry.2.now front.entry.3.now
        back.entry.0.now back.entry.1.now back.entry.2.now back.entry.3.now j) }
{
    let mut w = [u32x8::splat(0); 64];
    'load: for t in 0..16 {
        let word = words_of(front, back, 4 * t);
        w[t] = word;
    }
    compress(hash, &mut w);
}

fn most_blocks(messages: Four<'_>) -> usize
    ensures first { block_count messages.entry.0.now ≤ result }
    ensures second { block_count messages.entry.1.now ≤ result }
    ensures third { block_count messages.entry.2.now ≤ result }
    ensures fourth { block_count messages.entry.3.now ≤ result }
{
    let front = block_count(messages.0).max(block_count(messages.1));
    let back = block_count(messages.2).max(block_count(messages.3));
    front.max(back)
}

/// Digests eight messages in lanes. One that has ended leaves its lane to blocks that no digest looks at.
fn digest_in_lanes(front: Four<'_>, back: Four<'_>) -> (Digests, Digests)
    ensures { result ≡ (
      (
        sha256 front.entry.0.now,
        sha256 front.entry.1.now,
        sha256 front.entry.2.now,
        sha256 front.entry.3.now,
      ),
      (
        sha256 back.entry.0.now,
        sha256 back.entry.1.now,
        sha256 back.entry.2.now,
        sha256 back.entry.3.now,
      ),
    ) }
{
    let (a, b, c, d) = front;
    let (e, f, g, h) = back;
    let (a_tail, a_count) = (tail_of(a), block_count(a));
    let (b_tail, b_count) = (tail_of(b), block_count(b));
    let (c_tail, c_count) = (tail_of(c), block_count(c));
    let (d_tail, d_count) = (tail_of(d), block_count(d));
    let (e_tail, e_count) = (tail_of(e), block_count(e));
    let (f_tail, f_count) = (tail_of(f), block_count(f));
    let (g_tail, g_count) = (tail_of(g), block_count(g));
    let (h_tail, h_count) = (tail_of(h), block_count(h));
    let mut fronts = ([0; 32], [0; 32], [0; 32], [0; 32]);
    let mut backs = ([0; 32], [0; 32], [0; 32], [0; 32]);
    let mut hash = [u32x8::splat(0); 8];
    start(&mut hash);
    let longest = most_blocks(front).max(most_blocks(back));
    'run: for i in 0..longest {
        let front_blocks = (
            block(a, &a_tail, i),
            block(b, &b_tail, i),
            block(c, &c_tail, i),
            block(d, &d_tail, i),
        );
        let back_blocks = (
            block(e, &e_tail, i),
            block(f, &f_tail, i),
            block(g, &g_tail, i),
            block(h, &h_tail, i),
        );
        compress8(&mut hash, front_blocks, back_blocks);
        end_lane(&mut fronts.0, &hash, 0, i + 1 == a_count);
        end_lane(&mut fronts.1, &hash, 1, i + 1 == b_count);
        end_lane(&mut fronts.2, &hash, 2, i + 1 == c_count);
        end_lane(&mut fronts.3, &hash, 3, i + 1 == d_count);
        end_lane(&mut backs.0, &hash, 4, i + 1 == e_count);
        end_lane(&mut backs.1, &hash, 5, i + 1 == f_count);
        end_lane(&mut backs.2, &hash, 6, i + 1 == g_count);
        end_lane(&mut backs.3, &hash, 7, i + 1 == h_count);
    }
    (fronts, backs)
}

/// Says whether eight lanes take less time than four and four. In eight the longest message takes, as measured at
/// x86-64-v3, twice the time that it takes by itself, and the other seven take none. In four it takes 9/5.
fn lanes_pay(front: Four<'_>, back: Four<'_>) -> bool {
    let (front_longest, front_all) = longest_and_all(front);
    let (back_longest, back_all) = longest_and_all(back);
    let front_time = (front_longest * 9).min(front_all * 5);
    let back_time = (back_longest * 9).min(back_all * 5);
    front_longest.max(back_longest) * 10 < front_time + back_time
}

/// Gives the SHA-256 of each of eight messages, in their order.
pub fn digest8(front: Four<'_>, back: Four<'_>) -> (Digests, Digests)
    ensures { result ≡ (
      (
        sha256 front.entry.0.now,
        sha256 front.entry.1.now,
        sha256 front.entry.2.now,
        sha256 front.entry.3.now,
      ),
      (
        sha256 back.entry.0.now,
        sha256 back.entry.1.now,
        sha256 back.entry.2.now,
        sha256 back.entry.3.now,
      ),
    ) }
{
    if lanes_pay(front, back) {
        digest_in_lanes(front, back)
    } else {
        (
            digest4(front.0, front.1, front.2, front.3),
            digest4(back.0, back.1, back.2, back.3),
        )
    }
}
