//! The compression of a block of each message, one message in each lane (FIPS 180-4, 6.2.2).

ghost use Rattle.std.specs.Prelude.{◌≡◌, ◌+◌, ◌<◌, ◌≤◌, ℕ, List, length};
ghost use Rattle.sha2.specs.Sha256.{add_state, compress, rounds, schedule, word_at};
ghost use Rattle.sha256_lanes.specs.Lanes.{IsScheduled, IsLoaded, lane};

use crate::constants::K;
use crate::functions::{add, big_sigma0, big_sigma1, ch, maj, small_sigma0, small_sigma1, splat};
use std::simd::Simd;

/// Gives the word at this byte, high byte first.
#[inline(always)]
pub(crate) fn word_of(block: &[u8], at: usize) -> u32
    requires { at + 4 ≤ length block.now }
    ensures { result ≡ word_at block.now at }
{
    u32::from_be_bytes([block[at], block[at + 1], block[at + 2], block[at + 3]])
}

/// Writes the message schedules after their first 16 words, which are those of the blocks (step 1).
#[inline(always)]
fn prepare_schedule<const N: usize>(w: &mut [Simd<u32, N>; 64])
    ensures { (j : ℕ) (b : List ℕ) → j < N → IsLoaded w.old j b → IsScheduled w.new j b }
{
    'next: for t in 16..64 {
        let s1 = small_sigma1(w[t - 2]);
        let word = add(s1, w[t - 7]);
        let s0 = small_sigma0(w[t - 15]);
        let word = add(word, s0);
        let word = add(word, w[t - 16]);
        w[t] = word;
    }
}

/// Makes round `t` on the working variables (step 3).
#[inline(always)]
fn round<const N: usize>(
    w: &[Simd<u32, N>; 64],
    v: [Simd<u32, N>; 8],
    t: usize,
) -> [Simd<u32, N>; 8]
    requires { t < 64 }
    ensures { (j : ℕ) (b h : List ℕ) → j < N → IsScheduled w.now j b → lane j v.entry ≡ rounds h (schedule b 48) t
        → lane j result ≡ rounds h (schedule b 48) (t + 1) }
{
    let [a, b, c, d, e, f, g, h] = v;
    let s1 = big_sigma1(e);
    let t1 = add(h, s1);
    let chosen = ch(e, f, g);
    let t1 = add(t1, chosen);
    let constant = splat(K[t]);
    let t1 = add(t1, constant);
    let t1 = add(t1, w[t]);
    let s0 = big_sigma0(a);
    let most = maj(a, b, c);
    let t2 = add(s0, most);
    let first = add(t1, t2);
    let fifth = add(d, t1);
    let mut next = v;
    next[0] = first;
    next[1] = a;
    next[2] = b;
    next[3] = c;
    next[4] = fifth;
    next[5] = e;
    next[6] = f;
    next[7] = g;
    next
}

#[inline(always)]
fn eight_rounds<const N: usize>(
    w: &[Simd<u32, N>; 64],
    v: [Simd<u32, N>; 8],
    t: usize,
) -> [Simd<u32, N>; 8]
    requires { t + 8 ≤ 64 }
    ensures { (j : ℕ) (b h : List ℕ) → j < N → IsScheduled w.now j b → lane j v.entry ≡ rounds h (schedule b 48) t
        → lane j result ≡ rounds h (schedule b 48) (t + 8) }
{
    let v = round(w, v, t);
    let v = round(w, v, t + 1);
    let v = round(w, v, t + 2);
    let v = round(w, v, t + 3);
    let v = round(w, v, t + 4);
    let v = round(w, v, t + 5);
    let v = round(w, v, t + 6);
    round(w, v, t + 7)
}

/// Unrolled, which is faster than a loop.
#[inline(always)]
fn all_rounds<const N: usize>(w: &[Simd<u32, N>; 64], h: [Simd<u32, N>; 8]) -> [Simd<u32, N>; 8]
    ensures { (j : ℕ) (b : List ℕ) → j < N → IsScheduled w.now j b
        → lane j result ≡ rounds (lane j h.entry) (schedule b 48) 64 }
{
    let v = eight_rounds(w, h, 0);
    let v = eight_rounds(w, v, 8);
    let v = eight_rounds(w, v, 16);
    let v = eight_rounds(w, v, 24);
    let v = eight_rounds(w, v, 32);
    let v = eight_rounds(w, v, 40);
    let v = eight_rounds(w, v, 48);
    eight_rounds(w, v, 56)
}

/// Adds the working variables to the hash value (step 4).
#[inline(always)]
fn add_state<const N: usize>(h: [Simd<u32, N>; 8], v: [Simd<u32, N>; 8]) -> [Simd<u32, N>; 8]
    ensures { (j : ℕ) → j < N → lane j result ≡ add_state (lane j h.entry) (lane j v.entry) }
{
    let [h0, h1, h2, h3, h4, h5, h6, h7] = h;
    let [a, b, c, d, e, f, g, h] = v;
    let s0 = add(h0, a);
    let s1 = add(h1, b);
    let s2 = add(h2, c);
    let s3 = add(h3, d);
    let s4 = add(h4, e);
    let s5 = add(h5, f);
    let s6 = add(h6, g);
    let s7 = add(h7, h);
    let mut sum = v;
    sum[0] = s0;
    sum[1] = s1;
    sum[2] = s2;
    sum[3] = s3;
    sum[4] = s4;
    sum[5] = s5;
    sum[6] = s6;
    sum[7] = s7;
    sum
}

/// Takes the block of each message that is loaded into its hash value.
#[inline(always)]
pub(crate) fn compress<const N: usize>(hash: &mut [Simd<u32, N>; 8], w: &mut [Simd<u32, N>; 64])
    ensures { (j : ℕ) (b : List ℕ) → j < N → IsLoaded w.old j b
        → lane j hash.new ≡ compress (lane j hash.old) b }
{
    prepare_schedule(w);
    let before = *hash;
    let v = all_rounds(w, before);
    *hash = add_state(before, v);
}
