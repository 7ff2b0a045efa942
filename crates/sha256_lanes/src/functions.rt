//! The functions of SHA-256 on words (FIPS 180-4, 3.2 and 4.1.2), in each lane.

ghost use Rattle.std.specs.Prelude.{◌≡◌, ◌/◌, ◌^◌, ◌<◌, ℕ, bit_and, bit_xor, slice_index};
ghost use Rattle.std.specs.Int.{w32, bit_not, rotate_right};
ghost use Rattle.sha2.specs.Sha256.{add32, big_sigma0, big_sigma1, ch, maj, small_sigma0, small_sigma1};

use std::simd::Simd;

/// Adds the words of each lane, modulo 2^32 (3.2).
#[inline(always)]
pub(crate) fn add<const N: usize>(a: Simd<u32, N>, b: Simd<u32, N>) -> Simd<u32, N>
    ensures { (j : ℕ) → j < N → slice_index result j ≡ add32 (slice_index a.entry j) (slice_index b.entry j) }
{
    a + b
}

#[inline(always)]
fn and<const N: usize>(a: Simd<u32, N>, b: Simd<u32, N>) -> Simd<u32, N>
    ensures { (j : ℕ) → j < N → slice_index result j ≡ bit_and (slice_index a.entry j) (slice_index b.entry j) }
{
    a & b
}

#[inline(always)]
fn xor<const N: usize>(a: Simd<u32, N>, b: Simd<u32, N>) -> Simd<u32, N>
    ensures { (j : ℕ) → j < N → slice_index result j ≡ bit_xor (slice_index a.entry j) (slice_index b.entry j) }
{
    a ^ b
}

#[inline(always)]
pub(crate) fn splat<const N: usize>(word: u32) -> Simd<u32, N>
    ensures { (j : ℕ) → j < N → slice_index result j ≡ word }
{
    Simd::splat(word)
}

/// Shifts each lane to the right by `n` bits, SHR (3.2).
#[inline(always)]
fn shift_right<const N: usize>(x: Simd<u32, N>, n: u32) -> Simd<u32, N>
    requires { n < 32 }
    ensures { (j : ℕ) → j < N → slice_index result j ≡ slice_index x.entry j / 2 ^ n }
{
    x >> Simd::splat(n)
}

/// Rotates each lane to the right by `n` bits, ROTR (3.2).
#[inline(always)]
fn rotate_right<const N: usize>(x: Simd<u32, N>, n: u32) -> Simd<u32, N>
    requires { (0 < n) × (n < 32) }
    ensures { (j : ℕ) → j < N → slice_index result j ≡ rotate_right w32 (slice_index x.entry j) n }
{
    (x >> Simd::splat(n)) | (x << Simd::splat(32 - n))
}

/// Computes Σ0 of each lane (4.1.2).
#[inline(always)]
pub(crate) fn big_sigma0<const N: usize>(x: Simd<u32, N>) -> Simd<u32, N>
    ensures { (j : ℕ) → j < N → slice_index result j ≡ big_sigma0 (slice_index x.entry j) }
{
    let near = rotate_right(x, 2);
    let middle = rotate_right(x, 13);
    let far = rotate_right(x, 22);
    let both = xor(near, middle);
    xor(both, far)
}

/// Computes Σ1 of each lane (4.1.2).
#[inline(always)]
pub(crate) fn big_sigma1<const N: usize>(x: Simd<u32, N>) -> Simd<u32, N>
    ensures { (j : ℕ) → j < N → slice_index result j ≡ big_sigma1 (slice_index x.entry j) }
{
    let near = rotate_right(x, 6);
    let middle = rotate_right(x, 11);
    let far = rotate_right(x, 25);
    let both = xor(near, middle);
    xor(both, far)
}

/// Computes σ0 of each lane (4.1.2).
#[inline(always)]
pub(crate) fn small_sigma0<const N: usize>(x: Simd<u32, N>) -> Simd<u32, N>
    ensures { (j : ℕ) → j < N → slice_index result j ≡ small_sigma0 (slice_index x.entry j) }
{
    let near = rotate_right(x, 7);
    let far = rotate_right(x, 18);
    let rest = shift_right(x, 3);
    let both = xor(near, far);
    xor(both, rest)
}

/// Computes σ1 of each lane (4.1.2).
#[inline(always)]
pub(crate) fn small_sigma1<const N: usize>(x: Simd<u32, N>) -> Simd<u32, N>
    ensures { (j : ℕ) → j < N → slice_index result j ≡ small_sigma1 (slice_index x.entry j) }
{
    let near = rotate_right(x, 17);
    let far = rotate_right(x, 19);
    let rest = shift_right(x, 10);
    let both = xor(near, far);
    xor(both, rest)
}

#[inline(always)]
fn complement<const N: usize>(x: Simd<u32, N>) -> Simd<u32, N>
    ensures { (j : ℕ) → j < N → slice_index result j ≡ bit_not w32 (slice_index x.entry j) }
{
    !x
}

/// Chooses bits of `y` where the bits of `x` are 1, and of `z` elsewhere: Ch (4.1.2).
#[inline(always)]
pub(crate) fn ch<const N: usize>(x: Simd<u32, N>, y: Simd<u32, N>, z: Simd<u32, N>) -> Simd<u32, N>
    ensures { (j : ℕ) → j < N
        → slice_index result j ≡ ch (slice_index x.entry j) (slice_index y.entry j) (slice_index z.entry j) }
{
    let chosen = and(x, y);
    let not_x = complement(x);
    let others = and(not_x, z);
    xor(chosen, others)
}

/// Takes the bits that most of `x`, `y` and `z` have: Maj (4.1.2).
#[inline(always)]
pub(crate) fn maj<const N: usize>(x: Simd<u32, N>, y: Simd<u32, N>, z: Simd<u32, N>) -> Simd<u32, N>
    ensures { (j : ℕ) → j < N
        → slice_index result j ≡ maj (slice_index x.entry j) (slice_index y.entry j) (slice_index z.entry j) }
{
    let xy = and(x, y);
    let xz = and(x, z);
    let yz = and(y, z);
    let either = xor(xy, xz);
    xor(either, yz)
}
