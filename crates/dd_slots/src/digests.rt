ghost use Rattle.std.specs.Prelude.{◌≡◌, ◌<◌, ℕ, List, IfSome};
ghost use Rattle.sha2.specs.Sha256.{sha256};
ghost use Rattle.dd_slots.specs.Slots.{IsSlotOf, lane_count};

use crate::slot::Slot;
use sha2::{Digest, Sha256};
use sha256_lanes::{Digests, Four, digest4, digest8};

const MEBIBYTE: usize = 1024 * 1024;

/// Says how many files are digested at once: four is fastest on x86-64-v2, eight on x86-64-v3.
#[derive(Clone, Copy, Debug, PartialEq, Eq)]
pub enum Lanes {
    Four,
    Eight,
}

impl Lanes {
    /// Gives this number.
    pub fn count(self) -> usize
        ensures { result ≡ lane_count self }
    {
        match self {
            Lanes::Four => 4,
            Lanes::Eight => 8,
        }
    }

    /// Says from how many bytes on slots are digested before another is filled. With it, all take at most 32 MiB.
    pub fn most_bytes(self) -> usize
        ensures { 0 < result }
    {
        match self {
            Lanes::Four => 32 * MEBIBYTE,
            Lanes::Eight => 23 * MEBIBYTE,
        }
    }

    /// Gives the memory that a slot without bytes keeps at most. Of eight it is 1 MiB in all.
    pub(crate) fn most_memory(self) -> usize {
        match self {
            Lanes::Four => 8 * MEBIBYTE,
            Lanes::Eight => MEBIBYTE / 8,
        }
    }
}

/// Four of eight slots.
pub type FourSlots<'a> = (&'a Slot, &'a Slot, &'a Slot, &'a Slot);

/// Computes the SHA-256 of each of eight slots, whatever `lanes` is: side by side where all that are digested at once
/// keep their bytes, else one by one.
pub fn digest_slots(lanes: Lanes, front: FourSlots<'_>, back: FourSlots<'_>) -> (Digests, Digests)
    ensures first { (bytes : List ℕ) → IsSlotOf front.entry.0.now bytes → result.0.0 ≡ sha256 bytes }
    ensures second { (bytes : List ℕ) → IsSlotOf front.entry.1.now bytes → result.0.1 ≡ sha256 bytes }
    ensures third { (bytes : List ℕ) → IsSlotOf front.entry.2.now bytes → result.0.2 ≡ sha256 bytes }
    ensures fourth { (bytes : List ℕ) → IsSlotOf front.entry.3.now bytes → result.0.3 ≡ sha256 bytes }
    ensures fifth { (bytes : List ℕ) → IsSlotOf back.entry.0.now bytes → result.1.0 ≡ sha256 bytes }
    ensures sixth { (bytes : List ℕ) → IsSlotOf back.entry.1.now bytes → result.1.1 ≡ sha256 bytes }
    ensures seventh { (bytes : List ℕ) → IsSlotOf back.entry.2.now bytes → result.1.2 ≡ sha256 bytes }
    ensures eighth { (bytes : List ℕ) → IsSlotOf back.entry.3.now bytes → result.1.3 ≡ sha256 bytes }
{
    match lanes {
        Lanes::Four => (digest_four(front), digest_four(back)),
        Lanes::Eight => digest_eight(front, back),
    }
}

fn digest_eight(front: FourSlots<'_>, back: FourSlots<'_>) -> (Digests, Digests)
    ensures first { (bytes : List ℕ) → IsSlotOf front.entry.0.now bytes → result.0.0 ≡ sha256 bytes }
    ensures second { (bytes : List ℕ) → IsSlotOf front.entry.1.now bytes → result.0.1 ≡ sha256 bytes }
    ensures third { (bytes : List ℕ) → IsSlotOf front.entry.2.now bytes → result.0.2 ≡ sha256 bytes }
    ensures fourth { (bytes : List ℕ) → IsSlotOf front.entry.3.now bytes → result.0.3 ≡ sha256 bytes }
    ensures fifth { (bytes : List ℕ) → IsSlotOf back.entry.0.now bytes → result.1.0 ≡ sha256 bytes }
    ensures sixth { (bytes : List ℕ) → IsSlotOf back.entry.1.now bytes → result.1.1 ≡ sha256 bytes }
    ensures seventh { (bytes : List ℕ) → IsSlotOf back.entry.2.now bytes → result.1.2 ≡ sha256 bytes }
    ensures eighth { (bytes : List ℕ) → IsSlotOf back.entry.3.now bytes → result.1.3 ≡ sha256 bytes }
{
    match (kept_by(front), kept_by(back)) {
        (_, Some((&[], &[], &[], &[]))) => (digest_four(front), digest_four(back)),
        (Some(front), Some(back)) => digest8(front, back),
        _ => (digest_four(front), digest_four(back)),
    }
}

fn digest_four(slots: FourSlots<'_>) -> Digests
    ensures first { (bytes : List ℕ) → IsSlotOf slots.entry.0.now bytes → result.0 ≡ sha256 bytes }
    ensures second { (bytes : List ℕ) → IsSlotOf slots.entry.1.now bytes → result.1 ≡ sha256 bytes }
    ensures third { (bytes : List ℕ) → IsSlotOf slots.entry.2.now bytes → result.2 ≡ sha256 bytes }
    ensures fourth { (bytes : List ℕ) → IsSlotOf slots.entry.3.now bytes → result.3 ≡ sha256 bytes }
{
    match kept_by(slots) {
        Some((&[], &[], &[], &[])) => {
            let empty = Sha256::digest(&[]);
            (empty, empty, empty, empty)
        }
        Some((a, b, c, d)) => digest4(a, b, c, d),
        None => (
            slots.0.digest(),
            slots.1.digest(),
            slots.2.digest(),
            slots.3.digest(),
        ),
    }
}

/// Gives the bytes of four slots. None where one has hashed them as they came.
fn kept_by<'a>(slots: FourSlots<'a>) -> Option<Four<'a>>
    ensures first { (bytes : List ℕ) → IsSlotOf slots.entry.0.now bytes → IfSome result (λ kept. kept.0.now ≡ bytes) }
    ensures second { (bytes : List ℕ) → IsSlotOf slots.entry.1.now bytes → IfSome result (λ kept. kept.1.now ≡ bytes) }
    ensures third { (bytes : List ℕ) → IsSlotOf slots.entry.2.now bytes → IfSome result (λ kept. kept.2.now ≡ bytes) }
    ensures fourth { (bytes : List ℕ) → IsSlotOf slots.entry.3.now bytes → IfSome result (λ kept. kept.3.now ≡ bytes) }
{
    Some((
        slots.0.bytes()?,
        slots.1.bytes()?,
        slots.2.bytes()?,
        slots.3.bytes()?,
    ))
}
