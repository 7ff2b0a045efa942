//! Keeps the bytes of files until four or eight are digested at once. Its promise: the digest of a slot is the SHA-256
//! (FIPS 180-4) of all that it took.
#![tactic(auto)]

mod digests;
mod slot;

pub use digests::{FourSlots, Lanes, digest_slots};
pub use sha256_lanes::Digests;
pub use slot::Slot;
