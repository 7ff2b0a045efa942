//! SHA-256 of four or eight messages at once (FIPS 180-4): each word is a vector, with one lane for each message.
//!
//! Its one promise: each digest is the one that `sha2` gives.
#![tactic(auto)]

mod compression;
mod constants;
mod digest;
mod eight;
mod four;
mod functions;
mod padding;

pub use digest::{Digests, Four};
pub use eight::digest8;
pub use four::digest4;
