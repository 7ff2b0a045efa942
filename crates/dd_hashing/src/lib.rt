//! A writer that hashes what it takes. Its promise: the digest is the SHA-256 (FIPS 180-4) of all bytes that it took.
#![tactic(auto)]

mod digester;
mod message;

pub use digester::Digester;
