//! Sources: files that are opened by number, and read once each for their versions (PS3.10 section 7).
//!
//! Its one promise: each source has the answer for its bytes, or the first that failed is named.
#![tactic(auto)]

mod batch;
mod engine_fault;
mod readings;
mod sources;
mod supply;

pub use engine_fault::EngineFault;
pub use readings::{Readings, read_past_failures};
pub use sources::{Sources, read_sources};
pub use supply::Supply;
