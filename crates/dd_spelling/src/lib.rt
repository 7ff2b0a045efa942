//! The names under which systems show the files of a disc.
//!
//! Its promise: `spellings` lists the names of `shown`, in their order.
#![tactic(auto)]

mod spelling;

pub use spelling::{Spelling, spellings};
