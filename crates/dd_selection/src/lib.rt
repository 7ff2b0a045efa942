//! Finds the records of a directory that a person asks for (PS3.3 section F.4).
//!
//! Its one promise: what is left are the records that lie under all that is asked for, and those above them, in the
//! order of the directory.
#![tactic(auto)]

mod cuts;
mod selection;

pub use cuts::select;
pub use selection::Selection;
