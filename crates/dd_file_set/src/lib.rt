//! Makes a file-set: the images of its plan in its folder, and then the directory (PS3.10 section 8).
//!
//! Its promise stands at `write_file_set`.
#![tactic(auto)]

mod copies;
mod file_set;
mod images;
mod links;
mod origins;
mod reading_ahead;

pub use file_set::{FileSet, write_file_set};
pub use origins::{Lookup, Origins};
