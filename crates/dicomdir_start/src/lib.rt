//! Runs the program `dicomdir` over the files and the outputs of the system.
#![tactic(auto)]

mod entry;
mod word_text;

pub use entry::start;
