//! Lists or checks one file-set (PS3.10 section 8).
#![tactic(auto)]

mod inspecting;
mod set_directory;

pub use inspecting::{check_of, listing_of, run_check, run_list};
pub use set_directory::{directory_bytes, refusal_of};
