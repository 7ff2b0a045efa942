//! The files of the system for `dicomdir`.
#![tactic(auto)]

mod again;
mod as_files;
mod counted;
mod host_files;
mod last_refusal;
mod linking;
mod members;
mod noted;
mod opening;
mod output;
mod path_buffer;
mod path_folder;
mod progress_line;
mod search;
mod storing;
mod system;

pub use counted::Counted;
pub use host_files::HostFiles;
pub use last_refusal::LastRefusal;
pub use noted::Noted;
pub use system::System;
