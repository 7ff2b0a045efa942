//! Gives the paths of a command line, and the names of its list.
#![tactic(auto)]

mod empty_paths;
mod line_paths;
mod listed_names;
mod source_paths;
mod taken;

pub use empty_paths::empty_path;
pub use line_paths::{LinePaths, from_of, list_of, looked_up, paths_of, written_in};
pub use listed_names::{AllSources, masked};
pub use source_paths::{all_sources, bad_names_in, paths_or};
