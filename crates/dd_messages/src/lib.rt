//! The lines FAULT, SKIP, NOTE, PLAN and DONE, in words or as JSON objects (RFC 8259), printed without taking memory.
//!
//! What each says stands at its function.
#![tactic(auto)]

mod class_names;
mod counts;
mod fault_json;
mod fault_line;
mod note_json;
mod note_lines;
mod shell_path;
mod shown_hints;

pub use class_names::class_name;
pub use counts::{Ending, print_counts, print_images};
pub use fault_json::print_broken_json;
pub use fault_line::{FaultLine, RefusalForm, print_fault, print_general, print_inside};
pub use note_json::{
    print_conflict_json, print_counts_json, print_images_json, print_left_out_json,
    print_names_json, print_withdrawn_json,
};
pub use note_lines::{
    print_left_out, print_names, tell_skip, tell_unlisted_uid, tell_unreached_set,
};
pub use shell_path::{ShellPath, ShellPathText};
pub use shown_hints::ShownHints;
