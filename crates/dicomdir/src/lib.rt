//! The program `dicomdir`, over any files and outputs: makes a file-set from sources or from other file-sets (PS3.3
//! annex F, PS3.10 section 8). Re-exports its libraries.
//!
//! `run` has its contract.
#![tactic(auto)]

mod counted_reader;
mod dates;
mod file_supply;
mod index;
mod making;
mod merging;
mod names;
mod note_lines;
mod origins;
mod pile_path;
mod piles;
mod program;
mod publishing;
mod set_directories;
mod set_note_lines;
mod set_sum;
mod shown_path;
mod skipped_classes;
mod source_counts;
mod staged_json;
mod staging;
mod sum;
mod telling;
mod unread;

pub use dd_engine::{
    Choice, Indexed, MergeFault, Merged, Pick, first_saying, index_engine, merge_engine,
    withdraw_engine,
};
pub use dd_faults::ProgramFault;
pub use dd_files::{CopyFault, Files, Hints, NotDone, NotThere, Progress, copy_image, digest_text};
pub use dd_filing::{Filed, Wanted, file_image};
pub use dd_line::{Asked, LineFault, Verb, read_words};
pub use dd_lines::{print_line, send_text};
pub use dd_report::{Finding, finding_of};
pub use dd_slots::Lanes;
pub use dd_sources::{EngineFault, Supply};
pub use program::run;
