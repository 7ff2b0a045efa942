//! Plans the directory of the best versions of all images of sources, or of directories (PS3.3 annex F); and finds the
//! record that files an image as a plan does.
#![tactic(auto)]

mod basis;
mod choice;
mod conflict;
mod engine;
mod findings;
mod found_sources;
mod gathering;
mod laws;
mod left_out;
mod marks;
mod mentions;
mod merge;
mod merge_fault;
mod noted_index;
mod noted_merge;
mod notes;
mod past_failures;
mod patient_names;
mod picks;
mod planning;
mod saying;
mod set_notes;
mod withdraw;

pub use choice::Choice;
pub use engine::{Indexed, index_engine};
pub use found_sources::{FoundSources, publish_engine};
pub use laws::{same_sets_have_one_plan, same_versions_have_one_plan};
pub use merge::{Merged, Pick, merge_engine};
pub use merge_fault::MergeFault;
pub use noted_index::{NotedIndex, index_with_notes};
pub use noted_merge::{NotedMerge, merge_with_notes, withdraw_with_notes};
pub use notes::{ConflictingFiles, LeftOut, NotedFault, Notes};
pub use past_failures::{PastFailures, index_past_failures};
pub use patient_names::PatientNames;
pub use saying::first_saying;
pub use set_notes::{SetNotes, Unreached, WithdrawnImage};
pub use withdraw::withdraw_engine;
