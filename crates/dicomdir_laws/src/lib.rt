//! What follows of any two runs of the program, or of one, from the contract of `run` (dicomdir).
#![tactic(auto)]

mod laws;

pub use laws::{
    a_merge_of_parts_is_the_whole, a_published_pile_is_the_index_of_its_sources,
    a_set_merged_again_keeps_its_directory, each_kept_instance_is_visited_once,
    same_versions_leave_one_directory,
};
