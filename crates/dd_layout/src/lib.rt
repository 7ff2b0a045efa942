//! The plan of a directory (PS3.3 section F.3 to F.5, PS3.10 section 8): which records the versions of a catalogue
//! have, and where each stands in the file.
//!
//! Its one promise: the records of a plan are the tree of its versions in harmony, each with the offset that its
//! bytes have. What is refused has two versions in conflict or passes a limit, or `lay_out` answers
//! `PlanFault::Memory`.
#![tactic(auto)]

mod fault;
mod laws;
mod layout;
mod limits;
mod links;
mod nodes;
mod offsets;
mod order;
mod plan;
mod ranks;
mod under;

pub use fault::PlanFault;
pub use laws::{
    four_images_are_planned, harmony_keeps_the_tree, offsets_are_within, rows_are_known,
    tree_is_one, tree_is_tree, walk_gives_the_tree,
};
pub use layout::{lay_out, lay_out_harmony};
pub use limits::Limits;
pub use plan::Plan;
