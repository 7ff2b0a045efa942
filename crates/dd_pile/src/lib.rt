//! Piles: folders that hold a copy of each of many sources, and the list of these, by which a file-set is made later.
//!
//! Its promise: a pile has the bytes of each source, and its list says of each what `index` finds in them, or that it
//! was not read. The list is created once every copy is stored.
#![tactic(auto)]

mod copies;
mod list;
mod paths;
mod pile_fault;
mod reading_ahead;
mod refusal;
mod source;
mod staging;
mod sum;

pub use list::read_pile;
pub use paths::{STAGED, copy_path};
pub use pile_fault::PileFault;
pub use refusal::StageRefusal;
pub use source::StageSource;
pub use staging::stage_sources;
pub use sum::StageSum;
