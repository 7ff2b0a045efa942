//! The list that `stage` writes of its sources and `publish` reads: of each its name, the length of its copy, and its
//! version or why it has none. It is a data set in Explicit VR (PS3.5 section 7) with private elements (PS3.5
//! section 7.8.1), and no file of PS3.10: it has no preamble and no File Meta Information.
//!
//! Its promise: `write_stage` sends the bytes that spell the list, and then their SHA-256. `read_stage` gives the one
//! list that bytes with such an end spell, or says which item spells no source.
#![tactic(auto)]

mod cell;
mod code;
mod comparing;
mod digests;
mod fault_reading;
mod item_cells;
mod item_reading;
pub mod laws;
mod reading;
mod sizes;
mod source_fault;
mod stage_fault;
mod staged;
mod tags;
mod type_facts;
mod values;
mod version_reading;
mod writing;

pub use reading::read_stage;
pub use sizes::stage_size;
pub use source_fault::SourceFault;
pub use stage_fault::StageFault;
pub use staged::Staged;
pub use writing::write_stage;
