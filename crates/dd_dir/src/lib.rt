//! Directories of file-sets, written, and those written here read again (PS3.3 annex F, PS3.10 section 8).
//!
//! Its one promise: the bytes written for a catalogue are one directory, whose offsets realise the tree of its
//! versions, and which says each version and each withdrawn UID again. Only where an allocation is refused is Memory
//! answered instead.
#![tactic(auto)]

mod buffer;
mod cells;
mod derived;
mod directory_writing;
mod laws;
mod listed_images;
mod own;
mod own_checks;
mod own_fault;
mod own_keys;
mod publishing;
mod record_keys;
mod records;
mod roots;
mod well_formed;
mod withdrawal_writing;
mod withdrawn;

pub use derived::{derived_uid, lay_out_derived, lay_out_derived_harmony};
pub use directory_writing::write_directory;
pub use laws::{
    directory_is_as_long_as_planned, four_images_have_two_roots, harmony_keeps_the_directory,
    same_versions_same_directory,
};
pub use own::{Own, Place, catalogue_of, own_of, places_of};
pub use own_fault::OwnFault;
pub use publishing::{assemble, publish};
