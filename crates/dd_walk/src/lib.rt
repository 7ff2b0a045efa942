//! Directories of file-sets, read (PS3.3 annex F, PS3.10 section 8).
//!
//! Its one promise: a directory of any producer is read as the one walk that its offsets give, or refused by the first
//! check that fails. Only where an allocation is refused is Memory answered instead.
#![tactic(auto)]

mod directory;
mod directory_walk;
mod fault;
mod forest;
mod links;
mod pending;
mod values;
mod walk;
mod walk_laws;

pub use directory_walk::read_directory;
pub use fault::DirFault;
pub use forest::{Forest, Tree};
pub use values::digest_in;
pub use walk_laws::{walk_is_one, walk_or_refusal};
