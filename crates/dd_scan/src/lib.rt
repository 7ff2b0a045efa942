//! Data sets read from a stream with every check of the grammar, of which a summary of the wanted elements is kept
//! (PS3.5 sections 6.2 and 7, annex A).
//!
//! Its one promise: a scan answers as reading all that a reader gave would: of the same set, or by the same first check
//! that fails. It holds only what was asked for, and needs memory only where such an element is there.
#![tactic(auto)]

mod cleaning;
mod cursor;
mod found;
mod scan_fault;
mod scanning;
mod skipping;
mod summary;
mod top_set;

pub use found::{Found, FoundValue, Scan};
pub use scan_fault::ScanFault;
pub use scanning::scan;
pub use summary::Summary;
pub use top_set::take_set;
