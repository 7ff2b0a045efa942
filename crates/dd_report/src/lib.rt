//! Reports on a directory, on its records and on the files that they name, and sends the lines to a device without
//! taking memory.
//!
//! What it promises stands at `list_file_set`, `list_records`, `check_records` and `finding_of`.
#![tactic(auto)]

mod agreements;
mod batch;
mod checking;
mod file_set_listing;
mod finding_json;
mod findings;
mod found_records;
mod known;
mod listing;
mod record_json;
mod telling;
mod words;

pub use checking::{Check, Comparison, ReportFault, check_records};
pub use file_set_listing::{Listing, list_file_set};
pub use findings::{Finding, finding_of};
pub use known::Form;
pub use listing::list_records;
