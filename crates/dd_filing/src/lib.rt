//! Copies image files and reads them as versions in the same pass. An answer about a copy is true of all the bytes
//! that the reader gave, and the writer took them all.
#![tactic(auto)]

mod agreeing;
mod copying;
mod files_ahead;
mod filing;
mod measured;
mod places;
mod source_copies;
mod tee;

pub use agreeing::{Filed, Wanted, one_filed};
pub use copying::FilingFault;
pub use files_ahead::{FILES_AHEAD, FilesAhead};
pub use filing::{copy_version, file_image};
pub use places::{AHEAD_LIMIT, Ahead, FileAhead};
pub use source_copies::{SourceCopy, copy_source};
