//! DICOM files (PS3.10 section 7) in the transfer syntaxes of `dd_version`.
//!
//! Its one promise: what is read as a file is one, and what is one is read. A refusal names the first check that the
//! bytes fail, or lack of memory. `read_file` makes the same checks on the bytes of a reader, and holds of the data set
//! only what was asked for. A head that is written is the head of a file with its meta information.
#![tactic(auto)]

mod fault;
mod feed_file;
mod file;
mod group;
mod head;
mod reading;
mod scanned;
mod stream_fault;
mod streaming;

pub use dd_encoding::{Meta, head_size, write_head};
pub use dd_version::TRANSFER;
pub use fault::FileFault;
pub use feed_file::take_file;
pub use file::DicomFile;
pub use head::head_makes_file;
pub use reading::parse_file;
pub use scanned::Scanned;
pub use stream_fault::StreamFault;
pub use streaming::read_file;
