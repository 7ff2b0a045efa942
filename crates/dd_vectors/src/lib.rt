//! What all tests share: the bytes of files, known from the DICOM standard; versions and catalogues by letters; cases
//! as lines of text. Also readers and writers over memory that fail where a test wants it.
//!
//! Each test crate names it, and otherwise only the crates that it tests.
#![tactic(auto)]

mod allocations;
mod byte_source;
mod cases;
mod directories;
mod readers;
mod sink;
mod source_file;
mod texts;
mod versions;

pub use allocations::{
    ends_refused, refuse_allocation, refuse_each, refuse_in_turn, require, was_refused,
};
pub use byte_source::ByteSource;
pub use cases::{
    answered, ask_all, claim_all, cut, failing, push_lines, question, shown, words_of,
};
pub use directories::{deep, first_directory, v2, v3};
pub use readers::{reader_of, tags_of};
pub use sink::Sink;
pub use source_file::{SOURCE_ROWS, v1, v1_encapsulated, v1_implicit, v1_with};
pub use texts::{bytes_of, push_bytes, put_at, put_words, tag_of, text_of};
pub use versions::{catalogue_of, fitting, image, images, in_words, parts_of, taken, v1_version};
