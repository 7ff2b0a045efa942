//! How data sets and the heads of files are encoded (PS3.5 sections 6, 7 and 10, annex A; PS3.10 section 7.1). It
//! reads nothing.
//!
//! Its one promise: a sent header spells its tag, value representation and length, and a sent head is the one of its
//! meta information.
#![tactic(auto)]

mod encodings;
mod head;
mod header_sending;
mod headers;
mod meta;
mod preamble;
mod syntax;

pub use head::{head_size, write_head};
pub use header_sending::send_header;
pub use headers::{
    DELIMITER_GROUP, HEADER_SIZE, ITEM, ITEM_END, LONG_HEADER_SIZE, LONG_LENGTH_SIZE, SEQUENCE_END,
    TAG_SIZE, item_header, plain_header,
};
pub use meta::{CLASS, GROUP_LENGTH, INSTANCE, META_GROUP, Meta};
pub use preamble::{
    COUNT_HEADER, COUNT_LENGTH, COUNT_SIZE, GROUP_AT, PREAMBLE_LENGTH, PREFIX, PREFIX_END,
};
pub use syntax::{Length, Syntax};
