//! Tests of data sets: read from bytes, their elements found, scanned from a reader, sent to a
//! writer, and in JSON. The bytes are spelled by PS3.5 sections 6 and 7.

pub(crate) mod allocations;
mod json;
mod outlines;
mod reading;
mod refusals;
pub(crate) mod scanning;
mod sending;
pub(crate) mod spellings;
