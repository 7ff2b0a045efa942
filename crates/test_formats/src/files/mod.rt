//! Tests of DICOM files (PS3.10 section 7): read from bytes and from a reader, and their heads sent to a
//! writer.

mod allocations;
mod heads;
mod reading;
mod refusals;
mod streaming;
mod vectors;
