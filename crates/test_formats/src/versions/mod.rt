//! Tests of versions, read from the bytes of files or made of parts, of their order, and of slots. The keys are from
//! the records of a directory (PS3.3 section F.5).

mod allocations;
mod classes;
mod ingesting;
mod making;
mod reading;
mod refusals;
mod slots;
