//! Tests of the values of elements: UIDs, IDs, value representations, keys and digests. The answers follow PS3.5
//! section 6 and the formats of `dicomdir`.

mod allocations;
mod answers;
mod digests;
mod identifiers;
mod keys;
mod representations;
