//! The version of a file: the keys by which it is listed in the directory of a file-set.
//!
//! Its one promise: what is read as the version of a file is that, and a refusal names the first check that the file
//! fails, or a refused allocation.
#![tactic(auto)]

mod digesting;
mod fault;
mod keeping;
mod row_checks;
mod row_values;
mod rows;
mod summary;
mod versions;

pub use dd_set::value_at;
pub use dd_version::{Misfit, Parts, PatientKeys, SeriesKeys, StudyKeys, Version, is_image_class};
pub use digesting::{Digested, read_digested};
pub use fault::KeyFault;
pub use keeping::read_kept;
pub use versions::{ingest, ingest_kept, one_version, version_of};
