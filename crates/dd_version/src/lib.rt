//! Versions of image instances, and their order: the keys by which a directory lists an image.
//!
//! Its one promise: a version has all keys that the records of a directory must have, and an image class and a
//! transfer syntax that are taken. Two versions that compare equal are equal.
#![tactic(auto)]

mod classes;
mod filing;
mod keys;
mod parts;
mod syntaxes;
mod version;
mod well_formed;

pub use classes::is_image_class;
pub use filing::is_filed_as;
pub use keys::{PatientKeys, SeriesKeys, StudyKeys};
pub use parts::Parts;
pub use syntaxes::{EXPLICIT, IMPLICIT, TRANSFER, is_encapsulated, is_known_syntax};
pub use version::{Misfit, Version};
pub use well_formed::version_is_well_formed;
