//! Tests of the formats of `dicomdir`, from the values of elements to the versions of images.
#![tactic(auto)]

#[cfg(test)]
mod files;
#[cfg(test)]
mod sets;
#[cfg(test)]
mod values;
#[cfg(test)]
mod versions;
