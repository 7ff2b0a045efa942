//! Tests of catalogues of images and of the plans that are laid out of them.
#![tactic(auto)]

#[cfg(test)]
mod catalogue;
#[cfg(test)]
mod plans;
