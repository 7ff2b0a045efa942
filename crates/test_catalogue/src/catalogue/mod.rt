//! Tests of the catalogue of image instances: what it takes, what it keeps, and what its joins give.

mod allocations;
mod counting;
mod equality;
mod joining;
pub(crate) mod studies;
mod taking;
mod withdrawing;
