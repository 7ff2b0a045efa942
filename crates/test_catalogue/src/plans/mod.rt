//! Tests of plans of directories: where their records stand and what they name (PS3.3 annex F).

mod allocations;
mod labels;
mod limits;
mod plans;
mod records;
mod withdrawals;
