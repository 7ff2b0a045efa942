mod allocations;
pub(crate) mod directories;
mod keys;
mod picks;
mod withdrawals;
