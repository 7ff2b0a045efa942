//! Tests of the bytes of directories, and of what is derived from them (PS3.3 annex F, PS3.10 section 8.6).
#![tactic(auto)]

#[cfg(test)]
mod allocations;
#[cfg(test)]
mod cuts;
#[cfg(test)]
mod derivation;
#[cfg(test)]
mod fields;
#[cfg(test)]
mod own;
#[cfg(test)]
mod publishing;
#[cfg(test)]
mod selection;
#[cfg(test)]
mod sending;
#[cfg(test)]
mod walks;
#[cfg(test)]
mod withdrawals;
