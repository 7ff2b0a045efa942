//! Tests of the program `dicomdir`: of its parts, of its runs over files in memory, and of merges.
#![tactic(auto)]

#[cfg(test)]
mod merges;
#[cfg(test)]
mod program;
#[cfg(test)]
mod runs;
