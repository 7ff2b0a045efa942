//! Tests of the parts of the program `dicomdir`: its command line, what it prints, and what it copies.

mod allocations;
mod copies;
mod faults;
mod filings;
mod findings;
mod lines;
mod printing;
