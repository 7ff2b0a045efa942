//! The definition of reading a data set from left to right, and its checks (PS3.5 sections 6 and 7, annex A). It
//! reads no bytes itself.
//!
//! Its one promise: each check answers what the definition has at its place, so all who read share the checks, their
//! order and their refusals.
#![tactic(auto)]

mod checks;
mod fault;
mod header_bytes;
mod syntax_rules;

pub use checks::{
    Header, Opening, Reach, Shape, Sort, element_opening, ends_here, fragment_length, item_opening,
    leaves_fewer, left_after, reach_of, sort_of,
};
pub use fault::SetFault;
pub use syntax_rules::{
    MAX_LEVELS, UNDEFINED_LENGTH, encapsulates, is_pixel_data, item_syntax, low_after, names_vr,
};
