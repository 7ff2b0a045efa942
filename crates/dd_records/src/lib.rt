//! The elements of a directory and of its records (PS3.3 section F.3.2.2).
//!
//! Its one promise: a record has the elements of its level's table, with the keys of its version, and the size that is
//! counted.
#![tactic(auto)]

mod cell;
mod directories;
mod field;
mod file_meta;
mod front;
mod label;
mod level;
mod record;
mod record_sizes;
pub mod table;
mod withdrawal_elements;

pub use cell::{Cell, CellValue};
pub use directories::{directory_is_a_data_set, directory_is_as_long_as_its_records};
pub use field::{FLAG_IN_USE, Field, PRIVATE_CREATOR};
pub use file_meta::{DIRECTORY_CLASS, DIRECTORY_SYNTAX, directory_meta};
pub use front::{FIRST_ROOT, LAST_ROOT, RECORDS, SET_ID, first_offset, front_cells};
pub use label::Label;
pub use level::Level;
pub use record::PlanRecord;
pub use record_sizes::record_size;
pub use table::{Row, rows};
pub use withdrawal_elements::{WITHDRAWN, creator_cell, withdrawals_size, withdrawn_length};
