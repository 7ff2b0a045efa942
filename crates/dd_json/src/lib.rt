//! JSON texts (RFC 8259) on their way to a device, without taking memory.
//!
//! What it promises stands at `add_json`, `print_json`, and at the functions that add a part of a value.
#![tactic(auto)]

mod laws;
mod parts;
mod value;
mod writing;

pub use laws::what_is_written_is_read;
pub use parts::{
    add_joined_text, add_member_name, add_number, add_raw, add_shown_text, add_text, add_texts,
};
pub use value::{Json, Style};
pub use writing::{add_json, add_json_line, print_json};
