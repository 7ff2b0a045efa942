//! Lines on their way to a device: kept in a buffer of fixed size until they are one write, without taking memory.
//!
//! What it promises stands at `print_line`, `show_line`, `send_text`, and at the functions of `LineBuffer`.
#![tactic(auto)]

mod line_buffer;
mod text;
mod waiting;

pub use line_buffer::{LineBuffer, shown_byte};
pub use text::{Text, print_line, send_text, show_line};
