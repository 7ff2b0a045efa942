//! Data sets: their elements, sequences, items and fragments, with native and with encapsulated pixel data (PS3.5
//! sections 6, 7 and 10, annex A). They are read from bytes and written to them in the little endian syntaxes. What
//! fragments hold is not looked at.
//!
//! Its one promise: what is read is the one set that the bytes spell, and what is written is the spelling. What is
//! refused spells none, and is refused by the first check that it fails. Only where an allocation is refused, after the
//! first item or element, is the answer lack of memory instead. `dd_grammar` has the checks, which `dd_scan` makes on
//! the bytes of a reader.
#![tactic(auto)]

mod cursor;
mod finding;
mod fragments;
pub mod laws;
mod parsing;
mod set;
mod set_headers;
mod sizes;
mod starts;
mod writing;
mod written_headers;

pub use dd_encoding::{HEADER_SIZE, LONG_HEADER_SIZE, Length, Syntax, item_header, send_header};
pub use dd_grammar::SetFault;
pub use dd_stream::{End, Feed, Stream, WriteFault, fill, finish, send, skip};
pub use finding::value_at;
pub use parsing::parse;
pub use set::{DataSet, Element, Item, Value};
pub use writing::write_set;
