//! Says why a run is refused: FAULT or the parser's text, and hints.
//!
//! Its promise is on `tell_with_hints`.
#![tactic(auto)]

mod hints;
mod line_flags;
mod line_refusal;
mod masked_words;
mod refusal;
mod telling;

pub use line_flags::{is_quiet, style_for};
pub use line_refusal::refuse_line;
pub use refusal::{Paths, Words};
pub use telling::{shows_hints, tell_with_hints};
