//! Gives a reader's bytes as a feed, and sends bytes to a writer.
//!
//! Its promise: the bytes taken from a stream are its reader's, in order and each once. What is sent is written whole,
//! or the fault says how many bytes were written.
#![tactic(auto)]

mod end;
mod feed;
mod filling;
mod kept;
mod sending;
mod stream;
mod write_fault;

pub use end::{End, finish};
pub use feed::Feed;
pub use filling::{fill, skip};
pub use sending::send;
pub use stream::Stream;
pub use write_fault::WriteFault;
