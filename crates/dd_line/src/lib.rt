//! The command line of `dicomdir`.
//!
//! Its promise is on `read_request`: what a line asks for is exactly what the parser's definitions find in its words.
#![tactic(auto)]

mod arguments;
mod commands;
mod endings;
mod from_words;
mod given;
mod line;
mod request;
mod sizes;
mod version;

pub use from_words::read_request;
pub use line::{Asked, LineFault, Verb, read_words};
pub use request::{
    CheckRequest, IndexRequest, ListRequest, MergeRequest, NewSet, PublishRequest, Request,
    Sources, StageRequest, WithdrawRequest,
};
