//! The words of the command line that are not UTF-8.
ghost use Rattle.std.specs.Io.{WritesAtMost};

use std::alloc::Global;
use std::env::{self, Env, FillError};
use std::fmt::InlineText;
use std::io::ErrorKind;

pub(crate) type Number = InlineText<20>;

/// One word of a command line, as a command line of its own.
#[derive(Drop)]
struct Word<'a, R: Env> {
    words: &'a R,
    at: usize,
}

impl<R: Env> Env for Word<'_, R> {
    fn arg(&self, i: usize, buf: &mut [u8]) -> Result<usize, FillError>
        ensures bound { WritesAtMost result buf.new }
    {
        if i == 0 {
            self.words.arg(self.at, buf)
        } else {
            Err(FillError::NotPresent)
        }
    }

    fn var(&self, _name: &str, _buf: &mut [u8]) -> Result<usize, FillError> {
        Err(FillError::NotPresent)
    }

    fn var_at(&self, _i: usize, _buf: &mut [u8]) -> Result<usize, FillError> {
        Err(FillError::NotPresent)
    }
}

/// Finds the first word that is not UTF-8; 0 is the program's name. None where all words are, or memory is refused.
pub(crate) fn bad_word<R: Env>(words: &R, alloc: Global) -> Option<usize> {
    for at in 0..usize::MAX {
        match env::args(&(Word { words, at }, alloc)) {
            Ok(mut word) => {
                word.next()?;
            }
            Err(error) if error.kind() == ErrorKind::InvalidData => return Some(at),
            Err(_) => return None,
        }
    }
    None
}
