ghost use Rattle.std.specs.Prelude.{◌≡◌};

use dd_files::Cause;
use std::cell::Cell;
use std::io;

/// Remembers why the system refused the last call, or a read after it. Its contract says nothing of that.
#[derive(Drop)]
pub struct LastRefusal {
    // The error number of the system, or 0.
    code: Cell<i32>,
}

impl LastRefusal {
    /// Remembers no refusal.
    pub fn new() -> LastRefusal {
        LastRefusal { code: Cell::new(0) }
    }

    pub(crate) fn note<T>(&self, answer: io::Result<T>) -> io::Result<T>
        ensures { result ≡ answer }
    {
        self.remember(&answer);
        answer
    }

    pub(crate) fn remember<T>(&self, answer: &io::Result<T>) {
        let code = match answer {
            Ok(_) => None,
            Err(error) => error.raw_os_error(),
        };
        self.code.set(code.unwrap_or(0));
    }

    /// Gives the system's words, without the number that std puts after them.
    pub(crate) fn words(&self) -> Cause {
        let code = self.code.get();
        if code == 0 {
            return Cause::new();
        }
        let text = Cause::of(io::Error::from_raw_os_error(code));
        match text.as_str().split_once(" (os error") {
            Some((words, _number)) => Cause::new().and_str(words, words.len()),
            None => text,
        }
    }
}
