ghost use Rattle.std.specs.Io.{ReadsAtMost};

use crate::disc::{Call, Disc, DiscFiles};
use crate::disc_file::borrowed;
use dicomdir_host::System;
use std::alloc::Global;
use std::cell::RefCell;
use std::io::{self, ErrorKind, Read, Write};
use std::time::{Clock, Duration};

/// What was written to a terminal, the time in milliseconds, and how long it takes to store a file.
pub(crate) struct Screen {
    pub(crate) text: String,
    time: u64,
    pub(crate) pause: u64,
}

// By hand, so that dropping it is one call.
impl Drop for Screen {
    fn drop(self) {
        let Screen {
            text: _text,
            time: _,
            pause: _,
        } = self;
    }
}

impl Screen {
    pub(crate) fn new(alloc: Global) -> Self {
        Screen {
            text: String::new(alloc),
            time: 0,
            pause: 0,
        }
    }

    pub(crate) fn wait(&mut self, millis: u64) {
        self.time = self.time.saturating_add(millis);
    }
}

pub(crate) struct Terminal<'a> {
    disc: &'a RefCell<Disc>,
}

impl Drop for Terminal<'_> {
    fn drop(self) {
        let Terminal { disc: _ } = self;
    }
}

impl Write for Terminal<'_> {
    fn write(&mut self, bytes: &[u8]) -> io::Result<usize> {
        let mut disc = borrowed(self.disc)?;
        disc.pass(Call::Show)?;
        for byte in bytes {
            // So that a case can spell them.
            disc.screen.text.push(match *byte {
                b'\r' => '<',
                b'\x1b' => '^',
                b'\n' => '|',
                other => char::from(other),
            })?;
        }
        Ok(bytes.len())
    }

    fn flush(&mut self) -> io::Result<()> {
        Ok(())
    }
}

impl Clock for DiscFiles<'_> {
    fn monotonic(&self) -> io::Result<Duration> {
        let mut disc = borrowed(self.0)?;
        disc.pass(Call::Clock)?;
        Ok(Duration::from_millis(disc.screen.time))
    }

    fn since_1970(&self) -> io::Result<Duration> {
        Err(io::Error::from(ErrorKind::Unsupported))
    }
}

/// A standard input of one word.
#[derive(Drop)]
pub(crate) struct Words {
    is_read: bool,
}

impl Read for Words {
    fn read(&mut self, buf: &mut [u8]) -> io::Result<usize>
        ensures { ReadsAtMost result buf.new }
    {
        if self.is_read {
            return Ok(0);
        }
        self.is_read = true;
        let mut rest: &[u8] = b"word";
        rest.read(buf)
    }
}

impl<'a> System for DiscFiles<'a> {
    type Stdin = Words;

    type Terminal = Terminal<'a>;

    fn standard_input(&self) -> Words {
        Words { is_read: false }
    }

    fn terminal(&self) -> Option<Terminal<'a>> {
        Some(self.error_output())
    }

    fn error_output(&self) -> Terminal<'a> {
        Terminal { disc: self.0 }
    }
}
