ghost use Rattle.std.specs.Prelude.{◌≡◌, ◌↔◌, None, IsErr, IsTrue};
ghost use Rattle.std.specs.Io.{WritesAtMost};
ghost use Rattle.std.specs.Io.KnownBytes.{WriteAppends};
ghost use Rattle.dd_elem.specs.Device.{TakesNone};

use crate::counted::write_again;
use std::alloc::Global;
use std::fs::{self, OpenOptions};
use std::io::{self, BufWriter};

const BUFFER: usize = 64 * 1024;

// A write that takes none of one or more bytes has failed, too.
fn has_failed(answer: &io::Result<usize>, bytes: &[u8]) -> bool
    ensures { IsTrue result ↔ TakesNone answer.now bytes.now }
{
    match answer {
        Ok(n) => *n == 0 && !bytes.is_empty(),
        Err(_) => true,
    }
}

/// A file until a write to it fails; then it is dropped, so that nothing more reaches it.
#[derive(Drop)]
pub(crate) struct Target<F: io::Write + Drop> {
    file: Option<F>,
}

impl<F: io::Write + Drop> io::Write for Target<F> {
    fn write(&mut self, bytes: &[u8]) -> io::Result<usize>
        ensures bound { WritesAtMost result bytes.now }
        ensures bytes { WriteAppends None None result bytes.now }
        ensures lets_go { TakesNone result bytes.now → self.new.file ≡ None }
        ensures none { self.old.file ≡ None → IsErr result }
    {
        let answer = match &mut self.file {
            Some(file) => write_again(file, bytes),
            None => Err(io::Error::other("no file takes the bytes")),
        };
        if has_failed(&answer, bytes) {
            self.file = None;
        }
        answer
    }

    fn flush(&mut self) -> io::Result<()> {
        match &mut self.file {
            Some(file) => file.flush(),
            None => Err(io::Error::other("no file takes the bytes")),
        }
    }
}

/// The file that is being written, if any, with a buffer. It is dropped where a write fails.
#[derive(Drop)]
pub(crate) struct Output<F: io::Write + Drop> {
    writer: Option<BufWriter<Target<F>>>,
}

impl<F: io::Write + Drop> Output<F> {
    pub(crate) fn new() -> Self {
        Output { writer: None }
    }

    /// Writes the rest of the buffer, and gives the file. Refused where no file is being written, or a write has
    /// failed.
    pub(crate) fn take(&mut self) -> io::Result<F>
        ensures lets_go { self.new.writer ≡ None }
        ensures none { self.old.writer ≡ None → IsErr result }
    {
        let Some(writer) = self.writer.take() else {
            return Err(io::Error::other("no file is being written"));
        };
        let Ok(target) = writer.into_inner() else {
            return Err(io::Error::other("the last bytes were not written"));
        };
        match target.file {
            Some(file) => Ok(file),
            None => Err(io::Error::other("a write to the file has failed")),
        }
    }
}

impl<F: io::Write + Drop> io::Write for Output<F> {
    fn write(&mut self, bytes: &[u8]) -> io::Result<usize>
        ensures bound { WritesAtMost result bytes.now }
        ensures bytes { WriteAppends None None result bytes.now }
        ensures lets_go { TakesNone result bytes.now → self.new.writer ≡ None }
        ensures none { self.old.writer ≡ None → IsErr result }
    {
        let answer = match &mut self.writer {
            Some(writer) => writer.write(bytes),
            None => Err(io::Error::other("no file is being written")),
        };
        if has_failed(&answer, bytes) {
            self.writer = None;
        }
        answer
    }

    fn flush(&mut self) -> io::Result<()> {
        match &mut self.writer {
            Some(writer) => writer.flush(),
            None => Ok(()),
        }
    }
}

/// Opens a new file, after it has a buffer. Refused where the name is taken.
pub(crate) fn start<R: fs::Files>(
    alloc: Global,
    rt: &R,
    path: &str,
) -> io::Result<Output<R::File>> {
    let mut writer = BufWriter::with_capacity(alloc, BUFFER, Target { file: None })?;
    let file = OpenOptions::new()
        .write(true)
        .create_new(true)
        .open(rt, path)?;
    writer.get_mut().file = Some(file);
    Ok(Output {
        writer: Some(writer),
    })
}
