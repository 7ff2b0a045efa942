//! From the start of the process to its status.
ghost use Rattle.std.specs.Prelude.{◌≡◌, ◌≢◌, ◌≤◌};
ghost use Rattle.std.specs.Process.{exit_status};

use crate::word_text::{Number, bad_word};
use dd_elem::Write;
use dicomdir::{Lanes, print_line, run};
use dicomdir_host::{Counted, HostFiles, LastRefusal};
use std::env;
use std::fs::{self, File};
use std::io::{self, ErrorKind, Read};
use std::os::fd::{AsRawFd, IntoRawFd};
use std::process::ExitCode;

// The standard descriptors are 0, 1 and 2.
const STANDARD: i32 = 3;

// 384 KiB. The deepest command, `stage`, takes some 280 KiB of the stack, whatever it reads, and no other takes 260.
// tests/faults sweeps the limits over each command.
const STACK: usize = 393_216;

fn refuse_words<E: Write>(kind: ErrorKind, bad: Option<usize>, err: &mut E) -> u8
    ensures memory { kind ≡ ErrorKind.OutOfMemory → result ≡ 1 }
    ensures text { kind ≢ ErrorKind.OutOfMemory → result ≡ 2 }
    ensures few { result ≤ 2 }
{
    if kind == ErrorKind::OutOfMemory {
        let _ = print_line(&["FAULT -: 91 Memory"], err);
        return 1;
    }
    let _ = match bad {
        Some(at) => {
            let number = Number::of(at);
            print_line(
                &[
                    "error: word ",
                    number.as_str(),
                    " of the command line is not UTF-8",
                ],
                err,
            )
        }
        None => print_line(&["error: a word of the command line is not UTF-8"], err),
    };
    2
}

// Takes this much of the stack, so that the system ends a run that has less of it here, before anything is made. A
// compiler can't leave out bytes that a read may fill; /dev/null has none.
#[inline(never)]
fn probe_stack<N: Read>(null: &mut N) {
    let mut room = [0; STACK];
    let _ = null.read(&mut room);
}

// Opens /dev/null for reading in place of each closed standard descriptor, so that no file of a run becomes one. A
// write to a closed output still fails.
fn fill_standard<R: fs::Files>(rt: &R) -> io::Result<()>
where
    R::File: AsRawFd + IntoRawFd + Read,
{
    for _ in 0..=STANDARD {
        let mut null = File::open(rt, "/dev/null")?;
        if null.as_raw_fd() >= STANDARD {
            probe_stack(&mut null);
            return Ok(());
        }
        let _ = null.into_raw_fd();
    }
    Err(io::Error::other("the standard descriptors stay closed"))
}

/// Runs the program on its command line, and gives its exit status. This many files are digested at once.
pub fn start(rt: HostRuntime, lanes: Lanes) -> ExitCode
    ensures { exit_status result ≤ 3 }
{
    let alloc = rt.alloc();
    let mut err = Counted::new(rt.stderr());
    if fill_standard(&rt).is_err() {
        let _ = print_line(&["error: /dev/null can't be opened"], &mut err);
        return ExitCode::from(1);
    }
    let last = LastRefusal::new();
    let mut files = HostFiles::new(alloc, &rt, &last, lanes);
    let mut out = Counted::new(rt.stdout());
    let status = match env::args(&rt) {
        Ok(words) => match words.collect(alloc) {
            Ok(words) => run(alloc, words, &mut files, &mut out, &mut err),
            Err(_) => refuse_words(ErrorKind::OutOfMemory, None, &mut err),
        },
        Err(error) => refuse_words(error.kind(), bad_word(&rt, alloc), &mut err),
    };
    ExitCode::from(status)
}
