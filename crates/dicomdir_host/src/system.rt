use std::fs;
use std::io::{self, IsTerminal};
use std::rt::{HostRuntime, Stderr, Stdin};
use std::time::Clock;

/// The system: its files, its clock, and two of the standard descriptors of the process.
pub trait System: fs::Files + Clock {
    type Stdin: io::Read + Drop;

    type Terminal: io::Write + Drop;

    fn standard_input(&self) -> Self::Stdin;

    /// Gives the error output where that is a terminal.
    fn terminal(&self) -> Option<Self::Terminal>;

    fn error_output(&self) -> Self::Terminal;
}

impl System for HostRuntime {
    type Stdin = Stdin;

    type Terminal = Stderr;

    fn standard_input(&self) -> Stdin {
        self.stdin()
    }

    fn terminal(&self) -> Option<Stderr> {
        let output = self.stderr();
        if output.is_terminal() {
            Some(output)
        } else {
            None
        }
    }

    fn error_output(&self) -> Stderr {
        self.stderr()
    }
}
