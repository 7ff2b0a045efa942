ghost use Rattle.std.specs.Prelude.{◌≡◌, ◌≤◌, ◌<◌, ◌+◌, ◌++◌, None, length};
ghost use Rattle.std.specs.Fmt.InlineText.{inline_text};
ghost use Rattle.dicomdir_host.specs.ProgressLine.{progress_line};

use crate::counted::write_again;
use dd_files::Step;
use itoa::Buffer;
use std::fmt::InlineText;
use std::io;
use std::time::{Clock, Duration, Instant};

/// Milliseconds before the first line is shown.
const FIRST: u64 = 500;

/// Least milliseconds between two lines.
const PAUSE: u64 = 100;

/// Erases the line of a terminal (ECMA-48, CR and EL).
const ERASE: &str = "\r\x1b[K";

/// Seconds of a step from which on the time that is left is shown.
const SLOW: u64 = 10;

/// The most bytes of a line, and of the bytes that erase the line before it.
const LINE: usize = 128;

const LEFT: usize = 32;

type LeftText = InlineText<LEFT>;

/// Counts what is done of a step, and shows it in one line of a terminal, at most ten times a second.
pub(crate) struct ProgressLine<W: io::Write + Drop> {
    /// None where nothing is shown.
    terminal: Option<W>,
    step: Step,
    done: u64,
    of: u64,
    /// How many files were stored in this step.
    stored: u64,
    begun: Option<Instant>,
    /// When the next line may be shown, once something was counted.
    due: Option<Instant>,
    is_shown: bool,
}

// By hand, so that dropping it is one call.
impl<W: io::Write + Drop> Drop for ProgressLine<W> {
    fn drop(self) {
        let ProgressLine {
            terminal: _terminal,
            step: _,
            done: _,
            of: _,
            stored: _,
            begun: _,
            due: _,
            is_shown: _,
        } = self;
    }
}

impl<W: io::Write + Drop> ProgressLine<W> {
    pub(crate) fn new(terminal: Option<W>) -> Self {
        ProgressLine {
            terminal,
            step: Step::Reading,
            done: 0,
            of: 0,
            stored: 0,
            begun: None,
            due: None,
            is_shown: false,
        }
    }

    pub(crate) fn begin<C: Clock>(&mut self, clock: &C, step: Step, of: u64) {
        self.step = step;
        self.done = 0;
        self.of = of;
        self.stored = 0;
        self.begun = match self.terminal {
            Some(_) => Instant::now(clock).ok(),
            None => None,
        };
        self.show(clock, step_word(step), 0);
    }

    pub(crate) fn advance<C: Clock>(&mut self, clock: &C) {
        self.done = self.done.saturating_add(1);
        self.show(clock, step_word(self.step), self.done);
    }

    /// Shows that one more file is being stored.
    pub(crate) fn store<C: Clock>(&mut self, clock: &C) {
        self.show(clock, "storing", self.stored);
        self.stored = self.stored.saturating_add(1);
    }

    /// Shows a line, if it is time for one.
    fn show<C: Clock>(&mut self, clock: &C, doing: &str, done: u64) {
        if self.terminal.is_none() {
            return;
        }
        if let Some(now) = self.due_time(clock) {
            let left = self.time_left(now, done);
            self.print(line(doing, done, self.of, left.as_str()).as_str());
            self.is_shown = true;
        }
    }

    /// Says how long the step still takes, by the number of files, where it is slow.
    fn time_left(&self, now: Instant, done: u64) -> LeftText {
        let taken = match self.begun {
            Some(begun) => now.saturating_duration_since(begun).as_secs(),
            None => 0,
        };
        if taken < SLOW || done == 0 || done >= self.of {
            return LeftText::new();
        }
        left_text(taken.saturating_mul(self.of - done) / done)
    }

    pub(crate) fn hide(&mut self) {
        if self.is_shown {
            self.print(ERASE);
            self.is_shown = false;
        }
    }

    /// Shows no line from then on.
    pub(crate) fn end(&mut self)
        ensures { self.new.terminal ≡ None }
    {
        self.hide();
        self.terminal = None;
    }

    /// Gives the time, if a line may be shown, and sets when the next one may be.
    fn due_time<C: Clock>(&mut self, clock: &C) -> Option<Instant> {
        let now = Instant::now(clock).ok()?;
        let Some(due) = self.due else {
            self.due = now.checked_add(Duration::from_millis(FIRST));
            return None;
        };
        if now < due {
            return None;
        }
        self.due = now.checked_add(Duration::from_millis(PAUSE));
        Some(now)
    }

    /// A failed write is ignored.
    fn print(&mut self, text: &str) {
        if let Some(terminal) = &mut self.terminal {
            let _ = write_again(terminal, text.as_bytes());
        }
    }
}

fn step_word(step: Step) -> &'static str {
    match step {
        Step::Reading => "reading",
        Step::Copying => "copying",
    }
}

fn left_text(seconds: u64) -> LeftText {
    let (count, unit) = if seconds < 100 {
        (seconds, " s left")
    } else if seconds < 6000 {
        (seconds / 60, " min left")
    } else {
        (seconds / 3600, " h left")
    };
    let mut number = Buffer::new();
    let number = number.format(count);
    LeftText::new()
        .and_str(", ", 2)
        .and_str(number, number.len())
        .and_str(unit, unit.len())
}

/// Gives a line that takes the place of the one before it.
fn line(doing: &str, done: u64, of: u64, left: &str) -> InlineText<LINE>
    ensures { length doing.now ≤ 8 → length left.now ≤ LEFT
        → inline_text result ≡ progress_line doing.now done of left.now }
{
    let mut first = Buffer::new();
    let mut second = Buffer::new();
    let start = with(with(InlineText::new(), "\r"), doing);
    let counted = with(with(start, " "), first.format(done));
    let all = with(with(counted, " of "), second.format(of));
    with(with(all, left), "\x1b[K")
}

/// Adds the text where there is room for it.
fn with(line: InlineText<LINE>, text: &str) -> InlineText<LINE>
    ensures { length (inline_text line) + length text.now < LINE
        → inline_text result ≡ inline_text line ++ text.now }
{
    let len = text.len();
    line.and_str(text, len)
}
