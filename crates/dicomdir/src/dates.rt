//! Wrong dates and times of studies, for a person.
ghost use Rattle.std.specs.Prelude.{◌≡◌};

use crate::note_lines::UidText;
use dd_files::{Files, Hints};
use dd_layout::Plan;
use dd_records::Level;
use dd_version::StudyKeys;
use itoa::Buffer;
use std::fmt::{self, InlineText};

/// The most lines about dates and times.
const MOST: u64 = 10;

/// The most characters of a value that are shown.
const SHOWN: usize = 26;

/// The most characters after the point of a time (PS3.5 section 6.2, TM).
const FRACTION: usize = 6;

/// A value of a key, with `?` for what is no printing ASCII character.
#[derive(Drop)]
struct Shown<'a>(&'a [u8]);

impl fmt::Display for Shown<'_> {
    fn fmt<W: fmt::Write>(&self, f: &mut fmt::Formatter<W>) -> fmt::Result {
        for byte in self.0.iter().take(SHOWN) {
            let shown = if matches!(*byte, 0x20..=0x7e) {
                *byte
            } else {
                b'?'
            };
            f.write_char(char::from(shown))?;
        }
        Ok(())
    }
}

/// Keeps a line for each wrong date and time in the STUDY records of the plan, if a person is shown such things. That
/// is ten lines at most, and then how many more there are. They are shown once the run has ended, after FAULT.
pub(crate) fn keep_dates<F: Files + Hints>(explains: bool, plan: &Plan, files: &mut F)
    ensures kept { F.held files.new ≡ F.held files.old }
{
    if !explains {
        return;
    }
    let mut count = 0u64;
    for record in plan.records() {
        if record.level == Level::Study {
            if let Some(version) = plan.versions().get(record.of) {
                keep_dates_of(&version.parts().study, &mut count, files);
            }
        }
    }
    keep_rest(count, files);
}

fn keep_dates_of<F: Files + Hints>(study: &StudyKeys, count: &mut u64, files: &mut F)
    ensures kept { F.held files.new ≡ F.held files.old }
{
    if !is_date(study.date.as_bytes()) {
        let words = " is no Study Date, which has eight digits: 19930430";
        keep_value(study, study.date.as_bytes(), words, count, files);
    }
    if !is_time(study.time.as_bytes()) {
        let words = " is no Study Time, which has two to six digits: 143000";
        keep_value(study, study.time.as_bytes(), words, count, files);
    }
}

fn keep_value<F: Files + Hints>(
    study: &StudyKeys,
    value: &[u8],
    words: &str,
    count: &mut u64,
    files: &mut F,
)
    ensures kept { F.held files.new ≡ F.held files.old }
{
    *count = count.saturating_add(1);
    if *count > MOST {
        return;
    }
    let uid = UidText::of(&study.uid);
    let shown = InlineText::<SHOWN>::of(Shown(value));
    files.keep_line(&["  help: study ", uid.as_str(), ": ", shown.as_str(), words]);
}

fn keep_rest<F: Files + Hints>(count: u64, files: &mut F)
    ensures kept { F.held files.new ≡ F.held files.old }
{
    if count > MOST {
        let mut more = Buffer::new();
        let more = more.format(count.saturating_sub(MOST));
        files.keep_line(&["  help: ", more, " more dates and times like these"]);
    }
}

/// Says whether the value is a date: eight digits of a day that there is (PS3.5 section 6.2, DA). No value is one, too.
pub(crate) fn is_date(value: &[u8]) -> bool {
    if value.is_empty() {
        return true;
    }
    match value {
        [a, b, c, d, e, f, g, h] => {
            match (pair(*a, *b), pair(*c, *d), pair(*e, *f), pair(*g, *h)) {
                (Some(century), Some(year), Some(month), Some(day)) => {
                    1 <= day && day <= days_of(century, year, month)
                }
                _ => false,
            }
        }
        _ => false,
    }
}

/// Gives the number of two digits.
fn pair(tens: u8, ones: u8) -> Option<u8> {
    if tens.is_ascii_digit() && ones.is_ascii_digit() {
        Some((tens - b'0') * 10 + (ones - b'0'))
    } else {
        None
    }
}

/// The days of a month, 0 for one that there is not.
fn days_of(century: u8, year: u8, month: u8) -> u8 {
    match month {
        1 | 3 | 5 | 7 | 8 | 10 | 12 => 31,
        4 | 6 | 9 | 11 => 30,
        2 if is_leap(century, year) => 29,
        2 => 28,
        _ => 0,
    }
}

fn is_leap(century: u8, year: u8) -> bool {
    if year == 0 {
        century % 4 == 0
    } else {
        year % 4 == 0
    }
}

/// Says whether the value is a time: hours, and then perhaps minutes, seconds and a fraction, with two digits each
/// (PS3.5 section 6.2, TM). No value is one, too.
pub(crate) fn is_time(value: &[u8]) -> bool {
    match value {
        [] => true,
        [a, b] => is_below(*a, *b, 24),
        [a, b, c, d] => is_below(*a, *b, 24) && is_below(*c, *d, 60),
        [a, b, c, d, e, f, rest @ ..] => {
            is_below(*a, *b, 24)
                && is_below(*c, *d, 60)
                && is_below(*e, *f, 61)
                && is_fraction(rest)
        }
        _ => false,
    }
}

fn is_below(tens: u8, ones: u8, bound: u8) -> bool {
    match pair(tens, ones) {
        Some(number) => number < bound,
        None => false,
    }
}

fn is_fraction(value: &[u8]) -> bool {
    match value {
        [] => true,
        [b'.', digits @ ..] => {
            1 <= digits.len()
                && digits.len() <= FRACTION
                && digits.iter().all(|digit| digit.is_ascii_digit())
        }
        _ => false,
    }
}
