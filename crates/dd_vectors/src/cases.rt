//! Cases, each a line `question > answer`. A test asks anew and compares whole lines, so that a failure shows the
//! question and both answers.

use std::alloc::{AllocError, Global};
use std::fmt::Display;
use std::test::Fail;

const ARROW: &str = " > ";

/// Cuts a line where the separator first stands.
pub fn cut<'a>(line: &'a str, separator: &str) -> Result<(&'a str, &'a str), Fail> {
    match line.split_once(separator) {
        Some(parts) => Ok(parts),
        None => Err(Fail::new(format_args!("no {separator:?} in {line:?}"))),
    }
}

/// Gives the question of a case.
pub fn question(case: &str) -> &str {
    match case.split_once(ARROW) {
        Some((question, _)) => question,
        None => case,
    }
}

/// Gives the case with this answer in place of its own.
pub fn answered<T: Display>(alloc: Global, case: &str, answer: &T) -> Result<String, AllocError> {
    let question = question(case);
    format!(in alloc; "{question}{ARROW}{answer}")
}

/// Gives what the value prints.
pub fn shown<D: Display + Drop>(alloc: Global, value: D) -> Result<String, Fail> {
    Ok(format!(in alloc; "{value}")?)
}

/// Asks the question of each line, and fails at the first with another answer.
pub fn ask_all<A: Fn(Global, &str) -> Result<String, Fail>>(
    alloc: Global,
    cases: &str,
    answer: A,
) -> Result<(), Fail>
    requires { A.IsAlwaysCallable answer }
{
    for case in cases.split('\n') {
        let found = answered(alloc, case, &answer(alloc, question(case))?)?;
        if found.as_str() != case {
            return Err(Fail::new(format_args!("found  {found:?}\nwanted {case:?}")));
        }
    }
    Ok(())
}

/// Fails at the first case that is not right.
pub fn claim_all<C: Fn(Global, &str) -> Result<bool, Fail>>(
    alloc: Global,
    cases: &str,
    separator: char,
    is_right: C,
) -> Result<(), Fail>
    requires { C.IsAlwaysCallable is_right }
{
    for case in cases.split(separator) {
        if !is_right(alloc, case)? {
            return Err(Fail::new(format_args!("of {case}")));
        }
    }
    Ok(())
}

/// Gives the words of a command line; `''` is an empty one.
pub fn words_of(alloc: Global, line: &str) -> Result<Vec<String>, AllocError> {
    let mut words = Vec::new(alloc);
    for word in line.split(' ') {
        let word = if word == "''" { "" } else { word };
        words.push(String::from_str(alloc, word)?)?;
    }
    Ok(words)
}

/// Reads after how many bytes a device fails: never at `-`.
pub fn failing(text: &str) -> Result<Option<u64>, Fail> {
    match text {
        "-" => Ok(None),
        number => Ok(Some(number.parse()?)),
    }
}

/// Appends what a device holds, with `|` at the end of each line.
pub fn push_lines(text: &mut String, bytes: &[u8]) -> Result<(), AllocError> {
    for byte in bytes {
        text.push(match byte {
            b'\n' => '|',
            other => char::from(*other),
        })?;
    }
    Ok(())
}
