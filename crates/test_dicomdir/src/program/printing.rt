use dd_vectors::{Sink, ask_all, push_lines};
use dicomdir::{print_line, send_text};
use std::alloc::{AllocError, Global};
use std::test::Fail;

/// A line in two parts and then `more` are printed to a device: after how many bytes it fails, whether both were
/// printed, and what it holds. `|` ends a line.
const PRINTED: &str = "\
100 > true true [91 Memory|more|]
15 > true true [91 Memory|more|]
14 > true false [91 Memory|more]
10 > true false [91 Memory|]
7 > false false [91 Memo]
0 > false false []";

fn printed(alloc: Global, question: &str) -> Result<String, Fail> {
    let mut sink = Sink::new(alloc, Some(question.parse()?));
    let first = print_line(&["91 ", "Memory"], &mut sink).is_ok();
    let more = print_line(&["more"], &mut sink).is_ok();
    let mut held = String::new(alloc);
    push_lines(&mut held, sink.bytes())?;
    Ok(format!(in alloc; "{first} {more} [{held}]")?)
}

/// A line of 5,000, 5,000 and 9,000 characters is printed to a device. Each case has after how many bytes it fails,
/// whether the line was printed, and how many of its bytes the device holds. The buffer has room for the first or the
/// second, but not for both, nor for the third.
const LONG: &str = "\
20000 > true 19001
19001 > true 19001
19000 > false 19000
12000 > false 12000
7000 > false 7000
5000 > false 5000
4999 > false 4999";

fn repeated(alloc: Global, character: char, count: u32) -> Result<String, AllocError> {
    let mut text = String::new(alloc);
    for _ in 0..count {
        text.push(character)?;
    }
    Ok(text)
}

fn printed_long(alloc: Global, question: &str) -> Result<String, Fail> {
    let mut sink = Sink::new(alloc, Some(question.parse()?));
    let first = repeated(alloc, 'a', 5000)?;
    let second = repeated(alloc, 'b', 5000)?;
    let third = repeated(alloc, 'c', 9000)?;
    let is_printed = print_line(&[&first, &second, &third], &mut sink).is_ok();
    let line = format!(in alloc; "{first}{second}{third}\n")?;
    if !line.as_bytes().starts_with(sink.bytes()) {
        return Err("other bytes were printed".into());
    }
    let held = sink.bytes().len();
    Ok(format!(in alloc; "{is_printed} {held}")?)
}

#[test]
fn lines_are_printed_as_far_as_they_go(rt: HostRuntime) -> Result<(), Fail> {
    let mut sink = Sink::new(rt.alloc(), Some(0));
    assert!(rt; send_text("", &mut sink).is_ok() && send_text("x", &mut sink).is_err());
    ask_all(rt.alloc(), PRINTED, printed)?;
    ask_all(rt.alloc(), LONG, printed_long)
}

/// Parts of a line, separated by a blank, and the line as it prints. `|` stands for a line feed. Characters from U+0000
/// to U+001F and from U+007F to U+009F alone do not print as they are.
const MASKED: &str = "\
a b c > abc
a|DONE b > a?DONEb
\t\u{0}x\r \u{1f}! > ??x??!
\u{1b}[2J \u{1b}\u{1b} y > ?[2J??y
}~\u{7f} \u{80}\u{85} \u{9f}\u{a0} > }~????\u{a0}
\u{e9}\u{c2}\u{9b}\u{c3} > \u{e9}\u{c2}?\u{c3}
\u{7ff}\u{800}\u{ffff} \u{10000}| \u{10ffff} > \u{7ff}\u{800}\u{ffff}\u{10000}?\u{10ffff}";

fn masked(alloc: Global, question: &str) -> Result<String, Fail> {
    let mut sink = Sink::new(alloc, None);
    let text = question.replace(alloc, '|', "\n")?;
    let mut parts = Vec::new(alloc);
    for part in text.as_str().split(' ') {
        parts.push(part)?;
    }
    if print_line(&parts, &mut sink).is_err() {
        return Err("the line was not printed".into());
    }
    let line = str::from_utf8(sink.bytes())?;
    let line = line.strip_suffix('\n').ok_or("no end of the line")?;
    Ok(String::from_str(alloc, line)?)
}

#[test]
fn control_characters_print_as_question_marks(rt: HostRuntime) -> Result<(), Fail> {
    ask_all(rt.alloc(), MASKED, masked)
}
