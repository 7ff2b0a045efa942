//! Lines with control characters that are at fault or ask for help: the parser's text shows `?` for each.

use crate::runs::disc::disc;
use crate::runs::runs::end_of;
use std::test::Fail;

/// A line whose last word is one too many, with an escape, a control character of two bytes, a line feed and a letter
/// of two bytes.
const MISTAKE: &str = "- - dicomdir list a \u{1b}[2J\u{9b}\nb\u{e9}";

/// The end of its run, with each byte of the letter as a character of its own.
const MISTAKE_END: &str = "2 [] [error: unexpected argument '?[2J??b\u{c3}\u{a9}' found||\
Usage: dicomdir list [OPTIONS] <SET>||For more information, try '--help'.|]";

#[test]
fn mistakes_and_help_show_no_control_character(rt: HostRuntime) -> Result<(), Fail> {
    let end = end_of(rt.alloc(), MISTAKE, &mut disc(rt.alloc())?)?;
    assert_eq!(rt; end.as_str(), MISTAKE_END);
    let line = "- - dicom\n\u{7f}dir list --help";
    let end = end_of(rt.alloc(), line, &mut disc(rt.alloc())?)?;
    let usage = "||Usage: dicom??dir list [OPTIONS] <SET>||";
    assert!(rt; end.as_str().starts_with("0 [Lists the records") && end.as_str().contains(usage));
    Ok(())
}
