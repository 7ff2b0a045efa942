//! The words of cases, by which every other test asks and compares. An answer that is not the one of the case has to
//! make it another text, and a case that is wrong has to fail. A reader gives the pieces that its question asks for,
//! which no answer of a parser shows.

use dd_elem::Read;
use dd_vectors::{ask_all, claim_all, reader_of, shown};
use std::alloc::Global;
use std::process::{ExitCode, Termination};
use std::test::Fail;

#[test]
fn the_reader_of_a_question(rt: HostRuntime) -> Result<(), Fail> {
    let (mut reader, limit, words) = reader_of(b"ABCDE", "2 9 3 0008,0018 0010,0020")?;
    let mut room = [0; 4];
    assert_eq!(rt; reader.read(&mut room).ok(), Some(2));
    assert_eq!(rt; reader.read(&mut room).ok(), Some(1));
    assert_eq!(rt; reader.read(&mut room).ok(), None);
    assert_eq!(rt; limit, 9);
    assert_eq!(rt; words, "0008,0018 0010,0020");
    Ok(())
}

/// The question itself.
fn echo(alloc: Global, question: &str) -> Result<String, Fail> {
    shown(alloc, question)
}

/// Says whether the case is this one letter.
fn is_a(_: Global, case: &str) -> Result<bool, Fail> {
    Ok(case == "a")
}

#[test]
fn a_wrong_case_fails_behind_a_right_one(rt: HostRuntime) -> Result<(), Fail> {
    ask_all(rt.alloc(), "a > a\nb > b", echo)?;
    let asked = ask_all(rt.alloc(), "a > a\nb > c", echo).report(&rt);
    assert_eq!(rt; asked, ExitCode::FAILURE);
    claim_all(rt.alloc(), "a a", ' ', is_a)?;
    let claimed = claim_all(rt.alloc(), "a b", ' ', is_a).report(&rt);
    assert_eq!(rt; claimed, ExitCode::FAILURE);
    Ok(())
}
