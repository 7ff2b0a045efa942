//! Which versions and which catalogues are equal, and which catalogues are empty.

use dd_vectors::{ask_all, image, taken};
use std::alloc::Global;
use std::test::Fail;

/// The letters of two versions, and whether they are equal.
const VERSIONS: &str = "\
1=1 > true
1=2 > false
a=b > false
A=Z > false";

/// The letters of two catalogues, whether they are equal, and whether the first is empty.
const CATALOGUES: &str = "\
12=21 > true false
1=11 > true false
= > true true
=1 > false true
1=12 > false false
1=2 > false false
a=b > false false
A=B > false false";

fn versions(alloc: Global, question: &str) -> Result<String, Fail> {
    let mut letters = question.chars();
    let left = image(alloc, letters.next().ok_or("no letter")?)?;
    let right = image(alloc, letters.next_back().ok_or("no letter")?)?;
    let are_equal = left == right;
    Ok(format!(in alloc; "{are_equal}")?)
}

fn catalogues(alloc: Global, question: &str) -> Result<String, Fail> {
    let (left, right) = question.split_once('=').ok_or("one catalogue")?;
    let first = taken(alloc, left)?;
    let are_equal = first == taken(alloc, right)?;
    let is_empty = first.is_empty();
    Ok(format!(in alloc; "{are_equal} {is_empty}")?)
}

#[test]
fn versions_and_catalogues_of_the_same_parts_are_equal(rt: HostRuntime) -> Result<(), Fail> {
    ask_all(rt.alloc(), VERSIONS, versions)?;
    ask_all(rt.alloc(), CATALOGUES, catalogues)
}
