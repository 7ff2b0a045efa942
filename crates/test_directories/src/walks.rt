//! Directories of any producer, read.

use crate::publishing::{named, published};
use dd_vectors::{ask_all, deep, first_directory, put_words, v1, v2, v3};
use dd_walk::{Forest, Tree, read_directory};
use std::alloc::Global;
use std::test::Fail;

/// A directory (`v1`, `v2`, `v3`, `one`, `disc`, or letters of images with the withdrawn instances) and what is put
/// into its bytes at a place. Then its File-set ID, its records, each before those below it in brackets, and how many
/// items are not reached, or why it is refused.
const CHANGED: &str = "\
v2 > 0
v1 > 52 NotDirectory
one > (320 PATIENT(404 STUDY(530 SERIES(622 IMAGE)))) 0
disc > DISC1 (326 PATIENT(410 STUDY(536 SERIES(628 IMAGE)))) 0
one 370 'PRIVATE_ > (320 PRIVATE(404 STUDY(530 SERIES(622 IMAGE)))) 0
one 348 0000 > (320 PATIENT inactive(404 STUDY(530 SERIES(622 IMAGE)))) 0
one 336 40010000 > 55 Twice 320
one 282 41010000 > 54 Dangling 321
one 282 ffffffff > 54 Dangling 4294967295
one 282 00000000 > 56 LastRoot
one 282 00000000 294 00000000 > 4
one 370 '________ > 53 RecordShape 320
one 332 5551 > 51 File 27 Set 3 BadVr
one 274 04000112 > 52 NotDirectory
one 286 04000112 > 52 NotDirectory
one 308 04002112 > 52 NotDirectory
v2 226 '2 > 51 File 25 OtherSyntax 1.2.840.10008.1.2.2
v2 226 '5 > 52 NotDirectory
v2 206 1600 208 '1.2.840.10008.1.2.4.90 230 0200120055491c00 238 '2.25.60447213317935258804334 > 52 NotDirectory
one 184 '2 > 52 NotDirectory
one 128 '4 > 51 File 21 NotPart10
1234 > (320 PATIENT(404 STUDY(530 SERIES(622 IMAGE)(876 IMAGE))(1130 SERIES(1222 IMAGE))))\
(1476 PATIENT(1560 STUDY(1686 SERIES(1778 IMAGE)))) 0
1234 1168 6e020000 > 55 Twice 622
1234 294 40010000 > 56 LastRoot
1234 294 40010000 336 00000000 > (320 PATIENT(404 STUDY(530 SERIES(622 IMAGE)(876 IMAGE))\
(1130 SERIES(1222 IMAGE)))) 4
1234 336 43010000 358 41010000 > 54 Dangling 321
v3 > (320 PATIENT(412 STUDY(546 SERIES(646 IMAGE inactive)(818 SR DOCUMENT)))) 0";

/// How many records, each below the one before; how many bytes their directory has, and how many levels there are, or
/// why they are refused.
const DEEP: &str = "\
1 > 372 bytes, 1
2 > 424 bytes, 2
31 > 1932 bytes, 31
32 > 1984 bytes, 32
33 > 2036 bytes, 58 TooDeep 1984
34 > 2088 bytes, 58 TooDeep 1984
100 > 5520 bytes, 58 TooDeep 1984";

pub(crate) fn directory(alloc: Global, name: &str) -> Result<Vec<u8>, Fail> {
    match name {
        "v1" => v1(alloc),
        "v2" => v2(alloc),
        "v3" => v3(alloc),
        "one" => first_directory(alloc),
        "disc" => named(alloc, "DISC1", "1"),
        letters => published(alloc, letters),
    }
}

/// Makes the directory that a question names, with the changes that follow.
pub(crate) fn changed(alloc: Global, question: &str) -> Result<Vec<u8>, Fail> {
    let (name, changes) = question.split_once(' ').unwrap_or((question, ""));
    let mut bytes = directory(alloc, name)?;
    put_words(alloc, &mut bytes, changes)?;
    Ok(bytes)
}

fn push_record(text: &mut String, tree: &Tree<'_>) -> Result<(), Fail> {
    let (at, kind) = (tree.at, str::from_utf8(tree.kind)?);
    let flag = if tree.in_use { "" } else { " inactive" };
    write!(text, "({at} {kind}{flag}")?;
    for below in &tree.below {
        push_record(text, below)?;
    }
    text.push(')')?;
    Ok(())
}

fn records(alloc: Global, forest: &Forest<'_>) -> Result<String, Fail> {
    let mut text = String::from_str(alloc, str::from_utf8(forest.id)?)?;
    if !forest.id.is_empty() {
        text.push(' ')?;
    }
    for root in &forest.trees {
        push_record(&mut text, root)?;
    }
    if !forest.trees.is_empty() {
        text.push(' ')?;
    }
    Ok(text)
}

pub(crate) fn shown(alloc: Global, forest: &Forest<'_>) -> Result<String, Fail> {
    let (records, unreached) = (records(alloc, forest)?, forest.unreached);
    Ok(format!(in alloc; "{records}{unreached}")?)
}

fn read(alloc: Global, question: &str) -> Result<String, Fail> {
    let bytes = changed(alloc, question)?;
    match read_directory(alloc, &bytes) {
        Ok(forest) => shown(alloc, &forest),
        Err(fault) => Ok(format!(in alloc; "{fault}")?),
    }
}

fn levels(tree: &Tree<'_>) -> u32 {
    let mut most = 0;
    for below in &tree.below {
        most = u32::max(most, levels(below));
    }
    most.saturating_add(1)
}

fn read_deep(alloc: Global, question: &str) -> Result<String, Fail> {
    let bytes = deep(alloc, question.parse()?)?;
    let size = bytes.len();
    match read_directory(alloc, &bytes) {
        Ok(forest) => {
            let levels = levels(forest.trees.first().ok_or("no record")?);
            Ok(format!(in alloc; "{size} bytes, {levels}")?)
        }
        Err(fault) => Ok(format!(in alloc; "{size} bytes, {fault}")?),
    }
}

#[test]
fn walks_and_levels_of_directories(rt: HostRuntime) -> Result<(), Fail> {
    ask_all(rt.alloc(), CHANGED, read)?;
    ask_all(rt.alloc(), DEEP, read_deep)
}
