//! A directory cut short anywhere, and one with an offset of any value.

use dd_vectors::{ask_all, first_directory, put_at};
use dd_walk::read_directory;
use std::alloc::Global;
use std::test::Fail;

/// To how many bytes at least and at most the directory of V1 is cut, and what is said of each such front. It ends
/// within the preamble, within group 0002, then between and within the elements of the data set, the last of which has
/// all records. The whole is the last.
const CUTS: &str = "\
0 131 > 51 File 21 NotPart10
132 265 > 51 File 22 GroupLength
266 266 > 52 NotDirectory
267 273 > 51 File 27 Set 1 Truncated
274 274 > 52 NotDirectory
275 285 > 51 File 27 Set 1 Truncated
286 286 > 52 NotDirectory
287 297 > 51 File 27 Set 1 Truncated
298 298 > 52 NotDirectory
299 307 > 51 File 27 Set 1 Truncated
308 308 > 52 NotDirectory
309 875 > 51 File 27 Set 1 Truncated
876 876 > 0 unreached";

/// A place in that directory, the least and the greatest offset that is put there, and what is said of each directory,
/// where `itself` stands for the offset. The places have the offsets of the first root record, of the last one, of the
/// next record after the patient, and of the first one below it. Records are at 320, 404, 530 and 622.
const OFFSETS: &str = "\
282 0 0 > 56 LastRoot
282 1 319 > 54 Dangling itself
282 320 320 > 0 unreached
282 321 403 > 54 Dangling itself
282 404 404 > 56 LastRoot
282 405 529 > 54 Dangling itself
282 530 530 > 56 LastRoot
282 531 621 > 54 Dangling itself
282 622 622 > 56 LastRoot
282 623 876 > 54 Dangling itself
282 4294967295 4294967295 > 54 Dangling itself
294 0 319 > 56 LastRoot
294 320 320 > 0 unreached
294 321 876 > 56 LastRoot
294 4294967295 4294967295 > 56 LastRoot
336 0 0 > 0 unreached
336 1 319 > 54 Dangling itself
336 320 320 > 55 Twice itself
336 321 403 > 54 Dangling itself
336 404 404 > 55 Twice itself
336 405 529 > 54 Dangling itself
336 530 530 > 55 Twice itself
336 531 621 > 54 Dangling itself
336 622 622 > 55 Twice itself
336 623 876 > 54 Dangling itself
336 4294967295 4294967295 > 54 Dangling itself
358 0 0 > 3 unreached
358 1 319 > 54 Dangling itself
358 320 320 > 55 Twice itself
358 321 403 > 54 Dangling itself
358 404 404 > 0 unreached
358 405 529 > 54 Dangling itself
358 530 530 > 1 unreached
358 531 621 > 54 Dangling itself
358 622 622 > 2 unreached
358 623 876 > 54 Dangling itself
358 4294967295 4294967295 > 54 Dangling itself";

fn said(alloc: Global, bytes: &[u8]) -> Result<String, Fail> {
    match read_directory(alloc, bytes) {
        Ok(forest) => {
            let unreached = forest.unreached;
            Ok(format!(in alloc; "{unreached} unreached")?)
        }
        Err(fault) => Ok(format!(in alloc; "{fault}")?),
    }
}

/// Gives what is said of all fronts of the range, or of the first that differs.
fn cut(alloc: Global, question: &str) -> Result<String, Fail> {
    let (first, last) = question.split_once(' ').ok_or("no last")?;
    let (first, last): (usize, usize) = (first.parse()?, last.parse()?);
    let bytes = first_directory(alloc)?;
    let common = said(alloc, bytes.get(..first).ok_or("fewer bytes")?)?;
    for size in first..=last {
        let said = said(alloc, bytes.get(..size).ok_or("fewer bytes")?)?;
        if said.as_str() != common.as_str() {
            return Ok(format!(in alloc; "{said} at {size}")?);
        }
    }
    Ok(common)
}

/// The last word is `itself` where it is the offset.
fn said_of_offset(
    alloc: Global,
    bytes: &mut [u8],
    place: usize,
    offset: u32,
) -> Result<String, Fail> {
    put_at(bytes, place, &offset.to_le_bytes())?;
    let said = said(alloc, bytes)?;
    let number = format!(in alloc; "{offset}")?;
    match said.as_str().strip_suffix(number.as_str()) {
        Some(front) => Ok(format!(in alloc; "{front}itself")?),
        None => Ok(said),
    }
}

fn said_of_offsets(alloc: Global, place: usize, first: u32, last: u32) -> Result<String, Fail> {
    let mut bytes = first_directory(alloc)?;
    let common = said_of_offset(alloc, &mut bytes, place, first)?;
    for offset in first..=last {
        let said = said_of_offset(alloc, &mut bytes, place, offset)?;
        if said.as_str() != common.as_str() {
            return Ok(format!(in alloc; "{said} at {offset}")?);
        }
    }
    Ok(common)
}

fn offset(alloc: Global, question: &str) -> Result<String, Fail> {
    let (place, rest) = question.split_once(' ').ok_or("no offset")?;
    let (first, last) = rest.split_once(' ').ok_or("no last")?;
    said_of_offsets(alloc, place.parse()?, first.parse()?, last.parse()?)
}

#[test]
fn directories_cut_short_and_offsets_of_any_value(rt: HostRuntime) -> Result<(), Fail> {
    ask_all(rt.alloc(), CUTS, cut)?;
    ask_all(rt.alloc(), OFFSETS, offset)
}
