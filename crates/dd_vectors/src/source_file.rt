//! V1, the file of a CT image, and files like it.

use crate::cases::cut;
use crate::texts::{bytes_of, push_bytes, tag_of};
use dd_elem::{Tag, Vr};
use std::alloc::Global;
use std::test::Fail;

/// Group 0002 of V1: the offset, the tag, the value representation and the value of each element.
const META: &str = "\
132 0002,0000 UL 84000000
144 0002,0001 OB 0001
158 0002,0002 UI '1.2.840.10008.5.1.4.1.1.2~
192 0002,0003 UI '1.2.3.4.5~
210 0002,0010 UI '1.2.840.10008.1.2.1~
238 0002,0012 UI '2.25.604472133179352588043346~";

const FRONT: &str = "\
276 0008,0016 UI '1.2.840.10008.5.1.4.1.1.2~
310 0008,0018 UI '1.2.3.4.5~
328 0008,0020 DA '20240115
344 0008,0030 TM '101500
358 0008,0060 CS 'CT";

const BACK: &str = "\
368 0010,0010 PN 'DOE^JOHN
384 0010,0020 LO 'P1
394 0020,000D UI '1.2.3~
408 0020,000E UI '1.2.3.4~
424 0020,0010 SH '1_
434 0020,0011 IS '1_
444 0020,0013 IS '1_";

/// All rows of V1: group 0002, and two parts of the data set.
pub const SOURCE_ROWS: [&str; 3] = [META, FRONT, BACK];

const IMPLICIT: &str = "0002,0000 UL 82000000; 0002,0010 UI '1.2.840.10008.1.2~";

/// A sequence before the Patient's Name. Its item has a Study Instance UID.
const SEQUENCE: &str = "08004011 ffffffff feff00e0 ffffffff 20000d00 04000000 '9.9~ \
                        feff0de0 00000000 feffdde0 00000000";

const ENCAPSULATED: &str = "0002,0000 UL 86000000; 0002,0010 UI '1.2.840.10008.1.2.4.90";

/// Pixel data: an empty offset table and a fragment of four bytes.
const FRAGMENTS: &str = "e07f1000 4f42 0000 ffffffff feff00e0 00000000 feff00e0 04000000 ff4fff51 \
                         feffdde0 00000000";

#[derive(Clone, Copy, PartialEq, Eq)]
enum Headers {
    Explicit,
    Implicit,
}

/// Makes V1: 454 bytes.
pub fn v1(alloc: Global) -> Result<Vec<u8>, Fail> {
    v1_with(alloc, "")
}

/// Makes V1 with changes, separated by `; `: `gggg,eeee VR VALUE` for the element with this tag, where a missing value
/// is empty, or `gggg,eeee absent`.
pub fn v1_with(alloc: Global, changes: &str) -> Result<Vec<u8>, Fail> {
    let mut bytes = preamble(alloc)?;
    for rows in SOURCE_ROWS {
        push_rows(alloc, &mut bytes, Headers::Explicit, (rows, changes))?;
    }
    Ok(bytes)
}

/// Makes V1 in Implicit VR, with the sequence: 496 bytes.
pub fn v1_implicit(alloc: Global) -> Result<Vec<u8>, Fail> {
    let mut bytes = preamble(alloc)?;
    push_rows(alloc, &mut bytes, Headers::Explicit, (META, IMPLICIT))?;
    push_rows(alloc, &mut bytes, Headers::Implicit, (FRONT, ""))?;
    push_bytes(alloc, &mut bytes, SEQUENCE)?;
    push_rows(alloc, &mut bytes, Headers::Implicit, (BACK, ""))?;
    Ok(bytes)
}

/// Makes V1 in JPEG 2000, with pixel data in fragments: 496 bytes.
pub fn v1_encapsulated(alloc: Global) -> Result<Vec<u8>, Fail> {
    let mut bytes = v1_with(alloc, ENCAPSULATED)?;
    push_bytes(alloc, &mut bytes, FRAGMENTS)?;
    Ok(bytes)
}

fn preamble(alloc: Global) -> Result<Vec<u8>, Fail> {
    let mut bytes = Vec::new(alloc);
    bytes.extend_from_slice(&[0; 128])?;
    bytes.extend_from_slice(b"DICM")?;
    Ok(bytes)
}

fn push_rows(
    alloc: Global,
    bytes: &mut Vec<u8>,
    headers: Headers,
    (rows, changes): (&str, &str),
) -> Result<(), Fail> {
    for row in rows.split('\n') {
        let (_place, row) = cut(row, " ")?;
        let (tag, rest) = changed(row, changes)?;
        if rest != "absent" {
            push_element(alloc, bytes, headers, (tag_of(tag)?, rest))?;
        }
    }
    Ok(())
}

/// Gives the tag of a row, and the rest of the change with this tag, or else of the row.
fn changed<'a>(row: &'a str, changes: &'a str) -> Result<(&'a str, &'a str), Fail> {
    let (tag, usual) = cut(row, " ")?;
    for change in changes.split("; ") {
        if let Some((other, rest)) = change.split_once(' ') {
            if other == tag {
                return Ok((tag, rest));
            }
        }
    }
    Ok((tag, usual))
}

/// Gives the value representation and the value of this element in V1 with these changes.
pub(crate) fn element<'a>(tag: &str, changes: &'a str) -> Result<&'a str, Fail> {
    for rows in SOURCE_ROWS {
        for row in rows.split('\n') {
            let (_place, row) = cut(row, " ")?;
            if row.starts_with(tag) {
                return Ok(changed(row, changes)?.1);
            }
        }
    }
    Err("V1 has no element with this tag".into())
}

fn push_element(
    alloc: Global,
    bytes: &mut Vec<u8>,
    headers: Headers,
    (tag, rest): (Tag, &str),
) -> Result<(), Fail> {
    let (vr, value) = rest.split_once(' ').unwrap_or((rest, "'"));
    let value = bytes_of(alloc, value)?;
    bytes.extend_from_slice(&tag.group.to_le_bytes())?;
    bytes.extend_from_slice(&tag.element.to_le_bytes())?;
    push_length(bytes, headers, vr, u32::try_from(value.len())?)?;
    bytes.extend_from_slice(&value)?;
    Ok(())
}

fn push_length(bytes: &mut Vec<u8>, headers: Headers, vr: &str, length: u32) -> Result<(), Fail> {
    if headers == Headers::Explicit {
        bytes.extend_from_slice(vr.as_bytes())?;
        let letters = vr.as_bytes().try_into()?;
        let vr = Vr::from_letters(letters).ok_or("letters that name nothing")?;
        if !vr.is_long() {
            bytes.extend_from_slice(&u16::try_from(length)?.to_le_bytes())?;
            return Ok(());
        }
        bytes.extend_from_slice(&[0, 0])?;
    }
    bytes.extend_from_slice(&length.to_le_bytes())?;
    Ok(())
}
