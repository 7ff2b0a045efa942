use dd_elem::Tag;
use dd_set::{DataSet, SetFault, Syntax, parse};
use dd_vectors::{bytes_of, cut, push_bytes};
use std::alloc::Global;
use std::test::Fail;

pub(crate) const PATIENT_ID: Tag = Tag {
    group: 0x0010,
    element: 0x0020,
};

/// Referenced Image Sequence.
pub(crate) const IMAGES: Tag = Tag {
    group: 0x0008,
    element: 0x1140,
};

pub(crate) const PIXEL_DATA: Tag = Tag {
    group: 0x7fe0,
    element: 0x0010,
};

/// Reads a line `explicit WORDS`, `implicit WORDS` or `encapsulated WORDS`, whose words name bytes.
pub(crate) fn spelled(alloc: Global, line: &str) -> Result<(Syntax, Vec<u8>), Fail> {
    let (name, words) = cut(line, " ")?;
    let syntax = match name {
        "explicit" => Syntax::Explicit,
        "implicit" => Syntax::Implicit,
        "encapsulated" => Syntax::Encapsulated,
        _ => return Err("no syntax".into()),
    };
    Ok((syntax, bytes_of(alloc, words)?))
}

pub(crate) fn set_of(alloc: Global, syntax: Syntax, bytes: &[u8]) -> Result<DataSet<'_>, SetFault> {
    parse(alloc, syntax, bytes)
}

/// Makes sequences of undefined length, each with one item of undefined length, nested this deep.
pub(crate) fn nested(alloc: Global, levels: usize, inside: &[u8]) -> Result<Vec<u8>, Fail> {
    let mut bytes = Vec::new(alloc);
    for _ in 0..levels {
        push_bytes(
            alloc,
            &mut bytes,
            "08004011 5351 0000 ffffffff feff00e0 ffffffff",
        )?;
    }
    bytes.extend_from_slice(inside)?;
    for _ in 0..levels {
        push_bytes(alloc, &mut bytes, "feff0de0 00000000 feffdde0 00000000")?;
    }
    Ok(bytes)
}
