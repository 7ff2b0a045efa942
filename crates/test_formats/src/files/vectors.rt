use dd_part10::{Meta, parse_file};
use dd_vectors::{
    bytes_of, cut, first_directory, push_bytes, put_at, v1, v1_encapsulated, v1_implicit, v2,
};
use std::alloc::Global;
use std::test::Fail;

/// Makes the file with this name, or V1 with private information of these lengths.
pub(crate) fn file_named(alloc: Global, name: &str) -> Result<Vec<u8>, Fail> {
    match name {
        "v1" => v1(alloc),
        "v1 implicit" => v1_implicit(alloc),
        "v1 encapsulated" => v1_encapsulated(alloc),
        "v2" => v2(alloc),
        "first directory" => first_directory(alloc),
        lengths => v1_with_private(alloc, lengths),
    }
}

/// Makes V1 with these bytes from this offset on.
pub(crate) fn v1_changed(alloc: Global, place: &str, change: &str) -> Result<Vec<u8>, Fail> {
    let mut bytes = v1(alloc)?;
    put_at(&mut bytes, place.parse()?, &bytes_of(alloc, change)?)?;
    Ok(bytes)
}

/// Makes V1 with private information after the other elements of group 0002: its creator (0002,0100), and bytes
/// (0002,0102). The words are the length of the group and of these bytes.
fn v1_with_private(alloc: Global, lengths: &str) -> Result<Vec<u8>, Fail> {
    let (group, private) = cut(lengths, " ")?;
    let (group, private) = (group.parse::<u32>()?, private.parse::<u32>()?);
    let usual = v1(alloc)?;
    let (head, set) = usual.split_at_checked(276).ok_or("fewer bytes")?;
    let mut bytes = head.to_vec(alloc)?;
    put_at(&mut bytes, 140, &group.to_le_bytes())?;
    push_private(alloc, &mut bytes, private)?;
    bytes.extend_from_slice(set)?;
    Ok(bytes)
}

fn push_private(alloc: Global, bytes: &mut Vec<u8>, length: u32) -> Result<(), Fail> {
    push_bytes(
        alloc,
        bytes,
        "02000001 'UI 0a00 '1.2.3.4.5~ 02000201 'OB 0000",
    )?;
    bytes.extend_from_slice(&length.to_le_bytes())?;
    for _ in 0..length {
        bytes.push(0xa5)?;
    }
    Ok(())
}

pub(crate) fn meta_of(alloc: Global, bytes: &[u8]) -> Result<Meta, Fail> {
    let file = parse_file(alloc, bytes)?;
    Ok(file.meta)
}
