use dd_dir::publish;
use dd_elem::{FileId, SetId, Uid};
use dd_layout::Limits;
use dd_records::Label;
use dd_vectors::{catalogue_of, first_directory, put_words, v2, v3};
use std::alloc::{AllocError, Global};
use std::test::Fail;

pub(crate) fn widest() -> Result<Limits, Fail> {
    Ok(Limits::new(u32::MAX, FileId::MAX_RANK).ok_or("no limits")?)
}

pub(crate) fn label() -> Result<Label, Fail> {
    Ok(Label {
        id: SetId::new(b"")?,
        uid: Uid::new(b"2.25.0")?,
    })
}

/// Makes the directory with this name: `first`, `empty`, `v3`, or the letters of images, then `/` before each instance
/// that is withdrawn.
fn named(alloc: Global, name: &str) -> Result<Vec<u8>, Fail> {
    match name {
        "first" => first_directory(alloc),
        "empty" => v2(alloc),
        "v3" => v3(alloc),
        letters => Ok(publish(alloc, &catalogue_of(alloc, letters)?, &label()?, widest()?)?),
    }
}

/// Makes the directory of a word: its name, with `,` before each offset and each word of bytes that are put there.
fn directory(alloc: Global, word: &str) -> Result<Vec<u8>, Fail> {
    let (name, changes) = word.split_once(',').unwrap_or((word, ""));
    let mut bytes = named(alloc, name)?;
    put_words(alloc, &mut bytes, changes)?;
    Ok(bytes)
}

pub(crate) fn directories(alloc: Global, words: &str) -> Result<Vec<Vec<u8>>, Fail> {
    let mut all = Vec::new(alloc);
    for word in words.split(' ') {
        all.push(directory(alloc, word)?)?;
    }
    Ok(all)
}

pub(crate) fn slices(alloc: Global, all: &[Vec<u8>]) -> Result<Vec<&[u8]>, AllocError> {
    let mut slices = Vec::new(alloc);
    for bytes in all {
        slices.push(bytes.as_slice())?;
    }
    Ok(slices)
}
