//! Bytes as text: words between spaces or line ends, each of hexadecimal digits, or of `'` and then characters, where
//! `_` is a space and `~` a byte 00.

use crate::cases::cut;
use dd_elem::Tag;
use std::alloc::{AllocError, Global};
use std::test::Fail;

/// Gives the bytes of the words.
pub fn bytes_of(alloc: Global, text: &str) -> Result<Vec<u8>, Fail> {
    let mut bytes = Vec::new(alloc);
    push_bytes(alloc, &mut bytes, text)?;
    Ok(bytes)
}

/// Appends the bytes of the words.
pub fn push_bytes(alloc: Global, bytes: &mut Vec<u8>, text: &str) -> Result<(), Fail> {
    for word in text.split([' ', '\n']) {
        match word.strip_prefix('\'') {
            Some(characters) => push_characters(bytes, characters)?,
            None => bytes.extend_from_slice(&hex::decode(alloc, word)?)?,
        }
    }
    Ok(())
}

fn push_characters(bytes: &mut Vec<u8>, characters: &str) -> Result<(), AllocError> {
    for character in characters.as_bytes() {
        bytes.push(match character {
            b'_' => b' ',
            b'~' => 0,
            other => *other,
        })?;
    }
    Ok(())
}

/// Gives the word of ASCII characters for these bytes.
pub fn text_of(alloc: Global, bytes: &[u8]) -> Result<String, AllocError> {
    let mut text = String::from_str(alloc, "'")?;
    for byte in bytes {
        text.push(match byte {
            b' ' => '_',
            0 => '~',
            other => char::from(*other),
        })?;
    }
    Ok(text)
}

/// Reads a tag, `gggg,eeee`.
pub fn tag_of(text: &str) -> Result<Tag, Fail> {
    let (group, element) = cut(text, ",")?;
    Ok(Tag {
        group: u16::from_str_radix(group, 16)?,
        element: u16::from_str_radix(element, 16)?,
    })
}

/// Puts bytes at offsets: pairs of an offset and a word of bytes, between spaces or commas.
pub fn put_words(alloc: Global, bytes: &mut [u8], words: &str) -> Result<(), Fail> {
    if words.is_empty() {
        return Ok(());
    }
    let mut words = words.split([' ', ',']);
    while let Some(place) = words.next() {
        let new = bytes_of(alloc, words.next().ok_or("no bytes")?)?;
        put_at(bytes, place.parse()?, &new)?;
    }
    Ok(())
}

/// Puts bytes at an offset. Fails where they do not fit.
pub fn put_at(bytes: &mut [u8], place: usize, new: &[u8]) -> Result<(), Fail> {
    let end = place.checked_add(new.len()).ok_or("no place")?;
    let old = bytes.get_mut(place..end).ok_or("no bytes there")?;
    old.copy_from_slice(new);
    Ok(())
}
