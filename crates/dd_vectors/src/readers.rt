use crate::byte_source::ByteSource;
use crate::cases::{cut, failing};
use crate::texts::tag_of;
use dd_elem::Tag;
use std::alloc::Global;
use std::test::Fail;

/// Makes a reader of these bytes by the question: the most bytes of a read, the limit, after how many bytes the reader
/// fails, and the wanted tags. Gives the limit and the tags too.
pub fn reader_of<'a, 'b>(
    bytes: &'a [u8],
    question: &'b str,
) -> Result<(ByteSource<'a>, u64, &'b str), Fail> {
    let (piece, rest) = cut(question, " ")?;
    let (limit, rest) = cut(rest, " ")?;
    let (fails, words) = rest.split_once(' ').unwrap_or((rest, ""));
    let reader = ByteSource::new(bytes, piece.parse()?, failing(fails)?);
    Ok((reader, limit.parse()?, words))
}

/// Gives the tags of these words, none where the text is empty.
pub fn tags_of(alloc: Global, words: &str) -> Result<Vec<Tag>, Fail> {
    let mut tags = Vec::new(alloc);
    for word in words.split_terminator(' ') {
        tags.push(tag_of(word)?)?;
    }
    Ok(tags)
}
