use dd_calls::{ARGUMENTS, Answer};
use dd_elem::Tag;
use dd_vectors::{deep, first_directory, push_bytes, put_words, text_of, v1, v2, v3};
use std::alloc::{AllocError, Global};
use std::test::Fail;

const WITHDRAWN: &str = "09001000 4c4f 0c00 'DD_FILESET_1 09000210 5543 0000 0a000000 '1.2.3.4.6_";

/// Makes an answer to be overwritten.
pub(crate) fn no_answer() -> Answer {
    Answer::sized(0, 0, 0)
}

/// Makes the tag of this number.
pub(crate) fn tag_in(number: u32) -> Tag {
    Tag {
        group: (number / 65536) as u16,
        element: (number % 65536) as u16,
    }
}

/// Gives a status, and then the sizes of text, rows and File IDs. Of a fault it gives its causes, offset, tag and
/// source.
pub(crate) fn words(alloc: Global, status: u32, answer: &Answer) -> Result<String, AllocError> {
    let Answer {
        text,
        rows,
        files,
        ..
    } = *answer;
    if status < ARGUMENTS {
        return format!(in alloc; "{status} {text} {rows} {files}");
    }
    let Answer {
        within,
        cause,
        at,
        source,
        ..
    } = *answer;
    let tag = tag_in(answer.tag);
    format!(in alloc; "{status} {within} {cause} {at} {tag} {source}")
}

/// Makes the directory with this name (`v1`, `v2`, `v3`, `one`, `gone`, `deep`), and puts bytes into it at places.
pub(crate) fn directory(alloc: Global, words: &str) -> Result<Vec<u8>, Fail> {
    let (name, changes) = words.split_once(' ').unwrap_or((words, ""));
    let mut bytes = directory_named(alloc, name)?;
    put_words(alloc, &mut bytes, changes)?;
    Ok(bytes)
}

/// Makes `one` with the name of a withdrawn instance after its records: 918 bytes.
fn with_withdrawn(alloc: Global) -> Result<Vec<u8>, Fail> {
    let mut bytes = first_directory(alloc)?;
    push_bytes(alloc, &mut bytes, WITHDRAWN)?;
    Ok(bytes)
}

fn directory_named(alloc: Global, name: &str) -> Result<Vec<u8>, Fail> {
    match name {
        "v1" => v1(alloc),
        "v2" => v2(alloc),
        "v3" => v3(alloc),
        "one" => first_directory(alloc),
        "gone" => with_withdrawn(alloc),
        "deep" => deep(alloc, 33),
        _ => Err("no directory has this name".into()),
    }
}

/// Appends the texts that end at these places, each as a word.
pub(crate) fn push_texts(
    alloc: Global,
    said: &mut String,
    text: &[u8],
    ends: &[u64],
) -> Result<(), Fail> {
    let mut start = 0;
    for end in ends {
        let end = usize::try_from(*end)?;
        let piece = text.get(start..end).ok_or("ends that do not rise")?;
        let word = text_of(alloc, piece)?;
        write!(said, " {word}")?;
        start = end;
    }
    Ok(())
}
