//! Images that are copied from one device to another.

use dd_vectors::{ByteSource, Sink, ask_all, bytes_of, failing, v1};
use dicomdir::copy_image;
use std::alloc::Global;
use std::test::Fail;

/// The SHA-256 of V1.
pub(crate) const DIGEST: &str = "900e75e1c153f87b21e09f9db68aef627f2dd320eb3afb1f2574594e6c862a92";

/// Copies of V1: the most bytes of a read, after how many the reader and the writer fail, and the limit. Then what the
/// copy says and how many bytes of V1 were sent.
const COPIES: &str = "\
1000 - - 454 > digest 454
1 - - 454 > digest 454
100 - - 1000 > digest 454
1000 - - 453 > 97 Changed 0
1 - - 453 > 97 Changed 453
100 - - 0 > 97 Changed 0
100 200 - 454 > 93 Unread 200
100 - 150 454 > 96 Unsent 150
100 - 454 454 > digest 454";

/// The SHA-256 of 131,073 bytes of zero.
const LONG_DIGEST: &str = "d281209cc72d47b090175b22621840d9eb8267d09cc05dc122bfaa759a82830f";

/// Copies of these bytes, which take more than two reads.
const LONG_COPIES: &str = "\
1000000 - - 131073 > digest 131073
1000000 - - 131072 > 97 Changed 131072
1000 - - 1000000 > digest 131073
1000000 100000 - 131073 > 93 Unread 100000
1000000 - 70000 131073 > 96 Unsent 70000";

fn copied(alloc: Global, image: &[u8], wanted: &str, question: &str) -> Result<String, Fail> {
    let (piece, rest) = question.split_once(' ').ok_or("no piece")?;
    let (reader, rest) = rest.split_once(' ').ok_or("no reader")?;
    let (writer, limit) = rest.split_once(' ').ok_or("no writer")?;
    let mut source = ByteSource::new(image, piece.parse()?, failing(reader)?);
    let mut sink = Sink::new(alloc, failing(writer)?);
    let said = match copy_image(&mut source, &mut sink, limit.parse()?) {
        Ok(digest) => digest_words(alloc, &digest, wanted)?,
        Err(fault) => format!(in alloc; "{fault}")?,
    };
    let sent = sent_of(image, sink.bytes())?;
    Ok(format!(in alloc; "{said} {sent}")?)
}

pub(crate) fn digest_words(alloc: Global, digest: &[u8; 32], wanted: &str) -> Result<String, Fail> {
    let is_right = bytes_of(alloc, wanted)?.as_slice() == &digest[..];
    let words = if is_right { "digest" } else { "another digest" };
    Ok(String::from_str(alloc, words)?)
}

/// Counts the bytes that were sent, which must be the first of the image.
pub(crate) fn sent_of(image: &[u8], sent: &[u8]) -> Result<usize, Fail> {
    if !image.starts_with(sent) {
        return Err("other bytes were sent".into());
    }
    Ok(sent.len())
}

fn copied_v1(alloc: Global, question: &str) -> Result<String, Fail> {
    copied(alloc, &v1(alloc)?, DIGEST, question)
}

fn copied_long(alloc: Global, question: &str) -> Result<String, Fail> {
    let mut image = Vec::new(alloc);
    for _ in 0..131_073u32 {
        image.push(0u8)?;
    }
    copied(alloc, &image, LONG_DIGEST, question)
}

#[test]
fn images_are_copied_or_refused(rt: HostRuntime) -> Result<(), Fail> {
    ask_all(rt.alloc(), COPIES, copied_v1)?;
    ask_all(rt.alloc(), LONG_COPIES, copied_long)
}
