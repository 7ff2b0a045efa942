//! Digests of four and of eight messages at once: the examples of FIPS 180-4, and the digests of `sha2` at all lengths
//! up to some blocks.

use dd_vectors::{ask_all, bytes_of};
use sha2::{Digest, Sha256};
use sha256_lanes::{Digests, digest4, digest8};
use std::alloc::Global;
use std::test::Fail;

/// The messages of no bit, of 24, of 448 and of 896 bits, and their digests.
const EXAMPLES: &str = "\
' > e3b0c44298fc1c149afbf4c8996fb92427ae41e4649b934ca495991b7852b855
'abc > ba7816bf8f01cfea414140de5dae2223b00361a396177a9cb410ff61f20015ad
'abcdbcdecdefdefgefghfghighijhijkijkljklmklmnlmnomnopnopq > \
248d6a61d20638b8e5c026930c3e6039a33ce45964ff2167f6ecedd419db06c1
'abcdefghbcdefghicdefghijdefghijkefghijklfghijklmghijklmnhijklmnoijklmnopjklmnopqklmnopqrlmnopqrsmnopqrstnopqrstu > \
cf5b16a778af8380036ce59e7b0492370b249b11e8f07a51afac45037afee9d1";

/// The digest that all places give of one message, those of four and those of eight.
fn digest_of(alloc: Global, question: &str) -> Result<String, Fail> {
    let message = bytes_of(alloc, question)?;
    let bytes = message.as_slice();
    let four = digest4(bytes, bytes, bytes, bytes);
    let (front, back) = digest8((bytes, bytes, bytes, bytes), (bytes, bytes, bytes, bytes));
    for (a, b, c, d) in [four, front, back] {
        if [a, b, c, d] != [four.0; 4] {
            return Err("the places differ".into());
        }
    }
    Ok(hex::encode(alloc, four.0)?)
}

/// A message with this length, which is another one for each seed.
fn message(alloc: Global, len: u32, seed: u8) -> Result<Vec<u8>, Fail> {
    let mut bytes = Vec::new(alloc);
    for place in 0..len {
        bytes.push((place % 251) as u8 ^ seed)?;
    }
    Ok(bytes)
}

/// Four messages.
type Messages = (Vec<u8>, Vec<u8>, Vec<u8>, Vec<u8>);

/// Messages of these lengths, which are others for each seed.
fn messages(alloc: Global, lengths: (u32, u32, u32, u32), seed: u8) -> Result<Messages, Fail> {
    Ok((
        message(alloc, lengths.0, seed)?,
        message(alloc, lengths.1, seed ^ 1)?,
        message(alloc, lengths.2, seed ^ 2)?,
        message(alloc, lengths.3, seed ^ 3)?,
    ))
}

/// Are these the digests of `sha2`?
fn are_right(found: Digests, messages: &Messages) -> bool {
    found.0 == Sha256::digest(messages.0.as_slice())
        && found.1 == Sha256::digest(messages.1.as_slice())
        && found.2 == Sha256::digest(messages.2.as_slice())
        && found.3 == Sha256::digest(messages.3.as_slice())
}

/// Are messages digested as by `sha2`, four of these lengths, and eight of these and then of these from the last to the
/// first?
fn are_digests(alloc: Global, a: u32, b: u32, c: u32, d: u32) -> Result<bool, Fail> {
    let first = messages(alloc, (a, b, c, d), 0)?;
    let last = messages(alloc, (d, c, b, a), 4)?;
    let front = (
        first.0.as_slice(),
        first.1.as_slice(),
        first.2.as_slice(),
        first.3.as_slice(),
    );
    let back = (
        last.0.as_slice(),
        last.1.as_slice(),
        last.2.as_slice(),
        last.3.as_slice(),
    );
    let four = digest4(front.0, front.1, front.2, front.3);
    let eight = digest8(front, back);
    Ok(are_right(four, &first) && are_right(eight.0, &first) && are_right(eight.1, &last))
}

#[test]
fn examples_of_the_standard(rt: HostRuntime) -> Result<(), Fail> {
    ask_all(rt.alloc(), EXAMPLES, digest_of)
}

/// Each length stands in each place. Where one is much longer than the others, the messages are digested one by one.
#[test]
fn lengths_from_0_to_300_and_longer_ones(rt: HostRuntime) -> Result<(), Fail> {
    assert!(rt; are_digests(rt.alloc(), 4096, 0, 1, 64)?);
    assert!(rt; are_digests(rt.alloc(), 3, 120, 0, 5000)?);
    for len in 0..=300u32 {
        let (b, c, d) = ((len + 7) % 301, (len + 70) % 301, (len + 150) % 301);
        assert!(rt; are_digests(rt.alloc(), len, b, c, d)?, "from {len}");
    }
    Ok(())
}
