//! Bytes that spell no data set, each with the first check that they fail.

use crate::sets::spellings::{PIXEL_DATA, nested, set_of, spelled};
use dd_scan::{ScanFault, scan};
use dd_set::{SetFault, Syntax};
use dd_vectors::{ByteSource, ask_all, cut, shown};
use std::alloc::Global;
use std::test::Fail;

/// One element cut short at each byte. Elements out of order, letters that name nothing, reserved bytes, odd lengths,
/// and an undefined length without a sequence. Tags of items out of place, an element where an item has to begin, and
/// delimiters with a length. An item and an element past the end of what holds them.
const REFUSED: &str = "\
explicit 10 > 1 Truncated
explicit 1000 > 1 Truncated
explicit 100020 > 1 Truncated
explicit 10002000 > 1 Truncated
explicit 10002000 4c > 1 Truncated
explicit 10002000 4c4f > 1 Truncated
explicit 10002000 4c4f 02 > 1 Truncated
explicit 10002000 4c4f 0200 > 1 Truncated
explicit 10002000 4c4f 0200 50 > 1 Truncated
explicit 10002000 4c4f 0200 5031 10002000 4c4f 0200 5031 > 2 Order
explicit 10002000 5a5a 0200 5031 > 3 BadVr
explicit e07f1000 4f42 0100 00000000 > 4 Reserved
explicit 10002000 4c4f 0100 50 > 5 OddLength
implicit 10002000 01000000 50 > 5 OddLength
explicit 08004011 5351 0000 ffffffff feff00e0 01000000 > 5 OddLength
explicit e07f1000 4f42 0000 ffffffff > 6 UndefinedLength
explicit feff0de0 00000000 > 7 UnexpectedTag
explicit 08004011 5351 0000 0a000000 10002000 4c4f 0200 5031 > 7 UnexpectedTag
explicit 08004011 5351 0000 ffffffff feffdde0 02000000 > 8 BadDelimiter
explicit 08004011 5351 0000 ffffffff feff00e0 ffffffff feff0de0 02000000 > 8 BadDelimiter
explicit 08004011 5351 0000 08000000 feff00e0 02000000 > 9 Overrun
explicit 08004011 5351 0000 12000000 feff00e0 0a000000 10002000 4c4f 0400 5031 > 9 Overrun";

/// Pixel data in fragments. First a length that is odd, undefined or past the end of the bytes, other tags than an
/// item's, and the end of a list with a length. Then an item that ends before the mark or within a fragment, and an odd
/// length where it ends. Last elements after the pixel data that are out of order.
const FRAGMENTS: &str = "\
encapsulated e07f1000 4f42 0000 ffffffff feff00e0 00000000 feff00e0 03000000 ff4fff51 feffdde0 00000000 > 5 OddLength
encapsulated e07f1000 4f42 0000 ffffffff feff00e0 00000000 feff00e0 ffffffff ff4fff51 feffdde0 00000000 > \
6 UndefinedLength
encapsulated e07f1000 4f42 0000 ffffffff feff00e0 00000000 feff00e0 feffffff ff4fff51 feffdde0 00000000 > 1 Truncated
encapsulated e07f1000 4f42 0000 ffffffff feff0de0 00000000 feff00e0 04000000 ff4fff51 feffdde0 00000000 > \
7 UnexpectedTag
encapsulated e07f1000 4f42 0000 ffffffff 10002000 4c4f 0200 5031 > 7 UnexpectedTag
encapsulated e07f1000 4f42 0000 ffffffff feff00e0 00000000 feff00e0 04000000 ff4fff51 feffdde0 02000000 > \
8 BadDelimiter
encapsulated e07f1000 4f42 0000 ffffffff feffdde0 02000000 > 8 BadDelimiter
encapsulated 08004011 5351 0000 28000000 feff00e0 20000000 e07f1000 4f42 0000 ffffffff \
feff00e0 00000000 feff00e0 04000000 ff4fff51 feffdde0 00000000 > 9 Overrun
encapsulated 08004011 5351 0000 24000000 feff00e0 1c000000 e07f1000 4f42 0000 ffffffff \
feff00e0 00000000 feff00e0 04000000 ff4fff51 feffdde0 00000000 > 9 Overrun
encapsulated 08004011 5351 0000 1c000000 feff00e0 14000000 e07f1000 4f42 0000 ffffffff feff00e0 03000000 > 5 OddLength
encapsulated e07f1000 4f42 0000 ffffffff feff00e0 00000000 feff00e0 04000000 ff4fff51 feffdde0 00000000 \
10002000 4c4f 0200 5031 > 2 Order
encapsulated e07f1000 4f42 0000 ffffffff feff00e0 00000000 feff00e0 04000000 ff4fff51 feffdde0 00000000 \
e07f1000 4f42 0000 ffffffff feff00e0 00000000 feff00e0 04000000 ff4fff51 feffdde0 00000000 > 2 Order";

/// Pixel data where no fragments stand: under other value representations and tags, and with other reserved bytes;
/// in Explicit and in Implicit VR. Last within an element UN, whose items are in Implicit VR.
const NO_FRAGMENTS: &str = "\
encapsulated e07f1000 4f57 0000 ffffffff feff00e0 00000000 feff00e0 04000000 ff4fff51 feffdde0 00000000 > \
6 UndefinedLength
encapsulated e07f1000 554e 0000 ffffffff feff00e0 00000000 feff00e0 04000000 ff4fff51 feffdde0 00000000 > 9 Overrun
encapsulated e07f1100 4f42 0000 ffffffff feff00e0 00000000 feff00e0 04000000 ff4fff51 feffdde0 00000000 > \
6 UndefinedLength
encapsulated e17f1000 4f42 0000 ffffffff feff00e0 00000000 feff00e0 04000000 ff4fff51 feffdde0 00000000 > \
6 UndefinedLength
encapsulated e07f1000 4f42 0100 ffffffff feff00e0 00000000 feff00e0 04000000 ff4fff51 feffdde0 00000000 > 4 Reserved
explicit e07f1000 4f42 0000 ffffffff feff00e0 00000000 feff00e0 04000000 ff4fff51 feffdde0 00000000 > \
6 UndefinedLength
explicit 08004011 5351 0000 ffffffff feff00e0 ffffffff e07f1000 4f42 0000 ffffffff \
feff00e0 00000000 feff00e0 04000000 ff4fff51 feffdde0 00000000 feff0de0 00000000 feffdde0 00000000 > 6 UndefinedLength
implicit e07f1000 4f42 0000 ffffffff feff00e0 00000000 feff00e0 04000000 ff4fff51 feffdde0 00000000 > 5 OddLength
implicit e07f1000 ffffffff feff00e0 00000000 feff00e0 04000000 ff4fff51 feffdde0 00000000 > 9 Overrun
encapsulated 09000110 554e 0000 ffffffff feff00e0 ffffffff e07f1000 4f42 0000 ffffffff \
feff00e0 00000000 feff00e0 04000000 ff4fff51 feffdde0 00000000 feff0de0 00000000 feffdde0 00000000 > 5 OddLength
encapsulated 09000110 554e 0000 ffffffff feff00e0 ffffffff e07f1000 ffffffff \
feff00e0 00000000 feff00e0 04000000 ff4fff51 feffdde0 00000000 feff0de0 00000000 feffdde0 00000000 > 9 Overrun";

/// Pixel data in fragments, alone and in an item: how many bytes spell it, and how many fronts of them are refused as
/// cut short. These are all but the empty one.
const CUT: &str = "\
encapsulated e07f1000 4f42 0000 ffffffff feff00e0 00000000 feff00e0 04000000 ff4fff51 feffdde0 00000000 > 40 39
encapsulated 08004011 5351 0000 ffffffff feff00e0 ffffffff e07f1000 4f42 0000 ffffffff \
feff00e0 00000000 feff00e0 04000000 ff4fff51 feffdde0 00000000 feff0de0 00000000 feffdde0 00000000 > 76 75";

/// Compares with the answer from a reader that gives at most `piece` bytes in a read.
fn is_refused_alike(
    alloc: Global,
    syntax: Syntax,
    bytes: &[u8],
    piece: u64,
    fault: Option<SetFault>,
) -> bool {
    let mut reader = ByteSource::new(bytes, piece, None);
    let answer = scan(alloc, syntax, &mut reader, &[PIXEL_DATA], 4096);
    answer.err() == fault.map(ScanFault::Set)
}

/// Gives the fault, the same in memory and from a reader, or `taken`.
fn answer(alloc: Global, syntax: Syntax, bytes: &[u8]) -> Result<String, Fail> {
    let fault = set_of(alloc, syntax, bytes).err();
    for piece in [1, 7, 4096] {
        if !is_refused_alike(alloc, syntax, bytes, piece, fault) {
            return Err("another answer from a reader".into());
        }
    }
    match fault {
        None => shown(alloc, "taken"),
        Some(fault) => shown(alloc, fault),
    }
}

fn refused(alloc: Global, question: &str) -> Result<String, Fail> {
    let (syntax, bytes) = spelled(alloc, question)?;
    answer(alloc, syntax, &bytes)
}

#[test]
fn the_first_check_that_fails(rt: HostRuntime) -> Result<(), Fail> {
    ask_all(rt.alloc(), REFUSED, refused)?;
    ask_all(rt.alloc(), FRAGMENTS, refused)?;
    ask_all(rt.alloc(), NO_FRAGMENTS, refused)
}

fn cut_short(alloc: Global, question: &str) -> Result<String, Fail> {
    let (syntax, bytes) = spelled(alloc, question)?;
    let size = bytes.len();
    let mut count = 0u32;
    for n in 0..size {
        let front = bytes.get(..n).ok_or("fewer bytes")?;
        if answer(alloc, syntax, front)?.as_str() == "1 Truncated" {
            count = count.saturating_add(1);
        }
    }
    shown(alloc, format_args!("{size} {count}"))
}

/// How deep sequences are nested, and what the innermost item holds; how many bytes spell them, and what becomes of
/// them. Fragments are at no level of their own.
const DEEP: &str = "\
32 explicit ' > 1152 taken
33 explicit ' > 1188 10 TooDeep
32 encapsulated e07f1000 4f42 0000 ffffffff feff00e0 00000000 feffdde0 00000000 > 1180 taken
33 encapsulated ' > 1188 10 TooDeep";

fn deep(alloc: Global, question: &str) -> Result<String, Fail> {
    let (levels, line) = cut(question, " ")?;
    let (syntax, inside) = spelled(alloc, line)?;
    let bytes = nested(alloc, levels.parse()?, &inside)?;
    let size = bytes.len();
    let answer = answer(alloc, syntax, &bytes)?;
    shown(alloc, format_args!("{size} {answer}"))
}

#[test]
fn fragments_cut_anywhere_and_items_32_levels_deep(rt: HostRuntime) -> Result<(), Fail> {
    ask_all(rt.alloc(), CUT, cut_short)?;
    ask_all(rt.alloc(), DEEP, deep)
}
