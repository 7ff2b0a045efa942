use crate::sets::spellings::{IMAGES, PATIENT_ID, PIXEL_DATA, spelled};
use dd_elem::Tag;
use dd_scan::{Found, FoundValue, Scan, ScanFault, scan};
use dd_set::Syntax;
use dd_vectors::{ByteSource, ask_all, bytes_of, reader_of, shown, tags_of, text_of, v1};
use std::alloc::Global;
use std::test::Fail;

/// Scans of the data set of V1, which has 178 bytes: the most bytes of a read, the limit, after how many
/// bytes the reader fails, and the wanted tags.
const SCANS: &str = "\
1 178 - 0010,0020 > (0008,0016); (0010,0020) 'P1 2
4096 178 - 0010,0020 > (0008,0016); (0010,0020) 'P1 2
178 178 - 0020,0013 0008,0016 > \
(0008,0016); (0008,0016) '1.2.840.10008.5.1.4.1.1.2 25; (0020,0013) '1 1
7 4096 - 0010,0020 0010,0020 0010,0021 > (0008,0016); (0010,0020) 'P1 2
44 178 - > (0008,0016)
178 177 - 0010,0020 > 15 TooLong
44 177 - 0010,0020 > 15 TooLong
1 0 - 0010,0020 > 15 TooLong
44 178 0 0010,0020 > 14 Read
44 178 177 0010,0020 > 14 Read
44 178 178 0010,0020 > 14 Read
44 177 178 0010,0020 > 15 TooLong";

/// Scans of 20 bytes, where the header that ends with the 18th is out of order.
const FAULTY: &str = "\
1 20 - 0010,0020 > 2 Order
7 20 - > 2 Order
4096 20 - 0010,0020 > 2 Order
1 20 20 0010,0020 > 14 Read
7 20 19 0010,0020 > 14 Read
7 20 12 0010,0020 > 14 Read
1 19 - 0010,0020 > 15 TooLong
7 11 - 0010,0020 > 15 TooLong
4096 19 20 0010,0020 > 15 TooLong";

/// The numbers of `A`, of spaces and of `B` in a Patient ID, in this order. Then what a scan says: how many bytes are
/// kept and end in which one, and how many there are without the padding.
const LONG: &str = "\
1024 4 2 > 1024 A 1030
1023 1 2 > 1024 _ 1026
1023 1 0 > 1023 A 1023
1024 2 0 > 1024 A 1024
10 1016 2 > 1024 _ 1028
0 1024 0 > 0 - 0
1 5000 1 > 1024 _ 5002
1023 5001 0 > 1023 A 1023
10001 1 0 > 1024 A 10001";

/// Scans for the Patient ID, the Referenced Image Sequence and the Pixel Data: of elements, of a sequence in whose
/// item another element stands, and of padding. Then of bytes that are no data set.
const SETS: &str = "\
explicit ' > empty
explicit 10002000 4c4f 0200 5031 > (0010,0020); (0010,0020) 'P1 2
implicit 10002000 02000000 5031 > (0010,0020); (0010,0020) 'P1 2
explicit 08004011 5351 0000 12000000 feff00e0 0a000000 10002000 4c4f 0200 5031 > \
(0008,1140); (0008,1140) items
implicit 08004011 ffffffff feff00e0 0a000000 10002000 02000000 5031 feffdde0 00000000 > \
(0008,1140); (0008,1140) items
explicit 09000110 554e 0000 ffffffff feff00e0 ffffffff 10002000 02000000 5031 \
feff0de0 00000000 feffdde0 00000000 > (0009,1001)
explicit 10002000 4c4f 0800 '_P1__~_~ > (0010,0020); (0010,0020) '_P1 3
explicit 10002000 4c4f 0400 '_~~_ > (0010,0020); (0010,0020) ' 0
explicit 10002000 4c4f 0200 5031 10002000 4c4f 0200 5031 > 2 Order
explicit 10002000 4c4f 0200 50 > 1 Truncated
explicit 08004011 5351 0000 ffffffff feffdde0 02000000 > 8 BadDelimiter
explicit 08004011 5351 0000 08000000 feff00e0 02000000 > 9 Overrun";

/// Scans of pixel data in fragments: two, none at all, two before another element, and one after one. Then two in an
/// item, where they are not found; pixel data that is bytes; and a fragment of odd length.
const FRAGMENTS: &str = "\
encapsulated e07f1000 4f42 0000 ffffffff feff00e0 00000000 feff00e0 04000000 ff4fff51 feffdde0 00000000 > \
(7FE0,0010); (7FE0,0010) fragments
encapsulated e07f1000 4f42 0000 ffffffff feffdde0 00000000 > (7FE0,0010); (7FE0,0010) fragments
encapsulated e07f1000 4f42 0000 ffffffff feff00e0 00000000 feff00e0 04000000 ff4fff51 feffdde0 00000000 \
fcfffcff 4f42 0000 02000000 5031 > (7FE0,0010); (7FE0,0010) fragments
encapsulated 10002000 4c4f 0200 5031 e07f1000 4f42 0000 ffffffff feff00e0 00000000 feffdde0 00000000 > \
(0010,0020); (0010,0020) 'P1 2; (7FE0,0010) fragments
encapsulated 08004011 5351 0000 ffffffff feff00e0 ffffffff e07f1000 4f42 0000 ffffffff \
feff00e0 00000000 feff00e0 04000000 ff4fff51 feffdde0 00000000 feff0de0 00000000 feffdde0 00000000 > \
(0008,1140); (0008,1140) items
encapsulated e07f1000 4f42 0000 02000000 5031 > (7FE0,0010); (7FE0,0010) 'P1 2
encapsulated e07f1000 4f42 0000 ffffffff feff00e0 03000000 > 5 OddLength";

/// Gives the first tag, and the tag, the front of the value and the length of each element that was found; or the
/// fault.
pub(crate) fn in_words(alloc: Global, answer: Result<Scan, ScanFault>) -> Result<String, Fail> {
    let scan = match answer {
        Ok(scan) => scan,
        Err(fault) => return shown(alloc, fault),
    };
    let Some(first) = scan.first else {
        return shown(alloc, "empty");
    };
    let mut text = format!(in alloc; "{first}")?;
    push_found(alloc, &mut text, &scan.found)?;
    Ok(text)
}

pub(crate) fn push_found(alloc: Global, text: &mut String, all: &[Found]) -> Result<(), Fail> {
    for found in all {
        let tag = found.tag;
        match &found.value {
            FoundValue::Items => write!(text, "; {tag} items")?,
            FoundValue::Fragments => {
                write!(text, "; {tag} fragments")?;
            }
            FoundValue::Bytes { front, length } => {
                let front = text_of(alloc, front)?;
                write!(text, "; {tag} {front} {length}")?;
            }
        }
    }
    Ok(())
}

fn scanned(alloc: Global, set: &[u8], question: &str) -> Result<String, Fail> {
    let (mut reader, limit, words) = reader_of(set, question)?;
    let wanted = tags_of(alloc, words)?;
    let answer = scan(alloc, Syntax::Explicit, &mut reader, &wanted, limit);
    in_words(alloc, answer)
}

fn scanned_v1(alloc: Global, question: &str) -> Result<String, Fail> {
    let file = v1(alloc)?;
    scanned(alloc, file.get(276..).ok_or("no data set")?, question)
}

fn scanned_set(alloc: Global, question: &str) -> Result<String, Fail> {
    let (syntax, bytes) = spelled(alloc, question)?;
    let mut reader = ByteSource::new(&bytes, 7, None);
    let wanted: [Tag; 3] = [PATIENT_ID, IMAGES, PIXEL_DATA];
    let answer = scan(alloc, syntax, &mut reader, &wanted, 4096);
    in_words(alloc, answer)
}

#[test]
fn scans_of_many_sets(rt: HostRuntime) -> Result<(), Fail> {
    ask_all(rt.alloc(), SETS, scanned_set)?;
    ask_all(rt.alloc(), FRAGMENTS, scanned_set)
}

fn scanned_faulty(alloc: Global, question: &str) -> Result<String, Fail> {
    let set = bytes_of(alloc, "10002000 4c4f 0200 5031 10002000 4c4f 0200 5031")?;
    scanned(alloc, &set, question)
}

#[test]
fn scans_of_one_set_and_of_one_with_a_fault(rt: HostRuntime) -> Result<(), Fail> {
    ask_all(rt.alloc(), SCANS, scanned_v1)?;
    ask_all(rt.alloc(), FAULTY, scanned_faulty)
}

/// The line has the numbers of `A`, of spaces and of `B` in a Patient ID.
fn padded_within(alloc: Global, line: &str) -> Result<Vec<u8>, Fail> {
    let mut value = Vec::new(alloc);
    for (word, byte) in line.split(' ').zip(b"A B") {
        for _ in 0..word.parse::<u32>()? {
            value.push(*byte)?;
        }
    }
    let mut set = bytes_of(alloc, "10002000 5554 0000")?;
    set.extend_from_slice(&u32::try_from(value.len())?.to_le_bytes())?;
    set.extend_from_slice(&value)?;
    Ok(set)
}

/// Gives how many bytes are kept, the last of them, and the length without the padding.
fn long(alloc: Global, question: &str) -> Result<String, Fail> {
    let set = padded_within(alloc, question)?;
    let mut reader = ByteSource::new(&set, 100, None);
    let scan = scan(alloc, Syntax::Explicit, &mut reader, &[PATIENT_ID], 1 << 20)?;
    let Some(FoundValue::Bytes { front, length }) = scan.found.first().map(|found| &found.value)
    else {
        return Err("no bytes found".into());
    };
    let last = match front.last() {
        None => '-',
        Some(b' ') => '_',
        Some(last) => char::from(*last),
    };
    let kept = front.len();
    shown(alloc, format_args!("{kept} {last} {length}"))
}

#[test]
fn the_front_of_a_long_value(rt: HostRuntime) -> Result<(), Fail> {
    ask_all(rt.alloc(), LONG, long)
}
