use crate::files::vectors::{file_named, meta_of, v1_changed};
use crate::sets::scanning::push_found;
use dd_elem::Tag;
use dd_part10::{Meta, Scanned, StreamFault, parse_file, read_file};
use dd_vectors::{ByteSource, ask_all, cut, reader_of, shown, tag_of, tags_of, v1};
use std::alloc::Global;
use std::test::Fail;

/// Reads of V1 (454 bytes): the offset of other bytes, these, the most bytes of a read, the limit, after how many the
/// reader fails, and the wanted tags. The other bytes are one of the preamble, unchanged, one of the prefix, and the
/// group of the first element of the data set.
const READS: &str = "\
0 00 1 454 - 0010,0020 > as parsed; (0010,0020) 'P1 2
0 00 7 454 - 0010,0020 > as parsed; (0010,0020) 'P1 2
0 00 4096 454 - 0010,0020 > as parsed; (0010,0020) 'P1 2
0 00 454 454 - 0020,0013 0008,0016 > \
as parsed; (0008,0016) '1.2.840.10008.5.1.4.1.1.2 25; (0020,0013) '1 1
0 00 7 4096 - 0010,0020 0002,0003 0010,0021 > as parsed; (0010,0020) 'P1 2
0 00 44 454 - > as parsed
0 00 7 454 - 0010,0020 0010,0020 > as parsed; (0010,0020) 'P1 2
0 00 44 453 - 0010,0020 > 15 TooLong
0 00 4096 453 - 0010,0020 > 15 TooLong
0 00 1 0 - 0010,0020 > 15 TooLong
0 00 44 454 0 0010,0020 > 14 Read
0 00 44 454 453 0010,0020 > 14 Read
0 00 44 454 454 0010,0020 > 14 Read
0 00 44 453 454 0010,0020 > 15 TooLong
128 64 44 454 - 0010,0020 > 21 NotPart10
128 64 44 454 453 0010,0020 > 14 Read
128 64 44 454 128 0010,0020 > 14 Read
128 64 44 453 - 0010,0020 > 15 TooLong
276 02 44 454 - 0010,0020 > 22 GroupLength
276 02 44 454 453 0010,0020 > 14 Read
276 02 44 454 276 0010,0020 > 14 Read
276 02 44 453 - 0010,0020 > 15 TooLong";

/// Files, and what is read of their Directory Record Sequence, Referenced Image Sequence, Pixel Data and Patient ID,
/// which the directory has only in an item.
const FILES: &str = "\
v1 > as parsed; (0010,0020) 'P1 2
v1 implicit > as parsed; (0008,1140) items; (0010,0020) 'P1 2
v1 encapsulated > as parsed; (0010,0020) 'P1 2; (7FE0,0010) fragments
v2 > as parsed; (0004,1220) items
first directory > as parsed; (0004,1220) items";

/// V1 with private information in group 0002: the length of the group, and of that information. Then the size of the
/// file, the offset of its data set and what is read of it. A group of up to 1,024 bytes is read into a smaller buffer.
const LONG_GROUPS: &str = "\
1024 862 > 1346 1168 as parsed; (0010,0020) 'P1 2
1026 864 > 1348 1170 as parsed; (0010,0020) 'P1 2
65536 65374 > 65858 65680 as parsed; (0010,0020) 'P1 2";

/// Says whether the meta information is this one, and for each element that was found `items`, `fragments`, or the
/// front of its value and the length; or the fault.
pub(crate) fn in_words(
    alloc: Global,
    answer: Result<Scanned, StreamFault>,
    parsed: &Meta,
) -> Result<String, Fail> {
    let scanned = match answer {
        Ok(scanned) => scanned,
        Err(fault) => return shown(alloc, fault),
    };
    if scanned.meta != *parsed {
        return Err("other meta information".into());
    }
    let mut text = String::from_str(alloc, "as parsed")?;
    push_found(alloc, &mut text, &scanned.found)?;
    Ok(text)
}

fn read(alloc: Global, question: &str) -> Result<String, Fail> {
    let (place, rest) = cut(question, " ")?;
    let (change, rest) = cut(rest, " ")?;
    let file = v1_changed(alloc, place, change)?;
    let (mut reader, limit, words) = reader_of(&file, rest)?;
    let wanted = tags_of(alloc, words)?;
    let answer = read_file(alloc, &mut reader, &wanted, limit);
    in_words(alloc, answer, &meta_of(alloc, &v1(alloc)?)?)
}

#[test]
fn one_file_read_in_many_ways(rt: HostRuntime) -> Result<(), Fail> {
    ask_all(rt.alloc(), READS, read)
}

fn read_whole(alloc: Global, question: &str) -> Result<String, Fail> {
    let bytes = file_named(alloc, question)?;
    let parsed = meta_of(alloc, &bytes)?;
    let mut reader = ByteSource::new(&bytes, 7, None);
    let wanted: [Tag; 4] = [
        tag_of("0010,0020")?,
        tag_of("0008,1140")?,
        tag_of("0004,1220")?,
        tag_of("7FE0,0010")?,
    ];
    let answer = read_file(alloc, &mut reader, &wanted, 4096);
    in_words(alloc, answer, &parsed)
}

fn read_long(alloc: Global, question: &str) -> Result<String, Fail> {
    let bytes = file_named(alloc, question)?;
    let file = parse_file(alloc, &bytes)?;
    let mut reader = ByteSource::new(&bytes, 44, None);
    let answer = read_file(alloc, &mut reader, &[tag_of("0010,0020")?], 65_858);
    let told = in_words(alloc, answer, &file.meta)?;
    let (size, place) = (bytes.len(), file.set_at);
    shown(alloc, format_args!("{size} {place} {told}"))
}

#[test]
fn files_read_for_some_elements(rt: HostRuntime) -> Result<(), Fail> {
    ask_all(rt.alloc(), FILES, read_whole)?;
    ask_all(rt.alloc(), LONG_GROUPS, read_long)
}
