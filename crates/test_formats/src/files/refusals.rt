//! Bytes that are no file, each with the first check that they fail.

use crate::files::vectors::{file_named, v1_changed};
use dd_part10::{FileFault, StreamFault, parse_file, read_file};
use dd_vectors::{ByteSource, ask_all, cut, shown, v1_with};
use std::alloc::Global;
use std::test::Fail;

/// V1 cut to this many bytes: within the preamble and the prefix, within the group length, within group 0002, after it
/// and within the last value.
const CUT: &str = "\
0 > 21 NotPart10
131 > 21 NotPart10
132 > 22 GroupLength
143 > 22 GroupLength
144 > 22 GroupLength
275 > 22 GroupLength
276 > taken
453 > 27 Set 1 Truncated
454 > taken";

/// V1 with private information in group 0002, cut to this many bytes: the length of the group, and of that information.
/// The group ends at byte 1,168, and at byte 1,170.
const CUT_LONG: &str = "\
1167 1024 862 > 22 GroupLength
1168 1024 862 > taken
1169 1026 864 > 22 GroupLength
1170 1026 864 > taken";

/// V1 with other bytes from an offset on: in the preamble, in the prefix, in the header of the group length and in
/// another header of group 0002.
const CHANGED: &str = "\
0 'any_preamble > taken
128 'd > 21 NotPart10
136 'OB > 22 GroupLength
148 'ZZ > 26 Meta 3 BadVr";

/// V1 with other elements. Group lengths stop before the last element of group 0002, take in the first of the data set,
/// or exceed 65,536. Each required UID is absent, and (0002,0001), which may be. Values are no UID, or items. Transfer
/// syntaxes are big endian, one of JPEG that is not read, deflated, RLE, and JPEG 2000.
const OTHER: &str = "\
0002,0000 UL 5e000000 > 22 GroupLength
0002,0000 UL a6000000 > 22 GroupLength
0002,0000 UL 02000100 > 22 GroupLength
0002,0000 UL 62000000; 0002,0002 absent > 23 MetaMissing (0002,0002)
0002,0000 UL 72000000; 0002,0003 absent > 23 MetaMissing (0002,0003)
0002,0000 UL 68000000; 0002,0010 absent > 23 MetaMissing (0002,0010)
0002,0000 UL 76000000; 0002,0001 absent > taken
0002,0003 UI '1.2.3.4.a~ > 24 MetaUid (0002,0003)
0002,0003 UI '__________ > 24 MetaUid (0002,0003)
0002,0000 UL 7e000000; 0002,0003 SQ > 24 MetaUid (0002,0003)
0002,0010 UI '1.2.840.10008.1.2.2~ > 25 OtherSyntax 1.2.840.10008.1.2.2
0002,0000 UL 86000000; 0002,0010 UI '1.2.840.10008.1.2.4.52 > 25 OtherSyntax 1.2.840.10008.1.2.4.52
0002,0000 UL 86000000; 0002,0010 UI '1.2.840.10008.1.2.1.99 > 25 OtherSyntax 1.2.840.10008.1.2.1.99
0002,0010 UI '1.2.840.10008.1.2.5~ > taken
0002,0000 UL 86000000; 0002,0010 UI '1.2.840.10008.1.2.4.90 > taken";

fn is_refused_alike(alloc: Global, bytes: &[u8], fault: Option<FileFault>) -> bool {
    let mut reader = ByteSource::new(bytes, 44, None);
    let answer = read_file(alloc, &mut reader, &[], 4096);
    answer.err() == fault.map(StreamFault::File)
}

/// Gives the fault, which is the same from bytes and from a reader, or `taken`.
fn answer(alloc: Global, bytes: &[u8]) -> Result<String, Fail> {
    let fault = parse_file(alloc, bytes).err();
    if !is_refused_alike(alloc, bytes, fault) {
        return Err("another answer from a reader".into());
    }
    match fault {
        None => shown(alloc, "taken"),
        Some(fault) => Ok(format!(in alloc; "{fault}")?),
    }
}

/// Cuts V1, or V1 with private information of these lengths, to this many bytes.
fn cut_short(alloc: Global, question: &str) -> Result<String, Fail> {
    let (count, name) = question.split_once(' ').unwrap_or((question, "v1"));
    let bytes = file_named(alloc, name)?;
    let front = bytes.get(..count.parse::<usize>()?).ok_or("fewer bytes")?;
    answer(alloc, front)
}

#[test]
fn a_file_cut_short(rt: HostRuntime) -> Result<(), Fail> {
    ask_all(rt.alloc(), CUT, cut_short)?;
    ask_all(rt.alloc(), CUT_LONG, cut_short)
}

fn changed(alloc: Global, question: &str) -> Result<String, Fail> {
    let (place, change) = cut(question, " ")?;
    let bytes = v1_changed(alloc, place, change)?;
    answer(alloc, &bytes)
}

fn other(alloc: Global, question: &str) -> Result<String, Fail> {
    let bytes = v1_with(alloc, question)?;
    answer(alloc, &bytes)
}

#[test]
fn a_file_with_other_bytes_or_elements(rt: HostRuntime) -> Result<(), Fail> {
    ask_all(rt.alloc(), CHANGED, changed)?;
    ask_all(rt.alloc(), OTHER, other)
}
