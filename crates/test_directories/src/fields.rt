use crate::publishing::published;
use dd_set::{Syntax, write_set};
use dd_vectors::{Sink, bytes_of, claim_all};
use dd_walk::{Forest, Tree, read_directory};
use std::alloc::Global;
use std::test::Fail;

/// The records of the directory of four images: the offset of each, and all its elements.
const ELEMENTS: &str = "\
320 > 04000014 554c 0400 c4050000 04001014 5553 0200 ffff 04002014 554c 0400 94010000 \
04003014 4353 0800 'PATIENT_ 10001000 504e 0800 'DOE^JOHN 10002000 4c4f 0200 'P1
404 > 04000014 554c 0400 00000000 04001014 5553 0200 ffff 04002014 554c 0400 12020000 \
04003014 4353 0600 'STUDY_ 08002000 4441 0800 '20240115 08003000 544d 0600 '101500 08005000 5348 0000 \
08003010 4c4f 0000 20000d00 5549 0600 '1.2.3~ 20001000 5348 0200 '1_
530 > 04000014 554c 0400 6a040000 04001014 5553 0200 ffff 04002014 554c 0400 6e020000 \
04003014 4353 0600 'SERIES 08006000 4353 0200 'CT 20000e00 5549 0800 '1.2.3.4~ 20001100 4953 0200 '1_
622 > 04000014 554c 0400 6c030000 04001014 5553 0200 ffff 04002014 554c 0400 00000000 \
04003014 4353 0600 'IMAGE_ 04000015 4353 2400 'PT000001\\ST000001\\SE000001\\IM000001_ \
04001015 5549 1a00 '1.2.840.10008.5.1.4.1.1.2~ 04001115 5549 0a00 '1.2.3.4.5~ \
04001215 5549 1400 '1.2.840.10008.1.2.1~ 09001000 4c4f 0c00 'DD_FILESET_1 09000110 4f42 0000 20000000 \
aaaaaaaaaaaaaaaaaaaaaaaaaaaaaaaaaaaaaaaaaaaaaaaaaaaaaaaaaaaaaaaa 20001300 4953 0200 '1_
876 > 04000014 554c 0400 00000000 04001014 5553 0200 ffff 04002014 554c 0400 00000000 \
04003014 4353 0600 'IMAGE_ 04000015 4353 2400 'PT000001\\ST000001\\SE000001\\IM000002_ \
04001015 5549 1a00 '1.2.840.10008.5.1.4.1.1.2~ 04001115 5549 0a00 '1.2.3.4.6~ \
04001215 5549 1400 '1.2.840.10008.1.2.1~ 09001000 4c4f 0c00 'DD_FILESET_1 09000110 4f42 0000 20000000 \
aaaaaaaaaaaaaaaaaaaaaaaaaaaaaaaaaaaaaaaaaaaaaaaaaaaaaaaaaaaaaaaa 20001300 4953 0200 '1_
1130 > 04000014 554c 0400 00000000 04001014 5553 0200 ffff 04002014 554c 0400 c6040000 \
04003014 4353 0600 'SERIES 08006000 4353 0200 'CT 20000e00 5549 0800 '1.2.3.5~ 20001100 4953 0200 '2_
1222 > 04000014 554c 0400 00000000 04001014 5553 0200 ffff 04002014 554c 0400 00000000 \
04003014 4353 0600 'IMAGE_ 04000015 4353 2400 'PT000001\\ST000001\\SE000002\\IM000001_ \
04001015 5549 1a00 '1.2.840.10008.5.1.4.1.1.2~ 04001115 5549 0a00 '1.2.3.5.1~ \
04001215 5549 1400 '1.2.840.10008.1.2.1~ 09001000 4c4f 0c00 'DD_FILESET_1 09000110 4f42 0000 20000000 \
aaaaaaaaaaaaaaaaaaaaaaaaaaaaaaaaaaaaaaaaaaaaaaaaaaaaaaaaaaaaaaaa 20001300 4953 0200 '1_
1476 > 04000014 554c 0400 00000000 04001014 5553 0200 ffff 04002014 554c 0400 18060000 \
04003014 4353 0800 'PATIENT_ 10001000 504e 0800 'ROE^JANE 10002000 4c4f 0200 'P2
1560 > 04000014 554c 0400 00000000 04001014 5553 0200 ffff 04002014 554c 0400 96060000 \
04003014 4353 0600 'STUDY_ 08002000 4441 0800 '20240115 08003000 544d 0600 '101500 08005000 5348 0000 \
08003010 4c4f 0000 20000d00 5549 0600 '1.2.9~ 20001000 5348 0200 '1_
1686 > 04000014 554c 0400 00000000 04001014 5553 0200 ffff 04002014 554c 0400 f2060000 \
04003014 4353 0600 'SERIES 08006000 4353 0200 'CT 20000e00 5549 0800 '1.2.9.1~ 20001100 4953 0200 '1_
1778 > 04000014 554c 0400 00000000 04001014 5553 0200 ffff 04002014 554c 0400 00000000 \
04003014 4353 0600 'IMAGE_ 04000015 4353 2400 'PT000002\\ST000001\\SE000001\\IM000001_ \
04001015 5549 1a00 '1.2.840.10008.5.1.4.1.1.2~ 04001115 5549 0a00 '1.2.9.1.1~ \
04001215 5549 1400 '1.2.840.10008.1.2.1~ 09001000 4c4f 0c00 'DD_FILESET_1 09000110 4f42 0000 20000000 \
aaaaaaaaaaaaaaaaaaaaaaaaaaaaaaaaaaaaaaaaaaaaaaaaaaaaaaaaaaaaaaaa 20001300 4953 0200 '1_";

fn record_at<'f, 'a>(tree: &'f Tree<'a>, at: u32) -> Option<&'f Tree<'a>> {
    if tree.at == at {
        return Some(tree);
    }
    for below in &tree.below {
        if let Some(found) = record_at(below, at) {
            return Some(found);
        }
    }
    None
}

fn record_in<'f, 'a>(forest: &'f Forest<'a>, at: u32) -> Option<&'f Tree<'a>> {
    for root in &forest.trees {
        if let Some(found) = record_at(root, at) {
            return Some(found);
        }
    }
    None
}

fn has_elements(alloc: Global, case: &str) -> Result<bool, Fail> {
    let (place, elements) = case.split_once(" > ").ok_or("no elements")?;
    let bytes = published(alloc, "1234")?;
    let forest = read_directory(alloc, &bytes)?;
    let record = record_in(&forest, place.parse()?).ok_or("no record")?;
    let mut sink = Sink::new(alloc, None);
    write_set(&record.set, Syntax::Explicit, &mut sink)?;
    Ok(sink.bytes() == bytes_of(alloc, elements)?.as_slice())
}

#[test]
fn elements_of_records(rt: HostRuntime) -> Result<(), Fail> {
    claim_all(rt.alloc(), ELEMENTS, '\n', has_elements)
}
