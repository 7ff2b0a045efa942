//! The bytes of directories, with the offset of each row.

use crate::cases::cut;
use crate::texts::{push_bytes, put_at};
use std::alloc::Global;
use std::test::Fail;

/// What follows the preamble in each directory of the file-set `2.25.0`, which has no ID.
const FRONT: &str = "\
128 4449434d
132 02000000 554c 0400 7a000000
144 02000100 4f42 0000 02000000 0001
158 02000200 5549 1400 '1.2.840.10008.1.3.10
186 02000300 5549 0600 '2.25.0
200 02001000 5549 1400 '1.2.840.10008.1.2.1~
228 02001200 5549 1e00 '2.25.604472133179352588043346~
266 04003011 4353 0000";

const NOTHING: &str = "\
274 04000012 554c 0400 00000000
286 04000212 554c 0400 00000000
298 04001212 5553 0200 0000
308 04002012 5351 0000 00000000";

const ONE_IMAGE: &str = "\
274 04000012 554c 0400 40010000
286 04000212 554c 0400 40010000
298 04001212 5553 0200 0000
308 04002012 5351 0000 2c020000
320 feff00e0 4c000000
328 04000014 554c 0400 00000000
340 04001014 5553 0200 ffff
350 04002014 554c 0400 94010000
362 04003014 4353 0800 'PATIENT_
378 10001000 504e 0800 'DOE^JOHN
394 10002000 4c4f 0200 'P1
404 feff00e0 76000000
412 04000014 554c 0400 00000000
424 04001014 5553 0200 ffff
434 04002014 554c 0400 12020000
446 04003014 4353 0600 'STUDY_
460 08002000 4441 0800 '20240115
476 08003000 544d 0600 '101500
490 08005000 5348 0000
498 08003010 4c4f 0000
506 20000d00 5549 0600 '1.2.3~
520 20001000 5348 0200 '1_
530 feff00e0 54000000
538 04000014 554c 0400 00000000
550 04001014 5553 0200 ffff
560 04002014 554c 0400 6e020000
572 04003014 4353 0600 'SERIES
586 08006000 4353 0200 'CT
596 20000e00 5549 0800 '1.2.3.4~
612 20001100 4953 0200 '1_
622 feff00e0 f6000000
630 04000014 554c 0400 00000000
642 04001014 5553 0200 ffff
652 04002014 554c 0400 00000000
664 04003014 4353 0600 'IMAGE_
678 04000015 4353 2400 'PT000001\\ST000001\\SE000001\\IM000001_
722 04001015 5549 1a00 '1.2.840.10008.5.1.4.1.1.2~
756 04001115 5549 0a00 '1.2.3.4.5~
774 04001215 5549 1400 '1.2.840.10008.1.2.1~
802 09001000 4c4f 0c00 'DD_FILESET_1
822 09000110 4f42 0000 20000000 900e75e1c153f87b21e09f9db68aef627f2dd320eb3afb1f2574594e6c862a92
866 20001300 4953 0200 '1_";

/// Lengths are undefined, a record is not in use, and one is of another type.
const OTHER_TOOL: &str = "\
274 04000012 554c 0400 40010000
286 04000212 554c 0400 40010000
298 04001212 5553 0200 0000
308 04002012 5351 0000 ffffffff
320 feff00e0 ffffffff
328 04000014 554c 0400 00000000
340 04001014 5553 0200 ffff
350 04002014 554c 0400 9c010000
362 04003014 4353 0800 'PATIENT_
378 10001000 504e 0800 'DOE^JOHN
394 10002000 4c4f 0200 'P1
404 feff0de0 00000000
412 feff00e0 ffffffff
420 04000014 554c 0400 00000000
432 04001014 5553 0200 ffff
442 04002014 554c 0400 22020000
454 04003014 4353 0600 'STUDY_
468 08002000 4441 0800 '20240115
484 08003000 544d 0600 '101500
498 08005000 5348 0000
506 08003010 4c4f 0000
514 20000d00 5549 0600 '1.2.3~
528 20001000 5348 0200 '1_
538 feff0de0 00000000
546 feff00e0 ffffffff
554 04000014 554c 0400 00000000
566 04001014 5553 0200 ffff
576 04002014 554c 0400 86020000
588 04003014 4353 0600 'SERIES
602 08006000 4353 0200 'CT
612 20000e00 5549 0800 '1.2.3.4~
628 20001100 4953 0200 '1_
638 feff0de0 00000000
646 feff00e0 ffffffff
654 04000014 554c 0400 32030000
666 04001014 5553 0200 0000
676 04002014 554c 0400 00000000
688 04003014 4353 0600 'IMAGE_
702 04000015 4353 0a00 'IMAGES\\IM1
720 04001015 5549 1a00 '1.2.840.10008.5.1.4.1.1.2~
754 04001115 5549 0a00 '1.2.3.4.5~
772 04001215 5549 1400 '1.2.840.10008.1.2.1~
800 20001300 4953 0200 '1_
810 feff0de0 00000000
818 feff00e0 ffffffff
826 04000014 554c 0400 00000000
838 04001014 5553 0200 ffff
848 04002014 554c 0400 00000000
860 04003014 4353 0c00 'SR_DOCUMENT_
880 04000015 4353 0a00 'IMAGES\\SR1
898 feff0de0 00000000
906 feffdde0 00000000";

/// The elements of a record up to the offset of the first one below.
const RECORD: &str =
    "feff00e0 2c000000 04000014 554c 0400 00000000 04001014 5553 0200 ffff 04002014 554c 0400";

const TYPE: &str = "04003014 4353 0200 'X_";

/// Makes V2, the directory of a file-set that holds nothing: 320 bytes.
pub fn v2(alloc: Global) -> Result<Vec<u8>, Fail> {
    directory(alloc, NOTHING)
}

/// Makes the directory of the file-set that has V1 alone: 876 bytes.
pub fn first_directory(alloc: Global) -> Result<Vec<u8>, Fail> {
    directory(alloc, ONE_IMAGE)
}

/// Makes V3, a directory as another tool may write it: 914 bytes.
pub fn v3(alloc: Global) -> Result<Vec<u8>, Fail> {
    directory(alloc, OTHER_TOOL)
}

/// Fails where a row is not at its offset.
fn directory(alloc: Global, rows: &str) -> Result<Vec<u8>, Fail> {
    let mut bytes = Vec::new(alloc);
    bytes.extend_from_slice(&[0; 128])?;
    for part in [FRONT, rows] {
        push_rows(alloc, &mut bytes, part)?;
    }
    Ok(bytes)
}

fn push_rows(alloc: Global, bytes: &mut Vec<u8>, rows: &str) -> Result<(), Fail> {
    for row in rows.split('\n') {
        let (place, words) = cut(row, " ")?;
        if place.parse::<usize>()? != bytes.len() {
            return Err("a row out of place".into());
        }
        push_bytes(alloc, bytes, words)?;
    }
    Ok(())
}

/// Makes a directory of this many records, each below the one before.
pub fn deep(alloc: Global, count: u32) -> Result<Vec<u8>, Fail> {
    let mut bytes = v2(alloc)?;
    for root in [282, 294] {
        put_at(&mut bytes, root, &320u32.to_le_bytes())?;
    }
    put_at(&mut bytes, 316, &count.saturating_mul(52).to_le_bytes())?;
    for at in 1..=count {
        let next = at.saturating_mul(52).saturating_add(320);
        let lower = if at == count { 0 } else { next };
        push_bytes(alloc, &mut bytes, RECORD)?;
        bytes.extend_from_slice(&lower.to_le_bytes())?;
        push_bytes(alloc, &mut bytes, TYPE)?;
    }
    Ok(bytes)
}
