//! Hints, which `--verbose` asks for.

use crate::runs::scripts::ran;
use dd_vectors::ask_all;
use std::test::Fail;

/// Cases of `ran`. Each fault is followed by what to do first. The files in memory have no words of a system.
const HINTS: &str = "\
full=set: - - dicomdir index full a.dcm --verbose > 1 [] [FAULT full/DICOMDIR: 94 Create|  \
help: take a new folder: OUT has a file-set, or files of an earlier run|] kept
full=set: - - dicomdir index full a.dcm --verbose --quiet > 1 [] [FAULT full/DICOMDIR: 94 Create|  \
help: take a new folder: OUT has a file-set, or files of an earlier run|] kept
full=set: - - dicomdir index full a.dcm --quiet > 1 [] [FAULT full/DICOMDIR: 94 Create|] kept
full=set: - - dicomdir index out none.dcm --verbose > 1 [] [FAULT none.dcm: 92 Absent|  \
help: --keep-going skips it; is the name right, and may you read it? ls -lb 'none.dcm'|] kept
full=set: - - dicomdir index out it's --verbose > 1 [] [FAULT it's: 92 Absent|  \
help: --keep-going skips it; is the name right, and may you read it? ls -lb 'it'\\''s'|] kept
full=set: - - dicomdir index --verbose -- out -l > 1 [] [FAULT -l: 92 Absent|  \
help: --keep-going skips it; is the name right, and may you read it? ls -lb './-l'|] kept
full=set: - - dicomdir index out \u{7}a --verbose > 1 [] [FAULT ?a: 92 Absent|  \
help: --keep-going skips it; is the name right, and may you read it? ls -lb FOLDER|] kept
unread a.dcm: - - dicomdir index out a.dcm --verbose > 1 [] [FAULT a.dcm: 93 Unread|  \
help: --keep-going skips it; else copy it by cp, and mend the disc where that fails too|] kept
full=set: - - dicomdir index '' a.dcm --verbose > 1 [] [FAULT : 95 Folder|  \
help: the name is empty: is a variable of the command line not set?|] kept
full=set: - - dicomdir merge out '' --verbose > 1 [] [FAULT : 92 Absent|  \
help: the name is empty: is a variable of the command line not set?|] kept
full=set: - - dicomdir index out a.dcm --uid 1.02 --verbose > 2 [] [FAULT -: 71 BadUid|  \
help: a UID has up to 64 digits and dots, and no number such as 02|] kept
full=set: - - dicomdir index out a.dcm --id a --verbose > 2 [] [FAULT -: 72 BadSetId|  \
help: an ID has up to 16 characters of A to Z, 0 to 9 and _|] kept
full=set: - - dicomdir withdraw o full 1.2 1.02 --verbose > 2 [] [FAULT -: 71 BadUid|  \
help: a UID has up to 64 digits and dots, and no number such as 02|] kept
full=set: - - dicomdir withdraw o full 1.2 IM000001 --verbose > 2 [] [FAULT -: 71 BadUid|  \
help: the UID of an image is its (0008,0018), which list --long shows: digits and dots|] kept
full=set: - - dicomdir withdraw o full 1.2/3 --verbose > 2 [] [FAULT -: 71 BadUid|  \
help: the UID of an image is its (0008,0018), which list --long shows: digits and dots|] kept
full=set: - - dicomdir index out a.dcm --max-bytes 875 --verbose > 1 [] [FAULT -: 43 TooLarge|  \
help: give a greater --max-bytes, or make two file-sets|] kept
full=set: - - dicomdir index out d.dcm n.dcm --verbose > \
1 [NOTE n.dcm: has 1.2.3.4.5|NOTE d.dcm: has 1.2.3.4.6|] [FAULT -: 41 Conflict 1.2.3.4.5 1.2.3.4.6|  \
help: compare (0010,0020), (0020,000D) and (0020,000E) of both files; leave one out|] kept
full=set: - - dicomdir index out note.txt --strict --verbose > \
1 [SKIP note.txt: 31 File 21 NotPart10|] [FAULT -: 98 Strict|  \
help: mend or leave out what the lines name, or run without --strict|] kept
full=set: - - dicomdir index out --files0-from gap --verbose > 1 [] [FAULT gap: 99 BadName 2|  \
help: end each name by a zero byte, as find -print0 does|] kept
full=set: - - dicomdir index out --files0-from no --verbose > 1 [] [FAULT no: 92 Absent|  \
help: is the name right, and may you read it? ls -lb 'no'|] kept
full=set: - - dicomdir index out --files0-from lines --verbose > 1 [] [FAULT a.dcm?d.dcm: 92 Absent|  \
help: each name of a list ends in a zero byte, not a line feed: use find -print0, or tr '\\n' '\\0'|] kept
full=set: - - dicomdir merge o full nowhere --verbose > 1 [] [FAULT nowhere/DICOMDIR: 92 Absent|  \
help: no folder is there: is the name right, and is the disc mounted? ls -lb 'nowhere'|] kept
full=set: - - dicomdir list full/DICOMDIR --verbose > 1 [] [FAULT full/DICOMDIR/DICOMDIR: 92 Absent|  \
help: SET is the folder that has the DICOMDIR, not the DICOMDIR itself|] kept
full=set: - - dicomdir check full/dicomdir.;1 --verbose > 1 [] [FAULT full/dicomdir.;1/DICOMDIR: 92 Absent|  \
help: SET is the folder that has the DICOMDIR, not the DICOMDIR itself|] kept
d1/DICOMDIR=first: - - dicomdir merge o d1 --verbose > \
1 [] [FAULT d1/PT000001/ST000001/SE000001/IM000001: 92 Absent|  \
help: dicomdir check 'd1' names each file that is not there|] kept
d1=set d1/PT000001/ST000001/SE000001/IM000001=c.dcm: - - dicomdir withdraw o d1 1.2 --verbose > \
1 [NOTE -: 1.2 is in no record|] [FAULT d1/PT000001/ST000001/SE000001/IM000001: 97 Changed|  \
help: dicomdir check --keys 'd1' says which files differ, and by what|] changed
d3/DICOMDIR=v3: - - dicomdir merge o d3 --verbose > 1 [] [FAULT d3: 62 ForeignRecord 646|  \
help: only a DICOMDIR of this program can be merged: index the images of the set instead|] kept
d3/DICOMDIR=first,294,41010000: - - dicomdir merge o d3 --verbose > 1 [] [FAULT d3: 56 LastRoot|  \
help: its files are as good as before: index the images anew|] kept
d3/DICOMDIR=note.txt: - - dicomdir list d3 --verbose > 1 [] [FAULT d3: 51 File 21 NotPart10|  \
help: the DICOMDIR can't be followed: index the images anew|] kept
full=set: - - dicomdir index out a.dcm --uid 2.25.0 --verbose > 0 [DONE 1 instances, 876 bytes|] [] changed
full=set: - - dicomdir check full --verbose > 0 [OK 4 records|] [] kept";

#[test]
fn faults_have_first_steps(rt: HostRuntime) -> Result<(), Fail> {
    ask_all(rt.alloc(), HINTS, ran)
}
