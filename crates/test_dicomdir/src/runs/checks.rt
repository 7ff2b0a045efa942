//! File-sets that are checked against their directories.

use crate::runs::scripts::ran;
use dd_vectors::ask_all;
use std::test::Fail;

/// What is on the disc beside the rest, the line, its status, what both outputs hold, and whether some file has
/// changed. File-sets as they should be; each finding; several in one run; directories that can't be read; and outputs
/// that fail.
const CHECKS: &str = "\
d=set: - - dicomdir check d > 0 [OK 4 records|] [] kept
d=set: - - dicomdir check d/ > 0 [OK 4 records|] [] kept
d/DICOMDIR=empty: - - dicomdir check d > 0 [OK 0 records|] [] kept
DICOMDIR=first PT000001/ST000001/SE000001/IM000001=a.dcm: - - dicomdir check '' > 1 [] [FAULT : 92 Absent|] kept
./DICOMDIR=first ./PT000001/ST000001/SE000001/IM000001=a.dcm: - - dicomdir check . > 0 [OK 4 records|] [] kept
index d a.dcm d.dcm: - - dicomdir check d > 0 [OK 5 records|] [] kept
index d f.dcm: - - dicomdir check d > 0 [OK 4 records|] [] kept
d/DICOMDIR=v3 d/IMAGES/SR1=note.txt: - - dicomdir check d > 0 [OK 5 records|] [] kept
d/DICOMDIR=first,650,0000: - - dicomdir check d > 0 [OK 4 records|] [] kept
d/DICOMDIR=first: - - dicomdir check d > 3 [MISSING PT000001\\ST000001\\SE000001\\IM000001|] [] kept
d/DICOMDIR=v3: - - dicomdir check d > 3 [MISSING IMAGES\\SR1|] [] kept
d=set d/PT000001/ST000001/SE000001/IM000001=e.dcm: - - dicomdir check d > \
3 [DIFFERS PT000001\\ST000001\\SE000001\\IM000001 900e75e1c153f87b21e09f9db68aef627f2dd320eb3afb1f2574594e6c862a92 \
3701174b5ad976c7de170363bdf11977a0101e4fa19672b64e1cb1470846b2ca|] [] kept
d=set d/DICOMDIR=first,686,'p d/pT000001/ST000001/SE000001/IM000001=note.txt: - - dicomdir check d > \
3 [BADID 622|] [] kept
d/DICOMDIR=first,282,00000000,294,00000000: - - dicomdir check d > 3 [UNREACHED 4|] [] kept
index d a.dcm d.dcm; d/PT000001/ST000001/SE000001/IM000002=note.txt: - - dicomdir check d > \
3 [DIFFERS PT000001\\ST000001\\SE000001\\IM000002 e1c339749fc4c0b910f737b0ec323ff2d686545cf4d85bf8318cdf7554bb1e82 \
453361fd925712bb2f4ef496dfa3480f0d7a1e22fc15dc69e72aeb8086c135ce|] [] kept
index s a.dcm d.dcm --uid 2.25.0; d/DICOMDIR=s/DICOMDIR d/PT000001/ST000001/SE000001/IM000002=note.txt: \
- - dicomdir check d > 3 [MISSING PT000001\\ST000001\\SE000001\\IM000001|\
DIFFERS PT000001\\ST000001\\SE000001\\IM000002 e1c339749fc4c0b910f737b0ec323ff2d686545cf4d85bf8318cdf7554bb1e82 \
453361fd925712bb2f4ef496dfa3480f0d7a1e22fc15dc69e72aeb8086c135ce|] [] kept
index s a.dcm d.dcm --uid 2.25.0; d/DICOMDIR=s/DICOMDIR d/PT000001/ST000001/SE000001/IM000001=note.txt: \
- - dicomdir check d > 3 [DIFFERS PT000001\\ST000001\\SE000001\\IM000001 \
900e75e1c153f87b21e09f9db68aef627f2dd320eb3afb1f2574594e6c862a92 \
453361fd925712bb2f4ef496dfa3480f0d7a1e22fc15dc69e72aeb8086c135ce|\
MISSING PT000001\\ST000001\\SE000001\\IM000002|] [] kept
index s a.dcm d.dcm --uid 2.25.0; d/DICOMDIR=s/DICOMDIR,686,'p: - - dicomdir check d > \
3 [BADID 622|MISSING PT000001\\ST000001\\SE000001\\IM000002|] [] kept
d/DICOMDIR=v3,674,ffff: - - dicomdir check d > 3 [MISSING IMAGES\\IM1|MISSING IMAGES\\SR1|] [] kept
d/DICOMDIR=v3,674,ffff d/IMAGES/IM1=note.txt: - - dicomdir check d > 3 [MISSING IMAGES\\SR1|] [] kept
d/DICOMDIR=v3,674,ffff,710,'i: - - dicomdir check d > 3 [BADID 646|MISSING IMAGES\\SR1|] [] kept
d/DICOMDIR=v3,674,ffff,888,'i d/IMAGES/IM1=note.txt: - - dicomdir check d > 3 [BADID 818|] [] kept
d/DICOMDIR=v3,584,32030000: - - dicomdir check d > 3 [MISSING IMAGES\\SR1|UNREACHED 1|] [] kept
d/DICOMDIR=first,294,41010000: - - dicomdir check d > 3 [BROKEN 56 LastRoot|] [] kept
d/DICOMDIR=first,336,40010000: - - dicomdir check d > 3 [BROKEN 55 Twice 320|] [] kept
d/DICOMDIR=first,282,41010000: - - dicomdir check d > 3 [BROKEN 54 Dangling 321|] [] kept
d/DICOMDIR=first,370,'________: - - dicomdir check d > 3 [BROKEN 53 RecordShape 320|] [] kept
d/DICOMDIR=a.dcm: - - dicomdir check d > 3 [BROKEN 52 NotDirectory|] [] kept
d/DICOMDIR=empty,226,'5: - - dicomdir check d > 3 [BROKEN 52 NotDirectory|] [] kept
d/DICOMDIR=note.txt: - - dicomdir check d > 3 [BROKEN 51 File 21 NotPart10|] [] kept
d/DICOMDIR=deep: - - dicomdir check d > 3 [BROKEN 58 TooDeep 1984|] [] kept
d/DICOMDIR=empty: - - dicomdir check nowhere > 1 [] [FAULT nowhere/DICOMDIR: 92 Absent|] kept
d/DICOMDIR=empty: - 0 dicomdir check nowhere > 1 [] [] kept
d=set: 0 - dicomdir check d > 1 [] [] kept
d/DICOMDIR=first: 9 - dicomdir check d > 1 [MISSING P] [] kept
d/DICOMDIR=note.txt: 9 - dicomdir check d > 1 [BROKEN 51] [] kept
d/DICOMDIR=first: - 0 dicomdir check d > 3 [MISSING PT000001\\ST000001\\SE000001\\IM000001|] [] kept";

/// File-sets of five images in one series, of which the second and the fifth are damaged. All others are as they were;
/// the third is missing; the output fails in the first finding; or the records have another Patient ID. The findings
/// stand in the order of the records.
const FIVE: &str = "\
g.dcm=a.dcm,208,'7,326,'7 h.dcm=a.dcm,208,'8,326,'8 i.dcm=a.dcm,208,'9,326,'9; \
index d a.dcm d.dcm g.dcm h.dcm i.dcm; \
d/PT000001/ST000001/SE000001/IM000002=note.txt d/PT000001/ST000001/SE000001/IM000005=note.txt: \
- - dicomdir check d > 3 [\
DIFFERS PT000001\\ST000001\\SE000001\\IM000002 e1c339749fc4c0b910f737b0ec323ff2d686545cf4d85bf8318cdf7554bb1e82 \
453361fd925712bb2f4ef496dfa3480f0d7a1e22fc15dc69e72aeb8086c135ce|\
DIFFERS PT000001\\ST000001\\SE000001\\IM000005 54e3719a4bddbaaed417222b3d8d2de44da424f0d52ee75deb9a9adfd5a3735d \
453361fd925712bb2f4ef496dfa3480f0d7a1e22fc15dc69e72aeb8086c135ce|] [] kept
g.dcm=a.dcm,208,'7,326,'7 h.dcm=a.dcm,208,'8,326,'8 i.dcm=a.dcm,208,'9,326,'9; \
index s a.dcm d.dcm g.dcm h.dcm i.dcm; d/DICOMDIR=s/DICOMDIR d/PT000001/ST000001/SE000001/IM000001=a.dcm \
d/PT000001/ST000001/SE000001/IM000002=note.txt d/PT000001/ST000001/SE000001/IM000004=h.dcm \
d/PT000001/ST000001/SE000001/IM000005=note.txt: - - dicomdir check d > 3 [\
DIFFERS PT000001\\ST000001\\SE000001\\IM000002 e1c339749fc4c0b910f737b0ec323ff2d686545cf4d85bf8318cdf7554bb1e82 \
453361fd925712bb2f4ef496dfa3480f0d7a1e22fc15dc69e72aeb8086c135ce|\
MISSING PT000001\\ST000001\\SE000001\\IM000003|\
DIFFERS PT000001\\ST000001\\SE000001\\IM000005 54e3719a4bddbaaed417222b3d8d2de44da424f0d52ee75deb9a9adfd5a3735d \
453361fd925712bb2f4ef496dfa3480f0d7a1e22fc15dc69e72aeb8086c135ce|] [] kept
g.dcm=a.dcm,208,'7,326,'7 h.dcm=a.dcm,208,'8,326,'8 i.dcm=a.dcm,208,'9,326,'9; \
index d a.dcm d.dcm g.dcm h.dcm i.dcm; \
d/PT000001/ST000001/SE000001/IM000002=note.txt d/PT000001/ST000001/SE000001/IM000005=note.txt: \
9 - dicomdir check d > 1 [DIFFERS P] [] kept
g.dcm=a.dcm,208,'7,326,'7 h.dcm=a.dcm,208,'8,326,'8 i.dcm=a.dcm,208,'9,326,'9; \
index s a.dcm d.dcm g.dcm h.dcm i.dcm --uid 2.25.0; d/DICOMDIR=s/DICOMDIR,402,'P9 \
d/PT000001/ST000001/SE000001/IM000001=a.dcm d/PT000001/ST000001/SE000001/IM000002=note.txt \
d/PT000001/ST000001/SE000001/IM000004=h.dcm d/PT000001/ST000001/SE000001/IM000005=note.txt: \
- - dicomdir check --keys d > 3 [\
MISLABELLED PT000001\\ST000001\\SE000001\\IM000001 (0010,0020)|\
DIFFERS PT000001\\ST000001\\SE000001\\IM000002 e1c339749fc4c0b910f737b0ec323ff2d686545cf4d85bf8318cdf7554bb1e82 \
453361fd925712bb2f4ef496dfa3480f0d7a1e22fc15dc69e72aeb8086c135ce|\
MISSING PT000001\\ST000001\\SE000001\\IM000003|\
MISLABELLED PT000001\\ST000001\\SE000001\\IM000004 (0010,0020)|\
DIFFERS PT000001\\ST000001\\SE000001\\IM000005 54e3719a4bddbaaed417222b3d8d2de44da424f0d52ee75deb9a9adfd5a3735d \
453361fd925712bb2f4ef496dfa3480f0d7a1e22fc15dc69e72aeb8086c135ce|] [] kept";

#[test]
fn sets_are_checked_in_the_order_of_their_records(rt: HostRuntime) -> Result<(), Fail> {
    ask_all(rt.alloc(), CHECKS, ran)?;
    ask_all(rt.alloc(), FIVE, ran)
}

/// What `check --keys` finds in a file-set of another program whose image is a.dcm with other bytes at a place. It
/// finds every fault of a file but OtherSyntax, and of a data set but TooDeep and Memory.
const FAULTS: &str = "\
128,'X > 21 NotPart10
140,ffff0100 > 22 GroupLength
194,0400 > 23 MetaMissing (0002,0003)
201,'a > 24 MetaUid (0002,0003)
148,'ZZ > 26 Meta 3 BadVr
152,03000000 > 26 Meta 5 OddLength
450,0400 > 27 Set 1 Truncated
444,0800 > 27 Set 2 Order
448,'ZZ > 27 Set 3 BadVr
388,'OB > 27 Set 4 Reserved
450,0100 > 27 Set 5 OddLength
388,4f420000ffffffff > 27 Set 6 UndefinedLength
444,feff > 27 Set 7 UnexpectedTag
412,53510000fffffffffeffdde002000000 > 27 Set 8 BadDelimiter
412,5351000008000000feff00e002000000 > 27 Set 9 Overrun";

#[test]
fn faults_of_files_are_told(rt: HostRuntime) -> Result<(), Fail> {
    let alloc = rt.alloc();
    for case in FAULTS.split('\n') {
        let (change, words) = case.split_once(" > ").ok_or("no words")?;
        let case = format!(in alloc;
            "d/DICOMDIR=v3,674,ffff d/IMAGES/IM1=a.dcm,{change} \
d/IMAGES/SR1=a.dcm: - - dicomdir check --keys d > 3 [MISLABELLED IMAGES\\IM1 31 File {words}|] [] kept"
        )?;
        ask_all(alloc, case.as_str(), ran)?;
    }
    Ok(())
}

/// Runs `check --keys` on file-sets of this program and of another. Some have no finding, and others one for a tag that
/// is compared, one for a file that is not a DICOM file, or several. The digest is compared first, and the keys of some
/// records are not compared.
const KEYS: &str = "\
d=set: - - dicomdir check --keys d > 0 [OK 4 records|] [] kept
d/DICOMDIR=empty: - - dicomdir check d --keys > 0 [OK 0 records|] [] kept
index d a.dcm d.dcm: - - dicomdir check --keys d > 0 [OK 5 records|] [] kept
index d f.dcm: - - dicomdir check --keys d > 0 [OK 4 records|] [] kept
index d n.dcm: - - dicomdir check --keys d > 0 [OK 4 records|] [] kept
d/DICOMDIR=v3,674,ffff d/IMAGES/IM1=c.dcm d/IMAGES/SR1=note.txt: - - dicomdir check --keys d > \
0 [OK 5 records|] [] kept
d=set d/DICOMDIR=first,754,'4: - - dicomdir check --keys d > \
3 [MISLABELLED PT000001\\ST000001\\SE000001\\IM000001 (0002,0002)|] [] kept
d=set d/DICOMDIR=first,772,'6: - - dicomdir check --keys d > \
3 [MISLABELLED PT000001\\ST000001\\SE000001\\IM000001 (0002,0003)|] [] kept
d=set d/DICOMDIR=first,772,'6,800,'2: - - dicomdir check --keys d > \
3 [MISLABELLED PT000001\\ST000001\\SE000001\\IM000001 (0002,0003)|] [] kept
d=set d/DICOMDIR=first,800,'2: - - dicomdir check --keys d > \
3 [MISLABELLED PT000001\\ST000001\\SE000001\\IM000001 (0002,0010)|] [] kept
d=set d/DICOMDIR=first,402,'P9: - - dicomdir check --keys d > \
3 [MISLABELLED PT000001\\ST000001\\SE000001\\IM000001 (0010,0020)|] [] kept
d=set d/DICOMDIR=first,402,'P9,518,'4: - - dicomdir check --keys d > \
3 [MISLABELLED PT000001\\ST000001\\SE000001\\IM000001 (0010,0020)|] [] kept
d=set d/DICOMDIR=first,518,'4: - - dicomdir check --keys d > \
3 [MISLABELLED PT000001\\ST000001\\SE000001\\IM000001 (0020,000D)|] [] kept
d=set d/DICOMDIR=first,610,'5: - - dicomdir check --keys d > \
3 [MISLABELLED PT000001\\ST000001\\SE000001\\IM000001 (0020,000E)|] [] kept
d=set d/DICOMDIR=first,402,'P9: - - dicomdir check d > 0 [OK 4 records|] [] kept
d=set d/DICOMDIR=first,402,'P9,650,0000: - - dicomdir check --keys d > 0 [OK 4 records|] [] kept
d=set d/DICOMDIR=first,386,'ROE^JANE,874,'2: - - dicomdir check --keys d > 0 [OK 4 records|] [] kept
d=set d/DICOMDIR=first,402,'P9 d/PT000001/ST000001/SE000001/IM000001=e.dcm: - - dicomdir check --keys d > \
3 [DIFFERS PT000001\\ST000001\\SE000001\\IM000001 900e75e1c153f87b21e09f9db68aef627f2dd320eb3afb1f2574594e6c862a92 \
3701174b5ad976c7de170363bdf11977a0101e4fa19672b64e1cb1470846b2ca|] [] kept
d/DICOMDIR=first: - - dicomdir check --keys d > 3 [MISSING PT000001\\ST000001\\SE000001\\IM000001|] [] kept
d/PT000001/ST000001/SE000001/IM000001=note.txt \
d/DICOMDIR=first,834,453361fd925712bb2f4ef496dfa3480f0d7a1e22fc15dc69e72aeb8086c135ce: - - dicomdir check --keys d > \
3 [MISLABELLED PT000001\\ST000001\\SE000001\\IM000001 31 File 21 NotPart10|] [] kept
d/DICOMDIR=v3,674,ffff d/IMAGES/IM1=part.dcm d/IMAGES/SR1=note.txt: - - dicomdir check --keys d > \
3 [MISLABELLED IMAGES\\IM1 31 File 27 Set 1 Truncated|] [] kept
d/DICOMDIR=v3,674,ffff d/IMAGES/IM1=d.dcm: - - dicomdir check --keys d > \
3 [MISLABELLED IMAGES\\IM1 (0002,0003)|MISSING IMAGES\\SR1|] [] kept
d/DICOMDIR=v3,674,ffff d/IMAGES/IM1=n.dcm d/IMAGES/SR1=a.dcm: - - dicomdir check --keys d > \
3 [MISLABELLED IMAGES\\IM1 (0010,0020)|] [] kept
d/DICOMDIR=v3,674,ffff d/IMAGES/IM1=x.dcm d/IMAGES/SR1=a.dcm: - - dicomdir check --keys d > \
3 [MISLABELLED IMAGES\\IM1 (0002,0010)|] [] kept
index s a.dcm d.dcm --uid 2.25.0; d/DICOMDIR=s/DICOMDIR,402,'P9 d/PT000001/ST000001/SE000001/IM000001=a.dcm \
d/PT000001/ST000001/SE000001/IM000002=d.dcm: - - dicomdir check --keys d > \
3 [MISLABELLED PT000001\\ST000001\\SE000001\\IM000001 (0010,0020)|\
MISLABELLED PT000001\\ST000001\\SE000001\\IM000002 (0010,0020)|] [] kept
d/DICOMDIR=note.txt: - - dicomdir check --keys d > 3 [BROKEN 51 File 21 NotPart10|] [] kept
d=set d/DICOMDIR=first,402,'P9: 13 - dicomdir check --keys d > 1 [MISLABELLED P] [] kept";

/// Runs `check --strict` on file-sets whose records have digests, on some of another program, and on one whose digest
/// is of another creator. The other program's image is in use where the flag at 674 says so. An image that was cut has
/// no other finding but with `--keys`.
const STRICT: &str = "\
d=set: - - dicomdir check --strict d > 0 [OK 4 records|] [] kept
d/DICOMDIR=empty: - - dicomdir check --strict d > 0 [OK 0 records|] [] kept
index d a.dcm d.dcm: - - dicomdir check --keys d --strict > 0 [OK 5 records|] [] kept
d/DICOMDIR=v3 d/IMAGES/SR1=note.txt: - - dicomdir check --strict d > 3 [NODIGEST IMAGES\\SR1|] [] kept
d/DICOMDIR=v3 d/IMAGES/SR1=note.txt: - - dicomdir check --strict --keys d > 3 [NODIGEST IMAGES\\SR1|] [] kept
d/DICOMDIR=v3 d/IMAGES/SR1=note.txt: 14 - dicomdir check --strict d > 1 [NODIGEST IMAGE] [] kept
d/DICOMDIR=v3,674,ffff d/IMAGES/IM1=c.dcm d/IMAGES/SR1=note.txt: - - dicomdir check --strict d > \
3 [NODIGEST IMAGES\\IM1|NODIGEST IMAGES\\SR1|] [] kept
d/DICOMDIR=v3,674,ffff d/IMAGES/IM1=c.dcm d/IMAGES/SR1=note.txt: - - dicomdir check --strict --keys d > \
3 [NODIGEST IMAGES\\IM1|NODIGEST IMAGES\\SR1|] [] kept
d/DICOMDIR=v3,674,ffff d/IMAGES/IM1=part.dcm d/IMAGES/SR1=note.txt: - - dicomdir check d > 0 [OK 5 records|] [] kept
d/DICOMDIR=v3,674,ffff d/IMAGES/IM1=part.dcm d/IMAGES/SR1=note.txt: - - dicomdir check --strict d > \
3 [NODIGEST IMAGES\\IM1|NODIGEST IMAGES\\SR1|] [] kept
d/DICOMDIR=v3,674,ffff d/IMAGES/IM1=part.dcm d/IMAGES/SR1=note.txt: - - dicomdir check --strict --keys d > \
3 [MISLABELLED IMAGES\\IM1 31 File 27 Set 1 Truncated|NODIGEST IMAGES\\SR1|] [] kept
d/DICOMDIR=v3,674,ffff d/IMAGES/IM1=d.dcm: - - dicomdir check --strict --keys d > \
3 [MISLABELLED IMAGES\\IM1 (0002,0003)|MISSING IMAGES\\SR1|] [] kept
d/DICOMDIR=v3,674,ffff,710,'i d/IMAGES/SR1=a.dcm: - - dicomdir check --strict d > \
3 [BADID 646|NODIGEST IMAGES\\SR1|] [] kept
d/DICOMDIR=v3 d/IMAGES/SR1=a.dcm; unread d/IMAGES/SR1: - - dicomdir check --strict d > \
3 [UNREADABLE IMAGES\\SR1|] [] kept
d/DICOMDIR=v3,584,32030000 d/IMAGES/SR1=a.dcm: - - dicomdir check --strict d > \
3 [NODIGEST IMAGES\\SR1|UNREACHED 1|] [] kept
d=set d/DICOMDIR=first,810,'X: - - dicomdir check --strict d > \
3 [NODIGEST PT000001\\ST000001\\SE000001\\IM000001|] [] kept
d=set d/PT000001/ST000001/SE000001/IM000001=e.dcm: - - dicomdir check --strict d > \
3 [DIFFERS PT000001\\ST000001\\SE000001\\IM000001 900e75e1c153f87b21e09f9db68aef627f2dd320eb3afb1f2574594e6c862a92 \
3701174b5ad976c7de170363bdf11977a0101e4fa19672b64e1cb1470846b2ca|] [] kept
d/DICOMDIR=note.txt: - - dicomdir check --strict d > 3 [BROKEN 51 File 21 NotPart10|] [] kept";

#[test]
fn files_are_compared_and_those_without_digests_found(rt: HostRuntime) -> Result<(), Fail> {
    ask_all(rt.alloc(), KEYS, ran)?;
    ask_all(rt.alloc(), STRICT, ran)
}
