use crate::runs::scripts::{leave_the_same, ran};
use dd_vectors::{ask_all, claim_all};
use std::test::Fail;

/// Cases of `ran`. Every directory is read before one is parsed, and a set that is refused leaves all as it was.
const MERGES: &str = "\
d1=set: - - dicomdir merge o d1 d1 --uid 2.25.0 > 0 [DONE 1 instances, 876 bytes|] [] changed
d1=set: - - dicomdir merge o d1 --uid 2.25.0 --id DISC1 > 0 [DONE 1 instances, 882 bytes|] [] changed
d1=set: - - dicomdir merge o d1 > 0 [DONE 1 instances, 914 bytes|] [] changed
d1=set d2/DICOMDIR=empty: - - dicomdir merge o d2 d1 d2 --uid 2.25.0 > 0 [DONE 1 instances, 876 bytes|] [] changed
d1/DICOMDIR=empty: - - dicomdir merge o d1 --uid 2.25.0 > 0 [DONE 0 instances, 320 bytes|] [] changed
index d1 a.dcm; index d2 d.dcm: - - dicomdir merge o d1 d2 --uid 2.25.0 > \
0 [DONE 2 instances, 1130 bytes|] [] changed
index d1 f.dcm; index d2 d.dcm: - - dicomdir merge o d1 d2 --uid 2.25.0 > \
0 [DONE 2 instances, 1132 bytes|] [] changed
d1=set: - - dicomdir merge o d1 --uid 2.25.0 --max-bytes 876 > 0 [DONE 1 instances, 876 bytes|] [] changed
d1=set: - - dicomdir merge o d1 --uid 2.25.0 --max-bytes 875 > 1 [] [FAULT -: 43 TooLarge|] kept
d1=set d2/DICOMDIR=first,402,'P2,772,'6: - - dicomdir merge o d2 d1 > \
1 [NOTE d1/PT000001/ST000001/SE000001/IM000001: has 1.2.3.4.5|\
NOTE d2/PT000001/ST000001/SE000001/IM000001: has 1.2.3.4.6|] [FAULT -: 41 Conflict 1.2.3.4.5 1.2.3.4.6|] kept
index d1 a.dcm; index d2 c.dcm: - - dicomdir merge o d1 d2/ d1 --uid 2.25.0 > \
0 [NOTE d1/PT000001/ST000001/SE000001/IM000001: left out for d2/PT000001/ST000001/SE000001/IM000001: \
same SOP Instance UID 1.2.3.4.5, other bytes|\
NOTE d1/PT000001/ST000001/SE000001/IM000001: left out for d2/PT000001/ST000001/SE000001/IM000001: \
same SOP Instance UID 1.2.3.4.5, other bytes|DONE 1 instances, 876 bytes|] [] changed
index d1 c.dcm; index d2 d.dcm: - - dicomdir merge o d2 d1 --uid 2.25.0 --strict > \
1 [NOTE -: Patient ID P1 has 2 names: DOE^JUDY, DOE^JOHN|] [FAULT -: 98 Strict|] kept
d1=set d3/DICOMDIR=v3: - - dicomdir merge o d3 > 1 [] [FAULT d3: 62 ForeignRecord 646|] kept
d1=set d3/DICOMDIR=v3: - - dicomdir merge o d1 d3/ > 1 [] [FAULT d3/: 62 ForeignRecord 646|] kept
d3/DICOMDIR=v3,674,ffff: - - dicomdir merge o d3 > 1 [] [FAULT d3: 61 NoDigest 646|] kept
d1=set d3/DICOMDIR=first,402,2020: - - dicomdir merge o d1 d3 d1 > \
1 [] [FAULT d3: 63 RecordKey 320 (0010,0020)|] kept
d1=set d3/DICOMDIR=first,294,41010000: - - dicomdir merge o d1 d3 > 1 [] [FAULT d3: 56 LastRoot|] kept
d3/DICOMDIR=v3 d4/DICOMDIR=note.txt: - - dicomdir merge o d3 d4 > 1 [] [FAULT d3: 62 ForeignRecord 646|] kept
d3/DICOMDIR=v3 d4/DICOMDIR=note.txt: - - dicomdir merge o d4 d3 > 1 [] [FAULT d4: 51 File 21 NotPart10|] kept
d3/DICOMDIR=v3: - - dicomdir merge o d3 nowhere > 1 [] [FAULT nowhere/DICOMDIR: 92 Absent|] kept
d1=set: - - dicomdir merge o no d1 nowhere > 1 [] [FAULT no/DICOMDIR: 92 Absent|] kept
d1=set: - - dicomdir merge full d1 > 1 [] [FAULT full/DICOMDIR: 94 Create|] kept
d1=set: - - dicomdir merge full nowhere > 1 [] [FAULT full/DICOMDIR: 94 Create|] kept
d1=set: - - dicomdir merge d1 d1 > 1 [] [FAULT d1/DICOMDIR: 94 Create|] kept
d1=set: - - dicomdir merge taken d1 > 1 [] [FAULT taken/PT000001/ST000001/SE000001/IM000001: 94 Create|] kept
d1/DICOMDIR=first: - - dicomdir merge o d1 > \
1 [] [FAULT d1/PT000001/ST000001/SE000001/IM000001: 92 Absent|] kept
./DICOMDIR=first: - - dicomdir merge o . > \
1 [] [FAULT ./PT000001/ST000001/SE000001/IM000001: 92 Absent|] kept
DICOMDIR=first: - - dicomdir merge o '' > 1 [] [FAULT : 92 Absent|] kept
d1=set: - - dicomdir merge full nowhere '' d1 > 1 [] [FAULT : 92 Absent|] kept
d1=set: - - dicomdir merge '' '' > 1 [] [FAULT : 95 Folder|] kept
d1=set d2/DICOMDIR=first: - - dicomdir merge o d2 d1 > \
1 [] [FAULT d2/PT000001/ST000001/SE000001/IM000001: 92 Absent|] kept
d1=set d2/DICOMDIR=first,772,'6: - - dicomdir merge o d2/ d1 > \
1 [] [FAULT d2/PT000001/ST000001/SE000001/IM000001: 92 Absent|] changed
d1=set d1/PT000001/ST000001/SE000001/IM000001=c.dcm: - - dicomdir merge o d1 > \
1 [] [FAULT d1/PT000001/ST000001/SE000001/IM000001: 97 Changed|] changed
d1=set d2/DICOMDIR=first,402,'P9: - - dicomdir merge o d1 d2 > \
1 [] [FAULT d2/PT000001/ST000001/SE000001/IM000001: 97 Changed|] changed
d1=set d2/DICOMDIR=first,402,'P9: - - dicomdir merge o d2 d1 > \
1 [] [FAULT d2/PT000001/ST000001/SE000001/IM000001: 92 Absent|] kept
d1=set d2=set d2/DICOMDIR=first,402,'P9: - - dicomdir merge o d1 d2 > \
1 [] [FAULT d2/PT000001/ST000001/SE000001/IM000001: 97 Changed|] changed
d1=set d2=set d2/DICOMDIR=first,402,'P9: - - dicomdir merge o d2 d1 > \
1 [] [FAULT d2/PT000001/ST000001/SE000001/IM000001: 97 Changed|] changed
d1=set d2=set d3/DICOMDIR=first,402,'P9,686,'XT: - - dicomdir merge o d1 d2 d3 > \
1 [] [FAULT d3/XT000001/ST000001/SE000001/IM000001: 97 Changed|] changed
d1=set d2/DICOMDIR=first,874,'2: - - dicomdir merge o d1 d2 > \
1 [] [FAULT d2/PT000001/ST000001/SE000001/IM000001: 97 Changed|] changed
d1=set d2=set d2/DICOMDIR=first,402,'P0: - - dicomdir merge o d2 d1 --uid 2.25.0 > \
0 [DONE 1 instances, 876 bytes|] [] changed
d1/PT000001/ST000001/SE000001/IM000001=note.txt \
d1/DICOMDIR=first,834,453361fd925712bb2f4ef496dfa3480f0d7a1e22fc15dc69e72aeb8086c135ce: - - dicomdir merge o d1 > \
1 [] [FAULT d1/PT000001/ST000001/SE000001/IM000001: 97 Changed|] changed
d1=set d1/PT000001/ST000001/SE000001/IM000001=note.txt: - - dicomdir merge o d1 > \
1 [] [FAULT d1/PT000001/ST000001/SE000001/IM000001: 97 Changed|] changed
d1=set d1/DICOMDIR=first,402,'P9: - - dicomdir withdraw o d1 1.2.3 > \
1 [NOTE -: 1.2.3 is in no record|] [FAULT d1/PT000001/ST000001/SE000001/IM000001: 97 Changed|] changed
d1=set: - - dicomdir merge full nowhere --uid 1.02 > 2 [] [FAULT -: 71 BadUid|] kept
d1=set: - - dicomdir merge full nowhere --id bad --uid 1.02 > 2 [] [FAULT -: 72 BadSetId|] kept
d1=set: - - dicomdir merge o d1 --uid 2.25.0 --dry-run > 0 [PLAN 1 instances, 876 bytes|] [] kept
d1/DICOMDIR=first: - - dicomdir merge --dry-run taken d1 --uid 2.25.0 > 0 [PLAN 1 instances, 876 bytes|] [] kept
d1=set: - - dicomdir merge full d1 --dry-run > 1 [] [FAULT full/DICOMDIR: 94 Create|] kept
d1=set: - - dicomdir merge o d1 --dry-run --max-bytes 875 > 1 [] [FAULT -: 43 TooLarge|] kept
d1=set: - - dicomdir merge --link o d1 --uid 2.25.0 > 0 [DONE 1 instances, 876 bytes|] [] changed
index d1 a.dcm; index d2 c.dcm: - - dicomdir merge o --link d1 d2 --uid 2.25.0 > \
0 [NOTE d1/PT000001/ST000001/SE000001/IM000001: left out for d2/PT000001/ST000001/SE000001/IM000001: \
same SOP Instance UID 1.2.3.4.5, other bytes|DONE 1 instances, 876 bytes|] [] changed
d1=set: - - dicomdir merge taken d1 --link > 1 [] [FAULT taken/PT000001/ST000001/SE000001/IM000001: 94 Create|] kept
d1/DICOMDIR=first: - - dicomdir merge --link o d1 > \
1 [] [FAULT d1/PT000001/ST000001/SE000001/IM000001: 92 Absent|] kept
d1=set d1/PT000001/ST000001/SE000001/IM000001=c.dcm: - - dicomdir merge --link o d1 --uid 2.25.0 > \
0 [DONE 1 instances, 876 bytes|] [] changed
d1=set d1/PT000001/ST000001/SE000001/IM000001=c.dcm; no links: - - dicomdir merge --link o d1 > \
1 [] [FAULT d1/PT000001/ST000001/SE000001/IM000001: 97 Changed|] changed
d1=set: - - dicomdir merge --link --dry-run o d1 --uid 2.25.0 > 0 [PLAN 1 instances, 876 bytes|] [] kept
d1=set: - - dicomdir merge --strict --quiet o d1 --uid 2.25.0 > 0 [DONE 1 instances, 876 bytes|] [] changed
d1=set d2=set: - - dicomdir merge o --files0-from sets --uid 2.25.0 > 0 [DONE 1 instances, 876 bytes|] [] changed
d1=set: - - dicomdir merge o d1 --files0-from sets > 1 [] [FAULT d2/DICOMDIR: 92 Absent|] kept
d1=set: - - dicomdir merge o d1 --files0-from gap > 1 [] [FAULT gap: 99 BadName 2|] kept
d1=set: - - dicomdir merge full d1 --files0-from void > 1 [] [FAULT full/DICOMDIR: 94 Create|] kept
d1=set: 0 - dicomdir merge o d1 --uid 2.25.0 --dry-run > 1 [] [] kept
d1=set: 0 - dicomdir merge o d1 --uid 2.25.0 > 1 [] [] changed
d1=set: - 0 dicomdir merge o d1 --uid 2.25.0 --max-bytes 0 > 1 [] [] kept";

/// Cases of `ran` with notes: names of two sets that share an image, records that are not reached, images that a set
/// withdraws, and all of these in their order. A refusal of the plan is not noted.
const NOTED: &str = "\
index d1 a.dcm; index d2 a.dcm p.dcm: - - dicomdir merge o d1 d2 --uid 2.25.0 > \
0 [NOTE -: Patient ID P1 has 2 names: DOE^J?RG, DOE^JOHN|DONE 2 instances, 1130 bytes|] [] changed
index d1 a.dcm; index d2 a.dcm p.dcm: - - dicomdir merge o d2 d1 --strict > \
1 [NOTE -: Patient ID P1 has 2 names: DOE^J?RG, DOE^JOHN|] [FAULT -: 98 Strict|] kept
d1/DICOMDIR=first,568,00000000 d2/DICOMDIR=first,358,00000000: - - dicomdir merge o d1 d2/ d1 --uid 2.25.0 > \
0 [NOTE d1: 1 records are not reached|NOTE d2/: 3 records are not reached|NOTE d1: 1 records are not reached|\
DONE 0 instances, 320 bytes|] [] changed
d1/DICOMDIR=first,568,00000000 d2=set: - - dicomdir merge o d2 d1 --uid 2.25.0 --dry-run > \
0 [NOTE d1: 1 records are not reached|PLAN 1 instances, 876 bytes|] [] kept
d1/DICOMDIR=first,568,00000000: - - dicomdir merge o d1 --strict > \
1 [NOTE d1: 1 records are not reached|] [FAULT -: 98 Strict|] kept
d1/DICOMDIR=first,568,00000000: 8 - dicomdir merge o d1 > 1 [NOTE d1:] [] kept
d1/DICOMDIR=first,568,00000000 d2=set d3/DICOMDIR=first,402,'P2,772,'6: - - dicomdir merge o d1 d3 d2 --strict > \
1 [NOTE d2/PT000001/ST000001/SE000001/IM000001: has 1.2.3.4.5|\
NOTE d3/PT000001/ST000001/SE000001/IM000001: has 1.2.3.4.6|] [FAULT -: 41 Conflict 1.2.3.4.5 1.2.3.4.6|] kept
d1/DICOMDIR=first,568,00000000: - - dicomdir merge o d1 --strict --max-bytes 319 > 1 [] [FAULT -: 43 TooLarge|] kept
d1=set; withdraw d2 d1 1.2.3.4.5: - - dicomdir merge o d1 d2 --uid 2.25.0 > \
0 [DONE 0 instances, 362 bytes|] [] changed
d1=set; withdraw d2 d1 1.2.3.4.5: - - dicomdir merge o d1 d2/ d1 d2 --strict > \
1 [NOTE d1/PT000001/ST000001/SE000001/IM000001: withdrawn in d2/: 1.2.3.4.5|\
NOTE d1/PT000001/ST000001/SE000001/IM000001: withdrawn in d2/: 1.2.3.4.5|] [FAULT -: 98 Strict|] kept
d1=set; withdraw d2 d1 1.2.3.4.5: - - dicomdir merge o d2 d1 --strict --dry-run > \
1 [NOTE d1/PT000001/ST000001/SE000001/IM000001: withdrawn in d2: 1.2.3.4.5|] [FAULT -: 98 Strict|] kept
d1=set; withdraw d2 d1 1.2.3.4.5: 8 - dicomdir merge o d1 d2 --strict > 1 [NOTE d1/] [] kept
d1=set; withdraw d2 d1 1.2.3.4.6: - - dicomdir merge o d1 d2 --strict --uid 2.25.0 > \
0 [DONE 1 instances, 918 bytes|] [] changed
index d1 a.dcm; index d2 c.dcm; index d3 p.dcm; index d4 d.dcm; withdraw d5 d2 1.2.3.4.8; \
d6/DICOMDIR=first,568,00000000: - - dicomdir merge o d1 d2 d3 d4 d5 d6 --uid 2.25.0 > \
0 [NOTE d6: 1 records are not reached|\
NOTE d1/PT000001/ST000001/SE000001/IM000001: left out for d2/PT000001/ST000001/SE000001/IM000001: \
same SOP Instance UID 1.2.3.4.5, other bytes|NOTE -: Patient ID P1 has 2 names: DOE^JUDY, DOE^JOHN|\
DONE 2 instances, 1172 bytes|] [] changed
index d1 a.dcm; index d2 c.dcm; index d3 p.dcm; index d4 d.dcm; withdraw d5 d2 1.2.3.4.8; \
d6/DICOMDIR=first,568,00000000: - - dicomdir merge o d1 d2 d3 d4 d5 d6 --strict > \
1 [NOTE d6: 1 records are not reached|\
NOTE d1/PT000001/ST000001/SE000001/IM000001: left out for d2/PT000001/ST000001/SE000001/IM000001: \
same SOP Instance UID 1.2.3.4.5, other bytes|\
NOTE d3/PT000001/ST000001/SE000001/IM000001: withdrawn in d5: 1.2.3.4.8|\
NOTE -: Patient ID P1 has 2 names: DOE^JUDY, DOE^JOHN|] [FAULT -: 98 Strict|] kept";

#[test]
fn merges_say_how_they_ended(rt: HostRuntime) -> Result<(), Fail> {
    ask_all(rt.alloc(), MERGES, ran)?;
    ask_all(rt.alloc(), NOTED, ran)
}

/// Steps, a line, and a step that leaves the same files: sets in any order and number, and their sources. Then the
/// first place of an image, by the File ID that the set has for it, and what stays after a refusal.
const SAME: &str = "\
d1=set: merge o d1 d1 --uid 2.25.0 > o=set
index d1 a.dcm b.dcm --uid 2.25.0: merge o2 d1 d1 --uid 2.25.0 > o2=set
d1=set d2/DICOMDIR=first: merge o d1 d2 --uid 2.25.0 > o=set
d1/DICOMDIR=first,686,'X d1/XT000001/ST000001/SE000001/IM000001=a.dcm: merge o d1 --uid 2.25.0 > o=set
d1/DICOMDIR=first,686,'A\\B\\C\\D\\E\\F\\G\\HHHHHHHH______________ d1/A/B/C/D/E/F/G/HHHHHHHH=a.dcm: \
merge o d1 --uid 2.25.0 > o=set
./DICOMDIR=first ./PT000001/ST000001/SE000001/IM000001=a.dcm: merge o . --uid 2.25.0 > o=set
index d1 b.dcm: merge o d1 --uid 2.25.0 > o/DICOMDIR=empty
index d1 a.dcm; index d2 d.dcm: merge o d1 d2 > index o a.dcm d.dcm
index d1 f.dcm; index d2 d.dcm: merge o d1 d2 > index o f.dcm d.dcm
index d1 a.dcm --id DISC1; index d2 d.dcm --uid 2.25.7: merge o d2 d1 d2 --id DISC2 > index o a.dcm d.dcm --id DISC2
index d1 a.dcm d.dcm; index d2 b.dcm; index d3 d.dcm: merge o d1 d2 d3 > index o d.dcm a.dcm
index d1 a.dcm; index d2 c.dcm; index d3 e.dcm: merge o d1 d2 d3 > index o a.dcm c.dcm e.dcm
index d1 a.dcm; index d2 d.dcm; index d3 c.dcm: merge o d1 d2 d3 > merge o d1 d3 d2
index d1 a.dcm; index d2 d.dcm; index d3 c.dcm: merge o d1 d2 d3 > merge o d2 d1 d3
index d1 a.dcm; index d2 d.dcm; index d3 c.dcm: merge o d1 d2 d3 > merge o d2 d3 d1
index d1 a.dcm; index d2 d.dcm; index d3 c.dcm: merge o d1 d2 d3 > merge o d3 d1 d2
index d1 a.dcm; index d2 d.dcm; index d3 c.dcm: merge o d1 d2 d3 > merge o d3 d2 d1
index d1 a.dcm; index d2 d.dcm; index d3 c.dcm: merge o \
d1 d1 d1 d1 d1 d1 d1 d1 d1 d1 d1 d1 d1 d1 d1 d1 d1 d1 d1 d1 d1 d1 d1 d1 d1 d1 d1 d1 d1 d1 d1 d1 \
d1 d1 d1 d1 d1 d1 d1 d1 d1 d1 d1 d1 d1 d1 d1 d1 d1 d1 d1 d1 d1 d1 d1 d1 d1 d1 d1 d1 d1 d1 d1 d1 \
d2 d1 d1 d1 d1 d3 > index o a.dcm d.dcm c.dcm
d1=set d2=set d2/DICOMDIR=first,402,'P0: merge o d2 d1 --uid 2.25.0 > o=set
d1=set: merge --link o d1 d1 --uid 2.25.0 > o=set
d1=set; no links: merge --link o d1 d1 --uid 2.25.0 > o=set
index d1 a.dcm; index d2 c.dcm; index d3 e.dcm: merge --link o d1 d2 d3 > index o a.dcm c.dcm e.dcm
d1=set d1/PT000001/ST000001/SE000001/IM000001=c.dcm: merge --link o d1 --uid 2.25.0 > \
o/DICOMDIR=first o/PT000001/ST000001/SE000001/IM000001=c.dcm
d1=set d2/DICOMDIR=first,402,'P9: merge o d1 d2 > o/PT000001/ST000001/SE000001/IM000001=a.dcm
d1=set d2/DICOMDIR=first,772,'6: merge o d1 d2 > o/PT000001/ST000001/SE000001/IM000001=a.dcm
d1=set d1/PT000001/ST000001/SE000001/IM000001=c.dcm: merge o d1 > \
o/PT000001/ST000001/SE000001/IM000001=c.dcm";

#[test]
fn merges_leave_the_same_files(rt: HostRuntime) -> Result<(), Fail> {
    claim_all(rt.alloc(), SAME, '\n', leave_the_same)
}
