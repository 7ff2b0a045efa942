use crate::runs::scripts::{leave_the_same, ran};
use dd_vectors::{ask_all, claim_all};
use std::alloc::Global;
use std::test::Fail;

/// Cases of `ran`: what is withdrawn is not listed, whether the file-set had it or not, and each UID is looked at
/// before any file.
const WITHDRAWALS: &str = "\
d1=set: - - dicomdir withdraw o d1 1.2.3.4.5 --uid 2.25.0 > 0 [DONE 0 instances, 362 bytes|] [] changed
d1=set: - - dicomdir withdraw o d1 1.2.3.4.6 --uid 2.25.0 > \
0 [NOTE -: 1.2.3.4.6 is in no record|DONE 1 instances, 918 bytes|] [] changed
d1=set: - - dicomdir withdraw --uid 2.25.0 --id DISC1 o d1 1.2.3.4.7 1.2.3.4.6 > \
0 [NOTE -: 1.2.3.4.7 is in no record|NOTE -: 1.2.3.4.6 is in no record|DONE 1 instances, 934 bytes|] [] changed
d1=set; withdraw d2 d1 1.2.3.4.6: - - dicomdir withdraw o d2 1.2.3.4.6 1.2.3.4.7 1.2.3.4.7 --uid 2.25.0 > \
0 [NOTE -: 1.2.3.4.7 is in no record|DONE 1 instances, 928 bytes|] [] changed
d1=set: - - dicomdir withdraw o d1 1.2.3.4.6 --uid 2.25.0 --max-bytes 918 > \
0 [NOTE -: 1.2.3.4.6 is in no record|DONE 1 instances, 918 bytes|] [] changed
d1=set: - - dicomdir withdraw o d1 1.2.3.4.6 --uid 2.25.0 --max-bytes 917 > 1 [] [FAULT -: 43 TooLarge|] kept
d1=set: - - dicomdir withdraw o d1 1.02 > 2 [] [FAULT -: 71 BadUid|] kept
d1=set: - - dicomdir withdraw full nowhere 1.2.3.4.5 '' > 2 [] [FAULT -: 71 BadUid|] kept
d1=set: - - dicomdir withdraw '' '' 1.02 --uid 2.25.0 > 2 [] [FAULT -: 71 BadUid|] kept
d1=set: - - dicomdir withdraw o d1 1.02 --id bad > 2 [] [FAULT -: 72 BadSetId|] kept
d1=set: - - dicomdir withdraw '' d1 1.2.3.4.5 > 1 [] [FAULT : 95 Folder|] kept
d1=set: - - dicomdir withdraw full '' 1.2.3.4.5 > 1 [] [FAULT : 92 Absent|] kept
d1=set: - - dicomdir withdraw full nowhere 1.2.3.4.5 > 1 [] [FAULT full/DICOMDIR: 94 Create|] kept
d1=set: - - dicomdir withdraw d1 d1 1.2.3.4.5 > 1 [] [FAULT d1/DICOMDIR: 94 Create|] kept
d1=set: - - dicomdir withdraw o nowhere 1.2.3.4.5 > 1 [] [FAULT nowhere/DICOMDIR: 92 Absent|] kept
d3/DICOMDIR=v3: - - dicomdir withdraw o d3 1.2.3.4.5 > 1 [] [FAULT d3: 62 ForeignRecord 646|] kept
d1=set d1/PT000001/ST000001/SE000001/IM000001=c.dcm: - - dicomdir withdraw o d1 1.2.3.4.6 > \
1 [NOTE -: 1.2.3.4.6 is in no record|] [FAULT d1/PT000001/ST000001/SE000001/IM000001: 97 Changed|] changed
d1=set; withdraw d2 d1 1.2.3.4.5 --uid 2.25.0: - - dicomdir list d2 > \
0 [WITHDRAWN 1.2.3.4.5|0 records, 0 unreached|] [] kept
d1=set; withdraw d2 d1 1.2.3.4.7 1.2.3.4.6 --uid 2.25.0: - - dicomdir list d2 > 0 [320 PATIENT P1|  404 STUDY 1.2.3\
|    530 SERIES 1.2.3.4|      622 IMAGE PT000001\\ST000001\\SE000001\\IM000001|WITHDRAWN 1.2.3.4.6|WITHDRAWN 1.2.3.4.7\
|4 records, 0 unreached|] [] kept
index d1 a.dcm d.dcm p.dcm; withdraw d2 d1 1.2.3.4.9 1.2.3.4.6 1.2.3.4.10 1.2.3.4.6 1.2.3.4.8 --uid 2.25.0: \
- - dicomdir list d2 > 0 [320 PATIENT P1|  404 STUDY 1.2.3|    530 SERIES 1.2.3.4\
|      622 IMAGE PT000001\\ST000001\\SE000001\\IM000001|WITHDRAWN 1.2.3.4.10|WITHDRAWN 1.2.3.4.6|WITHDRAWN 1.2.3.4.8\
|WITHDRAWN 1.2.3.4.9|4 records, 0 unreached|] [] kept
d1=set; withdraw d2 d1 1.2.3.4.5 --uid 2.25.0; d3/DICOMDIR=d2/DICOMDIR,352,'\\,355,09ff,361,'\\: \
- - dicomdir list d3 > \
0 [WITHDRAWN -|WITHDRAWN .2??.4.5|WITHDRAWN -|0 records, 0 unreached|] [] kept
d1=set; withdraw d2 d1 1.2.3.4.5 --uid 2.25.0; d3/DICOMDIR=d2/DICOMDIR,352,'__________: - - dicomdir list d3 > \
0 [WITHDRAWN -|0 records, 0 unreached|] [] kept
d1=set; withdraw d2 d1 1.2.3.4.5 --uid 2.25.0; d3/DICOMDIR=d2/DICOMDIR,328,'E: - - dicomdir list d3 > \
0 [0 records, 0 unreached|] [] kept
d1=set; withdraw d2 d1 1.2.3.4.5 --uid 2.25.0; d3/DICOMDIR=d2/DICOMDIR,352,'.: - - dicomdir merge o d1 d3 > \
1 [] [FAULT d3: 65 BadWithdrawal|] kept
d1=set; withdraw d2 d1 1.2.3.4.6 --uid 2.25.0: - - dicomdir check d2 > 0 [OK 4 records|] [] kept
d1=set: - - dicomdir withdraw o d1 1.2.3.4.6 --uid 2.25.0 --dry-run > \
0 [NOTE -: 1.2.3.4.6 is in no record|PLAN 1 instances, 918 bytes|] [] kept
d1=set: - - dicomdir withdraw --strict o d1 1.2.3.4.5 --uid 2.25.0 --quiet > 0 [DONE 0 instances, 362 bytes|] [] changed
d1=set: - - dicomdir withdraw --dry-run d1 d1 1.2.3.4.5 > 1 [] [FAULT d1/DICOMDIR: 94 Create|] kept
d1=set: 0 - dicomdir withdraw o d1 1.2.3.4.5 --uid 2.25.0 > 1 [] [] changed
d1=set: 12 - dicomdir withdraw o d1 1.2.3.4.6 > 1 [NOTE -: 1.2.] [] kept";

/// Cases of `ran` where a set lists what it withdraws: d3 withdraws 1.2.3.4.5 and lists it, and 1.2.3.4.6 stands in a
/// record of d4 that is not reached. With `--strict` a line names each image that a set withdraws, except where the
/// command line gives its UID.
const LISTED: &str = "\
- - dicomdir merge o d3 --uid 2.25.0 > 0 [DONE 0 instances, 362 bytes|] [] changed
- - dicomdir merge o d3 --strict > 1 [NOTE d3/PT000001/ST000001/SE000001/IM000001: withdrawn in d3: 1.2.3.4.5|] \
[FAULT -: 98 Strict|] kept
- - dicomdir withdraw o d3/ 1.2.3.4.7 --strict --dry-run > \
1 [NOTE d3/PT000001/ST000001/SE000001/IM000001: withdrawn in d3/: 1.2.3.4.5|NOTE -: 1.2.3.4.7 is in no record|] \
[FAULT -: 98 Strict|] kept
- - dicomdir withdraw o d3 1.2.3.4.5 --strict --uid 2.25.0 > 0 [DONE 0 instances, 362 bytes|] [] changed
- - dicomdir withdraw o d4 1.2.3.4.6 --uid 2.25.0 > \
0 [NOTE d4: 1 records are not reached|NOTE -: 1.2.3.4.6 is in no record|DONE 0 instances, 372 bytes|] [] changed
- - dicomdir withdraw o d4 1.2.3.4.6 --strict > \
1 [NOTE d4: 1 records are not reached|NOTE d4/PT000001/ST000001/SE000001/IM000001: withdrawn in d4: 1.2.3.4.5|\
NOTE -: 1.2.3.4.6 is in no record|] [FAULT -: 98 Strict|] kept";

const LISTING: &str = "\
d1=set; index d2 a.dcm d.dcm --uid 2.25.0; withdraw d5 d1 1.2.3.4.6 --uid 2.25.0; \
withdraw d6 d2 1.2.3.4.7 --uid 2.25.0; \
d3/DICOMDIR=d5/DICOMDIR,916,'5 d4/DICOMDIR=d6/DICOMDIR,638,00000000,1170,'5";

fn ran_over_listed(alloc: Global, line: &str) -> Result<String, Fail> {
    let question = format!(in alloc; "{LISTING}: {line}")?;
    ran(alloc, question.as_str())
}

#[test]
fn withdrawals_say_how_they_ended(rt: HostRuntime) -> Result<(), Fail> {
    ask_all(rt.alloc(), WITHDRAWALS, ran)?;
    ask_all(rt.alloc(), LISTED, ran_over_listed)
}

/// Steps, a line, and a step that leaves the same files. What one set withdraws no merge brings back, in any order and
/// through any others. Neither does a set that lists it again.
const SAME: &str = "\
d1=set; withdraw o4 d1 1.2.3.4.5 --uid 2.25.0: merge o5 d1 o4 --uid 2.25.0 > o5/DICOMDIR=o4/DICOMDIR
d1=set; withdraw o4 d1 1.2.3.4.5 --uid 2.25.0: merge o5 o4 d1 d1 --uid 2.25.0 > o5/DICOMDIR=o4/DICOMDIR
d1=set; withdraw o4 d1 1.2.3.4.5; merge o5 d1 o4; merge o6 o5 d1: merge o7 d1 o6 --uid 2.25.0 > \
withdraw o7 d1 1.2.3.4.5 --uid 2.25.0
index d1 a.dcm d.dcm; index d2 a.dcm; withdraw d3 d2 1.2.3.4.5: merge o d1 d3 > withdraw o d1 1.2.3.4.5
index d1 a.dcm; index d2 d.dcm; withdraw d3 d2 1.2.3.4.5: merge o d1 d3 > withdraw o d2 1.2.3.4.5
d1=set: withdraw o d1 1.2.3.4.7 1.2.3.4.6 --uid 2.25.0 > withdraw o d1 1.2.3.4.6 1.2.3.4.7 1.2.3.4.6 --uid 2.25.0
d1=set; withdraw d2 d1 1.2.3.4.6: withdraw o d2 1.2.3.4.7 > withdraw o d1 1.2.3.4.7 1.2.3.4.6
d1=set; withdraw d2 d1 1.2.3.4.6: merge o d2 > merge o d1 d2";

#[test]
fn withdrawals_leave_the_same_files(rt: HostRuntime) -> Result<(), Fail> {
    claim_all(rt.alloc(), SAME, '\n', leave_the_same)
}
