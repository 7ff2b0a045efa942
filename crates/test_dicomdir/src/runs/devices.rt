//! Runs over files of which one call fails, and over more images than are read ahead at once.

use crate::runs::scripts::ran;
use dd_vectors::ask_all;
use std::test::Fail;

/// Cases of `ran`: writes fail from some byte on, or a call is refused. A directory that cannot be opened at first
/// counts as absent. Openings of files of a file-set are not counted.
const REFUSED: &str = "\
full 453: - - dicomdir index out a.dcm --uid 2.25.0 > \
1 [] [FAULT out/PT000001/ST000001/SE000001/IM000001: 96 Unsent|] changed
full 454: - - dicomdir index out a.dcm --uid 2.25.0 > 1 [] [FAULT out/DICOMDIR: 96 Unsent|] changed
full 1329: - - dicomdir index out a.dcm --uid 2.25.0 > 1 [] [FAULT out/DICOMDIR: 96 Unsent|] changed
full 1330: - - dicomdir index out a.dcm --uid 2.25.0 > 0 [DONE 1 instances, 876 bytes|] [] changed
refused 0: - - dicomdir index out a.dcm --uid 2.25.0 > 0 [DONE 1 instances, 876 bytes|] [] changed
refused 1: - - dicomdir index out a.dcm --uid 2.25.0 > 0 [DONE 1 instances, 876 bytes|] [] changed
refused 2: - - dicomdir index out a.dcm --uid 2.25.0 > 1 [] [FAULT a.dcm: 92 Absent|] kept
refused 3: - - dicomdir index out a.dcm --uid 2.25.0 > 1 [] [FAULT a.dcm: 92 Absent|] kept
refused 4: - - dicomdir index out a.dcm --uid 2.25.0 > \
1 [] [FAULT out/PT000001/ST000001/SE000001: 95 Folder|] kept
refused 5: - - dicomdir index out a.dcm --uid 2.25.0 > \
1 [] [FAULT out/PT000001/ST000001/SE000001/IM000001: 94 Create|] kept
refused 6: - - dicomdir index out a.dcm --uid 2.25.0 > \
1 [] [FAULT out/PT000001/ST000001/SE000001/IM000001: 96 Unsent|] changed
refused 7: - - dicomdir index out a.dcm --uid 2.25.0 > 1 [] [FAULT out: 95 Folder|] changed
refused 8: - - dicomdir index out a.dcm --uid 2.25.0 > 1 [] [FAULT out/DICOMDIR: 94 Create|] changed
refused 9: - - dicomdir index out a.dcm --uid 2.25.0 > 1 [] [FAULT out/DICOMDIR: 96 Unsent|] changed
refused 10: - - dicomdir index out a.dcm --uid 2.25.0 > 0 [DONE 1 instances, 876 bytes|] [] changed
d1=set; refused 1: - - dicomdir merge o2 d1 --uid 2.25.0 > 0 [DONE 1 instances, 876 bytes|] [] changed
d1=set; refused 2: - - dicomdir merge o2 d1 --uid 2.25.0 > \
1 [] [FAULT o2/PT000001/ST000001/SE000001: 95 Folder|] kept
d1=set; refused 3: - - dicomdir merge o2 d1 --uid 2.25.0 > \
1 [] [FAULT o2/PT000001/ST000001/SE000001/IM000001: 94 Create|] kept
d1=set; refused 4: - - dicomdir merge o2 d1 --uid 2.25.0 > \
1 [] [FAULT o2/PT000001/ST000001/SE000001/IM000001: 96 Unsent|] changed
d1=set; refused 5: - - dicomdir merge o2 d1 --uid 2.25.0 > 1 [] [FAULT o2: 95 Folder|] changed
d1=set; refused 6: - - dicomdir merge o2 d1 --uid 2.25.0 > 1 [] [FAULT o2/DICOMDIR: 94 Create|] changed
d1=set; refused 7: - - dicomdir merge o2 d1 --uid 2.25.0 > 1 [] [FAULT o2/DICOMDIR: 96 Unsent|] changed
d1=set; refused 8: - - dicomdir merge o2 d1 --uid 2.25.0 > 0 [DONE 1 instances, 876 bytes|] [] changed
d1=set; refused 1: - - dicomdir check d1 > 0 [OK 4 records|] [] kept";

/// Cases of `ran`, of nine images of one series. One changes at its second opening.
const NINE: &str = "\
1=a.dcm,208,'1,326,'1 2=a.dcm,208,'2,326,'2 3=a.dcm,208,'3,326,'3 4=a.dcm,208,'4,326,'4 6=a.dcm,208,'6,326,'6 \
7=a.dcm,208,'7,326,'7 8=a.dcm,208,'8,326,'8 9=a.dcm,208,'9,326,'9: \
- - dicomdir index out 9 8 7 6 a.dcm 4 3 2 1 --uid 2.25.0 > 0 [DONE 9 instances, 2908 bytes|] [] changed
1=a.dcm,208,'1,326,'1 2=a.dcm,208,'2,326,'2 3=a.dcm,208,'3,326,'3 4=a.dcm,208,'4,326,'4 6=a.dcm,208,'6,326,'6 \
7=a.dcm,208,'7,326,'7 8=a.dcm,208,'8,326,'8 9=a.dcm,208,'9,326,'9; later 4=c.dcm: \
- - dicomdir index out 9 8 7 6 a.dcm 4 3 2 1 --uid 2.25.0 > 1 [] [FAULT 4: 97 Changed|] changed
1=a.dcm,208,'1,326,'1 2=a.dcm,208,'2,326,'2 3=a.dcm,208,'3,326,'3 4=a.dcm,208,'4,326,'4 6=a.dcm,208,'6,326,'6 \
7=a.dcm,208,'7,326,'7 8=a.dcm,208,'8,326,'8 9=a.dcm,208,'9,326,'9; later 9=c.dcm: \
- - dicomdir index out 9 8 7 6 a.dcm 4 3 2 1 --uid 2.25.0 > 1 [] [FAULT 9: 97 Changed|] changed";

#[test]
fn runs_say_which_file_failed(rt: HostRuntime) -> Result<(), Fail> {
    ask_all(rt.alloc(), REFUSED, ran)?;
    ask_all(rt.alloc(), NINE, ran)
}
