use crate::runs::scripts::ran;
use dd_vectors::ask_all;
use std::test::Fail;

/// Cases of `ran`: directories of this tool and of another; values that do not print, or of which nothing is left.
/// Records of a study without its UID, of a patient whose ID holds items, and of an unknown type. Records that no
/// offset reaches; refusals; and outputs that fail.
const LISTS: &str = "\
d/DICOMDIR=v3: - - dicomdir list d > 0 [320 PATIENT P1|  412 STUDY 1.2.3|    546 SERIES 1.2.3.4\
|      646 IMAGE IMAGES\\IM1 inactive|      818 SR DOCUMENT IMAGES\\SR1|5 records, 0 unreached|] [] kept
d/DICOMDIR=empty: - - dicomdir list d > 0 [0 records, 0 unreached|] [] kept
d/DICOMDIR=first: - - dicomdir list d/ > 0 [320 PATIENT P1|  404 STUDY 1.2.3|    530 SERIES 1.2.3.4\
|      622 IMAGE PT000001\\ST000001\\SE000001\\IM000001|4 records, 0 unreached|] [] kept
DICOMDIR=empty: - - dicomdir list '' > 1 [] [FAULT : 92 Absent|] kept
./DICOMDIR=empty: - - dicomdir list . > 0 [0 records, 0 unreached|] [] kept
d/DICOMDIR=first,348,0000,402,50ff: - - dicomdir list d > 0 [320 PATIENT P? inactive|  404 STUDY 1.2.3\
|    530 SERIES 1.2.3.4|      622 IMAGE PT000001\\ST000001\\SE000001\\IM000001|4 records, 0 unreached|] [] kept
d/DICOMDIR=v3,402,7e7f,574,0000,584,00000000: - - dicomdir list d > \
0 [320 PATIENT ~?|  412 STUDY 1.2.3|    546 SERIES 1.2.3.4 inactive|3 records, 2 unreached|] [] kept
d/DICOMDIR=v3,402,1f20,450,00000000: - - dicomdir list d > \
0 [320 PATIENT ?|  412 STUDY 1.2.3|2 records, 3 unreached|] [] kept
d/DICOMDIR=v3,358,00000000,402,2020: - - dicomdir list d > 0 [320 PATIENT -|1 records, 4 unreached|] [] kept
d/DICOMDIR=v3,358,00000000,402,2050: - - dicomdir list d > 0 [320 PATIENT  P|1 records, 4 unreached|] [] kept
d/DICOMDIR=v3,358,00000000,402,0020: - - dicomdir list d > 0 [320 PATIENT -|1 records, 4 unreached|] [] kept
d/DICOMDIR=v3,358,00000000,378,100020005351000000000000,390,1000300044410600,398,'202601: \
- - dicomdir list d > 0 [320 PATIENT -|1 records, 4 unreached|] [] kept
d/DICOMDIR=v3,358,00000000,373,e9454eff: - - dicomdir list d > \
0 [320 PAT?EN? -|1 records, 4 unreached|] [] kept
d/DICOMDIR=v3,358,00000000,370,'PRIVATE_: - - dicomdir list d > 0 [320 PRIVATE -|1 records, 4 unreached|] [] kept
d/DICOMDIR=v3,450,00000000,514,20000c00: - - dicomdir list d > \
0 [320 PATIENT P1|  412 STUDY -|2 records, 3 unreached|] [] kept
d/DICOMDIR=first,282,00000000,294,00000000: - - dicomdir list d > 0 [0 records, 4 unreached|] [] kept
d/DICOMDIR=empty: - - dicomdir list nowhere > 1 [] [FAULT nowhere/DICOMDIR: 92 Absent|] kept
d/DICOMDIR=empty: - - dicomdir list d/DICOMDIR > 1 [] [FAULT d/DICOMDIR/DICOMDIR: 92 Absent|] kept
d/DICOMDIR=first,294,41010000: - - dicomdir list d > 1 [] [FAULT d: 56 LastRoot|] kept
d/DICOMDIR=first,336,40010000: - - dicomdir list d/ > 1 [] [FAULT d/: 55 Twice 320|] kept
d/DICOMDIR=note.txt: - - dicomdir list d > 1 [] [FAULT d: 51 File 21 NotPart10|] kept
d/DICOMDIR=a.dcm: - - dicomdir list d > 1 [] [FAULT d: 52 NotDirectory|] kept
d/DICOMDIR=deep: - - dicomdir list d > 1 [] [FAULT d: 58 TooDeep 1984|] kept
d/DICOMDIR=first: 0 - dicomdir list d > 1 [] [] kept
d/DICOMDIR=first: 9 - dicomdir list d > 1 [320 PATIE] [] kept
d/DICOMDIR=empty: - 6 dicomdir list nowhere > 1 [] [FAULT ] kept
d/DICOMDIR=empty: - 0 dicomdir list d > 0 [0 records, 0 unreached|] [] kept";

/// Cases of `ran`, of long listings, whose first line names the file-set: values that are empty, absent, items or do
/// not print, and records of other types.
const LONG_LISTS: &str = "\
d/DICOMDIR=first: - - dicomdir list --long d > 0 [FILE-SET - 2.25.0|320 PATIENT P1 | DOE^JOHN\
|  404 STUDY 1.2.3 | 20240115 | 101500 | -|    530 SERIES 1.2.3.4 | CT | 1\
|      622 IMAGE PT000001\\ST000001\\SE000001\\IM000001 | 1 | 1.2.3.4.5|4 records, 0 unreached|] [] kept
d/DICOMDIR=v3: - - dicomdir list d --long > 0 [FILE-SET - 2.25.0|320 PATIENT P1 | DOE^JOHN\
|  412 STUDY 1.2.3 | 20240115 | 101500 | -|    546 SERIES 1.2.3.4 | CT | 1\
|      646 IMAGE IMAGES\\IM1 inactive | 1 | 1.2.3.4.5|      818 SR DOCUMENT IMAGES\\SR1|5 records, 0 unreached|] [] kept
d/DICOMDIR=empty: - - dicomdir list --long d > 0 [FILE-SET - 2.25.0|0 records, 0 unreached|] [] kept
d/DICOMDIR=empty,199,'7: - - dicomdir list --long d > 0 [FILE-SET - 2.25.7|0 records, 0 unreached|] [] kept
d/DICOMDIR=empty,194,000000000000: - - dicomdir list --long d > \
1 [] [FAULT d: 51 File 24 MetaUid (0002,0003)|] kept
index e b.dcm --id DISC1 --uid 2.25.7; d/DICOMDIR=e/DICOMDIR,275,07: - - dicomdir list d --long > \
0 [FILE-SET D?SC1 2.25.7|0 records, 0 unreached|] [] kept
d/DICOMDIR=v3,358,00000000,386,'DOE,389,09,390,'OHN_: - - dicomdir list --long d > \
0 [FILE-SET - 2.25.0|320 PATIENT P1 | DOE?OHN|1 records, 4 unreached|] [] kept
d/DICOMDIR=v3,358,00000000,378,100010005351000000000000,390,100020004c4f0600,398,'P12345: - - dicomdir list --long d > \
0 [FILE-SET - 2.25.0|320 PATIENT P12345 | -|1 records, 4 unreached|] [] kept
index d a.dcm --id DISC1 --uid 2.25.7; withdraw e d 1.2.3.4.5 --uid 2.25.8 --id DISC2: - - dicomdir list --long e > \
0 [FILE-SET DISC2 2.25.8|WITHDRAWN 1.2.3.4.5|0 records, 0 unreached|] [] kept
d/DICOMDIR=empty: 0 - dicomdir list --long d > 1 [] [] kept
d/DICOMDIR=first: 29 - dicomdir list --long d > 1 [FILE-SET - 2.25.0|320 PATIENT] [] kept
d/DICOMDIR=note.txt: - - dicomdir list --long d > 1 [] [FAULT d: 51 File 21 NotPart10|] kept";

#[test]
fn records_are_listed(rt: HostRuntime) -> Result<(), Fail> {
    ask_all(rt.alloc(), LISTS, ran)?;
    ask_all(rt.alloc(), LONG_LISTS, ran)
}
