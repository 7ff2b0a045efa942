//! Runs of `list` and `check` with `--json`, and refusals with it: each line is a JSON object.

use crate::runs::scripts::ran;
use dd_vectors::ask_all;
use std::alloc::Global;
use std::test::Fail;

/// Cases of `ran`, where a grave accent stands for a quotation mark and `*` for a line feed. Records with and without
/// a file; what is withdrawn; findings; directories that can't be read. Refusals: with a path whose quotation mark and
/// line feed are escaped, with a cause, with no path; and with no first step, since no hints are asked for.
const OBJECTS: &str = "\
d/DICOMDIR=v3,358,00000000: - - dicomdir list d --json > \
0 [{`line`:`RECORD`,`offset`:320,`level`:0,`type`:`PATIENT`,`in_use`:true,`key`:`P1`}|\
{`line`:`RECORDS`,`records`:1,`unreached`:4}|] [] kept
d/DICOMDIR=v3,358,00000000,402,2020: - - dicomdir list --json d > \
0 [{`line`:`RECORD`,`offset`:320,`level`:0,`type`:`PATIENT`,`in_use`:true,`key`:``}|\
{`line`:`RECORDS`,`records`:1,`unreached`:4}|] [] kept
d/DICOMDIR=v3: - - dicomdir list --json d > \
0 [{`line`:`RECORD`,`offset`:320,`level`:0,`type`:`PATIENT`,`in_use`:true,`key`:`P1`}|\
{`line`:`RECORD`,`offset`:412,`level`:1,`type`:`STUDY`,`in_use`:true,`key`:`1.2.3`,`uid`:`1.2.3`}|\
{`line`:`RECORD`,`offset`:546,`level`:2,`type`:`SERIES`,`in_use`:true,`key`:`1.2.3.4`,`uid`:`1.2.3.4`}|\
{`line`:`RECORD`,`offset`:646,`level`:3,`type`:`IMAGE`,`in_use`:false,`file`:`IMAGES\\\\IM1`,`key`:`IMAGES\\\\IM1`,\
`uid`:`1.2.3.4.5`}|\
{`line`:`RECORD`,`offset`:818,`level`:3,`type`:`SR DOCUMENT`,`in_use`:true,`file`:`IMAGES\\\\SR1`,\
`key`:`IMAGES\\\\SR1`}|{`line`:`RECORDS`,`records`:5,`unreached`:0}|] [] kept
index d a.dcm --id DISC1 --uid 2.25.7; withdraw e d 1.2.3.4.5 --uid 2.25.8 --id DISC2: \
- - dicomdir list --long --json e > 0 [{`line`:`FILE-SET`,`id`:`DISC2`,`uid`:`2.25.8`}|\
{`line`:`WITHDRAWN`,`uid`:`1.2.3.4.5`}|{`line`:`RECORDS`,`records`:0,`unreached`:0}|] [] kept
d/DICOMDIR=empty: - - dicomdir list --json --long d > 0 [{`line`:`FILE-SET`,`id`:``,`uid`:`2.25.0`}|\
{`line`:`RECORDS`,`records`:0,`unreached`:0}|] [] kept
d=set: - - dicomdir check d --json > 0 [{`line`:`OK`,`records`:4}|] [] kept
d/DICOMDIR=v3: - - dicomdir check --json d > 3 [{`line`:`MISSING`,`file`:`IMAGES\\\\SR1`}|] [] kept
d/DICOMDIR=v3,674,ffff d/IMAGES/IM1=note.txt d/IMAGES/SR1=a.dcm: - - dicomdir check --keys --json d > \
3 [{`line`:`MISLABELLED`,`file`:`IMAGES\\\\IM1`,`fault`:{`number`:31,`name`:`File`,`words`:`31 File 21 NotPart10`,\
`cause`:{`number`:21,`name`:`NotPart10`}}}|] [] kept
d/DICOMDIR=first,294,41010000: - - dicomdir check d --json > \
3 [{`line`:`BROKEN`,`fault`:{`number`:56,`name`:`LastRoot`,`words`:`56 LastRoot`}}|] [] kept
d/DICOMDIR=first,336,40010000: - - dicomdir check d --json > \
3 [{`line`:`BROKEN`,`fault`:{`number`:55,`name`:`Twice`,`words`:`55 Twice 320`}}|] [] kept
d/DICOMDIR=note.txt: - - dicomdir check d --json > \
3 [{`line`:`BROKEN`,`fault`:{`number`:51,`name`:`File`,`words`:`51 File 21 NotPart10`,\
`cause`:{`number`:21,`name`:`NotPart10`}}}|] [] kept
d/DICOMDIR=note.txt: 9 - dicomdir check d --json > 1 [{`line`:`] [] kept
d/DICOMDIR=empty: - - dicomdir list n`o*where --json > \
1 [] [{`line`:`FAULT`,`path`:`n\\`o\\nwhere/DICOMDIR`,`fault`:{`number`:92,`name`:`Absent`,`words`:`92 Absent`},\
`help`:`no folder is there: is the name right, and is the disc mounted? ls -lb FOLDER`}|] kept
d/DICOMDIR=part.dcm: - - dicomdir list d --json > \
1 [] [{`line`:`FAULT`,`path`:`d`,`fault`:{`number`:51,`name`:`File`,`words`:`51 File 27 Set 1 Truncated`,\
`cause`:{`number`:27,`name`:`Set`}},`help`:`the DICOMDIR can't be followed: index the images anew`}|] kept
d/DICOMDIR=empty: - - dicomdir index out a.dcm --uid 1.02 --json > \
2 [] [{`line`:`FAULT`,`path`:null,`fault`:{`number`:71,`name`:`BadUid`,`words`:`71 BadUid`},\
`help`:`a UID has up to 64 digits and dots, and no number such as 02`}|] kept
d/DICOMDIR=empty: - - dicomdir check nowhere --json --quiet > \
1 [] [{`line`:`FAULT`,`path`:`nowhere/DICOMDIR`,`fault`:{`number`:92,`name`:`Absent`,`words`:`92 Absent`}}|] kept
d/DICOMDIR=empty: - - dicomdir check nowhere --json --quiet --verbose > \
1 [] [{`line`:`FAULT`,`path`:`nowhere/DICOMDIR`,`fault`:{`number`:92,`name`:`Absent`,`words`:`92 Absent`},\
`help`:`no folder is there: is the name right, and is the disc mounted? ls -lb 'nowhere'`}|] kept";

fn ran_json(alloc: Global, question: &str) -> Result<String, Fail> {
    let question = question.replace(alloc, '`', "\"")?;
    let question = question.as_str().replace(alloc, '*', "\n")?;
    let end = ran(alloc, question.as_str())?;
    Ok(end.as_str().replace(alloc, '"', "`")?)
}

#[test]
fn lines_are_objects(rt: HostRuntime) -> Result<(), Fail> {
    ask_all(rt.alloc(), OBJECTS, ran_json)
}
