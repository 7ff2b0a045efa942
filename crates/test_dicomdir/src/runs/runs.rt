use crate::runs::disc::{are_equal, disc};
use crate::runs::scripts::{leave_the_same, ran};
use dd_mem_files::MemFiles;
use dd_vectors::{Sink, ask_all, claim_all, failing, push_lines, words_of};
use dicomdir::run;
use std::alloc::Global;
use std::test::Fail;

/// Runs: after how many bytes the output and the error output fail, the line, the status, what both hold, and whether
/// some file is new or has changed. `|` ends a line. A run that is refused changes no file; an error output that fails
/// changes nothing else.
const RUNS: &str = "\
- - dicomdir index out a.dcm b.dcm --uid 2.25.0 > \
0 [SKIP b.dcm: 32 NotImage 1.2.840.10008.5.1.4.1.1.88.11|DONE 1 instances, 876 bytes|] [] changed
- - dicomdir index out a.dcm --uid 2.25.0 > 0 [DONE 1 instances, 876 bytes|] [] changed
- - dicomdir index out a.dcm --uid 2.25.0 --id DISC1 > 0 [DONE 1 instances, 882 bytes|] [] changed
- - dicomdir index out a.dcm --uid 2.25.0 --id= > 0 [DONE 1 instances, 876 bytes|] [] changed
- - dicomdir index out a.dcm > 0 [DONE 1 instances, 914 bytes|] [] changed
- - dicomdir index out a.dcm --uid 2.25.0 --max-bytes 875 > 1 [] [FAULT -: 43 TooLarge|] kept
- - dicomdir index out a.dcm b.dcm --uid 2.25.0 --max-bytes 875 > 1 [] [FAULT -: 43 TooLarge|] kept
- - dicomdir index out a.dcm --uid 2.25.0 --max-bytes 876 > 0 [DONE 1 instances, 876 bytes|] [] changed
- - dicomdir index out a.dcm --max-bytes 875 > 1 [] [FAULT -: 43 TooLarge|] kept
- - dicomdir index out a.dcm --max-bytes 913 > 1 [] [FAULT -: 43 TooLarge|] kept
- - dicomdir index out a.dcm --max-bytes 914 > 0 [DONE 1 instances, 914 bytes|] [] changed
- - dicomdir index out b.dcm --uid 2.25.0 > \
0 [SKIP b.dcm: 32 NotImage 1.2.840.10008.5.1.4.1.1.88.11|DONE 0 instances, 320 bytes|] [] changed
- - dicomdir index out note.txt --uid 2.25.0 > \
0 [SKIP note.txt: 31 File 21 NotPart10|DONE 0 instances, 320 bytes|] [] changed
- - dicomdir index out part.dcm a.dcm note.txt part.dcm --uid 2.25.0 > \
0 [SKIP part.dcm: 31 File 27 Set 1 Truncated|SKIP note.txt: 31 File 21 NotPart10|\
SKIP part.dcm: 31 File 27 Set 1 Truncated|DONE 1 instances, 876 bytes|] [] changed
- - dicomdir index out a.dcm c.dcm a.dcm e.dcm --uid 2.25.0 > \
0 [NOTE a.dcm: left out for c.dcm: same SOP Instance UID 1.2.3.4.5, other bytes|\
NOTE a.dcm: left out for c.dcm: same SOP Instance UID 1.2.3.4.5, other bytes|\
NOTE e.dcm: left out for c.dcm: same SOP Instance UID 1.2.3.4.5, other bytes|DONE 1 instances, 876 bytes|] [] changed
- - dicomdir index out a.dcm d.dcm a.dcm --uid 2.25.0 > 0 [DONE 2 instances, 1130 bytes|] [] changed
- - dicomdir index out note.txt e.dcm a.dcm --uid 2.25.0 --dry-run > \
0 [SKIP note.txt: 31 File 21 NotPart10|\
NOTE e.dcm: left out for a.dcm: same SOP Instance UID 1.2.3.4.5, other bytes|\
PLAN 1 instances, 876 bytes, 454 bytes of images|] [] kept
- - dicomdir index out d.dcm c.dcm --uid 2.25.0 > \
0 [NOTE -: Patient ID P1 has 2 names: DOE^JUDY, DOE^JOHN|DONE 2 instances, 1130 bytes|] [] changed
- - dicomdir index out a.dcm d.dcm c.dcm --uid 2.25.0 > \
0 [NOTE a.dcm: left out for c.dcm: same SOP Instance UID 1.2.3.4.5, other bytes|\
NOTE -: Patient ID P1 has 2 names: DOE^JUDY, DOE^JOHN|DONE 2 instances, 1130 bytes|] [] changed
- - dicomdir index out a.dcm d.dcm --uid 2.25.0 > 0 [DONE 2 instances, 1130 bytes|] [] changed
- - dicomdir index out f.dcm --uid 2.25.0 > 0 [DONE 1 instances, 878 bytes|] [] changed
- - dicomdir index out f.dcm --uid 2.25.0 --max-bytes 877 > 1 [] [FAULT -: 43 TooLarge|] kept
0 - dicomdir index out a.dcm --uid 2.25.0 > 1 [] [] changed
9 - dicomdir index out a.dcm --uid 2.25.0 > 1 [DONE 1 in] [] changed
9 - dicomdir index out a.dcm b.dcm --uid 2.25.0 > 1 [SKIP b.dc] [] kept
- 0 dicomdir index out a.dcm --uid 2.25.0 > 0 [DONE 1 instances, 876 bytes|] [] changed
- - dicomdir index out a.dcm --uid 2.25.x > 2 [] [FAULT -: 71 BadUid|] kept
- - dicomdir index out a.dcm --uid '' > 2 [] [FAULT -: 71 BadUid|] kept
- - dicomdir index full none.dcm --uid 1.02 > 2 [] [FAULT -: 71 BadUid|] kept
- - dicomdir index full none.dcm --id bad > 2 [] [FAULT -: 72 BadSetId|] kept
- - dicomdir index full none.dcm --uid 1.02 --id bad > 2 [] [FAULT -: 72 BadSetId|] kept
- - dicomdir index out none.dcm --uid 2.25.0 > 1 [] [FAULT none.dcm: 92 Absent|] kept
- - dicomdir index out b.dcm a.dcm no.dcm none.dcm > 1 [] [FAULT no.dcm: 92 Absent|] kept
- - dicomdir index out b.dcm no.dcm a.dcm none.dcm --keep-going --uid 2.25.0 > \
3 [SKIP b.dcm: 32 NotImage 1.2.840.10008.5.1.4.1.1.88.11|SKIP no.dcm: 92 Absent|SKIP none.dcm: 92 Absent|\
DONE 1 instances, 876 bytes|] [] changed
- - dicomdir index -k out a.dcm b.dcm --uid 2.25.0 > \
0 [SKIP b.dcm: 32 NotImage 1.2.840.10008.5.1.4.1.1.88.11|DONE 1 instances, 876 bytes|] [] changed
- - dicomdir index -k out none.dcm --uid 2.25.0 > 3 [SKIP none.dcm: 92 Absent|DONE 0 instances, 320 bytes|] [] changed
- - dicomdir index -k out none.dcm a.dcm --uid 2.25.0 --dry-run > \
3 [SKIP none.dcm: 92 Absent|PLAN 1 instances, 876 bytes, 454 bytes of images|] [] kept
- - dicomdir index -k --strict out a.dcm none.dcm > 1 [SKIP none.dcm: 92 Absent|] [FAULT -: 98 Strict|] kept
- - dicomdir index -k out none.dcm d.dcm n.dcm > \
1 [NOTE n.dcm: has 1.2.3.4.5|NOTE d.dcm: has 1.2.3.4.6|] [FAULT -: 41 Conflict 1.2.3.4.5 1.2.3.4.6|] kept
- - dicomdir index -k out none.dcm '' > 1 [] [FAULT : 92 Absent|] kept
- - dicomdir index -k out --files0-from gap > 1 [] [FAULT gap: 99 BadName 2|] kept
- - dicomdir index -k out none.dcm --files0-from latin --uid 2.25.0 > \
3 [SKIP none.dcm: 92 Absent|SKIP d?.dcm: 99 BadName 3|DONE 1 instances, 876 bytes|] [] changed
- - dicomdir index -k taken none.dcm a.dcm > \
1 [SKIP none.dcm: 92 Absent|] [FAULT taken/PT000001/ST000001/SE000001/IM000001: 94 Create|] kept
9 - dicomdir index -k out none.dcm a.dcm > 1 [SKIP none] [] kept
- - dicomdir index full a.dcm --uid 2.25.0 > 1 [] [FAULT full/DICOMDIR: 94 Create|] kept
- - dicomdir index full/ b.dcm none.dcm > 1 [] [FAULT full/DICOMDIR: 94 Create|] kept
- - dicomdir index taken a.dcm --uid 2.25.0 > \
1 [] [FAULT taken/PT000001/ST000001/SE000001/IM000001: 94 Create|] kept
- - dicomdir index taken note.txt a.dcm > \
1 [SKIP note.txt: 31 File 21 NotPart10|] [FAULT taken/PT000001/ST000001/SE000001/IM000001: 94 Create|] kept
- - dicomdir index '' a.dcm --uid 2.25.0 > 1 [] [FAULT : 95 Folder|] kept
- - dicomdir index '' '' none.dcm > 1 [] [FAULT : 95 Folder|] kept
- - dicomdir index full none.dcm '' '' > 1 [] [FAULT : 92 Absent|] kept
- - dicomdir index '' '' --uid 2.25.x > 2 [] [FAULT -: 71 BadUid|] kept
- - dicomdir index --strict out a.dcm b.dcm --uid 2.25.0 > \
1 [SKIP b.dcm: 32 NotImage 1.2.840.10008.5.1.4.1.1.88.11|] [FAULT -: 98 Strict|] kept
- - dicomdir index out part.dcm a.dcm note.txt part.dcm --strict > \
1 [SKIP part.dcm: 31 File 27 Set 1 Truncated|SKIP note.txt: 31 File 21 NotPart10|\
SKIP part.dcm: 31 File 27 Set 1 Truncated|] [FAULT -: 98 Strict|] kept
- - dicomdir index --strict out note.txt > 1 [SKIP note.txt: 31 File 21 NotPart10|] [FAULT -: 98 Strict|] kept
- - dicomdir index --strict taken note.txt a.dcm > \
1 [SKIP note.txt: 31 File 21 NotPart10|] [FAULT -: 98 Strict|] kept
- - dicomdir index --strict out a.dcm --uid 2.25.0 > 0 [DONE 1 instances, 876 bytes|] [] changed
- - dicomdir index out e.dcm a.dcm --uid 2.25.0 --strict > \
1 [NOTE e.dcm: left out for a.dcm: same SOP Instance UID 1.2.3.4.5, other bytes|] [FAULT -: 98 Strict|] kept
- - dicomdir index --strict out n.dcm o.dcm > \
1 [NOTE -: Patient ID NOID or none has 2 names: DOE^JOHN, -|] [FAULT -: 98 Strict|] kept
- - dicomdir index --strict out a.dcm c.dcm d.dcm p.dcm > \
1 [NOTE a.dcm: left out for c.dcm: same SOP Instance UID 1.2.3.4.5, other bytes|\
NOTE -: Patient ID P1 has 3 names: DOE^J?RG, DOE^JUDY, DOE^JOHN|] [FAULT -: 98 Strict|] kept
- - dicomdir index --strict out c.dcm d.dcm --uid 2.25.0 --dry-run > \
1 [NOTE -: Patient ID P1 has 2 names: DOE^JUDY, DOE^JOHN|] [FAULT -: 98 Strict|] kept
- - dicomdir index out a.dcm d.dcm a.dcm --uid 2.25.0 --strict > 0 [DONE 2 instances, 1130 bytes|] [] changed
- - dicomdir index --strict taken a.dcm --uid 2.25.0 > \
1 [] [FAULT taken/PT000001/ST000001/SE000001/IM000001: 94 Create|] kept
- - dicomdir index --strict out b.dcm d.dcm n.dcm n.dcm > \
1 [NOTE n.dcm: has 1.2.3.4.5|NOTE d.dcm: has 1.2.3.4.6|] [FAULT -: 41 Conflict 1.2.3.4.5 1.2.3.4.6|] kept
9 - dicomdir index out d.dcm n.dcm > 1 [NOTE n.dc] [FAULT -: 41 Conflict 1.2.3.4.5 1.2.3.4.6|] kept
12 - dicomdir index out e.dcm a.dcm --uid 2.25.0 > 1 [NOTE e.dcm: ] [] kept
12 - dicomdir index out d.dcm c.dcm --uid 2.25.0 > 1 [NOTE -: Pati] [] kept
- - dicomdir index --strict out a.dcm b.dcm --max-bytes 875 > 1 [] [FAULT -: 43 TooLarge|] kept
- - dicomdir index --strict out b.dcm a.dcm no.dcm > 1 [] [FAULT no.dcm: 92 Absent|] kept
- - dicomdir index --strict full b.dcm > 1 [] [FAULT full/DICOMDIR: 94 Create|] kept
- - dicomdir index --strict out b.dcm --uid 2.25.x > 2 [] [FAULT -: 71 BadUid|] kept
9 - dicomdir index --strict out a.dcm b.dcm --uid 2.25.0 > 1 [SKIP b.dc] [] kept
- 0 dicomdir index --strict out note.txt > 1 [SKIP note.txt: 31 File 21 NotPart10|] [] kept
- - dicomdir index out a.dcm --uid 2.25.0 --dry-run > 0 [PLAN 1 instances, 876 bytes, 454 bytes of images|] [] kept
- - dicomdir index --dry-run out d.dcm b.dcm a.dcm d.dcm --uid 2.25.0 > \
0 [SKIP b.dcm: 32 NotImage 1.2.840.10008.5.1.4.1.1.88.11|PLAN 2 instances, 1130 bytes, 908 bytes of images|] [] kept
- - dicomdir index --dry-run out b.dcm --uid 2.25.0 > \
0 [SKIP b.dcm: 32 NotImage 1.2.840.10008.5.1.4.1.1.88.11|PLAN 0 instances, 320 bytes, 0 bytes of images|] [] kept
- - dicomdir index --dry-run --quiet out f.dcm --uid 2.25.0 > \
0 [PLAN 1 instances, 878 bytes, 496 bytes of images|] [] kept
- - dicomdir index --dry-run taken a.dcm --uid 2.25.0 > \
0 [PLAN 1 instances, 876 bytes, 454 bytes of images|] [] kept
- - dicomdir index --dry-run full a.dcm > 1 [] [FAULT full/DICOMDIR: 94 Create|] kept
- - dicomdir index --dry-run out a.dcm --uid 2.25.0 --max-bytes 875 > 1 [] [FAULT -: 43 TooLarge|] kept
- - dicomdir index --dry-run --strict out a.dcm note.txt > \
1 [SKIP note.txt: 31 File 21 NotPart10|] [FAULT -: 98 Strict|] kept
0 - dicomdir index --dry-run out a.dcm --uid 2.25.0 > 1 [] [] kept
- - dicomdir index --quiet out a.dcm --uid 2.25.0 > 0 [DONE 1 instances, 876 bytes|] [] changed
- - dicomdir index out --files0-from two --uid 2.25.0 > 0 [DONE 2 instances, 1130 bytes|] [] changed
- - dicomdir index out b.dcm --files0-from open --uid 2.25.0 > \
0 [SKIP b.dcm: 32 NotImage 1.2.840.10008.5.1.4.1.1.88.11|DONE 2 instances, 1130 bytes|] [] changed
- - dicomdir index out --files0-from gap > 1 [] [FAULT gap: 99 BadName 2|] kept
- - dicomdir index out none.dcm --files0-from latin > 1 [] [FAULT latin: 99 BadName 2|] kept
- - dicomdir index out a.dcm --files0-from void > 1 [] [FAULT void: 99 BadName 1|] kept
- - dicomdir index out no.dcm --files0-from gone > 1 [] [FAULT no.dcm: 92 Absent|] kept
- - dicomdir index out --files0-from gone > 1 [] [FAULT none.dcm: 92 Absent|] kept
- - dicomdir index out no.dcm --files0-from nowhere > 1 [] [FAULT nowhere: 92 Absent|] kept
- - dicomdir index out a.dcm --files0-from '' > 1 [] [FAULT : 92 Absent|] kept
- - dicomdir index full --files0-from nowhere > 1 [] [FAULT full/DICOMDIR: 94 Create|] kept
- - dicomdir index out '' --files0-from nowhere > 1 [] [FAULT : 92 Absent|] kept
- - dicomdir index out --files0-from gap --uid 2.25.x > 2 [] [FAULT -: 71 BadUid|] kept
- - dicomdir --version > 0 [dicomdir 1.1.0, form 1|] [] kept
0 - dicomdir --help > 1 [] [] kept
- 0 dicomdir burn out a.dcm --uid 2.25.0 > 2 [] [] kept
- 6 dicomdir index out none.dcm --uid 2.25.0 > 1 [] [FAULT ] kept
- 0 dicomdir index out none.dcm --uid 2.25.x > 2 [] [] kept";

/// Cases of `ran`, of a source that changes at its second opening to what another file has.
const CHANGED: &str = "\
later a.dcm=c.dcm: - - dicomdir index out a.dcm --uid 2.25.0 > 1 [] [FAULT a.dcm: 97 Changed|] changed
later a.dcm=note.txt: - - dicomdir index out a.dcm --uid 2.25.0 > 1 [] [FAULT a.dcm: 97 Changed|] changed
later a.dcm=a.dcm: - - dicomdir index out a.dcm --uid 2.25.0 > 0 [DONE 1 instances, 876 bytes|] [] changed";

/// Runs a line whose first two words say after how many bytes the output and the error output fail. Gives the status
/// and what both hold.
pub(crate) fn end_of(alloc: Global, line: &str, files: &mut MemFiles) -> Result<String, Fail> {
    let (output, line) = line.split_once(' ').ok_or("no output")?;
    let (errors, line) = line.split_once(' ').ok_or("no error output")?;
    let mut out = Sink::new(alloc, failing(output)?);
    let mut err = Sink::new(alloc, failing(errors)?);
    let status = run(alloc, words_of(alloc, line)?, files, &mut out, &mut err);
    in_words(alloc, status, &out, &err)
}

fn in_words(alloc: Global, status: u8, out: &Sink, err: &Sink) -> Result<String, Fail> {
    let mut text = format!(in alloc; "{status} [")?;
    push_lines(&mut text, out.bytes())?;
    text.push_str("] [")?;
    push_lines(&mut text, err.bytes())?;
    text.push(']')?;
    Ok(text)
}

/// Gives the end of a run, and says whether all files are as they were.
fn end(alloc: Global, question: &str) -> Result<String, Fail> {
    let mut files = disc(alloc)?;
    let end = end_of(alloc, question, &mut files)?;
    let are_kept = are_equal(alloc, &files, &disc(alloc)?)?;
    let kept = if are_kept { "kept" } else { "changed" };
    Ok(format!(in alloc; "{end} {kept}")?)
}

#[test]
fn runs_say_how_they_ended(rt: HostRuntime) -> Result<(), Fail> {
    ask_all(rt.alloc(), RUNS, end)?;
    ask_all(rt.alloc(), CHANGED, ran)
}

/// Steps, a line, and a step that leaves the same files: the directory and its images, and no more. Neither order nor
/// repeats of the sources change them, and of the versions of one instance the greatest is copied.
const SAME: &str = "\
d1=set: index out a.dcm b.dcm --uid 2.25.0 > out=set
d1=set: index out/ b.dcm a.dcm a.dcm --uid 2.25.0 > out=set
d1=set: index . e.dcm a.dcm --uid 2.25.0 > .=set
d1=set: index out b.dcm --uid 2.25.0 > out/DICOMDIR=empty
d1=set: index out a.dcm d.dcm > index out d.dcm a.dcm
d1=set: index out a.dcm d.dcm > index out d.dcm a.dcm d.dcm a.dcm a.dcm
d1=set: index out a.dcm d.dcm > index out b.dcm d.dcm note.txt a.dcm
d1=set: index out a.dcm c.dcm > index out c.dcm a.dcm
d1=set: index out a.dcm c.dcm > index out c.dcm
d1=set: index out a.dcm c.dcm e.dcm d.dcm > index out d.dcm e.dcm c.dcm
d1=set: index out f.dcm a.dcm > index out a.dcm
d1=set: index out a.dcm f.dcm > index out a.dcm
d1=set: index out e.dcm a.dcm > index out a.dcm
d1=set: index out a.dcm e.dcm > index out a.dcm
d1=set: index out e.dcm c.dcm a.dcm > index out c.dcm";

#[test]
fn runs_leave_the_same_files(rt: HostRuntime) -> Result<(), Fail> {
    claim_all(rt.alloc(), SAME, '\n', leave_the_same)
}
