//! Runs of `stage` and of `publish`.

use crate::runs::scripts::{leave_the_same, ran};
use dd_vectors::{ask_all, claim_all};
use std::test::Fail;

/// Cases of `ran`. A pile that is there is refused before the list of names, and that before a source.
const STAGES: &str = "\
full=set: - - dicomdir stage p a.dcm b.dcm c.dcm d.dcm > \
0 [DONE 4 sources, 1 skipped, 1362 bytes of images|] [] changed
full=set: - - dicomdir stage p note.txt part.dcm > 0 [DONE 2 sources, 2 skipped, 0 bytes of images|] [] changed
full=set: - - dicomdir stage p a.dcm a.dcm --quiet > 0 [DONE 2 sources, 0 skipped, 908 bytes of images|] [] changed
full=set: - - dicomdir stage p a.dcm b.dcm --json > \
0 [{\"line\":\"DONE\",\"sources\":2,\"skipped\":1,\"image_bytes\":454}|] [] changed
full=set: - - dicomdir stage p --files0-from two > 0 [DONE 2 sources, 0 skipped, 908 bytes of images|] [] changed
full=set: - - dicomdir stage p b.dcm --files0-from open > \
0 [DONE 3 sources, 1 skipped, 908 bytes of images|] [] changed
below/a.dcm=c.dcm below/d.dcm=d.dcm below/names=two: - - dicomdir stage p --from below --files0-from names > \
0 [DONE 2 sources, 0 skipped, 908 bytes of images|] [] changed
below/a.dcm=c.dcm: - - dicomdir stage p d.dcm --from below > 1 [] [FAULT d.dcm: 92 Absent|] kept
below/a.dcm=c.dcm: - - dicomdir stage p a.dcm --from below --files0-from two > 1 [] [FAULT two: 92 Absent|] kept
full=set: - - dicomdir stage p none.dcm > 1 [] [FAULT none.dcm: 92 Absent|] kept
full=set: - - dicomdir stage p a.dcm none.dcm > 1 [] [FAULT none.dcm: 92 Absent|] changed
unread a.dcm: - - dicomdir stage p a.dcm > 1 [] [FAULT a.dcm: 93 Unread|] changed
full=set: - - dicomdir stage full none.dcm > 1 [] [FAULT full: 94 Create|] kept
full=set: - - dicomdir stage a.dcm a.dcm > 1 [] [FAULT a.dcm: 94 Create|] kept
p/000/000001=a.dcm: - - dicomdir stage p a.dcm --files0-from gap > 1 [] [FAULT p: 94 Create|] kept
full=set: - - dicomdir stage p none.dcm --files0-from gap > 1 [] [FAULT gap: 99 BadName 2|] kept
full=set: - - dicomdir stage p none.dcm --files0-from latin > 1 [] [FAULT latin: 99 BadName 2|] kept
full=set: - - dicomdir stage p a.dcm --files0-from nowhere > 1 [] [FAULT nowhere: 92 Absent|] kept
full=set: - - dicomdir stage '' '' > 1 [] [FAULT : 95 Folder|] kept
full=set: - - dicomdir stage full a.dcm '' > 1 [] [FAULT : 92 Absent|] kept
full=set: 0 - dicomdir stage p a.dcm > 1 [] [] changed
full=set: - - dicomdir stage p none.dcm b.dcm a.dcm -k > 3 [DONE 3 sources, 2 skipped, 454 bytes of images|] [] changed
unread a.dcm: - - dicomdir stage p a.dcm d.dcm --keep-going > 3 [DONE 2 sources, 1 skipped, 454 bytes of images|] \
[] changed
full=set: - - dicomdir stage p none.dcm --files0-from latin -k > 3 [DONE 3 sources, 2 skipped, 454 bytes of images|] \
[] changed
full=set: - - dicomdir stage p a.dcm --keep-going > 0 [DONE 1 sources, 0 skipped, 454 bytes of images|] [] changed
full=set: - - dicomdir stage full a.dcm --verbose > 1 [] [FAULT full: 94 Create|  \
help: take a new folder: PILE is there, maybe from an earlier run|] kept";

/// Cases of `ran`. The lists of all piles are read before one image is copied.
const PUBLISHES: &str = "\
stage p a.dcm b.dcm c.dcm d.dcm: - - dicomdir publish o p --uid 2.25.0 > \
0 [SKIP b.dcm: 32 NotImage 1.2.840.10008.5.1.4.1.1.88.11|\
NOTE a.dcm: left out for c.dcm: same SOP Instance UID 1.2.3.4.5, other bytes|\
NOTE -: Patient ID P1 has 2 names: DOE^JUDY, DOE^JOHN|DONE 2 instances, 1130 bytes|] [] changed
stage p note.txt a.dcm; stage q part.dcm c.dcm: - - dicomdir publish o p q --uid 2.25.0 > \
0 [SKIP note.txt: 31 File 21 NotPart10|SKIP part.dcm: 31 File 27 Set 1 Truncated|\
NOTE a.dcm: left out for c.dcm: same SOP Instance UID 1.2.3.4.5, other bytes|DONE 1 instances, 876 bytes|] [] changed
u.dcm=a.dcm,402,'x; stage p note.txt u.dcm d.dcm: - - dicomdir publish o p --uid 2.25.0 > \
0 [SKIP note.txt: 31 File 21 NotPart10|SKIP u.dcm: 34 BadKeyUid (0020,000D)|DONE 1 instances, 876 bytes|] [] changed
stage p a.dcm: - - dicomdir publish o p p --uid 2.25.0 > 0 [DONE 1 instances, 876 bytes|] [] changed
stage d1 a.dcm; stage d2 d.dcm: - - dicomdir publish o --files0-from sets --uid 2.25.0 > \
0 [DONE 2 instances, 1130 bytes|] [] changed
stage p n.dcm; stage q d.dcm: - - dicomdir publish o p q > \
1 [NOTE n.dcm: has 1.2.3.4.5|NOTE d.dcm: has 1.2.3.4.6|] [FAULT -: 41 Conflict 1.2.3.4.5 1.2.3.4.6|] kept
stage p a.dcm b.dcm d.dcm: - - dicomdir publish o p --uid 2.25.0 --dry-run > \
0 [SKIP b.dcm: 32 NotImage 1.2.840.10008.5.1.4.1.1.88.11|PLAN 2 instances, 1130 bytes, 908 bytes of images|] [] kept
stage p a.dcm b.dcm: - - dicomdir publish o p --strict > \
1 [SKIP b.dcm: 32 NotImage 1.2.840.10008.5.1.4.1.1.88.11|] [FAULT -: 98 Strict|] kept
stage p a.dcm: - - dicomdir publish o p --uid 2.25.0 --max-bytes 875 > 1 [] [FAULT -: 43 TooLarge|] kept
stage p a.dcm: - - dicomdir publish o p nowhere > 1 [] [FAULT nowhere/STAGED: 92 Absent|] kept
stage p a.dcm; unread p/STAGED: - - dicomdir publish o p > 1 [] [FAULT p/STAGED: 93 Unread|] kept
stage p a.dcm; p/STAGED=note.txt: - - dicomdir publish o p > 1 [] [FAULT p: 66 BadStage 0|] kept
stage p a.dcm; stage q a.dcm; q/STAGED=q/STAGED,8,00: - - dicomdir publish o p q/ > \
1 [] [FAULT q/: 66 BadStage 0|] kept
stage p a.dcm; q/STAGED=p/STAGED,30,02: - - dicomdir publish o p q > 1 [] [FAULT q: 66 BadStage 0|] kept
stage p a.dcm; q/STAGED=p/STAGED,94,'x: - - dicomdir publish o p q > 1 [] [FAULT q: 66 BadStage 0|] kept
stage p a.dcm: - - dicomdir publish full nowhere > 1 [] [FAULT full/DICOMDIR: 94 Create|] kept
stage p a.dcm: - - dicomdir publish full p '' > 1 [] [FAULT : 92 Absent|] kept
stage p a.dcm: - - dicomdir publish '' p > 1 [] [FAULT : 95 Folder|] kept
stage p a.dcm: - - dicomdir publish o p --files0-from gap > 1 [] [FAULT gap: 99 BadName 2|] kept
stage p a.dcm: - - dicomdir publish full p --uid 2.25.x > 2 [] [FAULT -: 71 BadUid|] kept
stage p a.dcm: - - dicomdir publish taken p > 1 [] [FAULT taken/PT000001/ST000001/SE000001/IM000001: 94 Create|] kept
stage p a.dcm; p/000/000001=c.dcm: - - dicomdir publish o p > 1 [] [FAULT p/000/000001: 97 Changed|] changed
stage p b.dcm a.dcm; p/000/000002=note.txt: - - dicomdir publish o p/ > \
1 [SKIP b.dcm: 32 NotImage 1.2.840.10008.5.1.4.1.1.88.11|] [FAULT p/000/000002: 97 Changed|] changed
stage p a.dcm; unread p/000/000001: - - dicomdir publish o p > 1 [] [FAULT p/000/000001: 93 Unread|] changed
p/STAGED=note.txt: - - dicomdir publish o p --verbose > 1 [] [FAULT p: 66 BadStage 0|  \
help: its list is not whole, or was changed: remove the pile and stage it anew|] kept
stage p a.dcm; p/000/000001=c.dcm: - - dicomdir publish o p --verbose > 1 [] [FAULT p/000/000001: 97 Changed|  \
help: the pile was changed: remove it and stage its sources anew|] changed
full=set: - - dicomdir publish o p --verbose > 1 [] [FAULT p/STAGED: 92 Absent|  \
help: PILE is a folder that stage made; stage it anew where files are gone|] kept
stage p a.dcm: - - dicomdir publish --link o p --uid 2.25.0 > 0 [DONE 1 instances, 876 bytes|] [] changed
stage p a.dcm; p/000/000001=note.txt: - - dicomdir publish --link o p > \
1 [] [FAULT p/000/000001: 97 Changed|] kept
stage p a.dcm; p/000/000001=c.dcm: - - dicomdir publish --link o p --uid 2.25.0 > \
0 [DONE 1 instances, 876 bytes|] [] changed
stage p a.dcm; p/000/000001=c.dcm; no links: - - dicomdir publish --link o p > \
1 [] [FAULT p/000/000001: 97 Changed|] changed
stage p a.dcm: - - dicomdir publish taken p --link > \
1 [] [FAULT taken/PT000001/ST000001/SE000001/IM000001: 94 Create|] kept
stage p a.dcm: 9 - dicomdir publish o p > 1 [DONE 1 in] [] changed";

#[test]
fn stages_and_publishes_say_how_they_ended(rt: HostRuntime) -> Result<(), Fail> {
    ask_all(rt.alloc(), STAGES, ran)?;
    ask_all(rt.alloc(), PUBLISHES, ran)
}

/// Steps, a line, and a step that leaves the same files: piles of the sources of an index, in its order, with copies
/// and with links.
const SAME: &str = "\
stage p a.dcm b.dcm d.dcm: publish o p > index o a.dcm b.dcm d.dcm
stage p a.dcm b.dcm; stage q c.dcm d.dcm f.dcm: publish o p q > index o a.dcm b.dcm c.dcm d.dcm f.dcm
stage p c.dcm; stage q a.dcm; stage r e.dcm: publish o r q p > index o e.dcm a.dcm c.dcm
stage p p.dcm d.dcm; stage q f.dcm: publish o p q p --id DISC1 > index o p.dcm d.dcm f.dcm p.dcm d.dcm --id DISC1
stage p note.txt: publish o p --uid 2.25.0 > o/DICOMDIR=empty
u.dcm=a.dcm,402,'x; stage p note.txt u.dcm d.dcm: publish o p > index o note.txt u.dcm d.dcm
stage p a.dcm b.dcm d.dcm: publish --link o p > index o a.dcm b.dcm d.dcm
stage p a.dcm d.dcm; no links: publish --link o p > index o a.dcm d.dcm
stage p a.dcm d.dcm: publish --from below o p > index below/o a.dcm d.dcm
stage p a.dcm d.dcm: publish --from below /o p > index /o a.dcm d.dcm
below/a.dcm=c.dcm; stage p --from below a.dcm: publish o p > index o c.dcm
full=set: stage p b.dcm a.dcm none.dcm > p/000/000001=b.dcm p/000/000002=a.dcm";

#[test]
fn publishes_leave_what_index_leaves(rt: HostRuntime) -> Result<(), Fail> {
    claim_all(rt.alloc(), SAME, '\n', leave_the_same)
}
