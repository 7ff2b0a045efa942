//! Files of file-sets in the spellings of systems, their hard links, symbolic links, and what was opened.

use crate::calls::told;
use dd_vectors::{claim_all, cut};
use std::alloc::Global;
use std::test::Fail;

// In each line calls, and then their outcomes. A file or a folder below another one is named by that folder and its
// path.
const CASES: &str = "\
file d/DICOMDIR, find d: d/DICOMDIR > . old
file d/A, exact d: d/A > . old
file d/a, file d/A;1, exact d: d/A > . . -
link d/A, exact d: d/A > . -
silent d/A, exact d: d/A > . 
pipe d/A, exact d: d/A > . -
dir d/A, exact d: d/A > . !
file d/A, limit 0, exact d: d/A > . . -
link d, file d/A, exact d: d/A > . . old
dir d/0, file d/0/A, exact d: d/0/A, exact d/: d/0/A > . . old old
link d/0, file d/0/A, exact d: d/0/A, exact d/0: d/0/A > . . - old
dir d/P, link d/P/Q, file d/P/Q/A, exact d: d/P/Q/A > . . . -
dir d/p, file d/p/A, find d: d/P/A, exact d: d/P/A, find d: d/P/A > . . old - old
dir d/P, file d/P/a, find d: d/P/A, exact d: d/P/A > . . old -
exact d: d/P/A, dir d/P, file d/P/A, exact d: d/P/A > - . . old
file d/dicomdir, find d: d/DICOMDIR > . old
file d/DICOMDIR.;1, find d: d/DICOMDIR > . old
file d/DICOMDIR;1, find d: d/DICOMDIR > . old
file d/DICOMDIR., find d: d/DICOMDIR > . old
file d/dicomdir.;1, find d: d/DICOMDIR > . old
file d/dicomdir;1, find d: d/DICOMDIR > . old
file d/dicomdir., find d: d/DICOMDIR > . old
file d/Dicomdir, find d: d/DICOMDIR > . -
file d/dicomdir, also d/DICOMDIR, find d: d/DICOMDIR > . . two
file d/dicomdir.;1, also d/DICOMDIR., find d: d/DICOMDIR > . . two
file d/pt1/im1, dir d/pt1, find d: d/PT1/IM1 > . . old
file d/PT1/im1, dir d/PT1, find d: d/PT1/IM1 > . . old
file d/pt1/IM1, dir d/PT1, dir d/pt1, find d: d/PT1/IM1 > . . . -
file d//DICOMDIR, find d//: d//DICOMDIR > . old
file d/dicomdir, find d/: d/DICOMDIR > . old
file dicomdir, find DICOMDIR > . old
link d, file d/DICOMDIR, find d: d/DICOMDIR > . . old
link d/DICOMDIR, find d: d/DICOMDIR > . -
link d/DICOMDIR, file d/dicomdir, find d: d/DICOMDIR > . . old
link d/PT1, file d/PT1/IM1, find d: d/PT1/IM1 > . . -
link d/PT1, file d/PT1/IM1, dir d/pt1, also d/pt1/IM1, find d: d/PT1/IM1 > . . . . two
link d/B, dir d/b, file d/b/C, also d/B/C, find d: d/B/C, find d/B: d/B/C, find d: d/B/C > . . . . old two old
find d: d/P/A, dir d/P, file d/P/A, find d: d/P/A > - . . old
where d: d/A, file d/A, where d: d/A, where d/: d/A > - . d/A d/A
dir d/pt1, file d/pt1/im1;1, where d: d/PT1/IM1 > . . d/pt1/im1;1
dir d/PT1, file d/PT1/im1., also d/PT1/IM1.;1, where d: d/PT1/IM1 > . . . d/PT1/IM1.;1
link d/A, where d: d/A, file d/a, where d: d/A > . - . d/a
dir d/A, pipe d/B, where d: d/A, where d: d/B > . . - -
dir d/P, file d/P/A, fail open, where d: d/P/A, find d: d/P/A, find d: d/P/A > . . . d/P/A - old
dir d/p, file d/p/a, file d/p/b, where d: d/P/A, find d: d/P/B, where d: d/P/C > . . . d/p/a old -
file d/dicomdir, find D: D/DICOMDIR > . -
file Discs/dicomdir, file discs/dicomdir, find Discs: Discs/DICOMDIR > . . old
file a.dcm, read A.DCM > . -
silent a, read a, silent d/A, find d: d/A, read b > .  .  -
file a, fail stay, read a > . . -
file d/A, fail stay, find d: d/A > . . -
file a, fail seen, read a, pause seen, read a > . . - . old
file d/A, fail look, find d: d/A, pause look, find d: d/A > . . - . old
dir d, find d: d/A, file d/A, find d: d/A > . - . old
make d: d/P/S, make d: d/P/S, make d: d/P/T > + + +
link d, make d: d/P > . +
dir d, link d/P, make d: d/P > . . -
dir d, link d/P, make d: d/P/S > . . -
dir d, link d/P, folder d/P/S, make d: d/P/S > . . + -
dir d, link d/P, pause folder, make d: d/P > . . . -
dir d, pause made, make d: d/P > . . +";

// In each line calls, and then their outcomes.
const SECONDS: &str = "\
dir o, file d/A, second d: d/A at o/A, read o/A, read d/A > . . + old old
dir o, file d/pt1/a, dir d/pt1, second d: d/PT1/A at o/A, read o/A > . . . + old
dir o, file d/A.;1, second d: d/A at o/A, second d: d/B at o/B, read o/A > . . + -absent old
dir o, file d/A, also o/A, second d: d/A at o/A, read o/A > . . . -taken two
dir o, dir d/A, second d: d/A at o/A, second d: d/B at o/A > . . -absent -absent
dir o, link d/A, second d: d/A at o/A > . . -absent
dir o, link d/P, file d/P/A, second d: d/P/A at o/A > . . . -absent
dir o, link d, file d/A, second d: d/A at o/A > . . . +
file d/A, second d: d/A at o/A, dir o, second d: d/A at o/A > . -refused . +
dir o, file d/A, fail link, second d: d/A at o/A, second d: d/A at o/A > . . . -refused +
dir o, file d/A, part link, second d: d/A at o/A, read o/A > . . . -refused -
dir o, file d/A, bar link, second d: d/A at o/A, cause > . . . -refused Permission denied
dir o, file d/A, bar open, second d: d/A at o/A, cause > . . . -absent Permission denied
dir o, file d/A, pause link, second d: d/A at o/A > . . . +
dir o, file d/A, pause made, second d: d/A at o/A, second d: d/A at o/A > . . . + -taken
dir o, file d/A, dir o/A, pause link, second d: d/A at o/A > . . . . -absent
dir o, file d/A, fail stay, second d: d/A at o/A > . . . -absent
dir o, file d/A, fail seen, second d: d/A at o/A, read o/A > . . . -absent old
dir o, file d/A, fail store, second d: d/A at o/A, batch, store, unstored > . . . + + - o/A
dir o, file d/A, limit 1, second d: d/A at o/A, second d: d/A at o/B, second d: d/A at o/C > . . . + + +
dir o, file d/A, create a, write x, second d: d/A at o/A, finish, read a > . . + + + + x";

// The same, of files that were stored before.
const STORED: &str = "\
dir o, file d/A, stored 3: d: d/A at o/A, read o/A, read d/A > . . + old old
dir o, file d/a.;1, stored 3: d: d/A at o/A, stored 3: d: d/a.;1 at o/A, read o/A > . . -absent + old
dir o, file d/A, stored 2: d: d/A at o/A, stored 4: d: d/A at o/A, free o/A > . . -changed -changed yes
dir o, silent d/A, stored 3: d: d/A at o/A, stored 0: d: d/A at o/A > . . -changed +
dir o, file d/A, also o/A, stored 3: d: d/A at o/A, stored 2: d: d/A at o/A, read o/A > . . . -taken -changed two
dir o, dir d/A, stored 3: d: d/A at o/A, stored 0: d: d/A at o/A, stored 3: d: d/B at o/A > . . -absent -absent -absent
dir o, link d/A, stored 0: d: d/A at o/A > . . -absent
dir o, pipe d/A, stored 0: d: d/A at o/A > . . -absent
dir o, link d/P, file d/P/A, stored 3: d: d/P/A at o/A, stored 3: d/P: d/P/A at o/A > . . . -absent +
dir o, dir d/p, file d/p/A, stored 3: d: d/P/A at o/A > . . . -absent
file d/A, stored 3: d: d/A at o/A, dir o, stored 3: d: d/A at o/A > . -refused . +
dir o, file d/A, part link, stored 3: d: d/A at o/A, free o/A > . . . -refused yes
dir o, file d/A, bar link, stored 3: d: d/A at o/A, cause > . . . -refused Permission denied
dir o, file d/A, pause link, stored 3: d: d/A at o/A > . . . +
dir o, file d/A, pause made, stored 3: d: d/A at o/A, stored 3: d: d/A at o/A > . . . + -taken
dir o, file d/A, dir o/A, pause link, stored 3: d: d/A at o/A > . . . . -absent
dir o, file d/A, limit 0, fail open, fail store, stored 3: d: d/A at o/A, batch > . . . . . + +
dir o, file d/A, create a, write x, stored 3: d: d/A at o/A, finish, read a > . . + + + + x";

// In each line calls, and then their outcomes.
const FREE: &str = "\
free a, create a, free a > yes + no
dir d, free d, free d/, free e, free d/a > . no yes yes yes
link a, free a, pipe b, free b > . no . no
silent a, free a > . no
fail look, free a, cause, free a > . no Input/output error yes
bar look, free a, cause > . no Permission denied
block look, free a/b, turn look, free a/b, stretch look, free a > . yes . yes . yes
lack look, free a, spoil look, free a > . no . no
pause look, free a, pause look, file a, free a, cause > . yes . . no ";

// In each line calls, and then the paths that they looked at.
const LOOKS: &str = "\
find d: d/PT1/IM1 > d/PT1, d/pt1, d/PT1.;1, d/PT1;1, d/PT1., d/pt1.;1, d/pt1;1, d/pt1.
dir d/P, file d/P/A, file d/P/B, find d: d/P/A, find d: d/P/B > d/P, d/P/A, d/P/B
dir d/p, file d/p/a, file d/p/b, find d: d/P/A, find d: d/P/B > d/P, d/p, d/p/A, d/p/a, d/p/B, d/p/b
dir d/p, file d/p/a, where d: d/P/A, where d: d/P/B > d/P, d/p, d/p/A, d/p/a, \
d/p/B, d/p/b, d/p/B.;1, d/p/B;1, d/p/B., d/p/b.;1, d/p/b;1, d/p/b.
dir o, dir d/P, file d/P/A, stored 3: d: d/P/A at o/A, stored 3: d: d/P/A at o/B > \
d/P, d/P/A, o/A, d/P/A, o/B
dir d/P, file d/P/A, exact d: d/P/A, exact d: d/P/B, exact d: d/Q/A > d/P, d/P/A, d/P/B, d/Q
dir d/P, file d/P/A, find d: d/P/A, find d: d/P/A, find d: d/Q/A > \
d/P, d/P/A, d/P/A, d/Q, d/q, d/Q.;1, d/Q;1, d/Q., d/q.;1, d/q;1, d/q.";

fn is_found(alloc: Global, case: &str) -> Result<bool, Fail> {
    let (calls, wanted) = cut(case, " > ")?;
    let (said, _disc) = told(alloc, calls)?;
    Ok(said.as_str() == wanted)
}

fn is_looked_for(alloc: Global, case: &str) -> Result<bool, Fail> {
    let (calls, wanted) = cut(case, " > ")?;
    let (_said, disc) = told(alloc, calls)?;
    Ok(disc.looks() == wanted)
}

#[test]
fn finds_what_systems_show_and_follows_no_link(rt: HostRuntime) -> Result<(), Fail> {
    claim_all(rt.alloc(), CASES, '\n', is_found)
}

#[test]
fn gives_second_names_and_follows_no_link(rt: HostRuntime) -> Result<(), Fail> {
    claim_all(rt.alloc(), SECONDS, '\n', is_found)?;
    claim_all(rt.alloc(), STORED, '\n', is_found)
}

#[test]
fn says_what_is_free_and_looks_no_more_than_it_must(rt: HostRuntime) -> Result<(), Fail> {
    claim_all(rt.alloc(), FREE, '\n', is_found)?;
    claim_all(rt.alloc(), LOOKS, '\n', is_looked_for)
}
