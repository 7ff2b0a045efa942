//! Runs over paths with control characters, which lines show as `?`.

use crate::runs::disc::disc;
use crate::runs::runs::end_of;
use dd_vectors::ask_all;
use std::alloc::Global;
use std::test::Fail;

/// A path with a line feed, an escape, a delete, a next line and a letter that is not ASCII.
const PATH: &str = "a\nDONE\u{1b}[2J\u{7f}\u{85}\u{e9}";

/// The path as lines show it, with each byte of its letter as a character of its own.
const SHOWN: &str = "a?DONE?[2J??\u{c3}\u{a9}";

/// Lines, the status, and what both outputs hold; `*` stands for the path, and for the path as it shows. A text has
/// that path, and a folder whose path begins with it has an empty directory.
const LINES: &str = "\
index out * --uid 2.25.0 > 0 [SKIP *: 31 File 21 NotPart10|DONE 0 instances, 320 bytes|] []
index out * a.dcm * --uid 2.25.0 > \
0 [SKIP *: 31 File 21 NotPart10|SKIP *: 31 File 21 NotPart10|DONE 1 instances, 876 bytes|] []
index out a.dcm *none > 1 [] [FAULT *none: 92 Absent|]
index *set a.dcm > 1 [] [FAULT *set/DICOMDIR: 94 Create|]
merge out *set > 1 [] [FAULT *set: 51 File 21 NotPart10|]
merge out *none > 1 [] [FAULT *none/DICOMDIR: 92 Absent|]
check *none > 1 [] [FAULT *none/DICOMDIR: 92 Absent|]
list *set > 1 [] [FAULT *set: 51 File 21 NotPart10|]";

fn shown(alloc: Global, question: &str) -> Result<String, Fail> {
    let mut files = disc(alloc)?;
    files.put(PATH, b"no image")?;
    let directory = format!(in alloc; "{PATH}set/DICOMDIR")?;
    files.put(directory.as_str(), b"")?;
    let line = format!(in alloc; "- - dicomdir {question}")?;
    let line = line.as_str().replace(alloc, '*', PATH)?;
    let end = end_of(alloc, line.as_str(), &mut files)?;
    Ok(end.as_str().replace(alloc, SHOWN, "*")?)
}

#[test]
fn lines_show_no_control_character(rt: HostRuntime) -> Result<(), Fail> {
    ask_all(rt.alloc(), LINES, shown)
}
