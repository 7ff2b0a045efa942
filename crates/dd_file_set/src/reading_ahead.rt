//! Files that are read ahead of the copies that are made of them.
ghost use Rattle.std.specs.Prelude.{◌≡◌, ◌<◌, All, length};
ghost use Rattle.dd_files.specs.Reasons.{HasCounted, HasFailedReader};
ghost use Rattle.dd_filing.specs.Ahead.{AreDue};
ghost use Rattle.dd_file_set.specs.ReadingAhead.{KnowsNext, ReadsNext};

use crate::images::open;
use crate::origins::Origins;
use dd_faults::ProgramFault;
use dd_files::Files;
use dd_filing::{AHEAD_LIMIT, FilesAhead};
use std::alloc::Global;

/// Reads the next files ahead of their copies and digests them, once those before are past. Reads none where images get
/// hard links. What can't be opened or read is refused in its turn, after the images before it.
pub(crate) fn read_ahead<F: Files, O: Origins>(
    alloc: Global,
    origins: &O,
    picks: &[O::Pick],
    ahead: &mut FilesAhead,
    files: &mut F,
)
    requires has { All (λ pick. O.number pick < O.count origins.now) picks.now }
    requires known { KnowsNext (O.stands_at origins.now) picks.now ahead.old (F.held files.old) }
    requires due { AreDue (HasCounted (F.refusals files.old)) (HasFailedReader F.In.Read) ahead.old }
    ensures known { KnowsNext (O.stands_at origins.now) picks.now ahead.new (F.held files.new) }
    ensures kept { F.held files.new ≡ F.held files.old }
    ensures due { AreDue (HasCounted (F.refusals files.new)) (HasFailedReader F.In.Read) ahead.new }
    ensures counts { HasCounted (F.refusals files.old) → HasCounted (F.refusals files.new) }
{
    if origins.gives_links() || !ahead.is_past() {
        return;
    }
    let lanes = files.lanes();
    ahead.release(lanes);
    for pick in picks {
        if ahead.is_enough(lanes) {
            break;
        }
        read_next(alloc, origins, *pick, ahead, files);
    }
    ahead.digest(lanes);
}

fn read_next<F: Files, O: Origins>(
    alloc: Global,
    origins: &O,
    pick: O::Pick,
    ahead: &mut FilesAhead,
    files: &mut F,
)
    requires has { O.number pick < O.count origins.now }
    requires room { length ahead.old.files < 8 }
    requires due { AreDue (HasCounted (F.refusals files.old)) (HasFailedReader F.In.Read) ahead.old }
    ensures read { ReadsNext (O.stands_at origins.now pick) (F.held files.new) ahead.old ahead.new }
    ensures kept { F.held files.new ≡ F.held files.old }
    ensures due { AreDue (HasCounted (F.refusals files.new)) (HasFailedReader F.In.Read) ahead.new }
    ensures counts { HasCounted (F.refusals files.old) → HasCounted (F.refusals files.new) }
{
    match open(alloc, origins, pick, files) {
        Ok(reader) if files.said_size(&reader) > AHEAD_LIMIT => ahead.skip(),
        Ok(mut reader) => ahead.read(alloc, &mut reader),
        Err(refusal) if refusal.fault == ProgramFault::Absent => ahead.refuse(),
        Err(_) => ahead.skip(),
    }
}
