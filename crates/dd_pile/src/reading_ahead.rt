//! Sources that are read before their turn, so that several are digested at once.

ghost use Rattle.std.specs.Prelude.{◌≡◌, ◌<◌, length};
ghost use Rattle.dd_files.specs.Reasons.{HasCounted, HasFailedReader};
ghost use Rattle.dd_filing.specs.Ahead.{AreDue};
ghost use Rattle.dd_pile.specs.ReadingAhead.{KnowsNext, ReadsNext};

use crate::source::StageSource;
use dd_files::Files;
use dd_filing::{AHEAD_LIMIT, FilesAhead};
use std::alloc::Global;

/// Reads the first of these sources and digests them, once those before are past. One that is said to be too long is
/// left to its turn. What can't be opened or read is refused in its turn, after the copies before it.
pub(crate) fn read_ahead<F: Files>(
    alloc: Global,
    sources: &[StageSource<'_>],
    ahead: &mut FilesAhead,
    files: &mut F,
)
    requires known { KnowsNext sources.now ahead.old (F.held files.old) }
    requires due { AreDue (HasCounted (F.refusals files.old)) (HasFailedReader F.In.Read) ahead.old }
    ensures known { KnowsNext sources.now ahead.new (F.held files.new) }
    ensures kept { F.held files.new ≡ F.held files.old }
    ensures due { AreDue (HasCounted (F.refusals files.new)) (HasFailedReader F.In.Read) ahead.new }
    ensures counts { HasCounted (F.refusals files.old) → HasCounted (F.refusals files.new) }
{
    if !ahead.is_past() {
        return;
    }
    let lanes = files.lanes();
    ahead.release(lanes);
    for source in sources {
        if ahead.is_enough(lanes) {
            break;
        }
        read_next(alloc, source, ahead, files);
    }
    ahead.digest(lanes);
}

fn read_next<F: Files>(
    alloc: Global,
    source: &StageSource<'_>,
    ahead: &mut FilesAhead,
    files: &mut F,
)
    requires room { length ahead.old.files < 8 }
    requires due { AreDue (HasCounted (F.refusals files.old)) (HasFailedReader F.In.Read) ahead.old }
    ensures read { ReadsNext source.now.path.now (F.held files.new) ahead.old ahead.new }
    ensures kept { F.held files.new ≡ F.held files.old }
    ensures due { AreDue (HasCounted (F.refusals files.new)) (HasFailedReader F.In.Read) ahead.new }
    ensures counts { HasCounted (F.refusals files.old) → HasCounted (F.refusals files.new) }
{
    if source.is_bad_name {
        ahead.skip();
        return;
    }
    match files.source(source.path) {
        Ok(reader) if files.said_size(&reader) > AHEAD_LIMIT => ahead.skip(),
        Ok(mut reader) => ahead.read(alloc, &mut reader),
        Err(_) => ahead.refuse(),
    }
}
