ghost use Rattle.std.specs.Prelude.{◌≡◌, ◌<◌, ◌^◌, [], None};
ghost use Rattle.dd_scan.specs.Scanning.{IsScanAnswer};
ghost use Rattle.dd_stream.specs.Reads.{ReadsUpTo};

use crate::found::Scan;
use crate::scan_fault::ScanFault;
use crate::top_set::take_set;
use dd_elem::{Read, Tag};
use dd_encoding::Syntax;
use dd_stream::{End, Stream, finish};
use std::alloc::Global;

/// Scans a data set from a reader (PS3.5 section 7). Keeps its first tag, and the wanted elements of the set itself,
/// each once: of their bytes the first 1,024 without padding.
///
/// 14 Read if the reader fails, and 15 TooLong if it gives more than `limit` bytes. Otherwise it refuses as `parse`
/// does, but memory is needed only after a wanted element that was read whole. It reads on to the end before it
/// answers, in at most `limit` + 1 reads.
pub fn scan<R: Read>(
    alloc: Global,
    syntax: Syntax,
    reader: &mut R,
    wanted: &[Tag],
    limit: u64,
) -> Result<Scan, ScanFault>
    ensures { ReadsUpTo R.Read limit reader.old reader.new
        (IsScanAnswer result syntax wanted.now limit) }
{
    let mut stream = Stream::new(reader, limit);
    scan_stream(alloc, syntax, &mut stream, wanted)
}

fn scan_stream<R: Read>(
    alloc: Global,
    syntax: Syntax,
    stream: &mut Stream<'_, R>,
    wanted: &[Tag],
) -> Result<Scan, ScanFault>
    requires empty { stream.old.kept ≡ [] }
    requires open { stream.old.end ≡ None }
    requires room { stream.old.left < 2 ^ 64 }
    ensures same { stream.new.reader.ghost_name ≡ stream.old.reader.ghost_name }
    ensures read { ReadsUpTo R.Read stream.old.left stream.old.reader.now stream.new.reader.now
        (IsScanAnswer result syntax wanted.now stream.old.left) }
{
    let answer = take_set(alloc, stream, syntax, wanted);
    match finish(stream) {
        End::Failed => Err(ScanFault::Read),
        End::TooLong => Err(ScanFault::TooLong),
        End::Ended => match answer {
            Ok(scan) => Ok(scan),
            Err(fault) => Err(ScanFault::Set(fault)),
        },
    }
}
