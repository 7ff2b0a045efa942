ghost use Rattle.std.specs.Prelude.{◌≡◌, ◌<◌, ◌^◌, [], None};
ghost use Rattle.dd_part10.specs.Streaming.{IsFileAnswer};
ghost use Rattle.dd_stream.specs.Reads.{ReadsUpTo};

use crate::feed_file::take_file;
use crate::scanned::Scanned;
use crate::stream_fault::StreamFault;
use dd_elem::{Read, Tag};
use dd_stream::{End, Stream, finish};
use std::alloc::Global;

/// Reads a DICOM file from a reader (PS3.10 section 7). Keeps its meta information, and of the data set the wanted
/// elements alone, each once: of their bytes the first 1,024 without padding.
///
/// 14 Read if the reader fails, and 15 TooLong if it gives more than `limit` bytes. Otherwise it refuses as
/// `parse_file` does, but the data set needs memory only where a wanted element is there. It reads on to the end before
/// it answers, in at most `limit` + 1 reads.
pub fn read_file<R: Read>(
    alloc: Global,
    reader: &mut R,
    wanted: &[Tag],
    limit: u64,
) -> Result<Scanned, StreamFault>
    ensures { ReadsUpTo R.Read limit reader.old reader.new (IsFileAnswer result wanted.now limit) }
{
    let mut stream = Stream::new(reader, limit);
    read_stream(alloc, &mut stream, wanted)
}

fn read_stream<R: Read>(
    alloc: Global,
    stream: &mut Stream<'_, R>,
    wanted: &[Tag],
) -> Result<Scanned, StreamFault>
    requires empty { stream.old.kept ≡ [] }
    requires open { stream.old.end ≡ None }
    requires room { stream.old.left < 2 ^ 64 }
    ensures same { stream.new.reader.ghost_name ≡ stream.old.reader.ghost_name }
    ensures read { ReadsUpTo R.Read stream.old.left stream.old.reader.now stream.new.reader.now
        (IsFileAnswer result wanted.now stream.old.left) }
{
    let answer = take_file(alloc, stream, wanted);
    match finish(stream) {
        End::Failed => Err(StreamFault::Read),
        End::TooLong => Err(StreamFault::TooLong),
        End::Ended => match answer {
            Ok(scanned) => Ok(scanned),
            Err(fault) => Err(StreamFault::File(fault)),
        },
    }
}
