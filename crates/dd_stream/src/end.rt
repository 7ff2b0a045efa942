ghost use Rattle.std.specs.Prelude.{◌≡◌, [], List, ℕ, Some};
ghost use Rattle.dd_stream.specs.Streams.{Moves, position_of};

use crate::feed::Feed;
use crate::stream::Stream;
use dd_elem::Read;

/// Says how a stream came to its end.
#[derive(Clone, Copy, Debug, PartialEq, Eq)]
pub enum End {
    /// The reader has no more bytes.
    Ended,
    /// The reader failed.
    Failed,
    /// The reader gave one byte more than the limit.
    TooLong,
}

/// Reads a stream to its end, and says how it came there.
pub fn finish<R: Read>(stream: &mut Stream<'_, R>) -> End
    ensures same { stream.new.reader.ghost_name ≡ stream.old.reader.ghost_name }
    ensures moved { (taken : List ℕ) × Moves R.Read
        stream.old.reader.now stream.new.reader.now (position_of stream.old) (position_of stream.new) taken }
    ensures empty { stream.new.kept ≡ [] }
    ensures ended { stream.new.end ≡ Some result }
{
    'pieces: loop {
        let passed = stream.pass(u64::MAX);
        let Some(end) = stream.end else {
            continue;
        };
        if passed == 0 {
            return end;
        }
    }
}
