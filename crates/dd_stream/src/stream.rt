ghost use Rattle.std.specs.Prelude.{◌≡◌, ◌≤◌, [], IsSome, None};
ghost use Rattle.std.proofs.Common.{refl, ◌∙◌};
ghost use Rattle.dd_stream.specs.Streams.{Moves, MayCome, most_of, position_of};
ghost use Rattle.dd_stream.specs.StreamLaws.{moves_none, moves_then, tells_then};

use crate::end::End;
use crate::feed::Feed;
use crate::kept::{Kept, PIECE};
use dd_elem::Read;

/// Gives the bytes of a reader, read up to 16 KiB at once, as a feed. It ends where the reader ends or fails, and with
/// the first byte past its limit; `finish` says which.
#[derive(Drop)]
pub struct Stream<'r, R: Read> {
    pub(crate) reader: &'r mut R,
    pub(crate) kept: Kept,
    pub(crate) left: u64,
    pub(crate) end: Option<End>,
}

impl<'r, R: Read> Stream<'r, R> {
    /// Makes a stream with this limit, and reads nothing yet.
    pub fn new(reader: &'r mut R, limit: u64) -> Stream<'r, R>
        ensures same { result.reader.ghost_name ≡ reader.entry.ghost_name }
        ensures reader { result.reader.now ≡ reader.old }
        ensures empty { result.kept ≡ [] }
        ensures left { result.left ≡ limit }
        ensures open { result.end ≡ None }
    {
        Stream {
            reader,
            kept: Kept::new(),
            left: limit,
            end: None,
        }
    }

    /// Reads once if no bytes are kept, unless the stream has ended.
    fn refill(&mut self)
        ensures same { self.new.reader.ghost_name ≡ self.old.reader.ghost_name }
        ensures moved { Moves R.Read self.old.reader.now self.new.reader.now
            (position_of self.old) (position_of self.new) [] }
        ensures ready { self.new.kept ≡ [] → IsSome self.new.end }
        ensures fewer { most_of (position_of self.new) ≤ most_of (position_of self.old) }
    {
        if self.kept.len() > 0 || self.end.is_some() {
            return;
        }
        let most = self.left.min(PIECE as u64 - 1) as usize + 1;
        match self.kept.refill(self.reader, most) {
            None => self.end = Some(End::Failed),
            Some(0) => self.end = Some(End::Ended),
            Some(n) => {
                if n as u64 > self.left {
                    self.end = Some(End::TooLong);
                } else {
                    self.left -= n as u64;
                }
            }
        }
    }
}

impl<R: Read> Feed for Stream<'_, R> {
    ghost moves = { λ old new taken. (new.reader.ghost_name ≡ old.reader.ghost_name)
        × Moves R.Read old.reader.now new.reader.now (position_of old) (position_of new) taken };

    ghost tells = { λ stream rest. MayCome (position_of stream) rest };

    ghost most = { λ stream. most_of (position_of stream) };

    fn give(&mut self, room: &mut [u8]) -> usize {
        self.refill();
        self.kept.give(room)
    }

    fn pass(&mut self, n: u64) -> u64 {
        self.refill();
        self.kept.pass(n)
    }

    ghost stays = { λ s. (refl, moves_none R.Read s.reader.now (position_of s)) };

    ghost goes = { λ a b c xs ys m n. (
      n.0 ∙ m.0,
      moves_then R.Read a.reader.now b.reader.now c.reader.now (position_of a) (position_of b) (position_of c) xs ys
          m.1 n.1,
    ) };

    ghost tells_before = { λ a b xs ys m t.
        tells_then R.Read a.reader.now b.reader.now (position_of a) (position_of b) xs ys m.1 t };
}
