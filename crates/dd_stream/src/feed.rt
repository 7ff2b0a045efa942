ghost use Rattle.std.specs.Prelude.{◌≡◌, ◌≤◌, ◌<◌, ◌+◌, ◌++◌, ℕ, List, [], length, take};
ghost use Rattle.dd_stream.specs.Feeds.{IsOver};

/// Gives bytes one after the other, without holding them all in memory. A feed at its end stays there.
///
/// A feed never refuses. Where the device that it reads fails, it is at its end, and its maker knows why.
pub trait Feed {
    // These bytes were taken between two states of the feed.
    ghost moves: { Self → Self → List ℕ → Type 0 };

    // These may be all bytes still to come.
    ghost tells: { Self → List ℕ → Type 0 };

    // The most bytes still to come.
    ghost most: { Self → ℕ };

    /// Takes bytes to the front of `room`, and gives how many. 0 means the end, unless `room` is empty.
    fn give(&mut self, room: &mut [u8]) -> usize
        ensures bound { result ≤ length room.new }
        ensures moved { moves self.old self.new (take result room.new) }
        ensures over { result ≡ 0 → 0 < length room.new → IsOver tells self.new }
        ensures fewer { result + most self.new ≤ most self.old };

    /// Skips at most n bytes, and gives how many. 0 means the end, unless n is 0.
    fn pass(&mut self, n: u64) -> u64
        ensures bound { result ≤ n }
        ensures moved { (taken : List ℕ) × (length taken ≡ result) × moves self.old self.new taken }
        ensures over { result ≡ 0 → 0 < n → IsOver tells self.new }
        ensures fewer { result + most self.new ≤ most self.old };

    ghost stays: { (feed : Self) → moves feed feed [] };

    ghost goes: { (first second third : Self) (xs ys : List ℕ) → moves first second xs
        → moves second third ys
        → moves first third (xs ++ ys) };

    ghost tells_before: { (first second : Self) (xs ys : List ℕ) → moves first second xs → tells second ys
        → tells first (xs ++ ys) };
}
