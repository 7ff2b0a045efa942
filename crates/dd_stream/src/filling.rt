ghost use Rattle.std.specs.Prelude.{◌≡◌, ◌≤◌, ◌<◌, ◌+◌, ℕ, List, length, take};
ghost use Rattle.dd_stream.specs.Feeds.{IsOver};

use crate::feed::Feed;

/// Fills the room, and gives how many bytes came: fewer than fit only at the end of the feed.
pub fn fill<F: Feed>(feed: &mut F, room: &mut [u8]) -> usize
    ensures bound { result ≤ length room.new }
    ensures moved { F.moves feed.old feed.new (take result room.new) }
    ensures over { result < length room.new → IsOver F.tells feed.new }
    ensures fewer { result + F.most feed.new ≤ F.most feed.old }
{
    let mut at = 0;
    while at < room.len() {
        let n = feed.give(&mut room[at..]);
        if n == 0 {
            return at;
        }
        at += n;
    }
    at
}

/// Skips n bytes, and gives how many there were: fewer only at the end of the feed.
pub fn skip<F: Feed>(feed: &mut F, n: u64) -> u64
    ensures bound { result ≤ n }
    ensures moved { (taken : List ℕ) × (length taken ≡ result) × F.moves feed.old feed.new taken }
    ensures over { result < n → IsOver F.tells feed.new }
    ensures fewer { result + F.most feed.new ≤ F.most feed.old }
{
    let mut at = 0;
    while at < n {
        let passed = feed.pass(n - at);
        if passed == 0 {
            return at;
        }
        at += passed;
    }
    at
}
