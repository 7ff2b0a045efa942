ghost use Rattle.std.specs.Prelude.{◌≡◌, ◌≤◌, ◌<◌, ◌+◌, ◌^◌, ◌++◌, ℕ, List, length, IfSome, IsNone};
ghost use Rattle.dd_elem.specs.Clean.{clean_of};
ghost use Rattle.dd_encoding.specs.Elements.{bytes as value};
ghost use Rattle.dd_stream.specs.Feeds.{IsOver};
ghost use Rattle.dd_grammar.specs.Reading.{take_at};
ghost use Rattle.dd_scan.specs.Scan.{found_summary, summary_of};
ghost use Rattle.dd_scan.specs.Skips.{Advances, GivesSummary};

use crate::cursor::Cursor;
use crate::found::FoundValue;
use dd_elem::{Key, clean};
use dd_grammar::{SetFault, leaves_fewer, left_after};
use dd_stream::{Feed, fill};
use std::alloc::Global;

const KEPT: usize = Key::MAX_LEN;

/// Values up to this size, as most are, are read into a small buffer.
const SHORT: usize = 64;

/// The most bytes that are read together after the kept ones.
const PIECE: usize = 256;

/// Takes a value of n bytes, and keeps its front without its padding.
pub fn take_cleaned<F: Feed>(
    alloc: Global,
    at: &mut Cursor<'_, F>,
    n: u32,
) -> Result<FoundValue, SetFault>
    ensures same { at.new.feed.ghost_name ≡ at.old.feed.ghost_name }
    ensures found { Advances F.Feed at.old at.new
        (λ start end. GivesSummary found_summary (λ v. summary_of (value v)) result
        (take_at n start) end) }
    ensures fewer { F.most at.new.feed.now ≤ F.most at.old.feed.now }
{
    let length = n as usize;
    if length <= SHORT {
        let mut room = [0; SHORT];
        take_short(alloc, at, &mut room[..length])
    } else {
        take_long(alloc, at, n)
    }
}

fn take_short<F: Feed>(
    alloc: Global,
    at: &mut Cursor<'_, F>,
    room: &mut [u8],
) -> Result<FoundValue, SetFault>
    requires { length room.old ≤ SHORT }
    ensures same { at.new.feed.ghost_name ≡ at.old.feed.ghost_name }
    ensures found { Advances F.Feed at.old at.new
        (λ start end. GivesSummary found_summary (λ v. summary_of (value v)) result
        (take_at (length room.old) start) end) }
    ensures fewer { F.most at.new.feed.now ≤ F.most at.old.feed.now }
{
    at.take(room)?;
    let cleaned = clean(room);
    let length = cleaned.len() as u64;
    let front = cleaned.to_vec(alloc)?;
    Ok(FoundValue::Bytes { front, length })
}

fn take_long<F: Feed>(alloc: Global, at: &mut Cursor<'_, F>, n: u32) -> Result<FoundValue, SetFault>
    ensures same { at.new.feed.ghost_name ≡ at.old.feed.ghost_name }
    ensures found { Advances F.Feed at.old at.new
        (λ start end. GivesSummary found_summary (λ v. summary_of (value v)) result
        (take_at n start) end) }
    ensures fewer { F.most at.new.feed.now ≤ F.most at.old.feed.now }
{
    let n = u64::from(n);
    if leaves_fewer(at.left, n) {
        return Err(SetFault::Overrun);
    }
    let mut room = [0; KEPT];
    let first = n.min(KEPT as u64) as usize;
    let front = &mut room[..first];
    if fill(at.feed, front) < first {
        return Err(SetFault::Truncated);
    }
    let passed = first as u64;
    let cleaned = clean(front).len() as u64;
    let Some(length) = cleaned_length(at.feed, cleaned, passed, n) else {
        return Err(SetFault::Truncated);
    };
    at.left = left_after(at.left, n);
    let kept = length.min(KEPT as u64) as usize;
    let front = front[..kept].to_vec(alloc)?;
    Ok(FoundValue::Bytes { front, length })
}

/// Skips a value of n bytes after the first `passed`, and gives its length without padding; `cleaned` is the length
/// of that front without padding. None where the feed is over before.
fn cleaned_length<F: Feed>(feed: &mut F, mut cleaned: u64, mut passed: u64, n: u64) -> Option<u64>
    requires { passed ≤ n }
    ensures moved { (taken : List ℕ) × F.moves feed.old feed.new taken × (passed + length taken ≤ n)
        × (IsNone result → passed + length taken < n)
        × IfSome result (λ k. (passed + length taken ≡ n)
        × ((front : List ℕ) → length front ≡ passed → cleaned ≡ length (clean_of front)
        → k ≡ length (clean_of (front ++ taken)))) }
    ensures over { IsNone result → IsOver F.tells feed.new }
    ensures fewer { F.most feed.new ≤ F.most feed.old }
{
    let mut piece = [0; PIECE];
    while passed < n {
        let wanted = (n - passed).min(PIECE as u64) as usize;
        let room = &mut piece[..wanted];
        let came = feed.give(room);
        if came == 0 {
            return None;
        }
        cleaned = cleaned_with(cleaned, passed, &room[..came]);
        passed += came as u64;
    }
    Some(cleaned)
}

/// Gives the length without padding after appending this piece; `cleaned` is that length before.
fn cleaned_with(cleaned: u64, passed: u64, piece: &[u8]) -> u64
    requires { passed + length piece.now < 2 ^ 64 }
    ensures { (front : List ℕ) → length front ≡ passed → cleaned ≡ length (clean_of front)
        → result ≡ length (clean_of (front ++ piece.now)) }
{
    let kept = clean(piece).len();
    if kept == 0 {
        return cleaned;
    }
    passed + kept as u64
}
