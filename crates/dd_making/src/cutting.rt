//! Bytes cut into pieces.

ghost use Rattle.std.specs.Prelude.{◌≡◌, IfErr, IfOk, IsOk, map};
ghost use Rattle.dd_making.specs.Cuts.{AreEnds, cuts};
ghost use Rattle.dd_making.specs.Merges.{AreNotCut};
ghost use Rattle.dd_making.specs.Refusals.{IsFault};

use dd_calls::{ARGUMENTS, Answer, MEMORY};
use std::alloc::Global;

/// Cuts the bytes at these ends: the first piece begins where the bytes do, and each other one where the one before it
/// ends. 2 where an end is before the one before it, or passes the bytes; 91 where an allocation is refused.
pub(crate) fn pieces<'a>(
    alloc: Global,
    bytes: &'a [u8],
    ends: &[u64],
) -> Result<Vec<&'a [u8]>, Answer>
    ensures pieces { IfOk result (λ pieces.
        map (λ piece. piece.now) pieces.items ≡ cuts 0 bytes.now ends.now) }
    ensures ends { IsOk result → AreEnds 0 bytes.now ends.now }
    ensures refused { IfErr result (AreNotCut bytes.now ends.now) }
    ensures fault { IfErr result (λ answer. IsFault answer.fault) }
{
    let mut pieces = Vec::new(alloc);
    let mut start = 0;
    for end in ends {
        let end = *end as usize;
        if end < start || end > bytes.len() {
            return Err(Answer::of_number(ARGUMENTS));
        }
        let Ok(()) = pieces.push(&bytes[start..end]) else {
            return Err(Answer::of_number(MEMORY));
        };
        start = end;
    }
    Ok(pieces)
}
