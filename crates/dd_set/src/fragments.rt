//! Fragments of pixel data, read from their bytes.

ghost use Rattle.std.specs.Prelude.{◌≡◌, ◌≢◌, ◌<◌, ◌≤◌, ℕ, List, length, Ok, Err, IfOk, OnSome, option_map};
ghost use Rattle.dd_grammar.specs.declared.fault.SetFault.TheVariants.{Memory};
ghost use Rattle.dd_grammar.specs.AnswersAs.{AnswersAs};
ghost use Rattle.dd_grammar.specs.Faults.{is_memory};
ghost use Rattle.dd_set.specs.Places.{at_view, stepped};
ghost use Rattle.dd_grammar.specs.Reading.{At, fragment_at, fragments_here};
ghost use Rattle.dd_set.specs.Counts.{Counts};
ghost use Rattle.dd_set.specs.Views.{pieces};

use crate::cursor::Cursor;
use dd_encoding::Length;
use dd_grammar::{SetFault, fragment_length};
use std::alloc::Global;

/// Reads the fragments of a list, to its end. Walks the list twice, so that it takes memory once, and only for a list
/// that is whole.
pub fn fragments<'a>(alloc: Global, at: Cursor<'a>) -> Result<(Vec<&'a [u8]>, Cursor<'a>), SetFault>
    ensures exact { AnswersAs is_memory (λ x. (pieces x.0.items, at_view x.1)) result
        (fragments_here (at_view at.entry)) }
    ensures shorter { IfOk result (λ x. length x.1.rest.now ≤ length at.entry.rest.now) }
    ensures memory { result ≡ Err Memory
        → (fs : List (List ℕ)) × (end : At) × (fragments_here (at_view at.entry) ≡ Ok (fs, end)) }
{
    let count = count_fragments(at)?;
    let mut fragments = Vec::with_capacity(alloc, count)?;
    let mut place = at;
    'fragments: loop {
        let (found, after) = fragment(place)?;
        place = after;
        match found {
            None => return Ok((fragments, place)),
            Some(next) => fragments.push(next)?,
        }
    }
}

fn count_fragments(at: Cursor<'_>) -> Result<usize, SetFault>
    ensures exact { Counts result (fragments_here (at_view at.entry)) }
    ensures memory { result ≢ Err Memory }
{
    let mut count = 0usize;
    let mut place = at;
    'fragments: loop {
        let (found, after) = fragment(place)?;
        place = after;
        match found {
            None => return Ok(count),
            Some(_next) => count += 1,
        }
    }
}

#[tactic(auto, unfolding(dd_grammar::specs::Reading::fragment_at))]
fn fragment<'a>(at: Cursor<'a>) -> Result<(Option<&'a [u8]>, Cursor<'a>), SetFault>
    ensures exact { fragment_at (at_view at.entry) ≡ stepped (option_map (λ f. f.now)) result }
    ensures shorter { IfOk result
        (λ x. OnSome x.0 (length x.1.rest.now < length at.entry.rest.now)) }
    ensures not_longer { IfOk result (λ x. length x.1.rest.now ≤ length at.entry.rest.now) }
    ensures memory { result ≢ Err Memory }
{
    let (length, at) = at.item_front(Length::Undefined)?;
    let Some(n) = length else {
        return Ok((None, at));
    };
    let n = fragment_length(n)?;
    let (bytes, at) = at.take(u64::from(n))?;
    Ok((Some(bytes), at))
}
