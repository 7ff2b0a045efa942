//! An index that goes on past sources that can't be opened or read to their end.
ghost use Rattle.std.specs.Prelude.{◌≡◌, ◌+◌, IfErr, IfOk};
ghost use Rattle.dd_engine.specs.Indexed.{IsWithin};
ghost use Rattle.dd_engine.specs.IndexNotes.{FindsBoth};
ghost use Rattle.dd_engine.specs.Noting.{AreBelow, IsBelow};
ghost use Rattle.dd_engine.specs.PastFailures.{NotesPast, RefusesPast};
ghost use Rattle.dd_sources.specs.Supply.{AllStay, EachGrows};

use crate::choice::Choice;
use crate::noted_index::{NotedIndex, noted_plan};
use crate::notes::NotedFault;
use dd_layout::Limits;
use dd_sources::{EngineFault, Supply, read_past_failures};
use std::alloc::Global;

/// The result of an index that goes on past sources that fail.
#[derive(Debug, Drop)]
pub struct PastFailures {
    /// The index of the others. A source that could not be opened, or not read to its end, is skipped in it with
    /// `KeyFault::Read`.
    pub noted: NotedIndex,
    /// The numbers of the sources that could not be opened, in their order.
    pub absent: Vec<usize>,
}

/// Does what `index_with_notes` does, but skips a source that can't be opened or whose reader fails.
pub fn index_past_failures<S: Supply>(
    alloc: Global,
    supply: &mut S,
    choice: &Choice,
    limits: Limits,
    file_limit: u64,
) -> Result<PastFailures, NotedFault<EngineFault, usize>>
    ensures answers { IfOk result (λ past.
        NotesPast S.Supply choice.now limits file_limit past supply.old supply.new) }
    ensures refused { IfErr result (λ noted. RefusesPast S.Supply choice.now limits file_limit
        noted.fault noted.conflict supply.old supply.new) }
    ensures within { IfOk result (λ past. IsWithin (S.sources supply.old) past.noted.indexed) }
    ensures below { IfOk result (λ past.
        AreBelow (λ at. at) (S.sources supply.old) past.noted.notes.left_out.items) }
    ensures conflict { IfErr result (λ noted. IsBelow (λ at. at) (S.sources supply.old) noted.conflict) }
    ensures found { IfErr result (λ noted. FindsBoth noted.fault noted.conflict) }
    ensures ended { AllStay (S.lent supply.old) (S.lent supply.new) }
    ensures reads { EachGrows (file_limit + 1) (S.reads supply.old) (S.reads supply.new) }
    ensures kept { (S.sources supply.new ≡ S.sources supply.old)
        × (S.contents supply.new ≡ S.contents supply.old)
        × (S.rest supply.new ≡ S.rest supply.old) }
{
    let (sources, absent) = read_past_failures(alloc, supply, file_limit)?.into_parts();
    match noted_plan(alloc, sources, choice, limits) {
        Ok(noted) => Ok(PastFailures { noted, absent }),
        Err(noted) => Err(noted),
    }
}
