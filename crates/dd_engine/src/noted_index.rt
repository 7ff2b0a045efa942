ghost use Rattle.std.specs.Prelude.{◌≡◌, ◌+◌, List, IfErr, IfOk, IsOk, length};
ghost use Rattle.dd_engine.specs.Indexed.{IsNamed, IsWithin, ReadsAll};
ghost use Rattle.dd_keys.specs.Sources.{Answer};
ghost use Rattle.dd_engine.specs.IndexNotes.{FindsBoth, NotesIndex, NotesSupply, unnoted};
ghost use Rattle.dd_engine.specs.Noting.{AreBelow, IsBelow};
ghost use Rattle.dd_sources.specs.Supplies.{AllGiven, AllThere, IndexingEndsBy};
ghost use Rattle.dd_sources.specs.Supply.{AllStay, EachGrows, Holds};

use crate::basis::Basis;
use crate::choice::Choice;
use crate::engine::Indexed;
use crate::notes::{NotedFault, Notes};
use crate::planning::{Planned, plan_of};
use dd_catalogue::Withdrawals;
use dd_keys::KeyFault;
use dd_layout::Limits;
use dd_sources::{EngineFault, Sources, Supply, read_sources};
use std::alloc::Global;

/// The result of an index of sources, with notes on these.
#[derive(Debug, Drop)]
pub struct NotedIndex {
    /// What `index_engine` gives.
    pub indexed: Indexed,
    /// The notes, with each source by its number.
    pub notes: Notes<usize>,
}

impl NotedIndex {
    pub(crate) fn into_indexed(self) -> Indexed
        ensures { result ≡ self.indexed }
    {
        let NotedIndex {
            indexed,
            notes: _notes,
        } = self;
        indexed
    }
}

/// Does what `index_engine` does, and makes `Notes` on the sources. Where two kept versions conflict, the refusal names
/// the first source of each.
pub fn index_with_notes<S: Supply>(
    alloc: Global,
    supply: &mut S,
    choice: &Choice,
    limits: Limits,
    file_limit: u64,
) -> Result<NotedIndex, NotedFault<EngineFault, usize>>
    ensures answers { NotesSupply choice.now limits file_limit (S.contents supply.old)
        (S.sources supply.old) result }
    ensures there { ReadsAll (unnoted result) → AllThere S.Supply supply.old }
    ensures given { ReadsAll (unnoted result) → AllGiven S.Supply file_limit supply.old supply.new }
    ensures within { IfOk result (λ noted. IsWithin (S.sources supply.old) noted.indexed) }
    ensures below { IfOk result (λ noted.
        AreBelow (λ at. at) (S.sources supply.old) noted.notes.left_out.items) }
    ensures named { IfErr result (λ noted. IsNamed (S.sources supply.old) noted.fault) }
    ensures conflict { IfErr result (λ noted. IsBelow (λ at. at) (S.sources supply.old) noted.conflict) }
    ensures found { IfErr result (λ noted. FindsBoth noted.fault noted.conflict) }
    ensures fault { IfErr result (λ noted.
        IndexingEndsBy S.Supply noted.fault supply.old supply.new) }
    ensures worked { IsOk result → AllStay (S.refusals supply.old) (S.refusals supply.new)
        × AllStay (S.unread supply.old) (S.unread supply.new) }
    ensures ended { AllStay (S.lent supply.old) (S.lent supply.new) }
    ensures reads { EachGrows (file_limit + 1) (S.reads supply.old) (S.reads supply.new) }
    ensures kept { (S.sources supply.new ≡ S.sources supply.old)
        × (S.contents supply.new ≡ S.contents supply.old)
        × (S.rest supply.new ≡ S.rest supply.old) }
{
    let sources = read_sources(alloc, supply, file_limit)?;
    noted_plan(alloc, sources, choice, limits)
}

/// Plans the directory of what was read of sources, with notes on these.
pub(crate) fn noted_plan(
    alloc: Global,
    sources: Sources,
    choice: &Choice,
    limits: Limits,
) -> Result<NotedIndex, NotedFault<EngineFault, usize>>
    requires { length sources.origins.items ≡ length sources.versions.items }
    ensures { (answers : List Answer) → Holds answers sources
        → NotesIndex choice.now limits answers result }
{
    let (versions, origins, skipped) = sources.into_parts();
    let basis = Basis {
        versions,
        origins,
        withdrawn: Withdrawals::new(alloc),
    };
    match plan_of(alloc, basis, choice, limits) {
        Ok(planned) => Ok(noted_index(planned, skipped)),
        Err(noted) => Err(NotedFault {
            fault: EngineFault::from(noted.fault),
            conflict: noted.conflict,
        }),
    }
}

fn noted_index(planned: Planned<usize>, skipped: Vec<(usize, KeyFault)>) -> NotedIndex
    ensures { result ≡ record {
      indexed = record { plan = planned.plan; skipped = skipped; picks = planned.picks };
      notes = planned.notes;
    } }
{
    let Planned { plan, picks, notes } = planned;
    NotedIndex {
        indexed: Indexed {
            plan,
            skipped,
            picks,
        },
        notes,
    }
}
