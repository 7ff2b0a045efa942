ghost use Rattle.std.specs.Prelude.{◌≡◌, ◌+◌, IfErr, IfOk, IsOk};
ghost use Rattle.dd_engine.specs.Indexed.{AnswersSupply, IsNamed, IsWithin, ReadsAll};
ghost use Rattle.dd_sources.specs.Supplies.{AllGiven, AllThere, IndexingEndsBy};
ghost use Rattle.dd_sources.specs.Supply.{AllStay, EachGrows};

use crate::choice::Choice;
use crate::noted_index::index_with_notes;
use dd_keys::KeyFault;
use dd_layout::{Limits, Plan};
use dd_sources::{EngineFault, Supply};
use std::alloc::Global;

/// The result of an index of sources.
#[derive(Debug)]
pub struct Indexed {
    /// The plan of the best versions of all sources.
    pub plan: Plan,
    /// The sources without a version, by their numbers, each with its fault.
    pub skipped: Vec<(usize, KeyFault)>,
    /// For each image of the plan, in the order of its records, the first source that has its file.
    pub picks: Vec<usize>,
}

// By hand, so that dropping it is one call.
impl Drop for Indexed {
    fn drop(self) {
        let Indexed {
            plan: _plan,
            skipped: _skipped,
            picks: _picks,
        } = self;
    }
}

/// Reads all sources, each to its end or to `file_limit` bytes and one more. Plans the directory of the best of their
/// versions under the label that is asked for. A source without a version is skipped.
///
/// Absent and Unread name the first source that could not be opened or whose reader failed. Each reader is ended.
pub fn index_engine<S: Supply>(
    alloc: Global,
    supply: &mut S,
    choice: &Choice,
    limits: Limits,
    file_limit: u64,
) -> Result<Indexed, EngineFault>
    ensures answers { AnswersSupply choice.now limits file_limit (S.contents supply.old)
        (S.sources supply.old) result }
    ensures there { ReadsAll result → AllThere S.Supply supply.old }
    ensures given { ReadsAll result → AllGiven S.Supply file_limit supply.old supply.new }
    ensures within { IfOk result (IsWithin (S.sources supply.old)) }
    ensures named { IfErr result (IsNamed (S.sources supply.old)) }
    ensures fault { IfErr result (λ fault. IndexingEndsBy S.Supply fault supply.old supply.new) }
    ensures worked { IsOk result → AllStay (S.refusals supply.old) (S.refusals supply.new)
        × AllStay (S.unread supply.old) (S.unread supply.new) }
    ensures ended { AllStay (S.lent supply.old) (S.lent supply.new) }
    ensures reads { EachGrows (file_limit + 1) (S.reads supply.old) (S.reads supply.new) }
    ensures kept { (S.sources supply.new ≡ S.sources supply.old)
        × (S.contents supply.new ≡ S.contents supply.old)
        × (S.rest supply.new ≡ S.rest supply.old) }
{
    match index_with_notes(alloc, supply, choice, limits, file_limit) {
        Ok(noted) => Ok(noted.into_indexed()),
        Err(noted) => Err(noted.fault),
    }
}
