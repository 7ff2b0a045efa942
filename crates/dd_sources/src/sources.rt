ghost use Rattle.std.specs.Prelude.{◌≡◌, ◌↔◌, ◌+◌, ◌<◌, ◌++◌, ◌∷◌, ℕ, List, [], length};
ghost use Rattle.std.specs.Prelude.{IsOk, IfOk, IfErr, OnOk, IsTrue};
ghost use Rattle.sha2.specs.Sha256.{sha256};
ghost use Rattle.dd_slots.specs.Slots.{IsSlotOf};
ghost use Rattle.dd_elem.specs.Device.{IsLive};
ghost use Rattle.dd_keys.specs.Kept.{digested_by};
ghost use Rattle.dd_keys.specs.Sources.{Answer, IsOfSource};
ghost use Rattle.dd_sources.specs.Batches.{HasRoom, HoldsOpen, IsOpenAnswer};
ghost use Rattle.dd_sources.specs.Readings.{FailsSource};
ghost use Rattle.dd_sources.specs.Supplies.{AllGiven, AllThere, ReadingEndsBy};
ghost use Rattle.dd_sources.specs.Supply.{AllStay, AreAnswers, EachGrows, HasGivenAll, Holds, IsUsed};
ghost use Rattle.dd_sources.specs.Supply.{OthersStay};

use crate::batch::Batch;
use crate::engine_fault::EngineFault;
use crate::supply::Supply;
use dd_elem::Memory;
use dd_keys::{KeyFault, ingest_kept};
use dd_slots::Slot;
use dd_version::Version;
use std::alloc::Global;

/// What was read of sources, in their order.
pub struct Sources {
    /// Of the sources that have one.
    pub versions: Vec<Version>,
    /// The number of the source of each version.
    pub origins: Vec<usize>,
    /// The sources without a version, each with its fault.
    pub skipped: Vec<(usize, KeyFault)>,
}

// By hand, so that dropping it is one call.
impl Drop for Sources {
    fn drop(self) {
        let Sources {
            versions: _versions,
            origins: _origins,
            skipped: _skipped,
        } = self;
    }
}

impl Sources {
    /// Takes the lists apart.
    pub fn into_parts(self) -> (Vec<Version>, Vec<usize>, Vec<(usize, KeyFault)>)
        ensures { result ≡ (self.versions, self.origins, self.skipped) }
    {
        let Sources {
            versions,
            origins,
            skipped,
        } = self;
        (versions, origins, skipped)
    }

    /// Makes one of no sources. Allocates nothing.
    pub fn new(alloc: Global) -> Sources
        ensures { Holds [] result }
    {
        Sources {
            versions: Vec::new(alloc),
            origins: Vec::new(alloc),
            skipped: Vec::new(alloc),
        }
    }

    /// Keeps the answer for the next source, which is `at`. The digest of a version is open, and its bytes are in the
    /// next slot of the batch.
    pub(crate) fn keep(
        &mut self,
        at: usize,
        answer: Result<Version, KeyFault>,
        batch: &mut Batch,
    ) -> Result<(), Memory>
        requires { HasRoom batch.old self.old.versions.items }
        ensures room { IsOk result → HasRoom batch.new self.new.versions.items }
        ensures kept { OnOk result
            ((answers : List Answer) (bytes : List ℕ) → length answers ≡ at
            → IsSlotOf batch.old.next bytes
            → HoldsOpen answers self.old batch.old
            → HoldsOpen (answers ++ digested_by (sha256 bytes) answer ∷ []) self.new batch.new) }
    {
        match answer {
            Ok(version) => {
                self.versions.push(version)?;
                self.origins.push(at)?;
                batch.add(&mut self.versions);
            }
            Err(fault) => self.skipped.push((at, fault))?,
        }
        Ok(())
    }
}

/// Reads the versions of all sources in their order, each to its end or to `limit` bytes and one more.
pub fn read_sources<S: Supply>(
    alloc: Global,
    supply: &mut S,
    limit: u64,
) -> Result<Sources, EngineFault>
    ensures read { IfOk result (λ read.
        (answers : List Answer) × (length answers ≡ S.sources supply.old)
        × AreAnswers limit (S.contents supply.old) answers × Holds answers read) }
    ensures refusals { IsOk result → AllStay (S.refusals supply.old) (S.refusals supply.new) }
    ensures unread { IsOk result → AllStay (S.unread supply.old) (S.unread supply.new) }
    ensures live { IsOk result → (at : ℕ) → at < S.sources supply.old
        → IsLive (S.refusals supply.old at) (S.unread supply.old at) }
    ensures there { IsOk result → AllThere S.Supply supply.old }
    ensures given { IsOk result → AllGiven S.Supply limit supply.old supply.new }
    ensures fault { IfErr result (λ fault. ReadingEndsBy S.Supply fault supply.old supply.new) }
    ensures ended { AllStay (S.lent supply.old) (S.lent supply.new) }
    ensures reads { EachGrows (limit + 1) (S.reads supply.old) (S.reads supply.new) }
    ensures kept { (S.sources supply.new ≡ S.sources supply.old)
        × (S.contents supply.new ≡ S.contents supply.old)
        × (S.rest supply.new ≡ S.rest supply.old) }
{
    let mut sources = Sources::new(alloc);
    let mut batch = Batch::new(alloc, supply.lanes());
    for at in 0..supply.count() {
        let answer = read_one(alloc, supply, at, &mut batch.next, limit)?;
        sources.keep(at, answer, &mut batch)?;
    }
    batch.finish(&mut sources.versions);
    Ok(sources)
}

/// Reads the version of a source, with its digest open and its bytes in the slot; or gives the fault of a source that
/// has none.
pub(crate) fn read_one<S: Supply>(
    alloc: Global,
    supply: &mut S,
    at: usize,
    slot: &mut Slot,
    limit: u64,
) -> Result<Result<Version, KeyFault>, EngineFault>
    requires { at < S.sources supply.old }
    ensures answer { IfOk result (IsOpenAnswer limit (S.contents supply.old at) slot.new) }
    ensures live { IsOk result → IsLive (S.refusals supply.old at) (S.unread supply.old at) }
    ensures there { IsOk result → S.is_there (S.rest supply.old) at }
    ensures given { IsOk result → HasGivenAll limit (S.contents supply.old at) (S.given supply.new at) }
    ensures others { OthersStay at (S.given supply.old) (S.given supply.new) }
    ensures refusals { IsOk result → AllStay (S.refusals supply.old) (S.refusals supply.new) }
    ensures unread { IsOk result → AllStay (S.unread supply.old) (S.unread supply.new) }
    ensures fault { IfErr result (λ fault. FailsSource at fault (S.refusals supply.old)
        (S.refusals supply.new) (S.unread supply.old) (S.unread supply.new)) }
    ensures used { IsUsed at (limit + 1) (S.lent supply.old) (S.lent supply.new)
        (S.reads supply.old) (S.reads supply.new) }
    ensures kept { (S.sources supply.new ≡ S.sources supply.old)
        × (S.contents supply.new ≡ S.contents supply.old)
        × (S.rest supply.new ≡ S.rest supply.old) }
{
    let Ok(mut reader) = supply.begin(at) else {
        return Err(EngineFault::Absent(at));
    };
    let answer = ingest_kept(alloc, &mut reader, slot, limit);
    supply.end(at, reader);
    match answer {
        Ok(version) => Ok(Ok(version)),
        Err(fault) if is_of_source(&fault) => Ok(Err(fault)),
        Err(KeyFault::Read) => Err(EngineFault::Unread(at)),
        Err(_) => Err(EngineFault::Memory),
    }
}

/// Says whether the source has no version, rather than that its reader failed or an allocation was refused.
fn is_of_source(fault: &KeyFault) -> bool
    ensures { IsTrue result ↔ IsOfSource fault.now }
{
    !matches!(fault, KeyFault::Read) && !fault.is_want_of_memory()
}
