ghost use Rattle.std.specs.Prelude.{◌≡◌, ◌<◌, ◌+◌, ◌++◌, ◌∷◌, List, [], length, Err, IfErr, IfOk, IsOk, OnOk};
ghost use Rattle.dd_keys.specs.declared.fault.KeyFault.TheVariants.{Read};
ghost use Rattle.dd_keys.specs.Sources.{Answer};
ghost use Rattle.dd_sources.specs.Batches.{HasRoom, HoldsOpen};
ghost use Rattle.dd_sources.specs.Passing.{GrowsBy};
ghost use Rattle.dd_sources.specs.Readings.{AreAllReadings, IsOfOne, Reading, absent_in, answers_of};
ghost use Rattle.dd_sources.specs.Supply.{AllStay, EachGrows, Holds, IsUsed};

use crate::batch::Batch;
use crate::engine_fault::EngineFault;
use crate::sources::{Sources, read_one};
use crate::supply::Supply;
use dd_elem::Memory;
use dd_keys::KeyFault;
use dd_slots::Lanes;
use std::alloc::Global;

/// What was read of sources, where those that fail are passed.
#[derive(Drop)]
pub struct Readings {
    /// A source that failed is skipped here with `KeyFault::Read`.
    pub sources: Sources,
    /// The numbers of the sources that could not be opened, in their order.
    pub absent: Vec<usize>,
    batch: Batch,
}

impl Readings {
    fn new(alloc: Global, lanes: Lanes) -> Readings
        ensures sources { Holds [] result.sources }
        ensures absent { result.absent.items ≡ [] }
        ensures batch { result.batch.used ≡ 0 }
    {
        Readings {
            sources: Sources::new(alloc),
            absent: Vec::new(alloc),
            batch: Batch::new(alloc, lanes),
        }
    }

    /// Takes both parts.
    pub fn into_parts(self) -> (Sources, Vec<usize>)
        ensures { result ≡ (self.sources, self.absent) }
    {
        let Readings {
            sources,
            absent,
            batch: _batch,
        } = self;
        (sources, absent)
    }

    /// Passes the source `at`, which failed. Refused, too, where it is no source that did.
    fn pass(&mut self, at: usize, fault: EngineFault) -> Result<(), Memory>
        requires { HasRoom self.old.batch self.old.sources.versions.items }
        ensures of_source { IsOk result → IsOfOne fault }
        ensures absent { OnOk result
            (self.new.absent.items ≡ self.old.absent.items ++ absent_in (Err fault ∷ [])) }
        ensures room { IsOk result → HasRoom self.new.batch self.new.sources.versions.items }
        ensures kept { OnOk result ((answers : List Answer) → length answers ≡ at
            → HoldsOpen answers self.old.sources self.old.batch
            → HoldsOpen (answers ++ Err Read ∷ []) self.new.sources self.new.batch) }
    {
        add_absent(&mut self.absent, fault)?;
        self.batch.next.clear();
        self.sources.keep(at, Err(KeyFault::Read), &mut self.batch)?;
        Ok(())
    }
}

/// Adds the number of a source that could not be opened. Refused where it is no source that failed.
fn add_absent(absent: &mut Vec<usize>, fault: EngineFault) -> Result<(), Memory>
    ensures of_source { IsOk result → IsOfOne fault }
    ensures added { OnOk result (absent.new.items ≡ absent.old.items ++ absent_in (Err fault ∷ [])) }
{
    match fault {
        EngineFault::Absent(at) => absent.push(at)?,
        EngineFault::Unread(_) => (),
        EngineFault::Memory | EngineFault::Plan(_) => return Err(Memory),
    }
    Ok(())
}

/// Reads the next source, which is `at`.
fn read_next<S: Supply>(
    alloc: Global,
    supply: &mut S,
    at: usize,
    read: &mut Readings,
    limit: u64,
) -> Result<(), Memory>
    requires there { at < S.sources supply.old }
    requires room { HasRoom read.old.batch read.old.sources.versions.items }
    ensures room { IsOk result → HasRoom read.new.batch read.new.sources.versions.items }
    ensures grows { OnOk result (GrowsBy S.Supply limit at supply.old supply.new read.old read.new) }
    ensures used { IsUsed at (limit + 1) (S.lent supply.old) (S.lent supply.new)
        (S.reads supply.old) (S.reads supply.new) }
    ensures kept { (S.sources supply.new ≡ S.sources supply.old)
        × (S.contents supply.new ≡ S.contents supply.old)
        × (S.rest supply.new ≡ S.rest supply.old) }
{
    match read_one(alloc, supply, at, &mut read.batch.next, limit) {
        Ok(answer) => {
            read.sources.keep(at, answer, &mut read.batch)?;
            Ok(())
        }
        Err(fault) => {
            read.pass(at, fault)?;
            Ok(())
        }
    }
}

/// Reads the versions of all sources in their order, each to its end or to `limit` bytes and one more, and passes those
/// that can't be opened or whose reader fails.
pub fn read_past_failures<S: Supply>(
    alloc: Global,
    supply: &mut S,
    limit: u64,
) -> Result<Readings, EngineFault>
    ensures read { IfOk result (λ read. (readings : List Reading)
        × AreAllReadings S.Supply limit readings supply.old supply.new
        × Holds (answers_of readings) read.sources × (read.absent.items ≡ absent_in readings)) }
    ensures memory { IfErr result (λ fault. fault ≡ EngineFault.Memory) }
    ensures ended { AllStay (S.lent supply.old) (S.lent supply.new) }
    ensures reads { EachGrows (limit + 1) (S.reads supply.old) (S.reads supply.new) }
    ensures kept { (S.sources supply.new ≡ S.sources supply.old)
        × (S.contents supply.new ≡ S.contents supply.old)
        × (S.rest supply.new ≡ S.rest supply.old) }
{
    let mut read = Readings::new(alloc, supply.lanes());
    for at in 0..supply.count() {
        read_next(alloc, supply, at, &mut read, limit)?;
    }
    read.batch.finish(&mut read.sources.versions);
    Ok(read)
}
