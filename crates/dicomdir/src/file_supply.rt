//! Files as sources.
ghost use Rattle.std.proofs.Props.{props};
ghost use Rattle.std.specs.Prelude.{◌≡◌, ℕ, IfSome, List, length, map, string_bytes, true, None, Option, Some};
ghost use Rattle.std.specs.Borrow.{GName};
ghost use Rattle.dd_engine.specs.Indexed.{IsNamed};
ghost use Rattle.dd_sources.specs.declared.engine_fault.EngineFault.TheVariants as faults;
ghost use Rattle.dd_files.specs.Files.{Held};
ghost use Rattle.dd_files.specs.Reasons.{HasCounted, HasFailedReader};
ghost use Rattle.dd_layout.specs.declared.fault.PlanFault.{PlanFault};
ghost use Rattle.dicomdir.specs.FileSupply.{IsThere, contents_by, counts_at, is_one};
ghost use Rattle.dd_inputs.specs.ListedNames.{AreRising};

use crate::counted_reader::CountedReader;
use crate::source_counts::SourceCounts;
use dd_files::{Files, NotThere, Progress};
use dd_slots::Lanes;
use dd_sources::{EngineFault, Supply};

pub(crate) struct FileSupply<'a, F: Files> {
    files: &'a mut F,
    paths: &'a [String],
    counts: &'a mut [SourceCounts],
    /// The numbers of the sources that have no path, in rising order: these are not there.
    bad_names: &'a [usize],
    /// Whether the files refused to open a source.
    was_refused: bool,
    /// The reader that failed last.
    failed: &'a mut Option<F::In>,
    ghost counted: { length counts.now ≡ length paths.now },
    ghost rising: { AreRising bad_names.now },
    ghost refused: { was_refused ≡ true → HasCounted (F.refusals files.now) },
    ghost unread: { IfSome failed.now (λ reader. HasCounted (F.In.failures reader)) } by { Prim.hlevel props },
}

// By hand, so that its contract says what becomes of the files.
impl<F: Files> Drop for FileSupply<'_, F> {
    fn drop(self)
        ensures files { self.exit.0.now ≡ self.entry.files.now }
        ensures counts { self.exit.1.1.0.now ≡ self.entry.counts.now }
    {
        let FileSupply {
            files: _files,
            paths: _,
            counts: _counts,
            bad_names: _,
            was_refused: _,
            failed: _failed,
        } = self;
    }
}

impl<'a, F: Files> FileSupply<'a, F> {
    /// The files at these paths, each with its counts. A reader that fails is put to `failed`.
    pub(crate) fn new(
        files: &'a mut F,
        paths: &'a [String],
        counts: &'a mut [SourceCounts],
        bad_names: &'a [usize],
        failed: &'a mut Option<F::In>,
    ) -> FileSupply<'a, F>
        requires counted { length counts.old ≡ length paths.now }
        requires rising { AreRising bad_names.now }
        requires none { failed.old ≡ None }
        ensures reference { result.files.ghost_name ≡ files.entry.ghost_name }
        ensures counts_reference { result.counts.ghost_name ≡ counts.entry.ghost_name }
        ensures files { result.files.now ≡ files.old }
        ensures paths { result.paths.now ≡ paths.now }
        ensures counts { result.counts.now ≡ counts.old }
        ensures bad_names { result.bad_names.now ≡ bad_names.now }
    {
        FileSupply {
            files,
            paths,
            counts,
            bad_names,
            was_refused: false,
            failed,
        }
    }

    /// Gives the fault of an engine that read these sources, where the files or a reader gave cause for it. A count at
    /// its last value also refuses a source: that is as memory at its end.
    pub(crate) fn said(&self, fault: EngineFault) -> EngineFault
        ensures named { (sources : ℕ) → IsNamed sources fault → IsNamed sources result }
        ensures plan { (plan : PlanFault) → result ≡ faults.Plan plan → fault ≡ result }
        ensures absent { (at : ℕ) → result ≡ faults.Absent at → HasCounted (F.refusals self.now.files.now) }
        ensures unread { (at : ℕ) → result ≡ faults.Unread at → HasFailedReader F.In.Read }
    {
        match fault {
            EngineFault::Absent(_) if !self.was_refused => EngineFault::Memory,
            EngineFault::Unread(_) if self.failed.is_none() => EngineFault::Memory,
            said => said,
        }
    }
}

#[tactic(auto, using(crate::proofs::BadNames::found))]
pub(crate) fn contains(numbers: &[usize], at: usize) -> bool
    requires { AreRising numbers.now }
    ensures { result ≡ is_one numbers.now at }
{
    numbers.binary_search(&at).is_ok()
}

impl<F: Files + Progress> Supply for FileSupply<'_, F> {
    type In = CountedReader<F::In>;

    ghost sources = { λ s. length s.counts.now };

    ghost contents = { λ s.
        contents_by (F.held s.files.now) (map (λ path. string_bytes path) s.paths.now) };

    ghost refusals = { λ s at. (counts_at s.counts.now at).refusals };

    ghost unread = { λ s at. (counts_at s.counts.now at).failures };

    ghost reads = { λ s at. (counts_at s.counts.now at).reads };

    ghost lent = { λ s at. (counts_at s.counts.now at).lent };

    ghost Rest = { GName × GName × Option Held × List (List ℕ) × List ℕ };

    ghost rest = { λ s. (
      s.files.ghost_name,
      s.counts.ghost_name,
      F.held s.files.now,
      map (λ path. string_bytes path) s.paths.now,
      s.bad_names.now,
    ) };

    ghost is_there = { λ rest at. IsThere rest.2 rest.3 rest.4 at };

    ghost given = { λ s at. Some (counts_at s.counts.now at).bytes };

    fn count(&self) -> usize {
        self.counts.len()
    }

    fn lanes(&self) -> Lanes {
        self.files.lanes()
    }

    fn begin(&mut self, at: usize) -> Result<CountedReader<F::In>, NotThere> {
        let paths = self.paths;
        if at >= paths.len() {
            return Err(NotThere);
        }
        let mut counts = self.counts[at];
        if counts.is_live() && !contains(self.bad_names, at) {
            if let Ok(reader) = self.files.source(paths[at].as_str()) {
                counts.lend();
                self.counts[at] = counts;
                return Ok(CountedReader::new(reader));
            }
            self.was_refused = true;
        }
        counts.refuse();
        self.counts[at] = counts;
        Err(NotThere)
    }

    fn end(&mut self, at: usize, used: CountedReader<F::In>) {
        if at < self.counts.len() {
            let mut counts = self.counts[at];
            counts.take_back(used.counts(), used.bytes());
            self.counts[at] = counts;
        }
        if let Some(reader) = used.into_failed() {
            *self.failed = Some(reader);
        }
        self.files.advance();
    }
}
