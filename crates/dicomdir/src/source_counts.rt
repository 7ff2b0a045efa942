ghost use Rattle.std.specs.Prelude.{◌≡◌, ◌↔◌, ◌-◌, IsTrue};
ghost use Rattle.dd_elem.specs.Device.{counted, IsLive};
ghost use Rattle.dd_sources.specs.Supply.{added};
ghost use Rattle.dicomdir.specs.FileSupply.{no_counts};

use dd_elem::Counts;

/// The counts of a source. Each goes up to `u64::MAX`.
#[derive(Clone, Copy)]
pub(crate) struct SourceCounts {
    /// How often it could not be opened.
    pub(crate) refusals: u64,
    /// How often its readers that were taken back were called.
    pub(crate) reads: u64,
    /// How many of these calls failed.
    pub(crate) failures: u64,
    /// How many of its readers are lent.
    pub(crate) lent: u64,
    /// How many bytes the last reader that was taken back had given.
    pub(crate) bytes: u64,
}

impl SourceCounts {
    pub(crate) fn new() -> SourceCounts
        ensures { result ≡ no_counts }
    {
        SourceCounts {
            refusals: 0,
            reads: 0,
            failures: 0,
            lent: 0,
            bytes: 0,
        }
    }

    /// Says whether each count is below its last value.
    pub(crate) fn is_live(&self) -> bool
        ensures { IsTrue result ↔ (IsLive self.now.refusals self.now.failures
            × IsLive self.now.reads self.now.lent) }
    {
        self.refusals < u64::MAX
            && self.failures < u64::MAX
            && self.reads < u64::MAX
            && self.lent < u64::MAX
    }

    pub(crate) fn refuse(&mut self)
        ensures { self.new ≡ record self.old { refusals = counted self.old.refusals } }
    {
        self.refusals = self.refusals.saturating_add(1);
    }

    pub(crate) fn lend(&mut self)
        ensures { self.new ≡ record self.old { lent = counted self.old.lent } }
    {
        self.lent = self.lent.saturating_add(1);
    }

    pub(crate) fn take_back(&mut self, used: Counts, bytes: u64)
        ensures { self.new ≡ record self.old {
          reads = added self.old.reads used.calls;
          failures = added self.old.failures used.failures;
          lent = self.old.lent - 1;
          bytes = bytes;
        } }
    {
        self.reads = self.reads.saturating_add(used.calls);
        self.failures = self.failures.saturating_add(used.failures);
        self.lent = self.lent.saturating_sub(1);
        self.bytes = bytes;
    }
}
