ghost use Rattle.std.specs.Prelude.{◌≡◌, ℕ, List, [], Option, Some, IfSome, IsOk, IfOk};
ghost use Rattle.dd_sources.specs.Supply.{AddsTo, AllStay, CountsGiven, CountsRefusal, IsOpenable, Lends, TakesBack};

use dd_elem::Read;
use dd_files::NotThere;
use dd_slots::Lanes;

/// Opens sources by their numbers, which are below `count`. For each it counts refusals, lent readers, and the reads
/// and failures of the readers that were taken back. A source with a count at `u64::MAX` is refused.
pub trait Supply {
    /// A reader of a source.
    type In: Read + Drop;

    ghost sources: { Self → ℕ };

    // The bytes of each source, where they are known.
    ghost contents: { Self → ℕ → Option (List ℕ) };

    // How often the opening of each source was refused.
    ghost refusals: { Self → ℕ → ℕ };

    // How often reads of each source failed, by the readers that were taken back.
    ghost unread: { Self → ℕ → ℕ };

    // How often each source was read, by these readers.
    ghost reads: { Self → ℕ → ℕ };

    // How many readers of each source are lent: begun, and not taken back.
    ghost lent: { Self → ℕ → ℕ };

    // What no opening and no end of a reader changes.
    ghost Rest: { Type 0 };

    ghost rest: { Self → Rest };

    // The source of this number can be opened, as far as that tells.
    ghost is_there: { Rest → ℕ → Type 0 };

    // How many bytes the reader of each source gave that was taken back last, where they are counted.
    ghost given: { Self → ℕ → Option ℕ };

    /// Says how many sources there are.
    fn count(&self) -> usize
        ensures { result ≡ sources self.now };

    /// Says how many sources are digested at once.
    fn lanes(&self) -> Lanes;

    /// Opens a source for reading. Refused, too, where no source has this number.
    fn begin(&mut self, at: usize) -> Result<Self::In, NotThere>
        ensures openable { IsOk result → IsOpenable at (sources self.old)
            (refusals self.old) (unread self.old) (reads self.old) (lent self.old) }
        ensures refusals { CountsRefusal result at (sources self.old)
            (refusals self.old) (refusals self.new) }
        ensures lent { Lends result at (lent self.old) (lent self.new) }
        ensures there { IsOk result → is_there (rest self.old) at }
        ensures unused { AllStay (reads self.old) (reads self.new)
            × AllStay (unread self.old) (unread self.new)
            × AllStay (given self.old) (given self.new) }
        ensures fresh { IfOk result (λ reader. (Self.In.calls reader ≡ 0)
            × (Self.In.failures reader ≡ 0)
            × ((past : Self.In.Past) → Self.In.has_given reader past [])) }
        ensures past { IsOk result → Self.In.Past }
        ensures left { IfOk result (λ reader. IfSome (contents self.old at) (λ file.
            Self.In.remaining reader ≡ Some file)) }
        ensures kept { (sources self.new ≡ sources self.old)
            × (contents self.new ≡ contents self.old)
            × (rest self.new ≡ rest self.old) };

    /// Takes back a reader of a source.
    fn end(&mut self, at: usize, used: Self::In)
        ensures called { AddsTo at (sources self.old) (Self.In.calls used)
            (reads self.old) (reads self.new) }
        ensures failed { AddsTo at (sources self.old) (Self.In.failures used)
            (unread self.old) (unread self.new) }
        ensures given { CountsGiven (λ bytes. (past : Self.In.Past) × Self.In.has_given used past bytes) at
            (sources self.old) (given self.old) (given self.new) }
        ensures openings { AllStay (refusals self.old) (refusals self.new) }
        ensures back { TakesBack at (sources self.old) (lent self.old) (lent self.new) }
        ensures kept { (sources self.new ≡ sources self.old)
            × (contents self.new ≡ contents self.old)
            × (rest self.new ≡ rest self.old) };
}
