//! Versions whose digests are open, until as many as there are lanes are set at once.
ghost use Rattle.std.specs.Prelude.{◌≡◌, ◌<◌, ◌≤◌, ◌+◌, ◌++◌, ◌∷◌, ℕ, List, [], false, length};
ghost use Rattle.sha2.specs.Sha256.{sha256};
ghost use Rattle.dd_slots.specs.Slots.{IsSlotOf, lane_count};
ghost use Rattle.dd_version.specs.Copies.{with_digest};
ghost use Rattle.dd_version.specs.declared.parts.Parts.{Parts};
ghost use Rattle.dd_sources.specs.Batches.{HasRoom, IsOpen, open_slots};

use dd_slots::{Lanes, Slot, digest_slots};
use dd_version::Version;
use std::alloc::Global;
use std::mem;

/// Keeps the bytes of the last versions that were read, whose digests are open: of fewer than there are lanes, or of as
/// many just before these are set.
#[derive(Drop)]
pub(crate) struct Batch {
    first: Slot,
    second: Slot,
    third: Slot,
    fourth: Slot,
    fifth: Slot,
    sixth: Slot,
    seventh: Slot,
    /// The slot of the source that is read next: the eighth once seven versions are open.
    pub(crate) next: Slot,
    used: usize,
    /// The bytes of the open versions that are in memory.
    bytes: usize,
    lanes: Lanes,
}

impl Batch {
    pub(crate) fn new(alloc: Global, lanes: Lanes) -> Batch
        ensures { result.used ≡ 0 }
    {
        Batch {
            first: Slot::new(alloc),
            second: Slot::new(alloc),
            third: Slot::new(alloc),
            fourth: Slot::new(alloc),
            fifth: Slot::new(alloc),
            sixth: Slot::new(alloc),
            seventh: Slot::new(alloc),
            next: Slot::new(alloc),
            used: 0,
            bytes: 0,
            lanes,
        }
    }

    /// Adds the next slot, which has the bytes of the last of these versions. Where as many versions are open as there
    /// are lanes, or their slots have no room for another's, sets their digests.
    pub(crate) fn add(&mut self, versions: &mut Vec<Version>)
        requires room { self.old.used < 8 }
        requires there { self.old.used < length versions.old.items }
        ensures room { HasRoom self.new versions.new.items }
        ensures added { (front closed : List Parts) (version : Parts) (bytes : List ℕ)
            → versions.old.items ≡ front ++ version ∷ []
            → IsSlotOf self.old.next bytes → IsOpen self.old front closed
            → IsOpen self.new versions.new.items (closed ++ with_digest version (sha256 bytes) ∷ []) }
    {
        self.shift();
        if self.is_full() {
            self.settle(versions);
        }
    }

    /// Sets the digests of the last versions that are still open.
    pub(crate) fn finish(&mut self, versions: &mut Vec<Version>)
        requires { HasRoom self.old versions.old.items }
        ensures { (closed : List Parts) → IsOpen self.old versions.old.items closed
            → versions.new.items ≡ closed }
    {
        self.next.clear();
        self.settle(versions);
    }

    fn is_full(&self) -> bool
        ensures { result ≡ false → self.now.used < lane_count self.now.lanes }
    {
        self.used >= self.lanes.count() || self.bytes >= self.lanes.most_bytes()
    }

    fn shift(&mut self)
        requires { self.old.used < 8 }
        ensures used { self.new.used ≡ self.old.used + 1 }
        ensures slots { open_slots self.new ≡ open_slots self.old ++ self.old.next ∷ [] }
    {
        self.bytes = self.bytes.saturating_add(self.next.len());
        match self.used {
            0 => mem::swap(&mut self.first, &mut self.next),
            1 => mem::swap(&mut self.second, &mut self.next),
            2 => mem::swap(&mut self.third, &mut self.next),
            3 => mem::swap(&mut self.fourth, &mut self.next),
            4 => mem::swap(&mut self.fifth, &mut self.next),
            5 => mem::swap(&mut self.sixth, &mut self.next),
            6 => mem::swap(&mut self.seventh, &mut self.next),
            _ => (),
        }
        self.used += 1;
    }

    fn settle(&mut self, versions: &mut Vec<Version>)
        requires few { self.old.used ≤ 8 }
        requires there { self.old.used ≤ length versions.old.items }
        ensures used { self.new.used ≡ 0 }
        ensures settled { (closed : List Parts) → IsOpen self.old versions.old.items closed
            → versions.new.items ≡ closed }
    {
        let ((a, b, c, d), (e, f, g, h)) = digest_slots(
            self.lanes,
            (&self.first, &self.second, &self.third, &self.fourth),
            (&self.fifth, &self.sixth, &self.seventh, &self.next),
        );
        let digests = [a, b, c, d, e, f, g, h];
        let first = versions.len() - self.used;
        for at in 0..self.used {
            versions[first + at].set_digest(digests[at]);
        }
        self.empty();
    }

    /// Empties the slots. The fourth of four becomes the next again, so that batches of four give no fifth slot memory.
    fn empty(&mut self)
        ensures { self.new.used ≡ 0 }
    {
        if self.used == 4 {
            mem::swap(&mut self.fourth, &mut self.next);
        }
        self.first.release(self.lanes);
        self.second.release(self.lanes);
        self.third.release(self.lanes);
        self.fourth.release(self.lanes);
        self.fifth.release(self.lanes);
        self.sixth.release(self.lanes);
        self.seventh.release(self.lanes);
        self.next.release(self.lanes);
        self.used = 0;
        self.bytes = 0;
    }
}
