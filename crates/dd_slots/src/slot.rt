ghost use Rattle.std.specs.Prelude.{◌≡◌, ◌↔◌, ◌++◌, ℕ, List, [], IfSome, IsNone, IsSome, length, if◌then◌else◌};
ghost use Rattle.sha2.specs.Sha256.{sha256};
ghost use Rattle.dd_slots.specs.Slots.{IsSlotOf};

use crate::digests::Lanes;
use sha2::{Digest, Sha256};
use std::alloc::Global;

const MOST: usize = 8 * 1024 * 1024;

/// Keeps the bytes of one file, up to 8 MiB, until they are digested. Where there are more, or their allocation is
/// refused, it hashes them as they come.
#[derive(Drop)]
pub struct Slot {
    kept: Vec<u8>,
    hasher: Option<Sha256>,
}

impl Slot {
    /// Makes a slot of no bytes. Allocates nothing.
    pub fn new(alloc: Global) -> Slot
        ensures { IsSlotOf result [] }
    {
        Slot {
            kept: Vec::new(alloc),
            hasher: None,
        }
    }

    /// Forgets the bytes, and keeps their memory.
    pub fn clear(&mut self)
        ensures { IsSlotOf self.new [] }
    {
        self.kept.clear();
        self.hasher = None;
    }

    /// Forgets the bytes, and gives back memory above 128 KiB where there are eight slots.
    pub fn release(&mut self, lanes: Lanes)
        ensures { IsSlotOf self.new [] }
    {
        self.clear();
        if self.kept.capacity() > lanes.most_memory() {
            self.kept.shrink_to_fit();
        }
    }

    /// Gives the number of bytes that are in memory.
    pub fn len(&self) -> usize
        ensures { result ≡ length self.now.kept.items }
    {
        self.kept.len()
    }

    /// Takes the next bytes.
    pub fn take(&mut self, piece: &[u8])
        ensures { (bytes : List ℕ) → IsSlotOf self.old bytes → IsSlotOf self.new (bytes ++ piece.now) }
    {
        if let Some(hasher) = &mut self.hasher {
            hasher.update(piece);
            return;
        }
        if self.keep(piece) {
            return;
        }
        let mut hasher = Sha256::new();
        hasher.update(self.kept.as_slice());
        hasher.update(piece);
        self.hasher = Some(hasher);
    }

    fn keep(&mut self, piece: &[u8]) -> bool
        ensures kept { self.new.kept.items
            ≡ (if result then self.old.kept.items ++ piece.now else self.old.kept.items) }
        ensures same { self.new.hasher ≡ self.old.hasher }
    {
        self.kept.len().saturating_add(piece.len()) <= MOST
            && self.kept.extend_from_slice(piece).is_ok()
    }

    /// Gives the bytes. None where they were hashed as they came.
    pub fn bytes(&self) -> Option<&[u8]>
        ensures kept { IsSome result ↔ IsNone self.now.hasher }
        ensures value { (bytes : List ℕ) → IsSlotOf self.now bytes → IfSome result (λ kept. kept.now ≡ bytes) }
    {
        match &self.hasher {
            Some(_) => None,
            None => Some(self.kept.as_slice()),
        }
    }

    /// Computes the SHA-256 of the bytes. Allocates nothing.
    pub fn digest(&self) -> [u8; 32]
        ensures { (bytes : List ℕ) → IsSlotOf self.now bytes → result ≡ sha256 bytes }
    {
        match &self.hasher {
            Some(hasher) => hasher.clone().unwrap().finalize(),
            None => Sha256::digest(self.kept.as_slice()),
        }
    }
}
