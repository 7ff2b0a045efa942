//! What holds of every directory that is read. Each function states a law, and does nothing.

ghost use Rattle.std.specs.Prelude.{◌≡◌, ◌⊎◌, ◌<◌, ◌^◌, ℕ, List, length};
ghost use Rattle.dd_stream.specs.Bytes.{AreBytes};
ghost use Rattle.dd_walk.specs.declared.fault.DirFault.{DirFault};
ghost use Rattle.dd_walk.specs.Reading.{IsWalk, Refuses};
ghost use Rattle.dd_walk.specs.Trees.{Walk};

/// Bytes have one walk at most.
pub fn walk_is_one()
    ensures { (file : List ℕ) (walk other : Walk) → IsWalk file walk → IsWalk file other
        → other ≡ walk }
{}

/// Bytes have a walk, or they are refused by one fault alone: never both, and never neither.
pub fn walk_or_refusal()
    ensures either { (file : List ℕ) → AreBytes file → length file < 2 ^ 64
        → ((walk : Walk) × IsWalk file walk) ⊎ ((fault : DirFault) × Refuses file fault) }
    ensures never_both { (file : List ℕ) (walk : Walk) (fault : DirFault) → IsWalk file walk
        → Refuses file fault → ⊥ }
    ensures one_fault { (file : List ℕ) (fault other : DirFault) → Refuses file fault
        → Refuses file other
        → other ≡ fault }
{}
