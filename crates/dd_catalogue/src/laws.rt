//! What holds of every set of versions, whatever the order in which they arrive.

ghost use Rattle.std.specs.Prelude.{◌≡◌, ◌↔◌, [], ◌++◌, ℕ, List, Option, Contains, Decides, true};
ghost use Rattle.dd_version.specs.declared.parts.Parts.{Parts};
ghost use Rattle.dd_catalogue.specs.Best.{SameMembers};
ghost use Rattle.dd_catalogue.specs.Conflicts.{Conflict, IsConflict, first_conflict, conflicts};
ghost use Rattle.dd_catalogue.specs.Contents.{Contents, HoldsBoth, HoldsVersion, HoldsWithdrawn, IsHeld};
ghost use Rattle.dd_catalogue.specs.Contents.{is_withdrawn, kept_of, left_of};
ghost use Rattle.dd_catalogue.specs.Equal.{holds_same};
ghost use Rattle.dd_catalogue.specs.Harmony.{IsHarmonised, harmonised};
ghost use Rattle.dd_catalogue.specs.Versions.{IsBestOf, IsCatalogue, best_of};

/// Every set of versions has a best: of each instance the greatest version, and no other.
pub fn best_is_best()
    ensures { (s : List Parts) → IsBestOf s (best_of s) }
{}

/// Sets with the same members, in any order and with repeats, have one best.
pub fn best_is_one()
    ensures { (s t m n : List Parts) → SameMembers s t → IsBestOf s m → IsBestOf t n → m ≡ n }
{}

/// The best of all versions in two bests is the best of both sets together.
pub fn best_of_bests()
    ensures { (s t : List Parts) → best_of (best_of s ++ best_of t) ≡ best_of (s ++ t) }
{}

/// The test whether a UID is withdrawn holds exactly where the withdrawn UIDs contain it.
pub fn withdrawn_decides()
    ensures { (w : List (List ℕ)) (uid : List ℕ) → Decides (is_withdrawn w uid) (Contains w uid) }
{}

/// What is kept is the best of the versions whose instances are not withdrawn.
pub fn kept_is_best_of_left()
    ensures { (s : List Parts) (w : List (List ℕ)) → IsBestOf (left_of s w) (kept_of s w) }
{}

/// Where nothing is withdrawn, what is kept is the best of all versions.
pub fn kept_of_all()
    ensures { (s : List Parts) → kept_of s [] ≡ best_of s }
{}

/// What two catalogues keep together is what one keeps that took and withdrew all the same.
pub fn kept_of_kept()
    ensures { (s t : List Parts) (w u : List (List ℕ))
        → kept_of (kept_of s w ++ kept_of t u) (w ++ u) ≡ kept_of (s ++ t) (w ++ u) }
{}

/// Two merged catalogues hold what one holds that took and withdrew all the same. So does a catalogue that takes one
/// version more, or withdraws one instance more.
pub fn held_of_held()
    ensures both { (c d : Contents) → HoldsBoth c d }
    ensures version { (c : Contents) (v : Parts) → HoldsVersion c v }
    ensures withdrawn { (c : Contents) (uid : List ℕ) → HoldsWithdrawn c uid }
{}

/// The order of versions and withdrawals does not change what is kept, and neither do repeats.
pub fn kept_order_is_free()
    ensures { (s t : List Parts) (w u : List (List ℕ)) → SameMembers s t → SameMembers w u
        → kept_of s w ≡ kept_of t u }
{}

/// A catalogue holds no version whose instance is withdrawn.
pub fn held_is_apart()
    ensures { (c : Contents) (v : Parts) → IsHeld c → Contains c.versions v
        → ¬ Contains c.withdrawn v.instance }
{}

/// Two versions conflict exactly where the test of it holds.
pub fn conflicts_decides()
    ensures { (v w : Parts) → Decides (conflicts v w) (Conflict v w) }
{}

/// The conflict of a catalogue is its first conflict.
pub fn first_conflict_is_first()
    ensures { (m : List Parts) → IsCatalogue m → IsConflict m (first_conflict m) }
{}

/// A catalogue has one conflict.
pub fn first_conflict_is_one()
    ensures { (m : List Parts) (one other : Option (List ℕ × List ℕ)) → IsCatalogue m
        → IsConflict m one → IsConflict m other → one ≡ other }
{}

/// Every catalogue has a harmony: each of its versions with the greatest keys of its patient, its study and
/// its series.
pub fn harmonised_is_harmonised()
    ensures { (m : List Parts) → IsCatalogue m → IsHarmonised m (harmonised m) }
{}

/// A catalogue has one harmony.
pub fn harmonised_is_one()
    ensures { (m one other : List Parts) → IsHarmonised m one → IsHarmonised m other → one ≡ other }
{}

/// Catalogues are equal by `==` exactly where they are the same.
pub fn equal_is_same()
    ensures { (c d : Contents) → (holds_same c d ≡ true) ↔ (c ≡ d) }
{}
