//! What holds of every set of versions and its harmony.

ghost use Rattle.std.specs.Prelude.{◌≡◌, List, Contains, false, map};
ghost use Rattle.std.specs.Ordering.{is_lt};
ghost use Rattle.dd_version.specs.Orders.{parts_cmp};
ghost use Rattle.dd_version.specs.declared.parts.Parts.{Parts};
ghost use Rattle.dd_catalogue.specs.Agreement.{Agree, AllAgree, HaveSameImages};
ghost use Rattle.dd_catalogue.specs.Conflicts.{first_conflict};
ghost use Rattle.dd_catalogue.specs.Harmony.{harmonised};
ghost use Rattle.dd_catalogue.specs.Histories.{together};
ghost use Rattle.dd_catalogue.specs.Versions.{IsCatalogue, best_of};

/// Harmony does not change what is in harmony.
pub fn harmony_again_is_same()
    ensures { (m : List Parts) → harmonised (harmonised m) ≡ harmonised m }
{}

/// A version in harmony is not less than the version that it was made of.
pub fn harmony_is_not_less()
    ensures { (m : List Parts) (v w : Parts) → IsCatalogue m → Contains m v
        → Contains (harmonised m) w
        → v.instance ≡ w.instance → is_lt (parts_cmp w v) ≡ false }
{}

/// Harmony keeps the path of each version and all fields of the image itself.
pub fn harmony_keeps_images()
    ensures { (m : List Parts) → HaveSameImages m (harmonised m) }
{}

/// Harmony neither makes a conflict nor ends one.
pub fn harmony_keeps_conflict()
    ensures { (m : List Parts) → first_conflict (harmonised m) ≡ first_conflict m }
{}

/// A catalogue agrees with itself.
pub fn catalogue_agrees_with_itself()
    ensures { (m : List Parts) → IsCatalogue m → Agree m m }
{}

/// Sets that agree in pairs are merged in harmony to the same whether each was in harmony before or not.
pub fn merged_harmonies_are_merged_sets()
    ensures { (sets : List (List Parts)) → AllAgree sets
        → harmonised (best_of (together (map harmonised sets)))
        ≡ harmonised (best_of (together sets)) }
{}
