//! What holds of every tree, and a worked example of a plan. Each function states a law, and does nothing.

ghost use Rattle.std.specs.Prelude.{◌≡◌, ◌≢◌, ◌<◌, ◌∷◌, ◌++◌, ℕ, List, [], All, Contains, Option, IfSome};
ghost use Rattle.dd_catalogue.specs.Best.{IsRising};
ghost use Rattle.dd_catalogue.specs.Conflicts.{first_conflict};
ghost use Rattle.dd_catalogue.specs.Harmony.{harmonised};
ghost use Rattle.dd_version.specs.declared.parts.Parts.{Parts};
ghost use Rattle.dd_records.specs.declared.label.Label.{Label};
ghost use Rattle.dd_layout.specs.Limits.{Limits};
ghost use Rattle.dd_layout.specs.Layouts.{StandsWithin};
ghost use Rattle.dd_layout.specs.Neighbours.{IsKnown};
ghost use Rattle.dd_layout.specs.Paths.{Path, path_cmp};
ghost use Rattle.dd_layout.specs.Plans.{at_or_none, records_of, size, tree};
ghost use Rattle.dd_layout.specs.Refusal.{conflict_or, crowded, crowding_or, oversize, refusal};
ghost use Rattle.dd_layout.specs.Tree.{IsTree, tree_of};
ghost use Rattle.dd_layout.specs.Walk.{paths_from};
ghost use Rattle.dd_layout.specs.Worked.{eleven_records, four_images, one_withdrawn, two_withdrawn, unnamed};

/// All paths have a tree.
pub fn tree_is_tree()
    ensures { (paths : List Path) → IsTree paths (tree_of paths) }
{}

/// Paths have one tree.
pub fn tree_is_one()
    ensures { (paths one other : List Path) → IsTree paths one → IsTree paths other → one ≡ other }
{}

/// One walk along paths that rise gives their tree.
pub fn walk_gives_the_tree()
    ensures { (paths : List Path) → IsRising (λ path. path) path_cmp paths
        → paths_from [] paths ≡ tree_of paths }
{}

/// Each path of a tree is known from the paths before and after it, by their lengths alone: its offset, its ranks and
/// its links.
pub fn rows_are_known()
    ensures { (paths : List Path) → ((path : Path) → Contains paths path → path ≢ [])
        → (front : List Path) (x : Path) (rest : List Path) → tree_of paths ≡ front ++ x ∷ rest
        → IsKnown (tree_of paths) front x rest }
{}

/// Every offset in a directory is smaller than its size, and so is 0, which stands for no record.
pub fn offsets_are_within()
    ensures named { (label : Label) (versions : List Parts) (withdrawn : List (List ℕ))
        (x : Option Path)
        → IfSome x (λ path. Contains (tree versions) path)
        → at_or_none label versions x < size label versions withdrawn }
    ensures records { (label : Label) (versions : List Parts) (withdrawn : List (List ℕ))
        → All (StandsWithin (size label versions withdrawn)) (records_of label versions) }
{}

/// Harmony keeps the tree of a catalogue, so only the size of its directory needs the harmony.
pub fn harmony_keeps_the_tree()
    ensures tree { (m : List Parts) → tree (harmonised m) ≡ tree m }
    ensures refusal { (label : Label) (limits : Limits) (m : List Parts) (withdrawn : List (List ℕ))
        → refusal label limits m withdrawn
        ≡ conflict_or (first_conflict m) (crowding_or (crowded limits.per_level (tree m))
        (oversize limits.bytes (size label (harmonised m) withdrawn))) }
{}

/// Four images of two patients have this plan, and these sizes with no, one and two withdrawn UIDs.
pub fn four_images_are_planned()
    ensures records { records_of unnamed four_images ≡ eleven_records }
    ensures size { size unnamed four_images [] ≡ 2032 }
    ensures withdrawn { size unnamed four_images one_withdrawn ≡ 2074 }
    ensures more { size unnamed four_images two_withdrawn ≡ 2084 }
{}
