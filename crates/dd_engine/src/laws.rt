ghost use Rattle.std.specs.Prelude.{◌↔◌, ℕ, List, [], Contains, Option, Result};
ghost use Rattle.dd_version.specs.declared.parts.Parts.{Parts};
ghost use Rattle.dd_layout.specs.Limits.{Limits};
ghost use Rattle.dd_engine.specs.declared.choice.Choice.{Choice};
ghost use Rattle.dd_engine.specs.declared.engine.Indexed.{Indexed};
ghost use Rattle.dd_sources.specs.declared.engine_fault.EngineFault.{EngineFault};
ghost use Rattle.dd_engine.specs.declared.merge.Merged.{Merged};
ghost use Rattle.dd_engine.specs.declared.merge_fault.MergeFault.{MergeFault};
ghost use Rattle.dd_engine.specs.Merging.{Merges};
ghost use Rattle.dd_engine.specs.SameSets.{MergesAgree};
ghost use Rattle.dd_engine.specs.SameVersions.{Agree, IndexesKnown, IsVersionThere};

/// Proves that sources with the same versions have one plan under one choice of a label, or one refusal of it. Neither
/// their order nor how readers cut their bytes nor repeats change it.
pub fn same_versions_have_one_plan()
    ensures { (choice : Choice) (limits : Limits) (limit : ℕ) (contents other : ℕ → Option (List ℕ))
        (sources others : ℕ)
        (first second : Result Indexed EngineFault)
        → IndexesKnown choice limits limit contents sources first
        → IndexesKnown choice limits limit other others second
        → ((version : Parts) → IsVersionThere limit contents sources version
        ↔ IsVersionThere limit other others version)
        → Agree first second }
{}

/// Proves that merges of the same sets have one plan under one choice of a label, or one refusal of it. Neither the
/// order of the sets nor repeats change it.
pub fn same_sets_have_one_plan()
    ensures { (choice : Choice) (limits : Limits) (sets others : List (List ℕ))
        (first second : Result Merged MergeFault)
        → Merges choice limits [] sets first
        → Merges choice limits [] others second
        → ((set : List ℕ) → Contains sets set ↔ Contains others set)
        → MergesAgree first second }
{}
