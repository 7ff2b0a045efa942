//! What holds of directories of single images. Each function states a law, and does nothing.

ghost use Rattle.std.specs.Prelude.{List, [], ℕ, Result};
ghost use Rattle.dd_layout.specs.Limits.{Limits};
ghost use Rattle.dd_engine.specs.declared.choice.Choice.{Choice};
ghost use Rattle.dd_engine.specs.declared.engine.Indexed.{Indexed};
ghost use Rattle.dd_sources.specs.declared.engine_fault.EngineFault.{EngineFault};
ghost use Rattle.dd_engine.specs.declared.merge.Merged.{Merged};
ghost use Rattle.dd_engine.specs.declared.merge_fault.MergeFault.{MergeFault};
ghost use Rattle.dd_engine.specs.Indexed.{Indexes};
ghost use Rattle.dd_keys.specs.Sources.{Answer};
ghost use Rattle.dd_engine.specs.Merging.{Merges};
ghost use Rattle.dd_making.specs.Indexes.{AreOfSources, PlansAgree};

/// Proves that the directories of the images among sources merge to the plan that an index of these sources has, or
/// to its refusal. The choice of a label is the same. So nothing is lost where `of_image` is asked for each image file,
/// and `merge` once for all.
pub fn merged_images_are_indexed()
    ensures { (choice : Choice) (limits : Limits) (answers : List Answer) (sets : List (List ℕ))
        (indexed : Result Indexed EngineFault) (merged : Result Merged MergeFault)
        → AreOfSources answers sets
        → Indexes choice limits answers indexed
        → Merges choice limits [] sets merged
        → PlansAgree indexed merged }
{}
