//! What holds of every run that ends with 0, and of `publish` also where it ends with 3, over files that say what they
//! hold, by the clauses `indexes`, `merges`, `withdraws` and `publishes` of `run`. Each function states a law, and does
//! nothing.

ghost use Rattle.std.specs.Prelude.{◌≡◌, List};
ghost use Rattle.clap.specs.Words.{Row};
ghost use Rattle.dd_files.specs.Files.{Held};
ghost use Rattle.dd_line.specs.declared.line.Verb.{Verb};
ghost use Rattle.dd_line.specs.declared.line.Verb.TheVariants.{Index, Merge, Publish};
ghost use Rattle.dicomdir_laws.specs.Headline.{LeaveOneDirectory, ListsKept, Makes, MergesCopies, MergesParts};
ghost use Rattle.dicomdir_laws.specs.Headline.{PublishesSources, SayTheSame};
ghost use Rattle.dicomdir.specs.Lines.{choice_of};

/// Proves that two runs leave the same bytes at OUT/DICOMDIR where what they read says the same versions and withdraws
/// the same instances, and their words ask for the same label. Neither the command, nor the order of the sources or
/// piles, nor repeats, nor what else stands on the disc changes them.
pub fn same_versions_leave_one_directory()
    ensures { (verb other : Verb) (given others : List Row) (old new first last : Held)
        → Makes verb given old new
        → Makes other others first last
        → choice_of given ≡ choice_of others
        → SayTheSame verb other given others old first
        → LeaveOneDirectory verb other given others new last }
{}

/// Proves that following the offsets of OUT/DICOMDIR from the root visits each kept instance exactly once, beneath its
/// own series, study and patient, and nothing else.
pub fn each_kept_instance_is_visited_once()
    ensures { (verb : Verb) (given : List Row) (old new : Held) → Makes verb given old new
        → ListsKept verb given old new }
{}

/// Proves that a merge of one file-set, or of copies of it, leaves the directory of that set again under the same
/// label.
pub fn a_set_merged_again_keeps_its_directory()
    ensures { (verb : Verb) (given others : List Row) (old new first last : Held)
        → Makes verb given old new
        → Makes Merge others first last
        → choice_of given ≡ choice_of others
        → MergesCopies verb given others new first
        → LeaveOneDirectory verb Merge given others new last }
{}

/// Proves that publishing piles leaves the same directory as an index of their sources, under the same label. Sources
/// that `stage --keep-going` skipped are not among these. Sources and piles are as they were when they were staged.
pub fn a_published_pile_is_the_index_of_its_sources()
    ensures { (given others : List Row) (old new first last : Held)
        → Makes Publish given old new
        → Makes Index others first last
        → choice_of given ≡ choice_of others
        → PublishesSources given others old first
        → LeaveOneDirectory Publish Index given others new last }
{}

/// Proves that a merge of the sets of parts leaves the directory that one run over the whole leaves under the same
/// label. The parts may have other labels, and overlap. No instance has two versions, and none is withdrawn.
pub fn a_merge_of_parts_is_the_whole()
    ensures { (verb : Verb) (given others : List Row) (old new first last : Held)
        → Makes verb given old new
        → Makes Merge others first last
        → choice_of given ≡ choice_of others
        → MergesParts verb given others old first
        → LeaveOneDirectory verb Merge given others new last }
{}
