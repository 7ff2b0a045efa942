//! What holds of every directory. Each function states a law, and does nothing.

ghost use Rattle.std.specs.Prelude.{◌≡◌, ℕ, All, List, length};
ghost use Rattle.dd_catalogue.specs.Contents.{SameContents, held_of};
ghost use Rattle.dd_catalogue.specs.Harmony.{harmonised};
ghost use Rattle.dd_catalogue.specs.Histories.{taken};
ghost use Rattle.dd_catalogue.specs.declared.history.History.{History};
ghost use Rattle.dd_version.specs.declared.parts.Parts.{Parts};
ghost use Rattle.dd_records.specs.declared.label.Label.{Label};
ghost use Rattle.dd_layout.specs.Layouts.{IsSound};
ghost use Rattle.dd_layout.specs.Plans.{records_of, size};
ghost use Rattle.dd_layout.specs.Worked.{four_images, unnamed};
ghost use Rattle.dd_dir.specs.Directories.{directory, directory_of, first_root, last_root};

/// A directory has as many bytes as are planned, where each record is of a version and has a File ID where it is of
/// an image.
pub fn directory_is_as_long_as_planned()
    ensures { (label : Label) (versions : List Parts) (withdrawn : List (List ℕ))
        → All (IsSound (length versions)) (records_of label versions)
        → length (directory_of label versions withdrawn) ≡ size label versions withdrawn }
{}

/// The directory of four images of two patients has these offsets of its first and last root record.
pub fn four_images_have_two_roots()
    ensures first { first_root unnamed four_images ≡ 320 }
    ensures last { last_root unnamed four_images ≡ 1476 }
{}

/// A catalogue in harmony has the directory of the one that it comes from.
pub fn harmony_keeps_the_directory()
    ensures { (label : Label) (m : List Parts) (withdrawn : List (List ℕ))
        → directory label (harmonised m) withdrawn ≡ directory label m withdrawn }
{}

/// Histories in which the same versions were taken and the same instances withdrawn have the same directory under one
/// label, byte for byte. Their order, repeats and merges do not matter.
pub fn same_versions_same_directory()
    ensures { (label : Label) (h g : History) → SameContents (taken h) (taken g)
        → directory label (held_of (taken h)).versions (held_of (taken h)).withdrawn
        ≡ directory label (held_of (taken g)).versions (held_of (taken g)).withdrawn }
{}
