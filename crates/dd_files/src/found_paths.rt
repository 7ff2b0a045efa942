ghost use Rattle.std.specs.Prelude.{ℕ, List, IfOk, option_map, string_bytes};
ghost use Rattle.dd_files.specs.FoundPaths.{IsFoundAt};
ghost use Rattle.dd_files.specs.Progress.{IsUnchanged};

use crate::files::Files;
use dd_elem::Memory;

/// Files that say where they find one of a file-set. No call changes files or counts.
pub trait FoundPaths: Files {
    // The file that is recorded at the second path, below the folder at the first, may be shown at the third.
    ghost is_shown: { List ℕ → List ℕ → List ℕ → Type 0 };

    /// Gives the path at which `member` finds the file at this path, and None where no plain file is there. It opens
    /// nothing. Memory where an allocation is refused.
    fn found_path(&mut self, set: &str, path: &str) -> Result<Option<String>, Memory>
        ensures found { IfOk result (λ found. IsFoundAt (is_shown set.now path.now) (Self.held self.old) path.now
            (option_map (λ at. string_bytes at) found)) }
        ensures unchanged { IsUnchanged Self.Write Self.Files.own self.old self.new };
}
