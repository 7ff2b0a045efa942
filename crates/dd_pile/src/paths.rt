//! The paths of a pile.

ghost use Rattle.std.specs.Prelude.{IfOk, string_bytes};
ghost use Rattle.dd_pile.specs.Paths.{IsCopyPath, IsFolderPath, IsListPath};

use dd_elem::Memory;
use dd_files::path_in;
use std::alloc::Global;

/// Names the list in the folder of a pile.
pub const STAGED: &str = "STAGED";

/// How many copies are in one folder.
pub(crate) const FOLDER_COPIES: usize = 1000;

/// Gives the path of the copy of the source with this number, from 1: `PILE/000/000001`. Source 1,000 has
/// `PILE/001/001000`.
pub fn copy_path(alloc: Global, pile: &str, number: usize) -> Result<String, Memory>
    ensures { IfOk result (λ path. IsCopyPath pile.now number (string_bytes path)) }
{
    let folder = number / FOLDER_COPIES;
    let mut path = path_in(alloc, pile, "")?;
    write!(path, "{folder:03}/{number:06}")?;
    Ok(path)
}

/// Gives the path of the folder of that copy.
pub(crate) fn folder_path(alloc: Global, pile: &str, number: usize) -> Result<String, Memory>
    ensures { IfOk result (λ path. IsFolderPath pile.now number (string_bytes path)) }
{
    let folder = number / FOLDER_COPIES;
    let mut path = path_in(alloc, pile, "")?;
    write!(path, "{folder:03}")?;
    Ok(path)
}

/// Gives the path of the list.
pub(crate) fn list_path(alloc: Global, pile: &str) -> Result<String, Memory>
    ensures { IfOk result (λ path. IsListPath pile.now (string_bytes path)) }
{
    path_in(alloc, pile, STAGED)
}
