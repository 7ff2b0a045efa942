//! The bytes of files by their paths.
ghost use Rattle.std.specs.Prelude.{◌≡◌, OnOk, OnErr};
ghost use Rattle.dd_mem_files.specs.MemFiles.{GrowsFile, KeepsFiles, SetsFile, listed};

use dd_elem::Memory;
use dd_files::NotDone;
use std::alloc::Global;
use std::collections::BTreeMap;

pub(crate) fn set(
    alloc: Global,
    files: &mut BTreeMap<String, Vec<u8>>,
    path: &str,
    bytes: &[u8],
) -> Result<(), Memory>
    ensures ok { OnOk result (SetsFile (listed files.old) (listed files.new) path.now bytes.now) }
    ensures err { OnErr result (listed files.new ≡ listed files.old) }
{
    let path = String::from_str(alloc, path)?;
    let bytes = bytes.to_vec(alloc)?;
    files.insert(path, bytes)?;
    Ok(())
}

/// Appends to a file. NotDone where no file is at the path or an allocation is refused.
pub(crate) fn append(
    files: &mut BTreeMap<String, Vec<u8>>,
    path: &str,
    bytes: &[u8],
) -> Result<(), NotDone>
    ensures ok { OnOk result (GrowsFile (listed files.old) (listed files.new) path.now bytes.now) }
    ensures err { OnErr result (KeepsFiles (listed files.old) (listed files.new)) }
{
    let Some(file) = files.get_mut(path) else {
        return Err(NotDone);
    };
    match file.extend_from_slice(bytes) {
        Ok(()) => Ok(()),
        Err(_) => Err(NotDone),
    }
}
