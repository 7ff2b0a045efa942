ghost use Rattle.std.specs.Prelude.{◌≡◌, option_map};
ghost use Rattle.dd_filing.specs.CopySteps.{version_answer};
ghost use Rattle.dd_filing.specs.Filing.{IsCopyOfVersion, IsFiled};
ghost use Rattle.dd_stream.specs.Reads.{ReadsUpTo};

use crate::agreeing::{Filed, Wanted};
use crate::copying::{FilingFault, copy_found};
use dd_elem::{Read, Write};
use dd_keys::{KeyFault, one_version};
use dd_version::Version;
use std::alloc::Global;

/// Copies what a reader gives to its end, at most `limit` bytes, and gives the version whose file the bytes are, or
/// None.
///
/// After Unsent the writer holds a first part of what the reader gave, and else all of it. Makes at most `limit` + 1
/// reads.
pub fn copy_version<R: Read, W: Write>(
    alloc: Global,
    reader: &mut R,
    writer: &mut W,
    limit: u64,
) -> Result<Option<Version>, FilingFault>
    ensures { ReadsUpTo R.Read limit reader.old reader.new
        (IsCopyOfVersion W.Write writer.old writer.new result limit) }
{
    match copy_found(alloc, reader, writer, limit) {
        Ok(found) => version_found(found),
        Err(fault) => Err(fault),
    }
}

fn version_found(found: Result<Version, KeyFault>) -> Result<Option<Version>, FilingFault>
    ensures { result ≡ version_answer found }
{
    match found {
        Ok(version) => Ok(Some(version)),
        Err(KeyFault::FileTooLong) => Err(FilingFault::Changed),
        Err(_) => Ok(None),
    }
}

/// Copies as `copy_version` does, and compares the copy with the wanted version.
pub fn file_image<R: Read, W: Write>(
    alloc: Global,
    reader: &mut R,
    writer: &mut W,
    wanted: &Wanted<'_>,
    limit: u64,
) -> Result<Filed, FilingFault>
    ensures { ReadsUpTo R.Read limit reader.old reader.new
        (IsFiled W.Write writer.old writer.new wanted.now.planned.now
        (option_map (λ said. said.now) wanted.now.said) result limit) }
{
    one_version();
    match copy_version(alloc, reader, writer, limit) {
        Ok(Some(found)) => Ok(Filed::of(&found, wanted)),
        Ok(None) => Ok(Filed::Mislabelled),
        Err(fault) => Err(fault),
    }
}
