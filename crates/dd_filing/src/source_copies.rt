//! Copies of sources, of which nothing is planned: each with its version or its fault.

ghost use Rattle.std.specs.Prelude.{◌≡◌};
ghost use Rattle.dd_stream.specs.Reads.{ReadsUpTo};
ghost use Rattle.dd_filing.specs.Copies.{IsSourceCopy};

use crate::copying::{FilingFault, copy_found};
use crate::measured::Measured;
use dd_elem::{Read, Write};
use dd_keys::KeyFault;
use dd_version::Version;
use std::alloc::Global;

/// A copy of a source.
#[derive(Debug, Drop)]
pub struct SourceCopy {
    /// How many bytes it has, up to `u64::MAX`.
    pub size: u64,
    /// The version of the source, or its fault.
    pub found: Result<Version, KeyFault>,
}

/// Copies what a reader gives to its end. Answers the version whose file the bytes are, or the fault of these bytes.
///
/// A reader that gives more than `limit` bytes has no version by FileTooLong, and its copy then is of `limit` + 1
/// bytes. After Unsent the writer holds a first part of what the reader gave, and else all of it. Makes at most
/// `limit` + 1 reads.
pub fn copy_source<R: Read, W: Write>(
    alloc: Global,
    reader: &mut R,
    writer: &mut W,
    limit: u64,
) -> Result<SourceCopy, FilingFault>
    ensures { ReadsUpTo R.Read limit reader.old reader.new
        (IsSourceCopy W.Write writer.old writer.new result limit) }
{
    let mut measured = Measured { reader, size: 0 };
    copy_measured(alloc, &mut measured, writer, limit)
}

fn copy_measured<R: Read, W: Write>(
    alloc: Global,
    measured: &mut Measured<'_, R>,
    writer: &mut W,
    limit: u64,
) -> Result<SourceCopy, FilingFault>
    requires { measured.old.size ≡ 0 }
    ensures same { measured.new.reader.ghost_name ≡ measured.old.reader.ghost_name }
    ensures copied { ReadsUpTo R.Read limit measured.old.reader.now measured.new.reader.now
        (IsSourceCopy W.Write writer.old writer.new result limit) }
{
    match copy_found(alloc, measured, writer, limit) {
        Ok(found) => Ok(SourceCopy {
            size: measured.size,
            found,
        }),
        Err(fault) => Err(fault),
    }
}
