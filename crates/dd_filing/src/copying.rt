//! Copies of what a reader gives, which are read as versions meanwhile.

ghost use Rattle.std.specs.Prelude.{◌≡◌, None};
ghost use Rattle.dd_stream.specs.Reads.{ReadsUpTo};
ghost use Rattle.dd_filing.specs.Copies.{IsFoundAnswer, IsFoundCopy};
ghost use Rattle.dd_filing.specs.CopySteps.{IsFilingFault};

use crate::tee::Tee;
use dd_elem::{Read, Write};
use dd_keys::{KeyFault, ingest};
use dd_version::Version;
use std::alloc::Global;
use thiserror::Error;

/// Says why a copy was refused.
#[derive(Clone, Copy, Debug, PartialEq, Eq, Error)]
pub enum FilingFault {
    /// An allocation was refused.
    #[error("91 Memory")]
    Memory,
    /// The reader failed.
    #[error("93 Unread")]
    Unread,
    /// The writer failed.
    #[error("96 Unsent")]
    Unsent,
    /// The reader gave more bytes than the limit, so the image has changed.
    #[error("97 Changed")]
    Changed,
}

/// Copies as `copy_source` does, and does not count the bytes.
pub(crate) fn copy_found<R: Read, W: Write>(
    alloc: Global,
    reader: &mut R,
    writer: &mut W,
    limit: u64,
) -> Result<Result<Version, KeyFault>, FilingFault>
    ensures { ReadsUpTo R.Read limit reader.old reader.new
        (IsFoundCopy W.Write writer.old writer.new result limit) }
{
    let mut tee = Tee {
        reader,
        writer,
        late: None,
    };
    find_through(alloc, &mut tee, limit)
}

fn find_through<R: Read, W: Write>(
    alloc: Global,
    tee: &mut Tee<'_, R, W>,
    limit: u64,
) -> Result<Result<Version, KeyFault>, FilingFault>
    requires { tee.old.late ≡ None }
    ensures same_reader { tee.new.reader.ghost_name ≡ tee.old.reader.ghost_name }
    ensures same_writer { tee.new.writer.ghost_name ≡ tee.old.writer.ghost_name }
    ensures copied { ReadsUpTo R.Read limit tee.old.reader.now tee.new.reader.now
        (IsFoundCopy W.Write tee.old.writer.now tee.new.writer.now result limit) }
{
    let answer = ingest(alloc, tee, limit);
    found_answer(answer, tee.late)
}

/// Keeps a fault of the source. FileTooLong is one. Unsent where a write failed.
fn found_answer(
    answer: Result<Version, KeyFault>,
    late: Option<u64>,
) -> Result<Result<Version, KeyFault>, FilingFault>
    ensures { IsFoundAnswer late answer result }
{
    if late.is_some() {
        return Err(FilingFault::Unsent);
    }
    match answer {
        Ok(version) => Ok(Ok(version)),
        Err(fault) => match filing_fault(&fault) {
            Some(FilingFault::Changed) | None => Ok(Err(fault)),
            Some(fault) => Err(fault),
        },
    }
}

pub(crate) fn filing_fault(fault: &KeyFault) -> Option<FilingFault>
    ensures { IsFilingFault fault.now result }
{
    match fault {
        KeyFault::Read => Some(FilingFault::Unread),
        KeyFault::FileTooLong => Some(FilingFault::Changed),
        other => {
            if other.is_want_of_memory() {
                Some(FilingFault::Memory)
            } else {
                None
            }
        }
    }
}
