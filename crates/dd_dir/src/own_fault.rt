//! Why a directory was not written here.

ghost use Rattle.std.specs.Prelude.{◌≡◌};
ghost use Rattle.dd_dir.specs.declared.own_fault.OwnFault.TheVariants as faults;

use dd_elem::Tag;
use std::alloc::{AllocError, AllocFailed};
use thiserror::Error;

/// Names the first check that fails where this crate did not write a directory: of its withdrawn UIDs or of a record,
/// depth first. An offset says where the record starts, from the first byte of the file.
#[derive(Debug, Clone, Copy, PartialEq, Eq, Error)]
pub enum OwnFault {
    /// The IMAGE record has no digest of its file.
    #[error("61 NoDigest {0}")]
    NoDigest(u32),
    /// The record is not in use, is below an image, or its type is not the one of its level.
    #[error("62 ForeignRecord {0}")]
    ForeignRecord(u32),
    /// The element with this tag is not what the record must have there.
    #[error("63 RecordKey {0} {1}")]
    RecordKey(u32, Tag),
    /// The value that names the withdrawn UIDs has a piece that is not a UID, or its pieces do not rise.
    #[error("65 BadWithdrawal")]
    BadWithdrawal,
    /// An allocation was refused.
    #[error("91 Memory")]
    Memory,
}

impl From<AllocError> for OwnFault {
    ghost from_gives = { λ _ fault. fault ≡ faults.Memory };

    fn from(_refused: AllocError) -> OwnFault {
        OwnFault::Memory
    }
}

impl From<dd_elem::Memory> for OwnFault {
    ghost from_gives = { λ _ fault. fault ≡ faults.Memory };

    fn from(_refused: dd_elem::Memory) -> OwnFault {
        OwnFault::Memory
    }
}

impl<T: Drop> From<AllocFailed<T>> for OwnFault {
    ghost from_gives = { λ _ fault. fault ≡ faults.Memory };

    fn from(_refused: AllocFailed<T>) -> OwnFault {
        OwnFault::Memory
    }
}
