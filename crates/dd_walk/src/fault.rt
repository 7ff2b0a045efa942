//! Why bytes are no directory that can be read.

ghost use Rattle.std.specs.Prelude.{◌≡◌, ◌↔◌, IsTrue};
ghost use Rattle.dd_walk.specs.declared.fault.DirFault.TheVariants as faults;
ghost use Rattle.dd_walk.specs.ReadAnswers.{SaysMemory};

use dd_elem;
use dd_part10::FileFault;
use std::alloc::{AllocError, AllocFailed};
use thiserror::Error;

/// Names the first check that bytes fail where they are no directory, or its offsets form no trees (PS3.3 section
/// F.3.2). An offset is the record's, from the first byte of the file.
#[derive(Debug, Clone, Copy, PartialEq, Eq, Error)]
pub enum DirFault {
    /// The bytes are no DICOM file.
    #[error("51 File {0}")]
    File(FileFault),
    /// The class or the transfer syntax is not a directory's, an offset of a root is not a value of 4
    /// bytes, or the records are no items.
    #[error("52 NotDirectory")]
    NotDirectory,
    /// A record lacks one of the values that each must have, or it has another form.
    #[error("53 RecordShape {0}")]
    RecordShape(u32),
    /// No item starts at the offset.
    #[error("54 Dangling {0}")]
    Dangling(u32),
    /// The record was reached before.
    #[error("55 Twice {0}")]
    Twice(u32),
    /// The last root record is another one than the directory names.
    #[error("56 LastRoot")]
    LastRoot,
    /// An allocation was refused.
    #[error("91 Memory")]
    Memory,
    /// The record would be below 32 others.
    #[error("58 TooDeep {0}")]
    TooDeep(u32),
}

impl DirFault {
    /// Says whether an allocation was refused.
    pub fn is_want_of_memory(&self) -> bool
        ensures { IsTrue result ↔ SaysMemory self.now }
    {
        match self {
            DirFault::Memory => true,
            DirFault::File(fault) => fault.is_want_of_memory(),
            _ => false,
        }
    }
}

impl From<AllocError> for DirFault {
    ghost from_gives = { λ _ fault. fault ≡ faults.Memory };

    fn from(_refused: AllocError) -> DirFault {
        DirFault::Memory
    }
}

impl<T: Drop> From<AllocFailed<T>> for DirFault {
    ghost from_gives = { λ _ fault. fault ≡ faults.Memory };

    fn from(_refused: AllocFailed<T>) -> DirFault {
        DirFault::Memory
    }
}

impl From<dd_elem::Memory> for DirFault {
    ghost from_gives = { λ _ fault. fault ≡ faults.Memory };

    fn from(_refused: dd_elem::Memory) -> DirFault {
        DirFault::Memory
    }
}
