ghost use Rattle.std.specs.Prelude.{◌≡◌};
ghost use Rattle.dd_pile.specs.declared.refusal.StageRefusal.TheVariants as refusals;

use dd_elem::Memory;
use std::alloc::{AllocError, AllocFailed};
use thiserror::Error;

/// Why a pile was not made. A source is named by its number, from 0.
#[derive(Clone, Copy, Debug, PartialEq, Eq, Error)]
pub enum StageRefusal {
    /// The list would have more than 4,294,967,295 bytes.
    #[error("43 TooLarge")]
    ListTooLarge,
    /// An allocation was refused.
    #[error("91 Memory")]
    Memory,
    /// This source could not be opened.
    #[error("92 Absent")]
    Absent(usize),
    /// A read of this source failed.
    #[error("93 Unread")]
    Unread(usize),
    /// The copy of this source is there already, or it could not be made.
    #[error("94 Create")]
    CopyUnmade(usize),
    /// The list is there already, or it could not be made.
    #[error("94 Create")]
    ListUnmade,
    /// The folder of the pile could not be made.
    #[error("95 Folder")]
    PileUnmade,
    /// The folder of the copy of this source could not be made.
    #[error("95 Folder")]
    FolderUnmade(usize),
    /// A write to the copy of this source failed, or its end.
    #[error("96 Unsent")]
    CopyUnsent(usize),
    /// A write to the list failed, or its end.
    #[error("96 Unsent")]
    ListUnsent,
    /// A file or a folder was not stored: the one that `Files::unstored` names.
    #[error("96 Unsent")]
    Unstored,
}

impl From<Memory> for StageRefusal {
    ghost from_gives = { λ _ refusal. refusal ≡ refusals.Memory };

    fn from(_refused: Memory) -> StageRefusal {
        StageRefusal::Memory
    }
}

impl From<AllocError> for StageRefusal {
    ghost from_gives = { λ _ refusal. refusal ≡ refusals.Memory };

    fn from(_refused: AllocError) -> StageRefusal {
        StageRefusal::Memory
    }
}

impl<T: Drop> From<AllocFailed<T>> for StageRefusal {
    ghost from_gives = { λ _ refusal. refusal ≡ refusals.Memory };

    fn from(_refused: AllocFailed<T>) -> StageRefusal {
        StageRefusal::Memory
    }
}
