ghost use Rattle.std.specs.Prelude.{◌≡◌};
ghost use Rattle.dd_pile.specs.declared.pile_fault.PileFault.TheVariants as faults;

use dd_elem::Memory;
use thiserror::Error;

/// Why the list of a pile was not read.
#[derive(Clone, Copy, Debug, PartialEq, Eq, Error)]
pub enum PileFault {
    /// It has more than 4,294,967,295 bytes.
    #[error("39 FileTooLong")]
    TooLong,
    /// The item with this number, from 1, spells no source. 0 where the bytes are no list of items.
    #[error("66 BadStage {0}")]
    BadStage(u64),
    /// An allocation was refused.
    #[error("91 Memory")]
    Memory,
    /// It could not be opened.
    #[error("92 Absent")]
    Absent,
    /// A read of it failed.
    #[error("93 Unread")]
    Unread,
}

impl From<Memory> for PileFault {
    ghost from_gives = { λ _ fault. fault ≡ faults.Memory };

    fn from(_refused: Memory) -> PileFault {
        PileFault::Memory
    }
}
