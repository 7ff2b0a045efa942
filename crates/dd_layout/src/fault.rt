ghost use Rattle.std.specs.Prelude.{◌≡◌};
ghost use Rattle.dd_layout.specs.declared.fault.PlanFault.TheVariants as faults;

use dd_elem::{self, Uid};
use dd_records::Level;
use std::alloc::{AllocError, AllocFailed};
use thiserror::Error;

/// Why nothing was laid out.
#[derive(Clone, Copy, Debug, PartialEq, Eq, Error)]
pub enum PlanFault {
    /// The instances of these UIDs have one study below two patients, or one series below two studies.
    #[error("41 Conflict {0} {1}")]
    Conflict(Uid, Uid),
    /// More records of this level stand below one than the limits allow.
    #[error("42 TooMany {0}")]
    TooMany(Level),
    /// The directory has more bytes than the limits allow.
    #[error("43 TooLarge")]
    TooLarge,
    /// An allocation was refused.
    #[error("91 Memory")]
    Memory,
}

impl From<AllocError> for PlanFault {
    ghost from_gives = { λ _ fault. fault ≡ faults.Memory };

    fn from(_refused: AllocError) -> PlanFault {
        PlanFault::Memory
    }
}

impl From<dd_elem::Memory> for PlanFault {
    ghost from_gives = { λ _ fault. fault ≡ faults.Memory };

    fn from(_refused: dd_elem::Memory) -> PlanFault {
        PlanFault::Memory
    }
}

impl<T: Drop> From<AllocFailed<T>> for PlanFault {
    ghost from_gives = { λ _ fault. fault ≡ faults.Memory };

    fn from(_refused: AllocFailed<T>) -> PlanFault {
        PlanFault::Memory
    }
}
