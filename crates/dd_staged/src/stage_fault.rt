ghost use Rattle.std.specs.Prelude.{◌≡◌};
ghost use Rattle.dd_staged.specs.declared.stage_fault.StageFault.TheVariants as faults;

use std::alloc::AllocFailed;
use thiserror::Error;

/// Says why bytes give no list of sources.
#[derive(Clone, Copy, Debug, PartialEq, Eq, Error)]
pub enum StageFault {
    /// The item with this number, from 1, spells no source. 0 where the bytes are no list of items.
    #[error("66 BadStage {0}")]
    BadStage(u64),
    /// An allocation was refused.
    #[error("91 Memory")]
    Memory,
}

impl<T: Drop> From<AllocFailed<T>> for StageFault {
    ghost from_gives = { λ _ fault. fault ≡ faults.Memory };

    fn from(_refused: AllocFailed<T>) -> StageFault {
        StageFault::Memory
    }
}
