ghost use Rattle.std.specs.Prelude.{◌≡◌};
ghost use Rattle.dd_sources.specs.declared.engine_fault.EngineFault.TheVariants as faults;

use dd_elem;
use dd_layout::PlanFault;
use thiserror::Error;

/// Says why an index was not made.
#[derive(Clone, Copy, Debug, PartialEq, Eq, Error)]
pub enum EngineFault {
    /// An allocation was refused.
    #[error("91 Memory")]
    Memory,
    /// The source with this number could not be opened.
    #[error("92 Absent")]
    Absent(usize),
    /// A read of the source with this number failed.
    #[error("93 Unread")]
    Unread(usize),
    /// The versions have no plan, for this reason.
    #[error(transparent)]
    Plan(PlanFault),
}

impl From<dd_elem::Memory> for EngineFault {
    ghost from_gives = { λ _ fault. fault ≡ faults.Memory };

    fn from(_refused: dd_elem::Memory) -> EngineFault {
        EngineFault::Memory
    }
}

impl From<PlanFault> for EngineFault {
    ghost use Rattle.dd_sources.specs.Faults.{as_engine};

    ghost from_gives = { λ plan fault. fault ≡ as_engine plan };

    fn from(fault: PlanFault) -> EngineFault {
        match fault {
            PlanFault::Memory => EngineFault::Memory,
            fault => EngineFault::Plan(fault),
        }
    }
}
