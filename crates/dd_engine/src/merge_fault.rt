ghost use Rattle.std.specs.Prelude.{◌≡◌};
ghost use Rattle.dd_engine.specs.declared.merge_fault.MergeFault.TheVariants as faults;

use dd_dir::OwnFault;
use dd_elem;
use dd_layout::PlanFault;
use dd_walk::DirFault;
use thiserror::Error;

/// Says why a merge was not made.
#[derive(Clone, Copy, Debug, PartialEq, Eq, Error)]
pub enum MergeFault {
    /// The set with this number is no directory that can be read.
    #[error("{1}")]
    Dir(usize, DirFault),
    /// The directory of this number was not written here: what names its withdrawn UIDs fails its check, or a record
    /// does.
    #[error("{1}")]
    Own(usize, OwnFault),
    /// The versions have no plan, for this reason.
    #[error(transparent)]
    Plan(PlanFault),
    /// An allocation was refused.
    #[error("91 Memory")]
    Memory,
}

impl From<dd_elem::Memory> for MergeFault {
    ghost from_gives = { λ _ fault. fault ≡ faults.Memory };

    fn from(_refused: dd_elem::Memory) -> MergeFault {
        MergeFault::Memory
    }
}

impl From<PlanFault> for MergeFault {
    ghost use Rattle.dd_engine.specs.MergeSteps.{plan_fault};

    ghost from_gives = { λ plan fault. fault ≡ plan_fault plan };

    fn from(fault: PlanFault) -> MergeFault {
        match fault {
            PlanFault::Memory => MergeFault::Memory,
            fault => MergeFault::Plan(fault),
        }
    }
}
