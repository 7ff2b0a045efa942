ghost use Rattle.std.specs.Prelude.{◌≡◌, None};

use crate::merge_fault::MergeFault;
use crate::patient_names::PatientNames;
use dd_elem::{self, Uid};
use dd_layout::PlanFault;
use dd_sources::EngineFault;

/// A file that is left out, since other bytes are kept of its instance.
#[derive(Clone, Copy, Debug)]
pub struct LeftOut<T> {
    /// The origin of the file.
    pub file: T,
    /// The origin of the first file of the kept version.
    pub kept: T,
    /// The SOP Instance UID of both.
    pub instance: Uid,
}

/// The files of two kept versions whose keys conflict.
#[derive(Clone, Copy, Debug)]
pub struct ConflictingFiles<T> {
    /// The origin of the first file of the version that the fault names first.
    pub one: T,
    /// The origin of the first file of the other version.
    pub other: T,
}

/// Notes on the files that a plan was made from.
#[derive(Debug, Drop)]
pub struct Notes<T> {
    /// The files that are left out, in the order in which they came.
    pub left_out: Vec<LeftOut<T>>,
    /// The Patient IDs that have more than one Patient's Name, in rising order. A version counts where its digest is
    /// the one that is kept of its instance.
    pub names: Vec<PatientNames>,
}

/// A fault, with the files of two versions if these conflict.
#[derive(Clone, Copy, Debug)]
pub struct NotedFault<F, T> {
    /// Why there is no plan.
    pub fault: F,
    /// The files of the two versions that the fault names. None where it does not name two versions.
    pub conflict: Option<ConflictingFiles<T>>,
}

impl<T> From<EngineFault> for NotedFault<EngineFault, T> {
    ghost from_gives = { λ fault noted. noted ≡ record { fault = fault; conflict = None } };

    fn from(fault: EngineFault) -> NotedFault<EngineFault, T> {
        NotedFault {
            fault,
            conflict: None,
        }
    }
}

impl<T> From<dd_elem::Memory> for NotedFault<EngineFault, T> {
    ghost use Rattle.dd_sources.specs.declared.engine_fault.EngineFault.TheVariants as faults;

    ghost from_gives = { λ _ noted. noted ≡ record { fault = faults.Memory; conflict = None } };

    fn from(_refused: dd_elem::Memory) -> NotedFault<EngineFault, T> {
        NotedFault {
            fault: EngineFault::Memory,
            conflict: None,
        }
    }
}

impl<T> From<MergeFault> for NotedFault<MergeFault, T> {
    ghost from_gives = { λ fault noted. noted ≡ record { fault = fault; conflict = None } };

    fn from(fault: MergeFault) -> NotedFault<MergeFault, T> {
        NotedFault {
            fault,
            conflict: None,
        }
    }
}

impl<T> From<dd_elem::Memory> for NotedFault<MergeFault, T> {
    ghost use Rattle.dd_engine.specs.declared.merge_fault.MergeFault.TheVariants as faults;

    ghost from_gives = { λ _ noted. noted ≡ record { fault = faults.Memory; conflict = None } };

    fn from(_refused: dd_elem::Memory) -> NotedFault<MergeFault, T> {
        NotedFault {
            fault: MergeFault::Memory,
            conflict: None,
        }
    }
}

impl<T> From<PlanFault> for NotedFault<PlanFault, T> {
    ghost from_gives = { λ fault noted. noted ≡ record { fault = fault; conflict = None } };

    fn from(fault: PlanFault) -> NotedFault<PlanFault, T> {
        NotedFault {
            fault,
            conflict: None,
        }
    }
}

impl<T> From<dd_elem::Memory> for NotedFault<PlanFault, T> {
    ghost use Rattle.dd_layout.specs.declared.fault.PlanFault.TheVariants as faults;

    ghost from_gives = { λ _ noted. noted ≡ record { fault = faults.Memory; conflict = None } };

    fn from(_refused: dd_elem::Memory) -> NotedFault<PlanFault, T> {
        NotedFault {
            fault: PlanFault::Memory,
            conflict: None,
        }
    }
}
