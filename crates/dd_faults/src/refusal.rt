//! Why a run is refused.
ghost use Rattle.std.specs.Prelude.{◌≡◌};
ghost use Rattle.dd_faults.specs.declared.refusal.ProgramFault.TheVariants as faults;
ghost use Rattle.dd_faults.specs.declared.refusal.Subject.TheVariants as subjects;

use crate::image_path::PathText;
use dd_dir::OwnFault;
use dd_elem::{BadSetId, BadUid, FileId, Memory};
use dd_layout::PlanFault;
use dd_walk::DirFault;
use std::alloc::AllocError;
use thiserror::Error;

/// Why a run ended before its work was done.
#[derive(Clone, Copy, Debug, PartialEq, Eq, Error)]
pub enum ProgramFault {
    /// The versions have no plan, for this reason.
    #[error(transparent)]
    Plan(PlanFault),
    /// The command line gives a UID of the wrong form.
    #[error(transparent)]
    Uid(BadUid),
    /// The command line gives a File-set ID of the wrong form.
    #[error(transparent)]
    SetId(BadSetId),
    /// The directory, the list of names or that of a pile has more than 4,294,967,295 bytes.
    #[error("39 FileTooLong")]
    TooLong,
    /// The list of a pile would have more than 4,294,967,295 bytes.
    #[error("43 TooLarge")]
    ListTooLarge,
    /// The item with this number of the list of a pile, from 1, spells no source. 0 where the list has no items.
    #[error("66 BadStage {0}")]
    BadStage(u64),
    /// The file-set has no directory that can be read.
    #[error(transparent)]
    Dir(DirFault),
    /// The directory was not written here: what names its withdrawn UIDs fails its check, or a record does.
    #[error(transparent)]
    Own(OwnFault),
    /// An allocation was refused.
    #[error("91 Memory")]
    Memory,
    /// The file could not be opened for reading, or its path is empty.
    #[error("92 Absent")]
    Absent,
    /// A read of the file failed.
    #[error("93 Unread")]
    Unread,
    /// The file or the pile is there already, or it could not be made.
    #[error("94 Create")]
    Create,
    /// The folder could not be made, or its path is empty.
    #[error("95 Folder")]
    Folder,
    /// A write to the file failed, or its end, or a file or a folder was not stored.
    #[error("96 Unsent")]
    Unsent,
    /// A source is not what it was when it was read first, the file of a set is not what records say of it, or the copy
    /// in a pile is not what the list says of it.
    #[error("97 Changed")]
    Changed,
    /// A line SKIP or NOTE was printed, and the command line has `--strict`.
    #[error("98 Strict")]
    Strict,
    /// The name of this number in the list of names is empty or not UTF-8, or the list has none.
    #[error("99 BadName {0}")]
    BadName(usize),
}

impl From<AllocError> for ProgramFault {
    ghost from_gives = { λ _ fault. fault ≡ faults.Memory };

    fn from(_error: AllocError) -> ProgramFault {
        ProgramFault::Memory
    }
}

/// What a fault concerns.
#[derive(Clone, Copy)]
pub enum Subject {
    /// No file: memory ran out, or the plan or the command line is refused.
    General,
    /// The path with this index: a source, or the folder of a file-set or pile that is read.
    Source(usize),
    /// The directory in that folder.
    SetDirectory(usize),
    /// The file in that folder that has this path there.
    SetFile(usize, PathText),
    /// The file in the pile of this index that has this path there.
    PileFile(usize, PathText),
    /// The folder of the file-set or of the pile that is made.
    Folder,
    /// The file or folder that has this path in the pile that is made.
    InPile(PathText),
    /// The directory of the file-set that is made.
    Directory,
    /// The copy of the image with this File ID.
    Image(FileId),
    /// The folder of that copy.
    ImageFolder(FileId),
    /// The list of names.
    List,
    /// What the files say was not stored.
    Unstored,
}

/// Why a run is refused, and what that concerns.
#[derive(Clone, Copy)]
pub struct Refusal {
    /// What the fault concerns.
    pub subject: Subject,
    /// Why the run is refused.
    pub fault: ProgramFault,
}

impl Refusal {
    /// Makes a refusal that concerns no file.
    pub fn general(fault: ProgramFault) -> Refusal
        ensures { result ≡ record { subject = Subject.General; fault = fault } }
    {
        Refusal {
            subject: Subject::General,
            fault,
        }
    }

    /// Makes the refusal of what the fault concerns.
    pub fn of(subject: Subject, fault: ProgramFault) -> Refusal
        ensures { result ≡ record { subject = subject; fault = fault } }
    {
        Refusal { subject, fault }
    }

    /// Makes the refusal of an allocation.
    pub fn memory() -> Refusal
        ensures { result ≡ record { subject = Subject.General; fault = ProgramFault.Memory } }
    {
        Refusal::general(ProgramFault::Memory)
    }
}

impl From<Memory> for Refusal {
    ghost from_gives = { λ _ refusal.
        refusal ≡ record { subject = subjects.General; fault = faults.Memory } };

    fn from(_refused: Memory) -> Refusal {
        Refusal::memory()
    }
}
