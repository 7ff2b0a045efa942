ghost use Rattle.std.specs.Prelude.{◌≡◌, ◌↔◌, IsTrue};
ghost use Rattle.dd_keys.specs.Answers.{refusal_of};
ghost use Rattle.dd_keys.specs.Faults.{SaysMemory};
ghost use Rattle.dd_keys.specs.declared.fault.KeyFault.TheVariants as faults;

use dd_elem::{self, Tag, Uid};
use dd_part10::{FileFault, StreamFault};
use thiserror::Error;

/// Says which check a file fails first, that its reader failed or gave too many bytes, or that an allocation was
/// refused.
#[derive(Clone, Copy, Debug, PartialEq, Eq, Error)]
pub enum KeyFault {
    /// The bytes are no file, or an allocation was refused while they were read as one.
    #[error("31 File {0}")]
    File(FileFault),
    /// The file is of this SOP class, which is no image class that is taken.
    #[error("32 NotImage {0}")]
    NotImage(Uid),
    /// The element with this tag is absent or empty.
    #[error("33 MissingKey {0}")]
    MissingKey(Tag),
    /// The element with this tag has a value that is no UID.
    #[error("34 BadKeyUid {0}")]
    BadKeyUid(Tag),
    /// The element with this tag has more than 1,024 bytes without padding.
    #[error("35 KeyTooLong {0}")]
    KeyTooLong(Tag),
    /// The element with this tag is a sequence.
    #[error("36 KeyIsSequence {0}")]
    KeyIsSequence(Tag),
    /// The element with this tag has another UID than group 0002.
    #[error("37 MetaMismatch {0}")]
    MetaMismatch(Tag),
    /// A read of the file failed.
    #[error("38 Read")]
    Read,
    /// The reader gave more bytes than the limit.
    #[error("39 FileTooLong")]
    FileTooLong,
    /// An allocation was refused after all checks.
    #[error("91 Memory")]
    Memory,
}

impl KeyFault {
    /// Says whether an allocation was refused.
    pub fn is_want_of_memory(&self) -> bool
        ensures { IsTrue result ↔ SaysMemory self.now }
    {
        match self {
            KeyFault::Memory => true,
            KeyFault::File(fault) => fault.is_want_of_memory(),
            _ => false,
        }
    }
}

impl From<FileFault> for KeyFault {
    ghost from_gives = { λ fault e. e ≡ faults.File fault };

    fn from(fault: FileFault) -> KeyFault {
        KeyFault::File(fault)
    }
}

impl From<StreamFault> for KeyFault {
    ghost from_gives = { λ fault e. e ≡ refusal_of fault };

    fn from(fault: StreamFault) -> KeyFault {
        match fault {
            StreamFault::Read => KeyFault::Read,
            StreamFault::TooLong => KeyFault::FileTooLong,
            StreamFault::File(fault) => KeyFault::File(fault),
        }
    }
}

impl From<dd_elem::Memory> for KeyFault {
    ghost from_gives = { λ _ e. e ≡ faults.Memory };

    fn from(_refused: dd_elem::Memory) -> KeyFault {
        KeyFault::Memory
    }
}
