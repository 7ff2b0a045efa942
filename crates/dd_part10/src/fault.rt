ghost use Rattle.std.specs.Prelude.{◌↔◌, IsTrue};
ghost use Rattle.dd_part10.specs.Faults.{SaysMemory};

use dd_elem::{Tag, Uid};
use dd_set::SetFault;
use thiserror::Error;

/// The first check that bytes fail as a DICOM file (PS3.10 section 7). Lack of memory is a `Meta` or a `Set` with
/// `SetFault::Memory`, and comes where that check does.
#[derive(Clone, Copy, Debug, PartialEq, Eq, Error)]
pub enum FileFault {
    /// There are not 128 bytes and then `DICM`.
    #[error("21 NotPart10")]
    NotPart10,
    /// The group length (0002,0000) does not follow `DICM`, is above 65,536, or counts more bytes than there are.
    /// After `Meta`: these bytes hold an element of another group, or (0002,0000) again. Last of all checks: the data
    /// set begins with group 0002 or a lower one.
    #[error("22 GroupLength")]
    GroupLength,
    /// The element with this tag is not there.
    #[error("23 MetaMissing {0}")]
    MetaMissing(Tag),
    /// The element with this tag holds items, or its value without padding is no UID.
    #[error("24 MetaUid {0}")]
    MetaUid(Tag),
    /// This transfer syntax of the data set is not known.
    #[error("25 OtherSyntax {0}")]
    OtherSyntax(Uid),
    /// The bytes that the group length counts are no data set. This comes before any check of what they hold.
    #[error("26 Meta {0}")]
    Meta(SetFault),
    /// The bytes after group 0002 are no data set.
    #[error("27 Set {0}")]
    Set(SetFault),
}

impl FileFault {
    /// Says whether an allocation was refused.
    pub fn is_want_of_memory(&self) -> bool
        ensures { IsTrue result ↔ SaysMemory self.now }
    {
        matches!(
            self,
            FileFault::Meta(SetFault::Memory) | FileFault::Set(SetFault::Memory)
        )
    }
}
