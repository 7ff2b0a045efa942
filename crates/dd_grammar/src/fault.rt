ghost use Rattle.std.specs.Prelude.{◌≡◌};
ghost use Rattle.dd_grammar.specs.declared.fault.SetFault.TheVariants.{Memory};

use std::alloc::{AllocError, AllocFailed};
use thiserror::Error;

/// The first check that bytes fail as a data set (PS3.5 sections 7.1 and 7.5, annex A.4), or lack of memory.
#[derive(Clone, Copy, Debug, PartialEq, Eq, Hash, Error)]
pub enum SetFault {
    /// The bytes end within a header, a value, an item or a list of fragments.
    #[error("1 Truncated")]
    Truncated,
    /// A tag is not above the tag before it in its set.
    #[error("2 Order")]
    Order,
    /// Two letters name no value representation.
    #[error("3 BadVr")]
    BadVr,
    /// The reserved bytes of a long header are not zero.
    #[error("4 Reserved")]
    Reserved,
    /// A length is odd.
    #[error("5 OddLength")]
    OddLength,
    /// A length is undefined where neither a sequence nor fragments may follow, or for a fragment.
    #[error("6 UndefinedLength")]
    UndefinedLength,
    /// A tag of group FFFE stands where it may not, or another one where an item or a fragment has to begin.
    #[error("7 UnexpectedTag")]
    UnexpectedTag,
    /// A delimiter has a length other than 0.
    #[error("8 BadDelimiter")]
    BadDelimiter,
    /// An element, an item or a fragment passes the end of the item or sequence that holds it.
    #[error("9 Overrun")]
    Overrun,
    /// Items nest deeper than 32 levels.
    #[error("10 TooDeep")]
    TooDeep,
    /// An allocation was refused.
    #[error("91 Memory")]
    Memory,
}

impl From<AllocError> for SetFault {
    ghost from_gives = { λ _ e. e ≡ Memory };

    fn from(_error: AllocError) -> SetFault {
        SetFault::Memory
    }
}

impl<T: Drop> From<AllocFailed<T>> for SetFault {
    ghost from_gives = { λ _ e. e ≡ Memory };

    fn from(_error: AllocFailed<T>) -> SetFault {
        SetFault::Memory
    }
}
