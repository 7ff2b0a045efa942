use dd_grammar::SetFault;
use thiserror::Error;

/// Why a scan has no answer. The first two come before every check of the bytes.
#[derive(Clone, Copy, Debug, PartialEq, Eq, Hash, Error)]
pub enum ScanFault {
    /// The reader failed.
    #[error("14 Read")]
    Read,
    /// The reader gave more bytes than the limit.
    #[error("15 TooLong")]
    TooLong,
    /// The bytes are no data set, or an allocation was refused.
    #[error("{0}")]
    Set(SetFault),
}
