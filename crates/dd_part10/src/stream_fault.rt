use crate::fault::FileFault;
use thiserror::Error;

/// Why no file was read from a reader. The first two come before every check of the bytes.
#[derive(Clone, Copy, Debug, PartialEq, Eq, Error)]
pub enum StreamFault {
    /// The reader failed.
    #[error("14 Read")]
    Read,
    /// The reader gave more bytes than the limit.
    #[error("15 TooLong")]
    TooLong,
    /// The bytes are no file, or an allocation was refused.
    #[error("{0}")]
    File(FileFault),
}
