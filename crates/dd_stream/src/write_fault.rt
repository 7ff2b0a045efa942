use thiserror::Error;

/// Says why bytes were not sent.
#[derive(Clone, Copy, Debug, PartialEq, Eq, Hash, Error)]
pub enum WriteFault {
    /// The writer failed after this number of bytes.
    #[error("12 Write {0}")]
    Write(u64),
    /// There are no bytes that spell the set, or a length has no room in its header.
    #[error("13 NotWritable")]
    NotWritable,
}
