use dd_keys::KeyFault;
use thiserror::Error;

/// Says why a source has no version.
#[derive(Clone, Copy, Debug, PartialEq, Eq, Error)]
pub enum SourceFault {
    /// Its copy has none.
    #[error("{0}")]
    Key(KeyFault),
    /// It was not opened.
    #[error("92 Absent")]
    Absent,
    /// A read of it failed.
    #[error("93 Unread")]
    Unread,
    /// Its name, which has this number within the stage, from 1, is not UTF-8.
    #[error("99 BadName {0}")]
    BadName(u32),
}
