use crate::source_fault::SourceFault;
use dd_version::Version;

/// A source, as a stage lists it.
#[derive(Debug, Drop)]
pub struct Staged {
    /// Its name as it was given, of any bytes.
    pub name: Vec<u8>,
    /// How many bytes its copy has. 0 where it was not read.
    pub size: u64,
    /// Its version, or why it has none.
    pub found: Result<Version, SourceFault>,
}
