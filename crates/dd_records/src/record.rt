use crate::level::Level;
use dd_elem::FileId;

/// A record, and where it stands. Offsets count from the first byte of the file to the Item tag of a record, and 0
/// stands for none (PS3.3 section F.3.2.2).
#[derive(Clone, Copy, Debug, PartialEq, Eq)]
pub struct PlanRecord {
    pub level: Level,
    /// Its offset.
    pub at: u32,
    /// The offset of the next record of the same parent.
    pub next: u32,
    /// The offset of the first record below.
    pub lower: u32,
    /// The File ID, of an image alone.
    pub file: Option<FileId>,
    /// The index of its version.
    pub of: usize,
}
