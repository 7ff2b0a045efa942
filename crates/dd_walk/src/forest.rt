//! What a directory holds, as trees of its records.

use dd_elem::Uid;
use dd_set::DataSet;

/// The records of a directory as their offsets join them (PS3.3 section F.4). The values are slices of
/// the bytes that it was read from.
#[derive(Debug, Drop)]
pub struct Forest<'a> {
    /// The Media Storage SOP Instance UID (0002,0003), which is the UID of the file-set.
    pub uid: Uid,
    /// The File-set ID without its padding; empty where there is no ID.
    pub id: &'a [u8],
    /// The value that names the withdrawn SOP Instance UIDs, without its padding: None where it is not in the block
    /// of private elements of its creator (PS3.5 section 7.8.1).
    pub withdrawn: Option<&'a [u8]>,
    /// The root records, in the order of their links.
    pub trees: Vec<Tree<'a>>,
    /// How many items no offset reaches.
    pub unreached: u64,
}

/// A record, and those below it.
#[derive(Debug, Drop)]
pub struct Tree<'a> {
    /// The offset of its Item tag from the first byte of the file.
    pub at: u32,
    /// Its type (0004,1430) without its padding, such as `PATIENT`.
    pub kind: &'a [u8],
    /// Whether its in-use flag (0004,1410) is FFFFH.
    pub in_use: bool,
    pub set: DataSet<'a>,
    /// The records below it, in the order of their links.
    pub below: Vec<Tree<'a>>,
}
