use dd_elem::{SetId, Uid};

/// Names a file-set by its ID and its UID (PS3.3 section F.3.2.1, PS3.10 section 8.6).
#[derive(Clone, Copy, Debug, PartialEq, Eq)]
pub struct Label {
    /// The File-set ID, which may be empty.
    pub id: SetId,
    /// The SOP Instance UID of the directory.
    pub uid: Uid,
}
