/// Says what a caller gives of the file that a record names.
#[repr(C)]
#[derive(Debug, Clone, Copy, PartialEq, Eq)]
pub struct GivenFile {
    /// The number of the record, depth first from 0: its place among the rows that `rows` gives.
    pub row: u64,
    /// Where the bytes that are given of it end.
    pub end: u64,
    /// In what form it is given:
    ///
    /// - 0 where it could not be opened, 1 where a read of it failed
    /// - 2 all its bytes
    /// - 3 the 32 bytes of its SHA-256
    /// - 4 these 32 bytes, and then a DICOM file that has its values where keys are compared
    pub given: u32,
}
