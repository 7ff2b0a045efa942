use dd_encoding::Meta;
use dd_set::DataSet;

/// A DICOM file (PS3.10 section 7). The values of its data set are slices of the file's bytes.
#[derive(Debug, Drop, PartialEq)]
pub struct DicomFile<'a> {
    pub meta: Meta,
    pub set: DataSet<'a>,
    /// The place in the file of the data set's first byte.
    pub set_at: u64,
}
