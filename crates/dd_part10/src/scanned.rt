use dd_encoding::Meta;
use dd_scan::Found;

/// What was read of a DICOM file whose data set was not kept.
#[derive(Debug, Drop, PartialEq)]
pub struct Scanned {
    pub meta: Meta,
    /// The wanted elements of its data set, in the order of tags.
    pub found: Vec<Found>,
}
