ghost use Rattle.std.specs.Prelude.{◌≡◌};
ghost use Rattle.dd_calls.specs.Findings.{finding_row, row_by};

use crate::answer::{file_cause, file_tag, file_within};
use dd_report::Finding;

/// Says what is found of a file.
#[repr(C)]
#[derive(Debug, Clone, Copy, PartialEq, Eq)]
pub struct FindingRow {
    /// What is found: 0 nothing, 1 BADID, 2 MISSING, 3 UNREADABLE, 4 DIFFERS, 5 MISLABELLED by a tag, 6 MISLABELLED as
    /// no DICOM file, 7 NODIGEST.
    pub kind: u32,
    /// Of 5 the tag, its group in the upper 16 bits; of 6 the tag in group 0002 that is at fault; else 0.
    pub tag: u32,
    /// Of 6 the number of the fault of the file, 21 to 27, else 0.
    pub within: u32,
    /// Of 6 the number of the fault of its data set, 1 to 10, else 0.
    pub cause: u32,
}

impl FindingRow {
    /// Makes the row of what is found.
    pub(crate) fn of(finding: Option<Finding>) -> FindingRow
        ensures { result ≡ finding_row finding }
    {
        match finding {
            None => FindingRow::by_kind(0),
            Some(Finding::BadId) => FindingRow::by_kind(1),
            Some(Finding::Missing) => FindingRow::by_kind(2),
            Some(Finding::Unreadable) => FindingRow::by_kind(3),
            Some(Finding::Differs { .. }) => FindingRow::by_kind(4),
            Some(Finding::Mislabelled(tag)) => FindingRow {
                tag: tag.number(),
                ..FindingRow::by_kind(5)
            },
            Some(Finding::NoFile(fault)) => FindingRow {
                kind: 6,
                tag: file_tag(&fault),
                within: file_within(&fault),
                cause: file_cause(&fault),
            },
            Some(Finding::NoDigest) => FindingRow::by_kind(7),
        }
    }

    fn by_kind(kind: u32) -> FindingRow
        ensures { result ≡ row_by kind 0 0 0 }
    {
        FindingRow {
            kind,
            tag: 0,
            within: 0,
            cause: 0,
        }
    }
}
