//! The table of the elements that give a version its keys.

use dd_elem::{Tag, tags};

/// An element whose value is a key: at most 1,024 bytes without padding.
#[derive(Clone, Copy)]
pub(crate) struct KeyRow {
    pub tag: Tag,
    /// The key where the element is absent or empty.
    pub when_empty: &'static [u8],
}

/// An element whose value is a UID, and may not be empty.
#[derive(Clone, Copy)]
pub(crate) struct UidRow {
    pub tag: Tag,
    /// The UID of group 0002 that it has to repeat.
    pub same_as: Option<MetaUid>,
}

#[derive(Clone, Copy)]
pub(crate) enum MetaUid {
    /// (0002,0002)
    Class,
    /// (0002,0003)
    Instance,
}

macro_rules! key_row {
    ($tag:expr, $when_empty:expr) => {
        KeyRow {
            tag: $tag,
            when_empty: $when_empty,
        }
    };
}

macro_rules! uid_row {
    ($tag:expr, $same_as:expr) => {
        UidRow {
            tag: $tag,
            same_as: $same_as,
        }
    };
}

pub(crate) const CHARSET: KeyRow = key_row!(tags::SPECIFIC_CHARACTER_SET, b"");

pub(crate) const CLASS: UidRow = uid_row!(tags::SOP_CLASS_UID, Some(MetaUid::Class));

pub(crate) const INSTANCE: UidRow = uid_row!(tags::SOP_INSTANCE_UID, Some(MetaUid::Instance));

pub(crate) const STUDY_DATE: KeyRow = key_row!(tags::STUDY_DATE, b"19000101");

pub(crate) const STUDY_TIME: KeyRow = key_row!(tags::STUDY_TIME, b"000000");

pub(crate) const ACCESSION: KeyRow = key_row!(tags::ACCESSION_NUMBER, b"");

pub(crate) const MODALITY: KeyRow = key_row!(tags::MODALITY, b"OT");

pub(crate) const DESCRIPTION: KeyRow = key_row!(tags::STUDY_DESCRIPTION, b"");

pub(crate) const PATIENT_NAME: KeyRow = key_row!(tags::PATIENT_NAME, b"");

pub(crate) const PATIENT_ID: KeyRow = key_row!(tags::PATIENT_ID, b"NOID");

pub(crate) const STUDY: UidRow = uid_row!(tags::STUDY_INSTANCE_UID, None);

pub(crate) const SERIES: UidRow = uid_row!(tags::SERIES_INSTANCE_UID, None);

pub(crate) const STUDY_ID: KeyRow = key_row!(tags::STUDY_ID, b"0");

pub(crate) const SERIES_NUMBER: KeyRow = key_row!(tags::SERIES_NUMBER, b"0");

pub(crate) const INSTANCE_NUMBER: KeyRow = key_row!(tags::INSTANCE_NUMBER, b"0");

/// The tags of the rows, in order.
pub(crate) const WANTED: [Tag; 15] = [
    tags::SPECIFIC_CHARACTER_SET,
    tags::SOP_CLASS_UID,
    tags::SOP_INSTANCE_UID,
    tags::STUDY_DATE,
    tags::STUDY_TIME,
    tags::ACCESSION_NUMBER,
    tags::MODALITY,
    tags::STUDY_DESCRIPTION,
    tags::PATIENT_NAME,
    tags::PATIENT_ID,
    tags::STUDY_INSTANCE_UID,
    tags::SERIES_INSTANCE_UID,
    tags::STUDY_ID,
    tags::SERIES_NUMBER,
    tags::INSTANCE_NUMBER,
];
