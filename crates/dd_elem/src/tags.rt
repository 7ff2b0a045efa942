//! The tags of the image elements that a directory is made from (PS3.6 section 6).

use crate::tag::Tag;

macro_rules! tag {
    ($group:literal, $element:literal) => {
        Tag {
            group: $group,
            element: $element,
        }
    };
}

pub const SPECIFIC_CHARACTER_SET: Tag = tag!(0x0008, 0x0005);

pub const SOP_CLASS_UID: Tag = tag!(0x0008, 0x0016);

pub const SOP_INSTANCE_UID: Tag = tag!(0x0008, 0x0018);

pub const STUDY_DATE: Tag = tag!(0x0008, 0x0020);

pub const STUDY_TIME: Tag = tag!(0x0008, 0x0030);

pub const ACCESSION_NUMBER: Tag = tag!(0x0008, 0x0050);

pub const MODALITY: Tag = tag!(0x0008, 0x0060);

pub const STUDY_DESCRIPTION: Tag = tag!(0x0008, 0x1030);

pub const PATIENT_NAME: Tag = tag!(0x0010, 0x0010);

pub const PATIENT_ID: Tag = tag!(0x0010, 0x0020);

pub const STUDY_INSTANCE_UID: Tag = tag!(0x0020, 0x000d);

pub const SERIES_INSTANCE_UID: Tag = tag!(0x0020, 0x000e);

pub const STUDY_ID: Tag = tag!(0x0020, 0x0010);

pub const SERIES_NUMBER: Tag = tag!(0x0020, 0x0011);

pub const INSTANCE_NUMBER: Tag = tag!(0x0020, 0x0013);
