//! The tags of the private elements of a stage, and of the UIDs of a version (PS3.5 section 7.8.1, PS3.3 section
//! F.3.2.2).

use dd_elem::Tag;

/// The creator of the block of private elements, with its padding.
pub(crate) const PRIVATE_CREATOR: &[u8] = b"DD STAGED 2 ";

macro_rules! tag {
    ($group:literal, $element:literal) => {
        Tag {
            group: $group,
            element: $element,
        }
    };
}

pub(crate) const CLASS: Tag = tag!(0x0004, 0x1510);

pub(crate) const INSTANCE: Tag = tag!(0x0004, 0x1511);

pub(crate) const TRANSFER: Tag = tag!(0x0004, 0x1512);

pub(crate) const CREATOR: Tag = tag!(0x0009, 0x0010);

pub(crate) const DIGEST: Tag = tag!(0x0009, 0x1001);

/// How many items there are.
pub(crate) const COUNT: Tag = tag!(0x0009, 0x1003);

/// The sequence of the items.
pub(crate) const ITEMS: Tag = tag!(0x0009, 0x1004);

pub(crate) const NAME: Tag = tag!(0x0009, 0x1005);

/// The length of the copy.
pub(crate) const SIZE: Tag = tag!(0x0009, 0x1006);

/// The Specific Character Set of the keys of the patient.
pub(crate) const PATIENT_CHARSET: Tag = tag!(0x0009, 0x1007);

/// The numbers of a fault, and the tag, the UID and the number of a name that it names.
pub(crate) const FAULT_NUMBERS: Tag = tag!(0x0009, 0x1008);

pub(crate) const FAULT_TAG: Tag = tag!(0x0009, 0x1009);

pub(crate) const FAULT_UID: Tag = tag!(0x0009, 0x100a);

pub(crate) const FAULT_PLACE: Tag = tag!(0x0009, 0x100c);

/// The digest of all bytes before it.
pub(crate) const STAGE_DIGEST: Tag = tag!(0x0009, 0x100b);
