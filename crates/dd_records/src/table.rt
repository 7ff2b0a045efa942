//! The table of the elements of records.

ghost use Rattle.std.specs.Prelude.{◌≡◌, ◌≤◌, ℕ, Option, IfSome, length};
ghost use Rattle.dd_elem.specs.FileId.{Ranks};
ghost use Rattle.dd_version.specs.declared.parts.Parts.{Parts};
ghost use Rattle.dd_records.specs.Cells.{IsShort, cell_elements, even_value, row_elements, table_elements};
ghost use Rattle.dd_records.specs.Records.{record_elements};
ghost use Rattle.dd_records.specs.Tables.{table_of};

use crate::cell::Cell;
use crate::field::Field;
use crate::level::Level;
use crate::record::PlanRecord;
use dd_elem::{Tag, Vr, tags};
use dd_version::Parts;

/// An element of the records of a level.
#[derive(Clone, Copy, Debug)]
pub struct Row {
    pub tag: Tag,
    pub vr: Vr,
    pub field: Field,
}

impl Row {
    /// Makes the element of a record of these parts: None where there is no character set.
    pub fn cell<'a>(&self, planned: &PlanRecord, parts: &'a Parts) -> Option<Cell<'a>>
        ensures exact { cell_elements result
            ≡ row_elements self.now planned.now.level planned.now.next planned.now.lower planned.now.file parts.now }
        ensures short { IfSome result (λ cell. IsShort (even_value cell.value)) }
    {
        let value = self.field.value(planned, parts)?;
        Some(Cell {
            tag: self.tag,
            vr: self.vr,
            value,
        })
    }
}

/// Lists the elements of a record of this level, in order (PS3.3 section F.3.2.2 and annex F.5).
pub fn rows(level: Level) -> &'static [Row]
    ensures exact { (next lower : ℕ) (file : Option Ranks) (parts : Parts)
        → table_elements result.now level next lower file parts
        ≡ record_elements level next lower file parts }
    ensures few { length result.now ≤ 11 }
    ensures listed { result.now ≡ table_of level }
{
    match level {
        Level::Patient => &PATIENT,
        Level::Study => &STUDY,
        Level::Series => &SERIES,
        Level::Image => &IMAGE,
    }
}

macro_rules! row {
    ($group:literal, $element:literal, $vr:ident, $field:ident) => {
        row!(
            Tag {
                group: $group,
                element: $element,
            },
            $vr,
            $field
        )
    };
    ($tag:expr, $vr:ident, $field:ident) => {
        Row {
            tag: $tag,
            vr: Vr::$vr,
            field: Field::$field,
        }
    };
}

/// Offset of the Next Directory Record.
pub const NEXT: Row = row!(0x0004, 0x1400, UL, Next);

/// Record In-use Flag.
pub const IN_USE: Row = row!(0x0004, 0x1410, US, InUse);

/// Offset of Referenced Lower-Level Directory Entity.
pub const LOWER: Row = row!(0x0004, 0x1420, UL, Lower);

/// Directory Record Type.
pub const KIND: Row = row!(0x0004, 0x1430, CS, Kind);

/// Referenced File ID.
pub const FILE: Row = row!(0x0004, 0x1500, CS, File);

/// Referenced SOP Class UID in File.
pub const CLASS: Row = row!(0x0004, 0x1510, UI, Class);

/// Referenced SOP Instance UID in File.
pub const INSTANCE: Row = row!(0x0004, 0x1511, UI, Instance);

/// Referenced Transfer Syntax UID in File.
pub const TRANSFER: Row = row!(0x0004, 0x1512, UI, Transfer);

pub const CHARSET: Row = row!(tags::SPECIFIC_CHARACTER_SET, CS, Charset);

pub const STUDY_DATE: Row = row!(tags::STUDY_DATE, DA, StudyDate);

pub const STUDY_TIME: Row = row!(tags::STUDY_TIME, TM, StudyTime);

pub const ACCESSION: Row = row!(tags::ACCESSION_NUMBER, SH, Accession);

pub const MODALITY: Row = row!(tags::MODALITY, CS, Modality);

pub const DESCRIPTION: Row = row!(tags::STUDY_DESCRIPTION, LO, Description);

/// The creator of the private elements with the digest.
pub const CREATOR: Row = row!(0x0009, 0x0010, LO, Creator);

/// The digest, a private element.
pub const DIGEST: Row = row!(0x0009, 0x1001, OB, Digest);

pub const PATIENT_NAME: Row = row!(tags::PATIENT_NAME, PN, PatientName);

pub const PATIENT_ID: Row = row!(tags::PATIENT_ID, LO, PatientId);

pub const STUDY_UID: Row = row!(tags::STUDY_INSTANCE_UID, UI, StudyUid);

pub const SERIES_UID: Row = row!(tags::SERIES_INSTANCE_UID, UI, SeriesUid);

pub const STUDY_ID: Row = row!(tags::STUDY_ID, SH, StudyId);

pub const SERIES_NUMBER: Row = row!(tags::SERIES_NUMBER, IS, SeriesNumber);

pub const NUMBER: Row = row!(tags::INSTANCE_NUMBER, IS, Number);

/// PS3.3 section F.5.1.
const PATIENT: [Row; 7] = [NEXT, IN_USE, LOWER, KIND, CHARSET, PATIENT_NAME, PATIENT_ID];

/// PS3.3 section F.5.2.
const STUDY: [Row; 11] = [
    NEXT,
    IN_USE,
    LOWER,
    KIND,
    CHARSET,
    STUDY_DATE,
    STUDY_TIME,
    ACCESSION,
    DESCRIPTION,
    STUDY_UID,
    STUDY_ID,
];

/// PS3.3 section F.5.3.
const SERIES: [Row; 7] = [
    NEXT,
    IN_USE,
    LOWER,
    KIND,
    MODALITY,
    SERIES_UID,
    SERIES_NUMBER,
];

/// PS3.3 section F.5.4.
const IMAGE: [Row; 11] = [
    NEXT, IN_USE, LOWER, KIND, FILE, CLASS, INSTANCE, TRANSFER, CREATOR, DIGEST, NUMBER,
];
