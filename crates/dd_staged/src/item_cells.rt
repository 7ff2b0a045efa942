//! The elements of an item.

ghost use Rattle.std.specs.Prelude.{◌≡◌, [], map, unwrap_or};
ghost use Rattle.std.specs.List.{AllByRecursion};
ghost use Rattle.dd_elem.specs.declared.vr.Vr.TheVariants.{UI};
ghost use Rattle.dd_staged.specs.Cells.{HasRoom, HasRoomFor, cell_element, cell_value};
ghost use Rattle.dd_staged.specs.Forms.{padded};
ghost use Rattle.dd_staged.specs.Stages.{fault_elements, version_elements};

use crate::cell::{Cell, CellValue};
use crate::code::Code;
use crate::tags::{
    CLASS, CREATOR, DIGEST, FAULT_NUMBERS, FAULT_PLACE, FAULT_TAG, FAULT_UID, INSTANCE, NAME,
    PATIENT_CHARSET, PRIVATE_CREATOR, SIZE, TRANSFER,
};
use dd_elem::{Uid, Vr, tags};
use dd_version::Parts;

macro_rules! cell {
    ($tag:expr, $vr:ident, $value:expr) => {
        Cell {
            tag: $tag,
            vr: Vr::$vr,
            value: $value,
        }
    };
}

/// Makes the elements of a source with a version.
pub(crate) fn version_cells<'a>(
    name: &'a [u8],
    size: &'a [u8; 8],
    parts: &'a Parts,
) -> [Cell<'a>; 21]
    ensures exact { map cell_element result ≡ version_elements name.now size.now parts.now }
    ensures room { AllByRecursion HasRoom result }
{
    let Parts {
        patient,
        study,
        series,
        ..
    } = parts;
    [
        cell!(CLASS, UI, CellValue::Uid(&parts.class)),
        cell!(INSTANCE, UI, CellValue::Uid(&parts.instance)),
        cell!(TRANSFER, UI, CellValue::Uid(&parts.transfer)),
        cell!(
            tags::SPECIFIC_CHARACTER_SET,
            CS,
            CellValue::Text(&study.charset)
        ),
        cell!(tags::STUDY_DATE, DA, CellValue::Text(&study.date)),
        cell!(tags::STUDY_TIME, TM, CellValue::Text(&study.time)),
        cell!(
            tags::ACCESSION_NUMBER,
            SH,
            CellValue::Text(&study.accession)
        ),
        cell!(tags::MODALITY, CS, CellValue::Text(&series.modality)),
        cell!(
            tags::STUDY_DESCRIPTION,
            LO,
            CellValue::Text(&study.description)
        ),
        cell!(CREATOR, LO, CellValue::Bytes(PRIVATE_CREATOR)),
        cell!(DIGEST, OB, CellValue::Bytes(&parts.digest)),
        cell!(NAME, OB, CellValue::Name(name)),
        cell!(SIZE, UV, CellValue::Bytes(size)),
        cell!(PATIENT_CHARSET, CS, CellValue::Text(&patient.charset)),
        cell!(tags::PATIENT_NAME, PN, CellValue::Text(&patient.name)),
        cell!(tags::PATIENT_ID, LO, CellValue::Text(&patient.id)),
        cell!(tags::STUDY_INSTANCE_UID, UI, CellValue::Uid(&study.uid)),
        cell!(tags::SERIES_INSTANCE_UID, UI, CellValue::Uid(&series.uid)),
        cell!(tags::STUDY_ID, SH, CellValue::Text(&study.id)),
        cell!(tags::SERIES_NUMBER, IS, CellValue::Text(&series.number)),
        cell!(tags::INSTANCE_NUMBER, IS, CellValue::Text(&parts.number)),
    ]
}

/// Makes the elements of a source without a version.
pub(crate) fn fault_cells<'a>(name: &'a [u8], size: &'a [u8; 8], code: &'a Code) -> [Cell<'a>; 7]
    ensures exact { map cell_element result ≡ fault_elements name.now size.now code.now }
    ensures room { AllByRecursion HasRoom result }
{
    [
        cell!(CREATOR, LO, CellValue::Bytes(PRIVATE_CREATOR)),
        cell!(NAME, OB, CellValue::Name(name)),
        cell!(SIZE, UV, CellValue::Bytes(size)),
        cell!(FAULT_NUMBERS, OB, CellValue::Bytes(&code.numbers)),
        cell!(FAULT_TAG, AT, CellValue::Bytes(&code.tag)),
        cell!(FAULT_UID, UI, uid_value(&code.uid)),
        cell!(FAULT_PLACE, UL, CellValue::Bytes(&code.place)),
    ]
}

fn uid_value(uid: &Option<Uid>) -> CellValue<'_>
    ensures exact { cell_value result ≡ padded 0x00 (unwrap_or uid.now []) }
    ensures room { HasRoomFor UI result }
{
    match uid {
        Some(uid) => CellValue::Uid(uid),
        None => CellValue::Bytes(b""),
    }
}
