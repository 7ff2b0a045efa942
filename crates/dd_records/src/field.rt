ghost use Rattle.std.specs.Prelude.{◌≡◌, IfSome};
ghost use Rattle.dd_records.specs.Cells.{IsShort, cell_values, charset_of, charset_values, even_value, field_values};
ghost use Rattle.dd_records.specs.ElementForms.{padded};
ghost use Rattle.dd_records.specs.Records.{file_text};

use crate::cell::{CellValue, long_value};
use crate::level::Level;
use crate::record::PlanRecord;
use dd_elem::{FileId, Key, Uid};
use dd_version::Parts;

/// What an element of a record holds (PS3.3 section F.3.2.2 and annex F.5).
#[derive(Clone, Copy, Debug, PartialEq, Eq)]
pub enum Field {
    /// The offset of the next record of the same parent.
    Next,
    /// The in-use flag, of a record that is in use.
    InUse,
    /// The offset of the first record below.
    Lower,
    /// The type of the record.
    Kind,
    /// The File ID.
    File,
    /// The SOP Class UID of the file.
    Class,
    /// The SOP Instance UID of the file.
    Instance,
    /// The Transfer Syntax UID of the file.
    Transfer,
    /// The Specific Character Set of a patient or of a study; no element where it is empty.
    Charset,
    PatientName,
    PatientId,
    StudyDate,
    StudyTime,
    /// The Accession Number.
    Accession,
    /// The Study Description.
    Description,
    StudyUid,
    StudyId,
    Modality,
    SeriesUid,
    SeriesNumber,
    /// The creator of the private block of the digest.
    Creator,
    /// The SHA-256 of the file.
    Digest,
    /// The Instance Number.
    Number,
}

pub const FLAG_IN_USE: u16 = 0xffff;

/// Names the creator of the private elements that are written here (PS3.5 section 7.8.1).
pub const PRIVATE_CREATOR: &[u8] = b"DD FILESET 1";

impl Field {
    /// None where the record has no such element.
    pub(crate) fn value<'a>(self, planned: &PlanRecord, parts: &'a Parts) -> Option<CellValue<'a>>
        ensures exact { cell_values result
            ≡ field_values self planned.now.level planned.now.next planned.now.lower planned.now.file parts.now }
        ensures short { IfSome result (λ value. IsShort (even_value value)) }
    {
        Some(match self {
            Field::Next => long_value(planned.next),
            Field::InUse => CellValue::Short(FLAG_IN_USE.to_le_bytes()),
            Field::Lower => long_value(planned.lower),
            Field::Kind => CellValue::Text(planned.level.kind()),
            Field::File => file_text(planned.file),
            Field::Class => uid(&parts.class),
            Field::Instance => uid(&parts.instance),
            Field::Transfer => uid(&parts.transfer),
            Field::Charset => return charset_of(planned.level, parts),
            Field::PatientName => text(&parts.patient.name),
            Field::PatientId => text(&parts.patient.id),
            Field::StudyDate => text(&parts.study.date),
            Field::StudyTime => text(&parts.study.time),
            Field::Accession => text(&parts.study.accession),
            Field::Description => text(&parts.study.description),
            Field::StudyUid => uid(&parts.study.uid),
            Field::StudyId => text(&parts.study.id),
            Field::Modality => text(&parts.series.modality),
            Field::SeriesUid => uid(&parts.series.uid),
            Field::SeriesNumber => text(&parts.series.number),
            Field::Creator => CellValue::Text(PRIVATE_CREATOR),
            Field::Digest => CellValue::Bytes(&parts.digest),
            Field::Number => text(&parts.number),
        })
    }
}

fn file_text(file: Option<FileId>) -> CellValue<'static>
    ensures exact { even_value result ≡ padded 0x20 (file_text file) }
    ensures short { IsShort (even_value result) }
{
    match file {
        None => CellValue::Text(b""),
        Some(file) => CellValue::File(file.text()),
    }
}

fn uid(uid: &Uid) -> CellValue<'_>
    ensures exact { even_value result ≡ padded 0x00 uid.now }
    ensures short { IsShort (even_value result) }
{
    CellValue::Uid(uid.as_bytes())
}

fn text(key: &Key) -> CellValue<'_>
    ensures exact { even_value result ≡ padded 0x20 key.now }
    ensures short { IsShort (even_value result) }
{
    CellValue::Text(key.as_bytes())
}

fn charset_of(level: Level, parts: &Parts) -> Option<CellValue<'_>>
    ensures exact { cell_values result ≡ charset_values (charset_of level parts.now) }
    ensures short { IfSome result (λ value. IsShort (even_value value)) }
{
    match level {
        Level::Patient => charset(&parts.patient.charset),
        Level::Study => charset(&parts.study.charset),
        Level::Series | Level::Image => None,
    }
}

fn charset(key: &Key) -> Option<CellValue<'_>>
    ensures exact { cell_values result ≡ charset_values key.now }
    ensures short { IfSome result (λ value. IsShort (even_value value)) }
{
    let charset = key.as_bytes();
    if charset.is_empty() {
        return None;
    }
    Some(CellValue::Text(charset))
}
