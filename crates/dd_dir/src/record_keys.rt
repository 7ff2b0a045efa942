//! The records above an image, with the values of their keys without padding.
//!
//! To find a value, the elements of its record are gone through. So the values are taken once, where the walk passes
//! the record, and not anew for each image below it. The time that this takes follows from the bytes of the
//! directory.

ghost use Rattle.std.specs.Prelude.{◌≡◌};
ghost use Rattle.dd_records.specs.ElementForms.{tag};
ghost use Rattle.dd_set.specs.Views.{set_view};
ghost use Rattle.dd_walk.specs.Saying.{key_of};

use dd_records::Row;
use dd_records::table::{
    ACCESSION, CHARSET, DESCRIPTION, MODALITY, PATIENT_ID, PATIENT_NAME, SERIES_NUMBER, SERIES_UID,
    STUDY_DATE, STUDY_ID, STUDY_TIME, STUDY_UID,
};
use dd_set::{DataSet, value_at};

#[derive(Clone, Copy)]
pub(crate) struct PatientRecord<'f, 'a> {
    pub(crate) set: &'f DataSet<'a>,
    pub(crate) id: &'a [u8],
    pub(crate) name: &'a [u8],
    pub(crate) charset: &'a [u8],
    ghost id_is: { id.now ≡ key_of (tag 0x0010 0x0020) (set_view set.now) },
    ghost name_is: { name.now ≡ key_of (tag 0x0010 0x0010) (set_view set.now) },
    ghost charset_is: { charset.now ≡ key_of (tag 0x0008 0x0005) (set_view set.now) },
}

#[derive(Clone, Copy)]
pub(crate) struct StudyRecord<'f, 'a> {
    pub(crate) set: &'f DataSet<'a>,
    pub(crate) uid: &'a [u8],
    pub(crate) date: &'a [u8],
    pub(crate) time: &'a [u8],
    pub(crate) accession: &'a [u8],
    pub(crate) description: &'a [u8],
    pub(crate) id: &'a [u8],
    pub(crate) charset: &'a [u8],
    ghost uid_is: { uid.now ≡ key_of (tag 0x0020 0x000d) (set_view set.now) },
    ghost date_is: { date.now ≡ key_of (tag 0x0008 0x0020) (set_view set.now) },
    ghost time_is: { time.now ≡ key_of (tag 0x0008 0x0030) (set_view set.now) },
    ghost accession_is: { accession.now ≡ key_of (tag 0x0008 0x0050) (set_view set.now) },
    ghost description_is: { description.now ≡ key_of (tag 0x0008 0x1030) (set_view set.now) },
    ghost id_is: { id.now ≡ key_of (tag 0x0020 0x0010) (set_view set.now) },
    ghost charset_is: { charset.now ≡ key_of (tag 0x0008 0x0005) (set_view set.now) },
}

#[derive(Clone, Copy)]
pub(crate) struct SeriesRecord<'f, 'a> {
    pub(crate) set: &'f DataSet<'a>,
    pub(crate) uid: &'a [u8],
    pub(crate) modality: &'a [u8],
    pub(crate) number: &'a [u8],
    ghost uid_is: { uid.now ≡ key_of (tag 0x0020 0x000e) (set_view set.now) },
    ghost modality_is: { modality.now ≡ key_of (tag 0x0008 0x0060) (set_view set.now) },
    ghost number_is: { number.now ≡ key_of (tag 0x0020 0x0011) (set_view set.now) },
}

impl<'f, 'a> PatientRecord<'f, 'a> {
    pub(crate) fn of(set: &'f DataSet<'a>) -> Self
        ensures { result.set.now ≡ set.now }
    {
        PatientRecord {
            set,
            id: row_value(&PATIENT_ID, set),
            name: row_value(&PATIENT_NAME, set),
            charset: row_value(&CHARSET, set),
        }
    }
}

impl<'f, 'a> StudyRecord<'f, 'a> {
    pub(crate) fn of(set: &'f DataSet<'a>) -> Self
        ensures { result.set.now ≡ set.now }
    {
        StudyRecord {
            set,
            uid: row_value(&STUDY_UID, set),
            date: row_value(&STUDY_DATE, set),
            time: row_value(&STUDY_TIME, set),
            accession: row_value(&ACCESSION, set),
            description: row_value(&DESCRIPTION, set),
            id: row_value(&STUDY_ID, set),
            charset: row_value(&CHARSET, set),
        }
    }
}

impl<'f, 'a> SeriesRecord<'f, 'a> {
    pub(crate) fn of(set: &'f DataSet<'a>) -> Self
        ensures { result.set.now ≡ set.now }
    {
        SeriesRecord {
            set,
            uid: row_value(&SERIES_UID, set),
            modality: row_value(&MODALITY, set),
            number: row_value(&SERIES_NUMBER, set),
        }
    }
}

/// Gives the value without its padding, and nothing where there is no value.
pub(crate) fn row_value<'a>(row: &Row, set: &DataSet<'a>) -> &'a [u8]
    ensures { result.now ≡ key_of row.now.tag (set_view set.now) }
{
    value_at(set, row.tag).unwrap_or(&[])
}
