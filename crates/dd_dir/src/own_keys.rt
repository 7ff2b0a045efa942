//! The version of an image, from the records that list it.
//!
//! Copies of a long key share its bytes: a key that is the same as in the image before is copied from there. So the
//! keys of a record take their memory once, and not anew for each image below it.

ghost use Rattle.std.specs.Prelude.{◌≡◌, true, is_some, IfOk};
ghost use Rattle.dd_elem.specs.Key.{IsKey};
ghost use Rattle.dd_elem.specs.Uid.{is_uid};
ghost use Rattle.dd_records.specs.declared.level.Level.TheVariants.{Patient, Study, Series};
ghost use Rattle.dd_set.specs.Views.{set_view};
ghost use Rattle.dd_dir.specs.OwnVersions.{digest_of, patient_in, series_in, study_in, version_of};
ghost use Rattle.dd_dir.specs.OwnViews.{IsListed, Passes, listed_view};
ghost use Rattle.dd_walk.specs.Saying.{digest_in};

use crate::listed_images::Listed;
use crate::record_keys::{PatientRecord, SeriesRecord, StudyRecord, row_value};
use dd_elem::{Key, KeyRefused, Memory, Uid};
use dd_records::table::{CLASS, INSTANCE, NUMBER, TRANSFER};
use dd_set::DataSet;
use dd_version::{Parts, PatientKeys, SeriesKeys, StudyKeys, Version};
use dd_walk::digest_in;
use std::alloc::Global;

/// Copies `like`, where it has these bytes.
fn key(alloc: Global, bytes: &[u8], like: Option<&Key>) -> Result<Key, Memory>
    requires { IsKey bytes.now }
    ensures { IfOk result (λ key. key ≡ bytes.now) }
{
    match like {
        Some(like) if like.as_bytes() == bytes => like.copy(),
        Some(_) | None => copy_of(alloc, bytes),
    }
}

fn copy_of(alloc: Global, bytes: &[u8]) -> Result<Key, Memory>
    requires { IsKey bytes.now }
    ensures { IfOk result (λ key. key ≡ bytes.now) }
{
    match Key::copy_of(alloc, bytes) {
        Ok(key) => Ok(key),
        Err(KeyRefused::Memory) => Err(Memory),
        Err(KeyRefused::TooLong) => unreachable!(),
    }
}

pub(crate) fn uid(bytes: &[u8]) -> Uid
    requires { is_uid bytes.now ≡ true }
    ensures { result ≡ bytes.now }
{
    Uid::new(bytes).unwrap()
}

pub(crate) fn digest(set: &DataSet<'_>) -> [u8; 32]
    requires { is_some (digest_in (set_view set.now)) ≡ true }
    ensures { result ≡ digest_of (set_view set.now) }
{
    digest_in(set).unwrap()
}

fn patient_in(
    alloc: Global,
    patient: &PatientRecord<'_, '_>,
    like: Option<&PatientKeys>,
) -> Result<PatientKeys, Memory>
    requires { Passes Patient (set_view patient.now.set.now) }
    ensures { IfOk result (λ keys. keys ≡ patient_in (set_view patient.now.set.now)) }
{
    Ok(PatientKeys {
        id: key(alloc, patient.id, like.map(|keys| &keys.id))?,
        name: key(alloc, patient.name, like.map(|keys| &keys.name))?,
        charset: key(alloc, patient.charset, like.map(|keys| &keys.charset))?,
    })
}

fn study_in(
    alloc: Global,
    study: &StudyRecord<'_, '_>,
    like: Option<&StudyKeys>,
) -> Result<StudyKeys, Memory>
    requires { Passes Study (set_view study.now.set.now) }
    ensures { IfOk result (λ keys. keys ≡ study_in (set_view study.now.set.now)) }
{
    Ok(StudyKeys {
        uid: uid(study.uid),
        date: key(alloc, study.date, like.map(|keys| &keys.date))?,
        time: key(alloc, study.time, like.map(|keys| &keys.time))?,
        accession: key(alloc, study.accession, like.map(|keys| &keys.accession))?,
        description: key(alloc, study.description, like.map(|keys| &keys.description))?,
        id: key(alloc, study.id, like.map(|keys| &keys.id))?,
        charset: key(alloc, study.charset, like.map(|keys| &keys.charset))?,
    })
}

fn series_in(
    alloc: Global,
    series: &SeriesRecord<'_, '_>,
    like: Option<&SeriesKeys>,
) -> Result<SeriesKeys, Memory>
    requires { Passes Series (set_view series.now.set.now) }
    ensures { IfOk result (λ keys. keys ≡ series_in (set_view series.now.set.now)) }
{
    Ok(SeriesKeys {
        uid: uid(series.uid),
        modality: key(alloc, series.modality, like.map(|keys| &keys.modality))?,
        number: key(alloc, series.number, like.map(|keys| &keys.number))?,
    })
}

fn parts_of(alloc: Global, image: &Listed<'_, '_>, like: Option<&Parts>) -> Result<Parts, Memory>
    requires { IsListed (listed_view image.now) }
    ensures { IfOk result (λ parts. parts ≡ version_of (listed_view image.now)) }
{
    Ok(Parts {
        digest: digest(image.own),
        patient: patient_in(alloc, &image.patient, like.map(|parts| &parts.patient))?,
        study: study_in(alloc, &image.study, like.map(|parts| &parts.study))?,
        series: series_in(alloc, &image.series, like.map(|parts| &parts.series))?,
        number: key(
            alloc,
            row_value(&NUMBER, image.own),
            like.map(|parts| &parts.number),
        )?,
        class: uid(row_value(&CLASS, image.own)),
        transfer: uid(row_value(&TRANSFER, image.own)),
        instance: uid(row_value(&INSTANCE, image.own)),
    })
}

pub(crate) fn version_of(
    alloc: Global,
    image: &Listed<'_, '_>,
    like: Option<&Version>,
) -> Result<Version, Memory>
    requires { IsListed (listed_view image.now) }
    ensures { IfOk result (λ version. version ≡ version_of (listed_view image.now)) }
{
    let parts = parts_of(alloc, image, like.map(|version| version.parts()))?;
    Ok(Version::of(parts).unwrap())
}
