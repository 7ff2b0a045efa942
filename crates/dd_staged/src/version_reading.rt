//! The version that an item says.

ghost use Rattle.std.specs.Prelude.{◌≡◌, ◌≢◌, length, Err, IfOk, IfErr};
ghost use Rattle.dd_set.specs.Views.{set_view};
ghost use Rattle.dd_staged.specs.Sources.{HasParts};
ghost use Rattle.dd_version.specs.WellFormed.{IsWellFormed, IsWellFormedPatient};
ghost use Rattle.dd_version.specs.WellFormed.{IsWellFormedSeries, IsWellFormedStudy};
ghost use Rattle.dd_staged.specs.Values.{parts_in};

use crate::tags::{CLASS, DIGEST, INSTANCE, PATIENT_CHARSET, TRANSFER};
use crate::values::{ItemFault, key_at, raw_at, uid_at};
use dd_elem::tags;
use dd_set::DataSet;
use dd_version::{Parts, PatientKeys, SeriesKeys, StudyKeys, Version};
use std::alloc::Global;

fn patient_in(alloc: Global, set: &DataSet<'_>) -> Result<PatientKeys, ItemFault>
    ensures value { IfOk result (λ keys. keys ≡ (parts_in (set_view set.now)).patient) }
    ensures valid { IfOk result IsWellFormedPatient }
    ensures bad { result ≡ Err ItemFault.Bad → ¬ IsWellFormedPatient (parts_in (set_view set.now)).patient }
{
    Ok(PatientKeys {
        id: key_at(alloc, set, tags::PATIENT_ID)?,
        name: key_at(alloc, set, tags::PATIENT_NAME)?,
        charset: key_at(alloc, set, PATIENT_CHARSET)?,
    })
}

fn study_in(alloc: Global, set: &DataSet<'_>) -> Result<StudyKeys, ItemFault>
    ensures value { IfOk result (λ keys. keys ≡ (parts_in (set_view set.now)).study) }
    ensures valid { IfOk result IsWellFormedStudy }
    ensures bad { result ≡ Err ItemFault.Bad → ¬ IsWellFormedStudy (parts_in (set_view set.now)).study }
{
    Ok(StudyKeys {
        uid: uid_at(set, tags::STUDY_INSTANCE_UID)?,
        date: key_at(alloc, set, tags::STUDY_DATE)?,
        time: key_at(alloc, set, tags::STUDY_TIME)?,
        accession: key_at(alloc, set, tags::ACCESSION_NUMBER)?,
        description: key_at(alloc, set, tags::STUDY_DESCRIPTION)?,
        id: key_at(alloc, set, tags::STUDY_ID)?,
        charset: key_at(alloc, set, tags::SPECIFIC_CHARACTER_SET)?,
    })
}

fn series_in(alloc: Global, set: &DataSet<'_>) -> Result<SeriesKeys, ItemFault>
    ensures value { IfOk result (λ keys. keys ≡ (parts_in (set_view set.now)).series) }
    ensures valid { IfOk result IsWellFormedSeries }
    ensures bad { result ≡ Err ItemFault.Bad → ¬ IsWellFormedSeries (parts_in (set_view set.now)).series }
{
    Ok(SeriesKeys {
        uid: uid_at(set, tags::SERIES_INSTANCE_UID)?,
        modality: key_at(alloc, set, tags::MODALITY)?,
        number: key_at(alloc, set, tags::SERIES_NUMBER)?,
    })
}

fn digest_in(set: &DataSet<'_>) -> Result<[u8; 32], ItemFault>
    ensures value { IfOk result (λ digest. digest ≡ (parts_in (set_view set.now)).digest) }
    ensures valid { IfOk result (λ digest. length digest ≡ 32) }
    ensures bad { IfErr result (λ fault. length (parts_in (set_view set.now)).digest ≢ 32) }
{
    match <[u8; 32]>::try_from(raw_at(set, DIGEST)) {
        Ok(digest) => Ok(digest),
        Err(_) => Err(ItemFault::Bad),
    }
}

fn parts_in(alloc: Global, set: &DataSet<'_>) -> Result<Parts, ItemFault>
    ensures value { IfOk result (λ parts. parts ≡ parts_in (set_view set.now)) }
    ensures valid { IfOk result HasParts }
    ensures bad { result ≡ Err ItemFault.Bad → ¬ HasParts (parts_in (set_view set.now)) }
{
    Ok(Parts {
        digest: digest_in(set)?,
        patient: patient_in(alloc, set)?,
        study: study_in(alloc, set)?,
        series: series_in(alloc, set)?,
        number: key_at(alloc, set, tags::INSTANCE_NUMBER)?,
        class: uid_at(set, CLASS)?,
        transfer: uid_at(set, TRANSFER)?,
        instance: uid_at(set, INSTANCE)?,
    })
}

pub(crate) fn version_in(alloc: Global, set: &DataSet<'_>) -> Result<Version, ItemFault>
    ensures value { IfOk result (λ version. version ≡ parts_in (set_view set.now)) }
    ensures valid { IfOk result IsWellFormed }
    ensures bad { result ≡ Err ItemFault.Bad → ¬ IsWellFormed (parts_in (set_view set.now)) }
{
    match Version::of(parts_in(alloc, set)?) {
        Ok(version) => Ok(version),
        Err(_) => Err(ItemFault::Bad),
    }
}
