//! Facts that the types of keys and UIDs give, for proofs. They are known only where a key or a UID is lent.

ghost use Rattle.std.specs.Prelude.{◌≡◌, length};
ghost use Rattle.dd_elem.specs.Key.{IsKey};
ghost use Rattle.dd_elem.specs.Uid.{IsUid};
ghost use Rattle.dd_version.specs.WellFormed.{IsWellFormed, IsWellFormedImage, IsWellFormedPatient};
ghost use Rattle.dd_version.specs.WellFormed.{IsWellFormedSeries, IsWellFormedStudy};

use crate::keys::{PatientKeys, SeriesKeys, StudyKeys};
use crate::parts::Parts;
use crate::version::Version;
use dd_elem::{Key, Uid};

/// States that the parts of a version are well formed.
pub fn version_is_well_formed(version: &Version)
    ensures { IsWellFormed version.now }
{
    let parts = version.parts();
    patient_is_well_formed(&parts.patient);
    study_is_well_formed(&parts.study);
    series_is_well_formed(&parts.series);
    image_is_well_formed(parts);
}

fn patient_is_well_formed(patient: &PatientKeys)
    ensures { IsWellFormedPatient patient.now }
{
    key_is_valid(&patient.id);
    key_is_valid(&patient.name);
    key_is_valid(&patient.charset);
}

fn study_is_well_formed(study: &StudyKeys)
    ensures { IsWellFormedStudy study.now }
{
    uid_is_valid(&study.uid);
    key_is_valid(&study.date);
    key_is_valid(&study.time);
    key_is_valid(&study.accession);
    key_is_valid(&study.description);
    key_is_valid(&study.id);
    key_is_valid(&study.charset);
}

fn series_is_well_formed(series: &SeriesKeys)
    ensures { IsWellFormedSeries series.now }
{
    uid_is_valid(&series.uid);
    key_is_valid(&series.modality);
    key_is_valid(&series.number);
}

fn image_is_well_formed(parts: &Parts)
    ensures { IsWellFormedImage parts.now }
{
    digest_has_32_bytes(&parts.digest);
    key_is_valid(&parts.number);
    uid_is_valid(&parts.class);
    uid_is_valid(&parts.transfer);
    uid_is_valid(&parts.instance);
}

fn digest_has_32_bytes(digest: &[u8; 32])
    ensures { length digest.now ≡ 32 }
{}

fn key_is_valid(key: &Key)
    ensures { IsKey key.now }
{
    key.as_bytes();
}

fn uid_is_valid(uid: &Uid)
    ensures { IsUid uid.now }
{
    uid.as_bytes();
}
