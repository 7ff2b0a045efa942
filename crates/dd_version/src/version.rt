ghost use Rattle.std.specs.Prelude.{◌≡◌, ◌↔◌, IsOk, IsErr, IfOk, IfErr};
ghost use Rattle.dd_version.specs.Copies.{PartsAreLong, with_digest, with_keys_of};
ghost use Rattle.dd_version.specs.Fitting.{Fits, IsLeastMisfit, is_empty, least_misfit};

use crate::classes::is_image_class;
use crate::parts::Parts;
use crate::syntaxes::{TRANSFER, is_known_syntax};
use dd_elem::{Key, Memory, Ordered, Tag, tags};
use std::cmp::Ordering;
use std::marker::Model;
use thiserror::Error;

/// A version of an image instance: parts whose class and transfer syntax are taken, and whose keys that records must
/// have (PS3.3 section F.5) are not empty.
#[derive(Debug)]
pub struct Version {
    parts: Parts,
}

impl Model for Version {
    ghost use Rattle.dd_version.specs.declared.parts.Parts.{Parts};
    ghost use Rattle.dd_version.specs.Fitting.{Fits};

    ghost Value = { Parts };

    ghost view = { λ version. version.parts };

    ghost invariant = { λ version. Fits version.parts };
}

// By hand, so that a drop is one call.
impl Drop for Version {
    fn drop(self) {
        let Version { parts: _parts } = self;
    }
}

/// Why parts are no version.
#[derive(Debug, Drop, Error)]
#[error("{tag} does not fit")]
pub struct Misfit {
    /// The least tag whose part does not fit. (0002,0010) is the transfer syntax, (0008,0016) the class.
    pub tag: Tag,
    pub parts: Parts,
}

impl Version {
    /// Makes the version of these parts. Refused where the transfer syntax or the class is not taken, or Study Date,
    /// Study Time, Modality, Patient ID, Study ID, Series Number or Instance Number is empty.
    pub fn of(parts: Parts) -> Result<Version, Misfit>
        ensures accepted { IsOk result ↔ Fits parts }
        ensures value { IfOk result (λ version. version ≡ parts) }
        ensures least { IfErr result (λ misfit. IsLeastMisfit parts misfit.tag) }
        ensures back { IfErr result (λ misfit. misfit.parts ≡ parts) }
    {
        match least_misfit(&parts) {
            Some(tag) => Err(Misfit { tag, parts }),
            None => Ok(Version { parts }),
        }
    }

    pub fn parts(&self) -> &Parts
        ensures value { result.now ≡ self.now }
        ensures fits { Fits self.now }
    {
        &self.parts
    }

    pub fn set_digest(&mut self, digest: [u8; 32])
        ensures { self.new ≡ with_digest self.old digest }
    {
        self.parts.digest = digest;
    }

    /// Makes an equal version. Memory where no more copies can share a key of more than 22 bytes.
    pub fn copy(&self) -> Result<Version, Memory>
        ensures value { IfOk result (λ version. version ≡ self.now) }
        ensures memory { IsErr result → PartsAreLong self.now }
    {
        let parts = self.parts.copy()?;
        Ok(Version { parts })
    }

    /// Copies the version, with the keys of these versions' patient, study and series in place of its own. Memory as
    /// for `copy`.
    pub fn with_keys_of(
        &self,
        patient: &Version,
        study: &Version,
        series: &Version,
    ) -> Result<Version, Memory>
        ensures value { IfOk result (λ version. version
            ≡ with_keys_of self.now patient.now study.now series.now) }
        ensures memory { IsErr result → PartsAreLong
            (with_keys_of self.now patient.now study.now series.now) }
    {
        Ok(Version {
            parts: Parts {
                digest: self.parts.digest,
                patient: patient.parts.patient.copy()?,
                study: study.parts.study.copy()?,
                series: series.parts.series.copy()?,
                number: self.parts.number.copy()?,
                class: self.parts.class,
                transfer: self.parts.transfer,
                instance: self.parts.instance,
            },
        })
    }
}

impl PartialEq for Version {
    ghost use Rattle.std.specs.Cmp.{partial_equiv_from_equiv};
    ghost use Rattle.std.specs.Ordering.{eq_by_cmp};
    ghost use Rattle.std.proofs.lemmas.Cmp.{eq_by_cmp_equiv};
    ghost use Rattle.dd_version.specs.Orders.{parts_cmp, parts_total};

    ghost eq = { eq_by_cmp parts_cmp };

    ghost laws = { partial_equiv_from_equiv (eq_by_cmp_equiv parts_total) };

    fn eq(&self, other: &Version) -> bool {
        self.compare(other).is_eq()
    }
}

impl Ordered for Version {
    ghost use Rattle.dd_version.specs.Orders.{parts_cmp, parts_total, parts_apart};

    ghost order = { parts_cmp };

    ghost total = { parts_total };

    ghost apart = { parts_apart };

    fn compare(&self, other: &Self) -> Ordering {
        self.parts.compare(&other.parts)
    }
}

fn least_misfit(parts: &Parts) -> Option<Tag>
    ensures { result ≡ least_misfit parts.now }
{
    let fitting = [
        (TRANSFER, is_known_syntax(&parts.transfer)),
        (tags::SOP_CLASS_UID, is_image_class(&parts.class)),
        (tags::STUDY_DATE, !is_empty(&parts.study.date)),
        (tags::STUDY_TIME, !is_empty(&parts.study.time)),
        (tags::MODALITY, !is_empty(&parts.series.modality)),
        (tags::PATIENT_ID, !is_empty(&parts.patient.id)),
        (tags::STUDY_ID, !is_empty(&parts.study.id)),
        (tags::SERIES_NUMBER, !is_empty(&parts.series.number)),
        (tags::INSTANCE_NUMBER, !is_empty(&parts.number)),
    ];
    fitting.iter().find(|(_, fits)| !*fits).map(|(tag, _)| *tag)
}

fn is_empty(key: &Key) -> bool
    ensures { result ≡ is_empty key.now }
{
    key.as_bytes().is_empty()
}
