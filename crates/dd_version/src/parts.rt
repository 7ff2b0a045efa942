ghost use Rattle.std.specs.Prelude.{◌≡◌, IfOk, IsErr};
ghost use Rattle.dd_version.specs.Copies.{PartsAreLong};
ghost use Rattle.dd_version.specs.Orders.{parts_cmp, parts_total, parts_apart};

use crate::keys::{PatientKeys, SeriesKeys, StudyKeys};
use dd_elem::{Key, Memory, Ordered, Uid};
use std::cmp::Ordering;

/// The digest of a file and the keys of its image, compared in this order.
#[derive(Debug, PartialEq)]
pub struct Parts {
    /// SHA-256 of the whole file.
    pub digest: [u8; 32],
    pub patient: PatientKeys,
    pub study: StudyKeys,
    pub series: SeriesKeys,
    /// Instance Number (0020,0013).
    pub number: Key,
    /// SOP Class UID (0008,0016).
    pub class: Uid,
    /// Transfer Syntax UID (0002,0010).
    pub transfer: Uid,
    /// SOP Instance UID (0008,0018).
    pub instance: Uid,
}

// By hand, so that a drop is one call.
impl Drop for Parts {
    fn drop(self) {
        let Parts {
            digest: _,
            patient: _patient,
            study: _study,
            series: _series,
            number: _number,
            class: _,
            transfer: _,
            instance: _,
        } = self;
    }
}

impl Parts {
    /// Makes equal parts. Memory where no more copies can share a key of more than 22 bytes.
    pub fn copy(&self) -> Result<Parts, Memory>
        ensures value { IfOk result (λ parts. parts ≡ self.now) }
        ensures memory { IsErr result → PartsAreLong self.now }
    {
        Ok(Parts {
            digest: self.digest,
            patient: self.patient.copy()?,
            study: self.study.copy()?,
            series: self.series.copy()?,
            number: self.number.copy()?,
            class: self.class,
            transfer: self.transfer,
            instance: self.instance,
        })
    }
}

impl Ordered for Parts {
    ghost order = { parts_cmp };

    ghost total = { parts_total };

    ghost apart = { parts_apart };

    fn compare(&self, other: &Self) -> Ordering {
        self.digest[..]
            .cmp(&other.digest[..])
            .then_with(|| self.patient.compare(&other.patient))
            .then_with(|| self.study.compare(&other.study))
            .then_with(|| self.series.compare(&other.series))
            .then_with(|| self.number.compare(&other.number))
            .then_with(|| self.class.compare(&other.class))
            .then_with(|| self.transfer.compare(&other.transfer))
            .then_with(|| self.instance.compare(&other.instance))
    }
}
