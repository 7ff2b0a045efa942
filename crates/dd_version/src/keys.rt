ghost use Rattle.std.specs.Prelude.{◌≡◌, IfOk, IsErr};
ghost use Rattle.dd_version.specs.Copies.{PatientIsLong, StudyIsLong, SeriesIsLong};
ghost use Rattle.dd_version.specs.Orders.{patient_cmp, patient_total, patient_apart, study_cmp, study_total};
ghost use Rattle.dd_version.specs.Orders.{study_apart, series_cmp, series_total, series_apart};

use dd_elem::{Key, Memory, Ordered, Uid};
use std::cmp::Ordering;

/// The keys of a PATIENT record (PS3.3 section F.5.1), compared in this order.
#[derive(Debug, PartialEq)]
pub struct PatientKeys {
    /// Patient ID (0010,0020).
    pub id: Key,
    /// Patient's Name (0010,0010).
    pub name: Key,
    /// Specific Character Set (0008,0005).
    pub charset: Key,
}

/// The keys of a STUDY record (PS3.3 section F.5.2), compared in this order.
#[derive(Debug, PartialEq)]
pub struct StudyKeys {
    /// Study Instance UID (0020,000D).
    pub uid: Uid,
    /// Study Date (0008,0020).
    pub date: Key,
    /// Study Time (0008,0030).
    pub time: Key,
    /// Accession Number (0008,0050).
    pub accession: Key,
    /// Study Description (0008,1030).
    pub description: Key,
    /// Study ID (0020,0010).
    pub id: Key,
    /// Specific Character Set (0008,0005).
    pub charset: Key,
}

/// The keys of a SERIES record (PS3.3 section F.5.3), compared in this order.
#[derive(Debug, PartialEq)]
pub struct SeriesKeys {
    /// Series Instance UID (0020,000E).
    pub uid: Uid,
    /// Modality (0008,0060).
    pub modality: Key,
    /// Series Number (0020,0011).
    pub number: Key,
}

// By hand, each as one call: a derived drop is proved anew at each exit of a function that owns the value.
impl Drop for PatientKeys {
    fn drop(self) {
        let PatientKeys {
            id: _id,
            name: _name,
            charset: _charset,
        } = self;
    }
}

impl Drop for StudyKeys {
    fn drop(self) {
        let StudyKeys {
            uid: _,
            date: _date,
            time: _time,
            accession: _accession,
            description: _description,
            id: _id,
            charset: _charset,
        } = self;
    }
}

impl Drop for SeriesKeys {
    fn drop(self) {
        let SeriesKeys {
            uid: _,
            modality: _modality,
            number: _number,
        } = self;
    }
}

impl PatientKeys {
    /// Makes equal keys. Memory where no more copies can share a key of more than 22 bytes.
    pub fn copy(&self) -> Result<PatientKeys, Memory>
        ensures value { IfOk result (λ keys. keys ≡ self.now) }
        ensures memory { IsErr result → PatientIsLong self.now }
    {
        Ok(PatientKeys {
            id: self.id.copy()?,
            name: self.name.copy()?,
            charset: self.charset.copy()?,
        })
    }
}

impl StudyKeys {
    /// Makes equal keys. Memory as for `PatientKeys`.
    pub fn copy(&self) -> Result<StudyKeys, Memory>
        ensures value { IfOk result (λ keys. keys ≡ self.now) }
        ensures memory { IsErr result → StudyIsLong self.now }
    {
        Ok(StudyKeys {
            uid: self.uid,
            date: self.date.copy()?,
            time: self.time.copy()?,
            accession: self.accession.copy()?,
            description: self.description.copy()?,
            id: self.id.copy()?,
            charset: self.charset.copy()?,
        })
    }
}

impl SeriesKeys {
    /// Makes equal keys. Memory as for `PatientKeys`.
    pub fn copy(&self) -> Result<SeriesKeys, Memory>
        ensures value { IfOk result (λ keys. keys ≡ self.now) }
        ensures memory { IsErr result → SeriesIsLong self.now }
    {
        Ok(SeriesKeys {
            uid: self.uid,
            modality: self.modality.copy()?,
            number: self.number.copy()?,
        })
    }
}

impl Ordered for PatientKeys {
    ghost order = { patient_cmp };

    ghost total = { patient_total };

    ghost apart = { patient_apart };

    fn compare(&self, other: &Self) -> Ordering {
        self.id
            .compare(&other.id)
            .then_with(|| self.name.compare(&other.name))
            .then_with(|| self.charset.compare(&other.charset))
    }
}

impl Ordered for StudyKeys {
    ghost order = { study_cmp };

    ghost total = { study_total };

    ghost apart = { study_apart };

    fn compare(&self, other: &Self) -> Ordering {
        self.uid
            .compare(&other.uid)
            .then_with(|| self.date.compare(&other.date))
            .then_with(|| self.time.compare(&other.time))
            .then_with(|| self.accession.compare(&other.accession))
            .then_with(|| self.description.compare(&other.description))
            .then_with(|| self.id.compare(&other.id))
            .then_with(|| self.charset.compare(&other.charset))
    }
}

impl Ordered for SeriesKeys {
    ghost order = { series_cmp };

    ghost total = { series_total };

    ghost apart = { series_apart };

    fn compare(&self, other: &Self) -> Ordering {
        self.uid
            .compare(&other.uid)
            .then_with(|| self.modality.compare(&other.modality))
            .then_with(|| self.number.compare(&other.number))
    }
}
