//! The keys that a version has of its patient, its study and its series.

ghost use Rattle.std.specs.Prelude.{◌≡◌};
ghost use Rattle.dd_version.specs.declared.parts.Parts.{Parts};
ghost use Rattle.dd_catalogue.specs.Harmony.{patient_of, patient_key, study_of, study_key, series_of, series_key};

use crate::greatest::Keyed;
use dd_version::{PatientKeys, SeriesKeys, StudyKeys, Version};

pub(crate) trait Tuple: Keyed {
    ghost tuple_of: { Parts → Self };

    fn of(version: &Version) -> &Self
        ensures { result.now ≡ tuple_of version.now };
}

impl Keyed for PatientKeys {
    ghost key_of = { patient_key };

    fn key(&self) -> &[u8] {
        self.id.as_bytes()
    }
}

impl Tuple for PatientKeys {
    ghost tuple_of = { patient_of };

    fn of(version: &Version) -> &PatientKeys {
        &version.parts().patient
    }
}

impl Keyed for StudyKeys {
    ghost key_of = { study_key };

    fn key(&self) -> &[u8] {
        self.uid.as_bytes()
    }
}

impl Tuple for StudyKeys {
    ghost tuple_of = { study_of };

    fn of(version: &Version) -> &StudyKeys {
        &version.parts().study
    }
}

impl Keyed for SeriesKeys {
    ghost key_of = { series_key };

    fn key(&self) -> &[u8] {
        self.uid.as_bytes()
    }
}

impl Tuple for SeriesKeys {
    ghost tuple_of = { series_of };

    fn of(version: &Version) -> &SeriesKeys {
        &version.parts().series
    }
}
