ghost use Rattle.std.specs.Prelude.{◌≡◌, List, ℕ, IfOk};
ghost use Rattle.std.specs.Result.{result_err};
ghost use Rattle.dd_keys.specs.RowViews.{AreKeys, row_parts, row_patient, row_series, row_study};
ghost use Rattle.dd_keys.specs.Summaries.{AreFronts, summary_parts, summary_table_fault};

use crate::fault::KeyFault;
use crate::rows::{
    ACCESSION, CHARSET, CLASS, DESCRIPTION, INSTANCE, INSTANCE_NUMBER, MODALITY, PATIENT_ID,
    PATIENT_NAME, SERIES, SERIES_NUMBER, STUDY, STUDY_DATE, STUDY_ID, STUDY_TIME,
};
use crate::summary::Values;
use dd_elem::{Memory, Uid};
use dd_part10::Meta;
use dd_version::{Parts, PatientKeys, SeriesKeys, StudyKeys};
use std::alloc::Global;

/// The values of the rows, each of which has passed the checks of its row.
#[derive(Clone, Copy)]
pub(crate) struct RowValues<'v> {
    charset: &'v [u8],
    study_date: &'v [u8],
    study_time: &'v [u8],
    accession: &'v [u8],
    modality: &'v [u8],
    description: &'v [u8],
    patient_name: &'v [u8],
    patient_id: &'v [u8],
    study: Uid,
    series: Uid,
    study_id: &'v [u8],
    series_number: &'v [u8],
    instance_number: &'v [u8],
}

impl<'v> RowValues<'v> {
    #[tactic(auto, unfolding(crate::specs::Summaries::summary_table_fault))]
    pub(crate) fn of<V: Values>(meta: &Meta, values: &'v V) -> Result<RowValues<'v>, KeyFault>
        requires fronts { AreFronts (V.tells values.now) }
        ensures fault { result_err result ≡ summary_table_fault meta.now (V.tells values.now) }
        ensures parts { IfOk result (λ found. (digest : List ℕ) → row_parts found digest meta.now
            ≡ summary_parts (V.tells values.now) digest meta.now) }
        ensures keys { IfOk result AreKeys }
    {
        let charset = CHARSET.value(values)?;
        CLASS.uid(meta, values)?;
        INSTANCE.uid(meta, values)?;
        let study_date = STUDY_DATE.value(values)?;
        let study_time = STUDY_TIME.value(values)?;
        let accession = ACCESSION.value(values)?;
        let modality = MODALITY.value(values)?;
        let description = DESCRIPTION.value(values)?;
        let patient_name = PATIENT_NAME.value(values)?;
        let patient_id = PATIENT_ID.value(values)?;
        let study = STUDY.uid(meta, values)?;
        let series = SERIES.uid(meta, values)?;
        let study_id = STUDY_ID.value(values)?;
        let series_number = SERIES_NUMBER.value(values)?;
        let instance_number = INSTANCE_NUMBER.value(values)?;
        Ok(RowValues {
            charset,
            study_date,
            study_time,
            accession,
            modality,
            description,
            patient_name,
            patient_id,
            study,
            series,
            study_id,
            series_number,
            instance_number,
        })
    }

    fn patient(&self, alloc: Global) -> Result<PatientKeys, Memory>
        requires { AreKeys self.now }
        ensures { IfOk result (λ patient. patient ≡ row_patient self.now) }
    {
        Ok(PatientKeys {
            id: PATIENT_ID.key(alloc, self.patient_id)?,
            name: PATIENT_NAME.key(alloc, self.patient_name)?,
            charset: CHARSET.key(alloc, self.charset)?,
        })
    }

    fn study(&self, alloc: Global) -> Result<StudyKeys, Memory>
        requires { AreKeys self.now }
        ensures { IfOk result (λ study. study ≡ row_study self.now) }
    {
        Ok(StudyKeys {
            uid: self.study,
            date: STUDY_DATE.key(alloc, self.study_date)?,
            time: STUDY_TIME.key(alloc, self.study_time)?,
            accession: ACCESSION.key(alloc, self.accession)?,
            description: DESCRIPTION.key(alloc, self.description)?,
            id: STUDY_ID.key(alloc, self.study_id)?,
            charset: CHARSET.key(alloc, self.charset)?,
        })
    }

    fn series(&self, alloc: Global) -> Result<SeriesKeys, Memory>
        requires { AreKeys self.now }
        ensures { IfOk result (λ series. series ≡ row_series self.now) }
    {
        Ok(SeriesKeys {
            uid: self.series,
            modality: MODALITY.key(alloc, self.modality)?,
            number: SERIES_NUMBER.key(alloc, self.series_number)?,
        })
    }

    pub(crate) fn parts(
        &self,
        alloc: Global,
        meta: &Meta,
        digest: [u8; 32],
    ) -> Result<Parts, Memory>
        requires { AreKeys self.now }
        ensures { IfOk result (λ parts. parts ≡ row_parts self.now digest meta.now) }
    {
        Ok(Parts {
            digest,
            patient: self.patient(alloc)?,
            study: self.study(alloc)?,
            series: self.series(alloc)?,
            number: INSTANCE_NUMBER.key(alloc, self.instance_number)?,
            class: meta.class,
            transfer: meta.transfer,
            instance: meta.instance,
        })
    }
}
