//! Harmony among the versions of one patient, study or series.

ghost use Rattle.std.specs.Prelude.{◌≡◌, ◌≢◌, [], map, None, Some, IfOk, OnOk, IfErr, IfSome, OnErr};
ghost use Rattle.std.specs.Ordering.{is_eq};
ghost use Rattle.dd_elem.specs.Ordered.{bytes_cmp};
ghost use Rattle.dd_version.specs.Copies.{with_keys_of};
ghost use Rattle.dd_version.specs.Orders.{patient_cmp, study_cmp, series_cmp};
ghost use Rattle.dd_catalogue.specs.Best.{best};
ghost use Rattle.dd_catalogue.specs.Carriers.{carrier_cmp, version_like};
ghost use Rattle.dd_catalogue.specs.Changes.{with_changes};
ghost use Rattle.dd_catalogue.specs.Conflicts.{first_conflict};
ghost use Rattle.dd_catalogue.specs.Harmony.{harmonised, patient_of, study_of, series_of};
ghost use Rattle.dd_catalogue.specs.Owners.{patient_id, series_uid, study_uid};
ghost use Rattle.dd_catalogue.specs.Versions.{IsCatalogue};

use crate::best::{Table, copies};
use crate::carriers::{Carrier, carriers_of};
use crate::changes::Changes;
use crate::conflicts::conflict_among;
use crate::greatest::{Greatest, references_to};
use crate::owners::of_two_owners;
use crate::tuples::Tuple;
use dd_elem::{Memory, Ordered, Uid};
use dd_version::{PatientKeys, SeriesKeys, StudyKeys, Version};
use std::alloc::Global;

/// Gives each version the greatest keys of its patient, its study and its series.
pub(crate) fn harmony_of(alloc: Global, versions: &[Version]) -> Result<Table<Version>, Memory>
    requires { IsCatalogue versions.now }
    ensures table { IfOk result (λ table. table ≡ harmonised versions.now) }
    ensures some { OnErr result (versions.now ≢ []) }
{
    if versions.is_empty() {
        return Ok(Table::new(alloc));
    }
    let references = references_to(alloc, versions)?;
    let changes = changes_of(alloc, &references)?;
    changed_copies(alloc, versions, changes)
}

/// Gives the harmony, or the first conflict, and sorts the versions by study and by series once for both.
pub(crate) fn harmony_or_conflict(
    alloc: Global,
    versions: &[Version],
) -> Result<Result<Table<Version>, (Uid, Uid)>, Memory>
    requires { IsCatalogue versions.now }
    ensures table { IfOk result (λ answer. IfOk answer (λ table. table ≡ harmonised versions.now)) }
    ensures none { IfOk result (λ answer. OnOk answer (first_conflict versions.now ≡ None)) }
    ensures pair { IfOk result (λ answer.
        IfErr answer (λ pair. first_conflict versions.now ≡ Some pair)) }
    ensures some { OnErr result (versions.now ≢ []) }
{
    if versions.is_empty() {
        return Ok(Ok(Table::new(alloc)));
    }
    let references = references_to(alloc, versions)?;
    match changes_or_conflict(alloc, &references)? {
        Ok(changes) => Ok(Ok(changed_copies(alloc, versions, changes)?)),
        Err(pair) => Ok(Err(pair)),
    }
}

fn changed_copies(
    alloc: Global,
    versions: &[Version],
    changes: Changes,
) -> Result<Table<Version>, Memory>
    requires rising { IsCatalogue versions.now }
    requires changes { with_changes changes versions.now ≡ harmonised versions.now }
    ensures { IfOk result (λ table. table ≡ harmonised versions.now) }
{
    let mut held = copies(alloc, versions)?;
    changes.write(&mut held);
    Ok(Table::from_rising(held))
}

/// Finds the versions that have other keys in harmony.
fn changes_of(alloc: Global, versions: &[&Version]) -> Result<Changes, Memory>
    ensures { IfOk result (λ changes. with_changes changes (map (λ version. version.now) versions.now)
        ≡ harmonised (map (λ version. version.now) versions.now)) }
{
    let patients = carriers_of::<PatientKeys>(alloc, versions)?;
    let studies = carriers_of::<StudyKeys>(alloc, versions)?;
    let series = carriers_of::<SeriesKeys>(alloc, versions)?;
    changes_among(alloc, versions, &patients, &studies, &series)
}

fn changes_among<'b, 'a>(
    alloc: Global,
    versions: &[&'a Version],
    patients: &'b [Carrier<'a, PatientKeys>],
    studies: &'b [Carrier<'a, StudyKeys>],
    series: &'b [Carrier<'a, SeriesKeys>],
) -> Result<Changes, Memory>
    requires patients { patients.now ≡ map (λ version. version.now) versions.now }
    requires studies { studies.now ≡ map (λ version. version.now) versions.now }
    requires series { series.now ≡ map (λ version. version.now) versions.now }
    ensures { IfOk result (λ changes. with_changes changes (map (λ version. version.now) versions.now)
        ≡ harmonised (map (λ version. version.now) versions.now)) }
{
    let patients = Greatest::among(alloc, patients)?;
    let studies = Greatest::among(alloc, studies)?;
    let series = Greatest::among(alloc, series)?;
    changes_by(alloc, versions, &patients, &studies, &series)
}

/// Finds the versions that have other keys in harmony, or the first conflict. Sorts the versions by study and by series
/// once for both.
pub(crate) fn changes_or_conflict(
    alloc: Global,
    versions: &[&Version],
) -> Result<Result<Changes, (Uid, Uid)>, Memory>
    ensures changes { IfOk result (λ answer. IfOk answer (λ changes.
        with_changes changes (map (λ version. version.now) versions.now)
        ≡ harmonised (map (λ version. version.now) versions.now))) }
    ensures none { IfOk result (λ answer.
        OnOk answer (first_conflict (map (λ version. version.now) versions.now) ≡ None)) }
    ensures pair { IfOk result (λ answer. IfErr answer (λ pair.
        first_conflict (map (λ version. version.now) versions.now) ≡ Some pair)) }
{
    let patients = carriers_of::<PatientKeys>(alloc, versions)?;
    let studies = carriers_of::<StudyKeys>(alloc, versions)?;
    let series = carriers_of::<SeriesKeys>(alloc, versions)?;
    changes_or_conflict_among(alloc, versions, &patients, &studies, &series)
}

fn changes_or_conflict_among<'b, 'a>(
    alloc: Global,
    versions: &[&'a Version],
    patients: &'b [Carrier<'a, PatientKeys>],
    studies: &'b [Carrier<'a, StudyKeys>],
    series: &'b [Carrier<'a, SeriesKeys>],
) -> Result<Result<Changes, (Uid, Uid)>, Memory>
    requires patients { patients.now ≡ map (λ version. version.now) versions.now }
    requires studies { studies.now ≡ map (λ version. version.now) versions.now }
    requires series { series.now ≡ map (λ version. version.now) versions.now }
    ensures changes { IfOk result (λ answer. IfOk answer (λ changes.
        with_changes changes (map (λ version. version.now) versions.now)
        ≡ harmonised (map (λ version. version.now) versions.now))) }
    ensures none { IfOk result (λ answer.
        OnOk answer (first_conflict (map (λ version. version.now) versions.now) ≡ None)) }
    ensures pair { IfOk result (λ answer. IfErr answer (λ pair.
        first_conflict (map (λ version. version.now) versions.now) ≡ Some pair)) }
{
    let all_studies = Greatest::among(alloc, studies)?;
    let all_series = Greatest::among(alloc, series)?;
    let split_studies = of_two_owners::<StudyKeys, PatientKeys>(alloc, studies, &all_studies)?;
    let split_series = of_two_owners::<SeriesKeys, StudyKeys>(alloc, series, &all_series)?;
    if let Some(pair) = conflict_among(versions, &split_studies, &split_series) {
        return Ok(Err(pair));
    }
    let all_patients = Greatest::among(alloc, patients)?;
    let changes = changes_by(alloc, versions, &all_patients, &all_studies, &all_series)?;
    Ok(Ok(changes))
}

fn changes_by<'b, 'a>(
    alloc: Global,
    versions: &[&'a Version],
    patients: &Greatest<'b, Carrier<'a, PatientKeys>>,
    studies: &Greatest<'b, Carrier<'a, StudyKeys>>,
    series: &Greatest<'b, Carrier<'a, SeriesKeys>>,
) -> Result<Changes, Memory>
    requires patients { patients.now ≡ best patient_id bytes_cmp (carrier_cmp patient_of patient_cmp)
        (map (λ version. version.now) versions.now) }
    requires studies { studies.now ≡ best study_uid bytes_cmp (carrier_cmp study_of study_cmp)
        (map (λ version. version.now) versions.now) }
    requires series { series.now ≡ best series_uid bytes_cmp (carrier_cmp series_of series_cmp)
        (map (λ version. version.now) versions.now) }
    ensures { IfOk result (λ changes. with_changes changes (map (λ version. version.now) versions.now)
        ≡ harmonised (map (λ version. version.now) versions.now)) }
{
    let mut list = Vec::new(alloc);
    for index in 0..versions.len() {
        let version = versions[index];
        let patient = version_like(patients, version);
        let study = version_like(studies, version);
        let series = version_like(series, version);
        if let Some(changed) = with_other_keys(version, patient, study, series)? {
            list.push((index, changed))?;
        }
    }
    Ok(Changes::of(list))
}

/// Copies the version with the keys of these versions' patient, study and series. None where it has these keys.
fn with_other_keys(
    version: &Version,
    patient: &Version,
    study: &Version,
    series: &Version,
) -> Result<Option<Version>, Memory>
    ensures other { IfOk result (λ other. IfSome other (λ other.
        other ≡ with_keys_of version.now patient.now study.now series.now)) }
    ensures same { IfOk result (λ other. other ≡ None
        → version.now ≡ with_keys_of version.now patient.now study.now series.now) }
{
    if has_keys_of::<PatientKeys>(version, patient)
        && has_keys_of::<StudyKeys>(version, study)
        && has_keys_of::<SeriesKeys>(version, series)
    {
        return Ok(None);
    }
    Ok(Some(version.with_keys_of(patient, study, series)?))
}

fn has_keys_of<T: Tuple>(version: &Version, other: &Version) -> bool
    ensures { result ≡ is_eq (T.order (T.tuple_of version.now) (T.tuple_of other.now)) }
{
    T::of(version).compare(T::of(other)).is_eq()
}

/// Gives the version in the table of the same patient, study or series, or else this version.
fn version_like<'b, 'a, T: Tuple>(
    table: &Greatest<'b, Carrier<'a, T>>,
    version: &'a Version,
) -> &'a Version
    ensures { result.now ≡ version_like (λ v. T.key_of (T.tuple_of v)) table.now version.now }
{
    match table.get(T::of(version).key()) {
        Some(carrier) => carrier.version(),
        None => version,
    }
}
