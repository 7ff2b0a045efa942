//! Conflicts among versions.

ghost use Rattle.std.specs.Prelude.{◌≡◌, ◌≢◌, ◌||◌, [], None, find, is_some, map, IfOk, OnErr};
ghost use Rattle.dd_elem.specs.Ordered.{bytes_cmp};
ghost use Rattle.dd_catalogue.specs.Best.{at};
ghost use Rattle.dd_catalogue.specs.Conflicts.{first_conflict, conflicts, pair_or};
ghost use Rattle.dd_catalogue.specs.Owners.{HasThoseOfTwoOwners, patient_id, series_uid, study_uid};

use crate::carriers::{Carrier, carriers_of};
use crate::greatest::{Greatest, references_to};
use crate::owners::of_two_owners;
use dd_elem::{Memory, Uid};
use dd_version::{PatientKeys, SeriesKeys, StudyKeys, Version};
use std::alloc::Global;

/// Finds the first version that conflicts with a later one, and the first later one with which it does.
pub(crate) fn first_conflict(
    alloc: Global,
    versions: &[Version],
) -> Result<Option<(Uid, Uid)>, Memory>
    ensures pair { IfOk result (λ pair. pair ≡ first_conflict versions.now) }
    ensures some { OnErr result (versions.now ≢ []) }
{
    if versions.is_empty() {
        return Ok(None);
    }
    let references = references_to(alloc, versions)?;
    let studies = carriers_of::<StudyKeys>(alloc, &references)?;
    let series = carriers_of::<SeriesKeys>(alloc, &references)?;
    conflict_by(alloc, &references, &studies, &series)
}

fn conflict_by<'b, 'a>(
    alloc: Global,
    versions: &[&Version],
    studies: &'b [Carrier<'a, StudyKeys>],
    series: &'b [Carrier<'a, SeriesKeys>],
) -> Result<Option<(Uid, Uid)>, Memory>
    requires studies { studies.now ≡ map (λ version. version.now) versions.now }
    requires series { series.now ≡ map (λ version. version.now) versions.now }
    ensures { IfOk result (λ pair.
        pair ≡ first_conflict (map (λ version. version.now) versions.now)) }
{
    let all_studies = Greatest::among(alloc, studies)?;
    let all_series = Greatest::among(alloc, series)?;
    let split_studies = of_two_owners::<StudyKeys, PatientKeys>(alloc, studies, &all_studies)?;
    let split_series = of_two_owners::<SeriesKeys, StudyKeys>(alloc, series, &all_series)?;
    Ok(conflict_among(versions, &split_studies, &split_series))
}

/// Compares only versions of these studies and series with the later ones.
pub(crate) fn conflict_among<'b, 'a>(
    versions: &[&Version],
    studies: &Greatest<'b, Carrier<'a, StudyKeys>>,
    series: &Greatest<'b, Carrier<'a, SeriesKeys>>,
) -> Option<(Uid, Uid)>
    requires studies { HasThoseOfTwoOwners study_uid patient_id
        (map (λ version. version.now) versions.now) studies.now }
    requires series { HasThoseOfTwoOwners series_uid study_uid
        (map (λ version. version.now) versions.now) series.now }
    ensures { result ≡ first_conflict (map (λ version. version.now) versions.now) }
{
    let mut later = versions;
    while let [version, rest @ ..] = later {
        if is_of_two_owners(version, studies, series) {
            if let Some(pair) = pair_with(version, rest) {
                return Some(pair);
            }
        }
        later = rest;
    }
    None
}

fn is_of_two_owners<'b, 'a>(
    version: &Version,
    studies: &Greatest<'b, Carrier<'a, StudyKeys>>,
    series: &Greatest<'b, Carrier<'a, SeriesKeys>>,
) -> bool
    ensures { result ≡ (is_some (at study_uid bytes_cmp studies.now version.now.study.uid)
        || is_some (at series_uid bytes_cmp series.now version.now.series.uid)) }
{
    let parts = version.parts();
    studies.get(parts.study.uid.as_bytes()).is_some()
        || series.get(parts.series.uid.as_bytes()).is_some()
}

fn pair_with(version: &Version, others: &[&Version]) -> Option<(Uid, Uid)>
    ensures { result ≡ pair_or version.now
        (find (conflicts version.now) (map (λ other. other.now) others.now)) None }
{
    for other in others {
        if conflicts(version, other) {
            return Some((version.parts().instance, other.parts().instance));
        }
    }
    None
}

#[tactic(auto, using(dd_elem::proofs::Sameness::same_bytes, dd_elem::proofs::Sameness::same_uid))]
fn conflicts(one: &Version, other: &Version) -> bool
    ensures { result ≡ conflicts one.now other.now }
{
    let (one, other) = (one.parts(), other.parts());
    let same_study = one.study.uid == other.study.uid;
    let same_patient = one.patient.id == other.patient.id;
    let same_series = one.series.uid == other.series.uid;
    (same_study && !same_patient) || (same_series && !same_study)
}
