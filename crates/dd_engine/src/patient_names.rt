ghost use Rattle.std.specs.Prelude.{◌≡◌, ◌≢◌, ◌≤◌, [], ◌∷◌, ◌++◌, length, map, filter, IfOk, OnErr, OnOk};
ghost use Rattle.std.specs.List.{prefix_len};
ghost use Rattle.std.specs.List.Sorted.{IsStrictlySortedBy};
ghost use Rattle.dd_catalogue.specs.Best.{SameMembers};
ghost use Rattle.dd_engine.specs.Namings.{grouped, has_id, has_several, naming_cmp, naming_of, patient_of};
ghost use Rattle.dd_engine.specs.PatientNames.{AreNamed, with_kept_digest};

use crate::left_out::has_kept_digest;
use dd_catalogue::Kept;
use dd_elem::{Key, Memory, Ordered};
use dd_version::Version;
use std::alloc::Global;
use std::cmp::Ordering;
use std::marker::Model;

/// A Patient ID, and the Patient's Names that versions have with it.
#[derive(Debug)]
pub struct PatientNames {
    id: Key,
    names: Vec<Key>,
}

impl Model for PatientNames {
    ghost use Rattle.dd_engine.specs.PatientNames.{NamedPatient};

    ghost Value = { NamedPatient };

    ghost view = { λ patient. record { id = patient.id; names = patient.names.items } };
}

// By hand, so that dropping it is one call.
impl Drop for PatientNames {
    fn drop(self) {
        let PatientNames {
            id: _id,
            names: _names,
        } = self;
    }
}

impl PatientNames {
    /// Gives the Patient ID.
    pub fn id(&self) -> &Key
        ensures { result.now ≡ self.now.id }
    {
        &self.id
    }

    /// Gives the Patient's Names.
    pub fn names(&self) -> &[Key]
        ensures { result.now ≡ self.now.names }
    {
        &self.names
    }
}

#[derive(Drop)]
struct Naming<'a> {
    id: &'a Key,
    name: &'a Key,
}

impl<'a> Model for Naming<'a> {
    ghost use Rattle.dd_engine.specs.Namings.{Naming};

    ghost Value = { Naming };

    ghost view = { λ naming. record { id = naming.id.now; name = naming.name.now } };
}

impl<'a> PartialEq for Naming<'a> {
    ghost use Rattle.std.specs.Cmp.{partial_equiv_from_equiv};
    ghost use Rattle.std.specs.Ordering.{eq_by_cmp};
    ghost use Rattle.std.proofs.lemmas.Cmp.{eq_by_cmp_equiv};
    ghost use Rattle.dd_engine.specs.Namings.{naming_cmp, naming_total};

    ghost eq = { eq_by_cmp naming_cmp };

    ghost laws = { partial_equiv_from_equiv (eq_by_cmp_equiv naming_total) };

    fn eq(&self, other: &Naming<'a>) -> bool {
        self.compare(other).is_eq()
    }
}

/// Orders namings by the ID, then by the name, the greatest name first.
impl<'a> Ordered for Naming<'a> {
    ghost use Rattle.dd_engine.specs.Namings.{naming_cmp, naming_total, naming_apart};

    ghost order = { naming_cmp };

    ghost total = { naming_total };

    ghost apart = { naming_apart };

    fn compare(&self, other: &Self) -> Ordering {
        self.id
            .compare(other.id)
            .then_with(|| other.name.compare(self.name))
    }
}

/// Finds the Patient IDs with more than one Patient's Name among the versions that have the digest that is kept of
/// their instance. The IDs rise by bytes, and the names of each fall by bytes.
pub(crate) fn patient_names(
    alloc: Global,
    best: &Kept<'_>,
    versions: &[Version],
) -> Result<Vec<PatientNames>, Memory>
    ensures named { IfOk result (λ patients.
        AreNamed (with_kept_digest best.now versions.now) patients.items) }
    ensures some { OnErr result (versions.now ≢ []) }
{
    if versions.is_empty() {
        return Ok(Vec::new(alloc));
    }
    let namings = in_order(namings_of(alloc, best, versions)?);
    of_several_names(alloc, &namings)
}

fn namings_of<'a>(
    alloc: Global,
    best: &Kept<'_>,
    versions: &'a [Version],
) -> Result<Vec<Naming<'a>>, Memory>
    ensures { IfOk result (λ namings. namings.items
        ≡ map naming_of (with_kept_digest best.now versions.now)) }
{
    let mut namings = Vec::with_capacity(alloc, versions.len())?;
    for version in versions {
        if has_kept_digest(best, version) {
            let patient = &version.parts().patient;
            namings.push(Naming {
                id: &patient.id,
                name: &patient.name,
            })?;
        }
    }
    Ok(namings)
}

fn in_order<'a>(mut namings: Vec<Naming<'a>>) -> Vec<Naming<'a>>
    ensures rising { IsStrictlySortedBy naming_cmp result.items }
    ensures same { SameMembers result.items namings.entry.items }
{
    namings.sort_unstable_by(|one: &Naming<'_>, other: &Naming<'_>| one.compare(other));
    namings.dedup();
    namings
}

fn of_several_names<'a>(alloc: Global, namings: &[Naming<'a>]) -> Result<Vec<PatientNames>, Memory>
    ensures { IfOk result (λ patients. patients.items ≡ filter has_several (grouped namings.now)) }
{
    let mut patients = Vec::new(alloc);
    let mut rest = namings;
    while let [first, others @ ..] = rest {
        let len = like_len(first.id, others);
        add(alloc, &mut patients, first, &others[..len])?;
        rest = &others[len..];
    }
    Ok(patients)
}

fn add<'a>(
    alloc: Global,
    patients: &mut Vec<PatientNames>,
    first: &Naming<'a>,
    like: &[Naming<'a>],
) -> Result<(), Memory>
    ensures { OnOk result (patients.new.items
        ≡ patients.old.items ++ filter has_several (patient_of first.now like.now ∷ [])) }
{
    if !like.is_empty() {
        patients.push(patient(alloc, first, like)?)?;
    }
    Ok(())
}

fn like_len<'a>(id: &Key, namings: &[Naming<'a>]) -> usize
    ensures count { result ≡ prefix_len (has_id id.now) namings.now }
    ensures within { result ≤ length namings.now }
{
    let mut len = 0;
    for naming in namings {
        if naming.id != id {
            return len;
        }
        len += 1;
    }
    len
}

fn patient<'a>(
    alloc: Global,
    first: &Naming<'a>,
    like: &[Naming<'a>],
) -> Result<PatientNames, Memory>
    ensures { IfOk result (λ patient. patient ≡ patient_of first.now like.now) }
{
    let mut names = Vec::with_capacity(alloc, like.len() + 1)?;
    names.push(first.name.copy()?)?;
    for naming in like {
        names.push(naming.name.copy()?)?;
    }
    Ok(PatientNames {
        id: first.id.copy()?,
        names,
    })
}
