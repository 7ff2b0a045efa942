ghost use Rattle.std.specs.Prelude.{◌≡◌, ◌↔◌, ℕ, List, IfSome, IsTrue, Option, option_map};
ghost use Rattle.dd_version.specs.declared.parts.Parts.{Parts};
ghost use Rattle.dd_filing.specs.Copies.{IsFoundIn};
ghost use Rattle.dd_filing.specs.Filing.{IsFileAs, IsVersionAs};
ghost use Rattle.dd_filing.specs.declared.agreeing.Filed.{Filed};

use dd_elem::Ordered;
use dd_keys::{KeyFault, one_version};
use dd_version::{Version, is_filed_as};

/// What a copied file is compared with.
#[derive(Clone, Copy)]
pub struct Wanted<'a> {
    /// The version that is planned.
    pub planned: &'a Version,
    /// The version that the file must have with all its keys, where one is said.
    pub said: Option<&'a Version>,
}

/// Says what a copied file is, compared with the wanted version.
#[derive(Clone, Copy, Debug, PartialEq, Eq)]
pub enum Filed {
    /// The file is of a version with the planned digest, and the keys that are compared are equal.
    AsPlanned,
    /// The file is of a version with another digest.
    OtherVersion,
    /// The file is of a version with the planned digest where a compared key differs, or of no version.
    Mislabelled,
}

impl Filed {
    pub(crate) fn of(found: &Version, wanted: &Wanted<'_>) -> Filed
        ensures { IsVersionAs wanted.now.planned.now (option_map (λ said. said.now) wanted.now.said) result
            found.now }
    {
        let (keys, planned) = (found.parts(), wanted.planned.parts());
        if keys.digest[..] != planned.digest[..] {
            Filed::OtherVersion
        } else if is_filed_as(keys, planned) && is_wholly(found, wanted.said) {
            Filed::AsPlanned
        } else {
            Filed::Mislabelled
        }
    }

    /// Compares a file with the wanted version, by what was found of its bytes.
    pub(crate) fn of_found(found: &Result<Version, KeyFault>, wanted: &Wanted<'_>) -> Filed
        ensures { (file : List ℕ) → IsFoundIn file found.now
            → IsFileAs wanted.now.planned.now (option_map (λ said. said.now) wanted.now.said) result file }
    {
        one_version();
        match found {
            Ok(version) => Filed::of(version, wanted),
            Err(_) => Filed::Mislabelled,
        }
    }
}

/// Says whether the version has all keys of the one that is said, where one is.
fn is_wholly(found: &Version, said: Option<&Version>) -> bool
    ensures { IsTrue result
        ↔ IfSome (option_map (λ said. said.now) said.entry) (λ version. found.now ≡ version) }
{
    match said {
        Some(version) => is_same(found, version),
        None => true,
    }
}

fn is_same(one: &Version, other: &Version) -> bool
    ensures { IsTrue result ↔ one.now ≡ other.now }
{
    one.compare(other).is_eq()
}

/// Proves that a file compares with a wanted version in one way only.
pub fn one_filed()
    ensures { (planned : Parts) (said : Option Parts) (file : List ℕ) (filed other : Filed)
        → IsFileAs planned said filed file → IsFileAs planned said other file → filed ≡ other }
{}
