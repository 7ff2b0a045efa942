//! The versions that a catalogue keeps of a list, by reference.

ghost use Rattle.std.specs.Prelude.{◌≡◌, ◌≢◌, [], map, option_copied, IfOk, OnErr};
ghost use Rattle.dd_catalogue.specs.Contents.{kept_of};
ghost use Rattle.dd_catalogue.specs.HarmonyFound.{AreChangesOf};
ghost use Rattle.dd_catalogue.specs.Versions.{IsCatalogue, kept};

use crate::changes::Changes;
use crate::greatest::{Greatest, references_to};
use crate::harmony::changes_or_conflict;
use crate::outcomes::HarmonyChanges;
use crate::sifting::sift_references;
use crate::withdrawals::Withdrawals;
use dd_elem::{Memory, Uid};
use dd_version::Version;
use std::alloc::Global;
use std::marker::Model;

/// Holds references to the versions that a catalogue keeps of a list: of each SOP Instance UID (PS3.3 section C.12.1)
/// that is not withdrawn the greatest version.
pub struct Kept<'a> {
    greatest: Greatest<'a, Version>,
}

impl<'a> Model for Kept<'a> {
    ghost use Rattle.std.specs.Prelude.{List};
    ghost use Rattle.dd_version.specs.declared.parts.Parts.{Parts};

    ghost Value = { List Parts };

    ghost view = { λ kept. kept.greatest };
}

// By hand, so that dropping it is one call.
impl Drop for Kept<'_> {
    fn drop(self) {
        let Kept {
            greatest: _greatest,
        } = self;
    }
}

impl<'a> Kept<'a> {
    /// Finds them, and sorts references once. Memory where an allocation was refused, and never where there are no
    /// versions.
    pub fn of(
        alloc: Global,
        versions: &'a [Version],
        withdrawn: &Withdrawals,
    ) -> Result<Kept<'a>, Memory>
        ensures kept { IfOk result (λ kept. kept ≡ kept_of versions.now withdrawn.now) }
        ensures some { OnErr result (versions.now ≢ []) }
    {
        if versions.is_empty() {
            return Ok(Kept {
                greatest: Greatest::none(alloc),
            });
        }
        let mut references = references_to(alloc, versions)?;
        sift_references(&mut references, withdrawn.table());
        Ok(Kept {
            greatest: Greatest::of(alloc, references)?,
        })
    }

    /// Gives the version that is kept of this instance.
    pub fn get(&self, instance: &Uid) -> Option<&'a Version>
        ensures { option_copied result ≡ kept self.now instance.now }
    {
        self.greatest.get(instance.as_bytes())
    }

    /// Lists the versions, rising by SOP Instance UID.
    pub fn versions(&self) -> &[&'a Version]
        ensures all { map (λ version. version.now) result.now ≡ self.now }
        ensures rising { IsCatalogue self.now }
    {
        self.greatest.values()
    }

    /// Finds the versions that have other keys in harmony, or the first conflict, as `Catalogue::harmonise_or_conflict`
    /// does. Memory where an allocation was refused, and never where there are no versions.
    pub fn changes_or_conflict(&self, alloc: Global) -> Result<HarmonyChanges, Memory>
        ensures harmony { IfOk result (λ changes. AreChangesOf self.now changes) }
        ensures some { OnErr result (self.now ≢ []) }
    {
        if self.versions().is_empty() {
            return Ok(HarmonyChanges::Found(Changes::of(Vec::new(alloc))));
        }
        match changes_or_conflict(alloc, self.versions())? {
            Ok(changes) => Ok(HarmonyChanges::Found(changes)),
            Err((one, other)) => Ok(HarmonyChanges::Conflict(one, other)),
        }
    }
}
