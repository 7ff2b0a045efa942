//! Catalogues of versions.

ghost use Rattle.std.specs.Prelude.{◌≡◌, ◌≢◌, ◌==◌, ◌≤◌, ◌+◌, ◌*◌, ◌⊎◌, [], length, map, min, option_copied};
ghost use Rattle.std.specs.Prelude.{IsOk, IfOk, IfErr, OnOk, OnErr, IsSome, IsTrue};
ghost use Rattle.dd_catalogue.specs.Changes.{with_changes};
ghost use Rattle.dd_catalogue.specs.Conflicts.{IsConflict, first_conflict};
ghost use Rattle.dd_catalogue.specs.Harmony.{IsHarmonised, harmonised};
ghost use Rattle.dd_catalogue.specs.HarmonyFound.{IsHarmonyOf};
ghost use Rattle.dd_catalogue.specs.Versions.{IsCatalogue, best_of, compared_of, kept};
ghost use Rattle.dd_catalogue.specs.Best.{IsRising};
ghost use Rattle.dd_catalogue.specs.Contents.{IsHeld, all_of, and_version, and_withdrawn, compared_in_merge};
ghost use Rattle.dd_catalogue.specs.Contents.{held_of, is_withdrawn, kept_of, nothing};
ghost use Rattle.dd_catalogue.specs.Equal.{are_same_uids};
ghost use Rattle.dd_catalogue.specs.Taking.{took_of, withdrew_of};
ghost use Rattle.dd_elem.specs.Device.{last_count};
ghost use Rattle.dd_elem.specs.Ordered.{bytes_cmp};

use crate::best::Table;
use crate::changes::Changes;
use crate::conflicts::first_conflict;
use crate::greatest::references_to;
use crate::harmony::{harmony_of, harmony_or_conflict};
use crate::join::Join;
use crate::outcomes::{Harmony, Refused, Took, Withdrew, to_took};
use crate::sifting::{sift, sift_references};
use crate::thinning::keep_greatest;
use crate::withdrawals::{Withdrawals, uid_table};
use dd_elem::{Memory, Uid};
use dd_version::Version;
use std::alloc::Global;
use std::marker::Model;

/// Holds the greatest version of each SOP Instance UID (PS3.3 section C.12.1) that was taken and is not withdrawn,
/// and the withdrawn UIDs.
#[derive(Debug)]
pub struct Catalogue {
    table: Table<Version>,
    withdrawn: Withdrawals,
}

impl Model for Catalogue {
    ghost use Rattle.dd_catalogue.specs.Contents.{Contents, IsHeld};

    ghost Value = { Contents };

    ghost view = { λ catalogue.
        record { versions = catalogue.table; withdrawn = catalogue.withdrawn } };

    ghost invariant = { λ catalogue.
        IsHeld (record { versions = catalogue.table; withdrawn = catalogue.withdrawn }) };
}

// By hand, so that dropping a catalogue is one call.
impl Drop for Catalogue {
    fn drop(self) {
        let Catalogue {
            table: _table,
            withdrawn: _withdrawn,
        } = self;
    }
}

impl Catalogue {
    /// Makes the catalogue that has taken and withdrawn nothing.
    pub fn new(alloc: Global) -> Catalogue
        ensures { result ≡ nothing }
    {
        Catalogue {
            table: Table::new(alloc),
            withdrawn: Withdrawals::new(alloc),
        }
    }

    /// Copies each version that is kept once.
    pub(crate) fn of(
        alloc: Global,
        versions: Vec<&Version>,
        withdrawn: Vec<&Uid>,
    ) -> Result<Catalogue, Memory>
        ensures { IfOk result (λ catalogue. catalogue ≡ held_of (record {
          versions = map (λ version. version.now) versions.entry.items;
          withdrawn = map (λ uid. uid.now) withdrawn.entry.items;
        })) }
    {
        Catalogue::without(alloc, versions, Table::of(alloc, withdrawn)?)
    }

    /// Copies each version that is kept once. Copies of the catalogue share the UIDs.
    fn without(
        alloc: Global,
        mut versions: Vec<&Version>,
        withdrawn: Table<Uid>,
    ) -> Result<Catalogue, Memory>
        ensures { IfOk result (λ catalogue. catalogue ≡ record {
          versions = kept_of (map (λ version. version.now) versions.entry.items) withdrawn;
          withdrawn = withdrawn;
        }) }
    {
        sift_references(&mut versions, &withdrawn);
        let table = Table::of(alloc, versions)?;
        let withdrawn = Withdrawals::for_sharing(alloc, withdrawn)?;
        Ok(Catalogue { table, withdrawn })
    }

    /// Makes a catalogue of the best of these versions, with nothing withdrawn. Sorts once, and copies each version
    /// that is kept once. Memory where an allocation was refused: never where there are no versions.
    pub fn from_versions(alloc: Global, versions: &[Version]) -> Result<Catalogue, Memory>
        ensures best { IfOk result (λ catalogue. catalogue.versions ≡ best_of versions.now) }
        ensures withdrawn { IfOk result (λ catalogue. catalogue.withdrawn ≡ []) }
        ensures some { OnErr result (versions.now ≢ []) }
    {
        if versions.is_empty() {
            return Ok(Catalogue::new(alloc));
        }
        Ok(Catalogue {
            table: Table::of(alloc, references_to(alloc, versions)?)?,
            withdrawn: Withdrawals::new(alloc),
        })
    }

    /// Makes a catalogue of the best of the versions whose instances are not withdrawn, and of these withdrawn UIDs.
    /// Sorts once, and copies each version that is kept once. Keeps the list of UIDs, which copies of the catalogue
    /// share. Memory where an allocation was refused, and never where both lists are empty.
    pub fn from_parts(
        alloc: Global,
        versions: &[Version],
        withdrawn: Vec<Uid>,
    ) -> Result<Catalogue, Memory>
        ensures held { IfOk result (λ catalogue. catalogue ≡ held_of (record {
          versions = versions.now;
          withdrawn = withdrawn.items;
        })) }
        ensures some { OnErr result ((versions.now ≢ []) ⊎ (withdrawn.items ≢ [])) }
    {
        if versions.is_empty() && withdrawn.is_empty() {
            return Ok(Catalogue::new(alloc));
        }
        Catalogue::without(alloc, references_to(alloc, versions)?, uid_table(withdrawn))
    }

    /// Makes a catalogue of the best of the versions whose instances are not withdrawn, and puts each of these changed
    /// versions at its index among them where its instance stands. Sorts the list in place, and takes no memory.
    pub fn from_list(versions: Vec<Version>, withdrawn: Withdrawals, changes: Changes) -> Catalogue
        ensures { result ≡ record {
          versions = with_changes changes (kept_of versions.items withdrawn);
          withdrawn = withdrawn;
        } }
    {
        let mut held = versions;
        keep_greatest(&mut held);
        sift(&mut held, withdrawn.values());
        changes.write(&mut held);
        Catalogue {
            table: Table::from_rising(held),
            withdrawn,
        }
    }

    /// Counts the instances that it holds.
    pub fn len(&self) -> usize
        ensures { result ≡ length self.now.versions }
    {
        self.table.values().len()
    }

    /// Says whether it holds no instance.
    pub fn is_empty(&self) -> bool
        ensures { result ≡ (length self.now.versions == 0) }
    {
        self.len() == 0
    }

    /// Gives the version that it keeps of this instance.
    pub fn get(&self, instance: &Uid) -> Option<&Version>
        ensures { option_copied result ≡ kept self.now.versions instance.now }
    {
        self.table.get(instance.as_bytes())
    }

    /// Lists the versions that it keeps, rising by SOP Instance UID.
    pub fn versions(&self) -> &[Version]
        ensures all { result.now ≡ self.now.versions }
        ensures rising { IsCatalogue self.now.versions }
        ensures held { IsHeld self.now }
    {
        self.table.values()
    }

    /// Lists the withdrawn SOP Instance UIDs, rising.
    pub fn withdrawn(&self) -> &[Uid]
        ensures all { result.now ≡ self.now.withdrawn }
        ensures rising { IsRising (λ uid. uid) bytes_cmp self.now.withdrawn }
    {
        self.withdrawn.values()
    }

    fn has_withdrawn(&self, instance: &Uid) -> bool
        ensures withdrawn { result ≡ is_withdrawn self.now.withdrawn instance.now }
        ensures held { IsHeld self.now }
    {
        self.withdrawn.has(instance)
    }

    /// Takes a version: keeps it where its instance is not withdrawn and no version as great is held. A version that
    /// is not kept is handed back. Refused where an allocation was: the version is handed back and nothing has
    /// changed. No memory is taken where the instance is held or withdrawn.
    pub fn take(&mut self, version: Version) -> Result<Took, Refused>
        ensures ok { OnOk result (self.new ≡ held_of (and_version version self.old)) }
        ensures took { IfOk result (λ took. took ≡ took_of self.old version) }
        ensures err { OnErr result (self.new ≡ self.old) }
        ensures back { IfErr result (λ refused. refused.back ≡ version) }
        ensures held { IsSome (kept self.old.versions version.instance) → IsOk result }
        ensures withdrawn { IsTrue (is_withdrawn self.old.withdrawn version.instance)
            → IsOk result }
    {
        if self.has_withdrawn(&version.parts().instance) {
            return Ok(Took::Withdrawn(version));
        }
        let taken = match self.table.take(version) {
            Ok(taken) => taken,
            Err(back) => return Err(Refused { back }),
        };
        Ok(to_took(taken))
    }

    /// Withdraws an instance: no version of it is kept from now on, whatever is taken or merged. Withdrawn UIDs that
    /// copies of the catalogue share are copied first. Memory where an allocation was refused, which changes nothing,
    /// and never where it is withdrawn already.
    pub fn withdraw(&mut self, instance: Uid) -> Result<Withdrew, Memory>
        ensures ok { OnOk result (self.new ≡ held_of (and_withdrawn instance self.old)) }
        ensures withdrew { IfOk result (λ withdrew. withdrew ≡ withdrew_of self.old instance) }
        ensures err { OnErr result (self.new ≡ self.old) }
        ensures already { IsTrue (is_withdrawn self.old.withdrawn instance) → IsOk result }
    {
        if self.has_withdrawn(&instance) {
            return Ok(Withdrew::Already);
        }
        self.withdrawn.add(instance)?;
        Ok(Withdrew::New(self.table.remove(instance.as_bytes())))
    }

    /// Takes copies of all versions of the other catalogue, in one walk through both, and withdraws what it has
    /// withdrawn. Memory where an allocation was refused, which changes nothing, and never where the other has no
    /// version and has withdrawn nothing.
    pub fn merge(&mut self, other: &Catalogue) -> Result<(), Memory>
        ensures ok { OnOk result (self.new ≡ held_of (all_of self.old other.now)) }
        ensures err { OnErr result (self.new ≡ self.old) }
        ensures empty { other.now ≡ nothing → IsOk result }
        ensures catalogues { IsHeld self.old × IsHeld other.now }
    {
        self.merge_counted(other)?;
        Ok(())
    }

    /// Merges as `merge` does, and gives how many pairs of SOP Instance UIDs were compared. It compares the withdrawn
    /// UIDs of both, the versions of both, and the best of these versions with all withdrawn UIDs. A number above
    /// `u64::MAX` is answered as `u64::MAX`.
    pub fn merge_counted(&mut self, other: &Catalogue) -> Result<u64, Memory>
        ensures ok { OnOk result (self.new ≡ held_of (all_of self.old other.now)) }
        ensures count { IfOk result (λ count.
            count ≡ min (compared_in_merge self.old other.now) last_count) }
        ensures versions { self.old.withdrawn ≡ [] → other.now.withdrawn ≡ []
            → IfOk result (λ count. count ≡ compared_of self.old.versions other.now.versions) }
        ensures few { self.old.withdrawn ≡ [] → other.now.withdrawn ≡ []
            → IfOk result (λ count. count ≤ length self.old.versions + length other.now.versions) }
        ensures twice { IfOk result (λ count.
            count ≤ 2 * (length self.old.versions + length other.now.versions
            + (length self.old.withdrawn + length other.now.withdrawn))) }
        ensures err { OnErr result (self.new ≡ self.old) }
        ensures empty { other.now ≡ nothing → IsOk result }
        ensures catalogues { IsHeld self.old × IsHeld other.now }
    {
        if other.withdrawn.values().is_empty() {
            return self.merge_versions(other);
        }
        let mut withdrawn = self.withdrawn.table().copy()?;
        let sets = withdrawn.merge(other.withdrawn.table())?;
        let maps = self.table.merge(&other.table)?;
        let sifted = self.table.sift(withdrawn.values());
        self.withdrawn = Withdrawals::from_table(withdrawn);
        Ok(sets.saturating_add(maps).saturating_add(sifted))
    }

    fn merge_versions(&mut self, other: &Catalogue) -> Result<u64, Memory>
        requires { other.now.withdrawn ≡ [] }
        ensures ok { OnOk result (self.new ≡ held_of (all_of self.old other.now)) }
        ensures count { IfOk result (λ count.
            count ≡ min (compared_in_merge self.old other.now) last_count) }
        ensures versions { self.old.withdrawn ≡ []
            → IfOk result (λ count. count ≡ compared_of self.old.versions other.now.versions) }
        ensures few { self.old.withdrawn ≡ []
            → IfOk result (λ count. count ≤ length self.old.versions + length other.now.versions) }
        ensures err { OnErr result (self.new ≡ self.old) }
        ensures empty { other.now ≡ nothing → IsOk result }
        ensures catalogues { IsHeld self.old × IsHeld other.now }
    {
        let maps = self.table.merge(&other.table)?;
        let sifted = self.table.sift(self.withdrawn.values());
        Ok(maps.saturating_add(sifted))
    }

    /// Finds the least instance that conflicts with a greater one, and the least greater one with which it conflicts.
    /// Two versions conflict where they have one study and different Patient IDs, or one series and different
    /// studies. Memory where an allocation was refused, and never where the catalogue is empty.
    pub fn conflict(&self) -> Result<Option<(Uid, Uid)>, Memory>
        ensures first { IfOk result (λ pair. IsConflict self.now.versions pair) }
        ensures pair { IfOk result (λ pair. pair ≡ first_conflict self.now.versions) }
        ensures some { OnErr result (self.now.versions ≢ []) }
    {
        first_conflict(self.table.allocator(), self.versions())
    }

    /// Gives the same instances, each with the greatest keys of its patient, its study and its series among all
    /// versions here, each taken whole. Shares the withdrawn UIDs as `copy` does. Memory where an allocation was
    /// refused, and never where the catalogue has no version and has withdrawn nothing.
    pub fn harmonise(&self) -> Result<Catalogue, Memory>
        ensures agreed { IfOk result (λ catalogue.
            IsHarmonised self.now.versions catalogue.versions) }
        ensures whole { IfOk result (λ catalogue.
            catalogue.versions ≡ harmonised self.now.versions) }
        ensures withdrawn { IfOk result (λ catalogue. catalogue.withdrawn ≡ self.now.withdrawn) }
        ensures some { OnErr result (self.now ≢ nothing) }
    {
        let alloc = self.table.allocator();
        let table = harmony_of(alloc, self.versions())?;
        let withdrawn = self.withdrawn.copy()?;
        Ok(Catalogue { table, withdrawn })
    }

    /// Answers what `harmonise` does, where no two versions conflict, and else what `conflict` does, but sorts the
    /// versions once for both. Memory where an allocation was refused, and never where the catalogue has no version
    /// and has withdrawn nothing.
    pub fn harmonise_or_conflict(&self) -> Result<Harmony, Memory>
        ensures harmony { IfOk result (λ harmony. IsHarmonyOf self.now harmony) }
        ensures some { OnErr result (self.now ≢ nothing) }
    {
        let alloc = self.table.allocator();
        match harmony_or_conflict(alloc, self.versions())? {
            Ok(table) => Ok(Harmony::Found(Catalogue {
                table,
                withdrawn: self.withdrawn.copy()?,
            })),
            Err((one, other)) => Ok(Harmony::Conflict(one, other)),
        }
    }

    /// Makes an equal catalogue. Shares the withdrawn UIDs where the catalogue was made with them, and else copies
    /// them. Memory where an allocation was refused, and never where the catalogue has no version and has withdrawn
    /// nothing.
    pub fn copy(&self) -> Result<Catalogue, Memory>
        ensures same { IfOk result (λ catalogue. catalogue ≡ self.now) }
        ensures some { OnErr result (self.now ≢ nothing) }
    {
        Ok(Catalogue {
            table: self.table.copy()?,
            withdrawn: self.withdrawn.copy()?,
        })
    }
}

impl PartialEq for Catalogue {
    ghost use Rattle.dd_catalogue.specs.Equal.{holds_same, holds_same_per};

    ghost eq = { holds_same };

    ghost laws = { holds_same_per };

    fn eq(&self, other: &Catalogue) -> bool {
        self.versions() == other.versions() && are_same(self.withdrawn(), other.withdrawn())
    }
}

/// Are these the same UIDs?
fn are_same(one: &[Uid], other: &[Uid]) -> bool
    ensures { result ≡ are_same_uids one.now other.now }
{
    one == other
}

/// Joins by `merge`, which takes memory where the other has a version or has withdrawn a UID.
impl Join for Catalogue {
    ghost use Rattle.dd_catalogue.specs.Contents.{IsHeld};
    ghost use Rattle.dd_catalogue.specs.CatalogueJoin.{BringsSome, both, catalogue_laws};

    ghost is_value = { IsHeld };

    ghost joined = { both };

    ghost takes_memory = { BringsSome };

    fn join(&mut self, other: &Catalogue) -> Result<(), Memory> {
        self.merge(other)
    }

    ghost laws = { catalogue_laws };
}
