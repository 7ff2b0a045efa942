//! What a catalogue has taken, and the catalogue that this gives.

ghost use Rattle.std.specs.Prelude.{◌≡◌, ◌≢◌, ◌++◌, map, IfOk, OnOk, OnErr};
ghost use Rattle.dd_catalogue.specs.Contents.{SameContents, held_of, nothing};
ghost use Rattle.dd_catalogue.specs.Histories.{taken};
ghost use Rattle.dd_catalogue.specs.declared.history.History.{History};

use crate::catalogue::Catalogue;
use dd_elem::{Memory, Uid};
use dd_version::Version;
use std::alloc::Global;

/// How a catalogue came about.
#[derive(Debug, Drop)]
pub enum History {
    /// It took these versions.
    Batch(Vec<Version>),
    /// It withdrew these instances.
    Withdraw(Vec<Uid>),
    /// It is the join of what these gave.
    Merge(Vec<History>),
}

/// Builds the catalogue that a history gives. Sorts once, however the history nests, and copies each version that is
/// kept once. Memory where an allocation was refused, and never where nothing was taken or withdrawn.
pub fn build(alloc: Global, history: &History) -> Result<Catalogue, Memory>
    ensures best { IfOk result (λ catalogue. catalogue ≡ held_of (taken history.now)) }
    ensures some { OnErr result (taken history.now ≢ nothing) }
{
    let mut versions = Vec::new(alloc);
    let mut withdrawn = Vec::new(alloc);
    collect(history, &mut versions, &mut withdrawn)?;
    if versions.is_empty() && withdrawn.is_empty() {
        return Ok(Catalogue::new(alloc));
    }
    Catalogue::of(alloc, versions, withdrawn)
}

fn collect<'a>(
    history: &'a History,
    versions: &mut Vec<&'a Version>,
    withdrawn: &mut Vec<&'a Uid>,
) -> Result<(), Memory>
    ensures versions { OnOk result (map (λ version. version.now) versions.new.items
        ≡ map (λ version. version.now) versions.old.items ++ (taken history.now).versions) }
    ensures withdrawn { OnOk result (map (λ uid. uid.now) withdrawn.new.items
        ≡ map (λ uid. uid.now) withdrawn.old.items ++ (taken history.now).withdrawn) }
    ensures some { OnErr result (taken history.now ≢ nothing) }
{
    match history {
        History::Batch(batch) => {
            for version in batch {
                versions.push(version)?;
            }
        }
        History::Withdraw(uids) => {
            for uid in uids {
                withdrawn.push(uid)?;
            }
        }
        History::Merge(parts) => {
            for part in parts {
                collect(part, versions, withdrawn)?;
            }
        }
    }
    Ok(())
}

/// Histories in which the same versions were taken and the same instances withdrawn, in any order, with
/// repeats and through any merges, give equal catalogues.
pub fn build_order_is_free()
    ensures { (h g : History) → SameContents (taken h) (taken g)
        → held_of (taken h) ≡ held_of (taken g) }
{}
