ghost use Rattle.std.specs.Prelude.{◌≡◌, ◌<◌, ℕ, IfOk, IfSome, None, length, map};
ghost use Rattle.dd_engine.specs.Saying.{AnswersSaying, IsFiledAt, IsFirstFiled};

use crate::gathering::gather_sets;
use crate::merge::Pick;
use crate::merge_fault::MergeFault;
use dd_version::{Parts, Version, is_filed_as};
use std::alloc::Global;

/// Finds the first record that files an image as this version: with its digest, and with the keys that `is_filed_as`
/// compares. Looks at all sets in order, and in each set depth first. Gives the file of the image, or None if there is
/// no such record.
///
/// Refuses these sets as `merge_engine` does, but with no Plan fault.
pub fn first_saying<'a>(
    alloc: Global,
    sets: &[&'a [u8]],
    planned: &Version,
) -> Result<Option<Pick<'a>>, MergeFault>
    ensures answer { AnswersSaying planned.now (map (λ set. set.now) sets.now) result }
    ensures within { IfOk result (λ found. IfSome found (λ pick. pick.set < length sets.now)) }
{
    let gathered = gather_sets(alloc, sets, &[])?;
    match first_filed(&gathered.versions, planned.parts()) {
        Some(at) => Ok(Some(gathered.origins[at])),
        None => Ok(None),
    }
}

fn first_filed(versions: &[Version], planned: &Parts) -> Option<usize>
    ensures first { IfSome result (IsFirstFiled planned.now versions.now) }
    ensures none { result ≡ None → (at : ℕ) → ¬ IsFiledAt planned.now versions.now at }
{
    for (at, version) in versions.iter().enumerate() {
        if is_filed_as(version.parts(), planned) {
            return Some(at);
        }
    }
    None
}
