//! The source that an item says.

ghost use Rattle.std.specs.Prelude.{◌≡◌, ◌≢◌, ◌<◌, ◌^◌, false, Err, IfOk};
ghost use Rattle.std.specs.Int.{from_le_bytes, w64};
ghost use Rattle.dd_encoding.specs.Elements.{elements_of};
ghost use Rattle.dd_set.specs.Views.{item_view, set_view};
ghost use Rattle.dd_staged.specs.Refusals.{SpellsNone};
ghost use Rattle.dd_staged.specs.Sources.{IsFound, IsSource, Source, has_copy, source_view};
ghost use Rattle.dd_staged.specs.Stages.{source_elements, source_item};
ghost use Rattle.dd_staged.specs.Values.{found_in, size_in, source_in};

use crate::comparing::are_of_source;
use crate::fault_reading::fault_in;
use crate::source_fault::SourceFault;
use crate::staged::Staged;
use crate::tags::{CLASS, NAME, SIZE};
use crate::values::{ItemFault, eight, name_in, raw_at};
use crate::version_reading::version_in;
use dd_set::{DataSet, Item, Length};
use dd_version::Version;
use std::alloc::Global;

/// Reads the source that the item spells. Bad where it spells none.
#[tactic(auto, using(crate::proofs::Said::set_of_item, crate::proofs::Said::other_length))]
pub(crate) fn read_item(alloc: Global, item: &Item<'_>) -> Result<Staged, ItemFault>
    ensures value { IfOk result (λ staged. IsSource (source_view staged)
        × (item_view item.now ≡ source_item (source_view staged))) }
    ensures bad { result ≡ Err ItemFault.Bad → SpellsNone (item_view item.now) }
{
    match item.length {
        Length::Defined => read_set(alloc, &item.set),
        Length::Undefined => Err(ItemFault::Bad),
    }
}

#[tactic(auto, using(crate::proofs::Said::not_said, crate::proofs::Said::other_said))]
fn read_set(alloc: Global, set: &DataSet<'_>) -> Result<Staged, ItemFault>
    ensures value { IfOk result (λ staged. IsSource (source_view staged)
        × (set_view set.now ≡ elements_of (source_elements (source_view staged)))) }
    ensures bad { result ≡ Err ItemFault.Bad → (source : Source) → IsSource source
        → set_view set.now ≢ elements_of (source_elements source) }
{
    let staged = source_in(alloc, set)?;
    if are_of_source(&set.elements, &staged) {
        Ok(staged)
    } else {
        Err(ItemFault::Bad)
    }
}

/// Reads the source that the elements say, if it can be one.
fn source_in(alloc: Global, set: &DataSet<'_>) -> Result<Staged, ItemFault>
    ensures value { IfOk result (λ staged. source_view staged ≡ source_in (set_view set.now)) }
    ensures valid { IfOk result (λ staged. IsSource (source_view staged)) }
    ensures bad { result ≡ Err ItemFault.Bad → ¬ IsSource (source_in (set_view set.now)) }
{
    let found = found_in(alloc, set)?;
    let Ok(name) = name_in(raw_at(set, NAME)).to_vec(alloc) else {
        return Err(ItemFault::Memory);
    };
    let size = size_in(&found, set);
    Ok(Staged { name, size, found })
}

fn found_in(alloc: Global, set: &DataSet<'_>) -> Result<Result<Version, SourceFault>, ItemFault>
    ensures value { IfOk result (λ found. found ≡ found_in (set_view set.now)) }
    ensures valid { IfOk result IsFound }
    ensures bad { result ≡ Err ItemFault.Bad → ¬ IsFound (found_in (set_view set.now)) }
{
    if set.find(CLASS).is_some() {
        Ok(Ok(version_in(alloc, set)?))
    } else {
        Ok(Err(fault_in(set)?))
    }
}

/// Gives the length that the elements say, or 0 where there is no copy that counts.
fn size_in(found: &Result<Version, SourceFault>, set: &DataSet<'_>) -> u64
    ensures value { result ≡ size_in found.now (set_view set.now) }
    ensures small { result < 2 ^ 64 }
    ensures none { has_copy found.now ≡ false → result ≡ 0 }
{
    match found {
        Ok(_) | Err(SourceFault::Key(_)) => size_of(eight(raw_at(set, SIZE))),
        Err(_) => 0,
    }
}

fn size_of(bytes: [u8; 8]) -> u64
    ensures value { result ≡ from_le_bytes w64 bytes }
    ensures small { result < 2 ^ 64 }
{
    u64::from_le_bytes(bytes)
}
