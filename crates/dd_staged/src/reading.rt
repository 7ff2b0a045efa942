//! The list of sources that bytes spell.

ghost use Rattle.std.specs.Prelude.{◌≡◌, ◌≢◌, ◌<◌, ◌^◌, ℕ, List, IfOk, IfSome, Ok, Err, None, map};
ghost use Rattle.std.specs.List.{AllByRecursion};
ghost use Rattle.std.specs.Option.{SomeIff};
ghost use Rattle.byteorder.specs.Endian.{little_bytes};
ghost use Rattle.dd_encoding.specs.Elements.{Elements, Items};
ghost use Rattle.dd_encoding.specs.Spelling.{Spells};
ghost use Rattle.dd_encoding.specs.declared.syntax.Syntax.TheVariants.{Explicit};
ghost use Rattle.dd_grammar.specs.AnswersAs.{AnswersAs};
ghost use Rattle.dd_set.specs.Views.{element_view, elements_view, items_view, set_view};
ghost use Rattle.dd_staged.specs.Refusals.{IsBadItem, IsBadStage, is_memory, sources_view, stage_fault_of};
ghost use Rattle.dd_staged.specs.Sources.{IsSource, Source, source_view};
ghost use Rattle.dd_staged.specs.Stages.{EndsInDigest, IsStage, count_of, items_element, list_elements, set_with};
ghost use Rattle.dd_staged.specs.Stages.{source_items};
ghost use Rattle.dd_encoding.specs.Elements.{elements_of};

use crate::comparing::{are_cells, is_cell};
use crate::digests::{digest_before, digest_cell};
use crate::item_reading::read_item;
use crate::stage_fault::StageFault;
use crate::staged::Staged;
use crate::tags::ITEMS;
use crate::values::ItemFault;
use crate::writing::front_cells;
use dd_elem::Vr;
use dd_set::{DataSet, Element, Item, Length, SetFault, Syntax, Value, parse};
use std::alloc::Global;

/// Reads the list of sources that the bytes spell. Refused as BadStage 0 where they spell no list of items with the
/// digest of its bytes, as BadStage with the number of the first item that spells no source, or as Memory where an
/// allocation was refused.
pub fn read_stage(alloc: Global, bytes: &[u8]) -> Result<Vec<Staged>, StageFault>
    ensures found { IfOk result (λ list. IsStage bytes.now (sources_view list)) }
    ensures digest { IfOk result (λ _. EndsInDigest bytes.now) }
    ensures only { (sources : List Source) → IsStage bytes.now sources
        → AnswersAs is_memory sources_view result (Ok sources) }
    ensures bad { (n : ℕ) → result ≡ Err (StageFault.BadStage n) → IsBadStage n bytes.now }
    ensures refused { (n : ℕ) → IsBadStage n bytes.now
        → AnswersAs is_memory sources_view result (Err (StageFault.BadStage n)) }
{
    read_list(alloc, bytes)
}

fn read_list(alloc: Global, bytes: &[u8]) -> Result<Vec<Staged>, StageFault>
    ensures found { IfOk result (λ list. IsStage bytes.now (sources_view list)) }
    ensures bad { (n : ℕ) → result ≡ Err (StageFault.BadStage n) → IsBadStage n bytes.now }
{
    if u32::try_from(bytes.len()).is_err() {
        return Err(StageFault::BadStage(0));
    }
    let set = set_in(alloc, bytes)?;
    let Some(items) = items_in(&set.elements, &digest_before(bytes)) else {
        return Err(StageFault::BadStage(0));
    };
    read_items(alloc, items)
}

fn set_in<'a>(alloc: Global, bytes: &'a [u8]) -> Result<DataSet<'a>, StageFault>
    ensures found { IfOk result (λ set. Spells Explicit (set_view set) bytes.now) }
    ensures bad { (n : ℕ) → result ≡ Err (StageFault.BadStage n)
        → (n ≡ 0) × ((set : Elements) → ¬ Spells Explicit set bytes.now) }
{
    match parse(alloc, Syntax::Explicit, bytes) {
        Ok(set) => Ok(set),
        Err(fault) => Err(stage_fault_of(fault)),
    }
}

fn stage_fault_of(fault: SetFault) -> StageFault
    ensures { result ≡ stage_fault_of fault }
{
    match fault {
        SetFault::Memory => StageFault::Memory,
        _ => StageFault::BadStage(0),
    }
}

/// Gives the items, where the elements are those of a list of them with this digest.
fn items_in<'s, 'a>(elements: &'s [Element<'a>], digest: &[u8; 32]) -> Option<&'s [Item<'a>]>
    ensures some { IfSome result (λ items. let parts = items_view items.now
        in elements_view elements.now ≡ set_with parts digest.now) }
    ensures none { result ≡ None → (parts : Items) → count_of parts < 2 ^ 32
        → elements_view elements.now ≢ set_with parts digest.now }
{
    let [listed @ .., last] = elements else {
        return None;
    };
    let items = list_items(listed)?;
    if is_cell(last, &digest_cell(digest)) {
        Some(items)
    } else {
        None
    }
}

/// Gives the items, where the elements are those of a list of them.
fn list_items<'s, 'a>(elements: &'s [Element<'a>]) -> Option<&'s [Item<'a>]>
    ensures some { IfSome result (λ items. let parts = items_view items.now
        in elements_view elements.now ≡ elements_of (list_elements parts)) }
    ensures none { result ≡ None → (parts : Items) → count_of parts < 2 ^ 32
        → elements_view elements.now ≢ elements_of (list_elements parts) }
{
    let [front @ .., last] = elements else {
        return None;
    };
    let items = listed_items(last)?;
    let count = count_bytes(items.len())?;
    if are_cells(front, &front_cells(&count)) {
        Some(items)
    } else {
        None
    }
}

fn count_bytes(count: usize) -> Option<[u8; 4]>
    ensures { SomeIff result (count < 2 ^ 32) (little_bytes 4 count) }
{
    Some(u32::try_from(count).ok()?.to_le_bytes())
}

fn listed_items<'s, 'a>(element: &'s Element<'a>) -> Option<&'s [Item<'a>]>
    ensures some { IfSome result (λ items. element_view element.now ≡ items_element (items_view items.now)) }
    ensures none { result ≡ None → (parts : Items) → element_view element.now ≢ items_element parts }
{
    let Value::Items {
        length: Length::Undefined,
        items,
    } = &element.value
    else {
        return None;
    };
    if element.tag == ITEMS && element.vr == Some(Vr::SQ) {
        Some(items)
    } else {
        None
    }
}

/// Reads the sources that the items spell, in order. Refused as BadStage with the number of the first item that spells
/// none, or as Memory where an allocation was refused.
#[tactic(auto, using(crate::proofs::ReadItems::reads_bad))]
fn read_items(alloc: Global, items: &[Item<'_>]) -> Result<Vec<Staged>, StageFault>
    ensures each { IfOk result (λ list. AllByRecursion IsSource (map source_view list.items)) }
    ensures spelled { IfOk result (λ list. items_view items.now
        ≡ source_items (map source_view list.items)) }
    ensures bad { (n : ℕ) → result ≡ Err (StageFault.BadStage n) → IsBadItem n (items_view items.now) }
{
    let mut list = Vec::new(alloc);
    for item in items {
        match read_item(alloc, item) {
            Ok(staged) => list.push(staged)?,
            Err(ItemFault::Bad) => return Err(StageFault::BadStage(list.len() as u64 + 1)),
            Err(ItemFault::Memory) => return Err(StageFault::Memory),
        }
    }
    Ok(list)
}
