//! The data sets of records, each kept until its record is reached.

ghost use Rattle.std.specs.Prelude.{◌≡◌, ◌≢◌, ◌<◌, ◌+◌, List, IfOk};
ghost use Rattle.std.specs.Prelude.{OnErr, Some, Err, length, map, option_and_then, option_map};
ghost use Rattle.dd_encoding.specs.Elements.{Elements, Element};
ghost use Rattle.dd_set.specs.Find.{find_in};
ghost use Rattle.dd_set.specs.Views.{set_view, value_view, items_view};
ghost use Rattle.dd_walk.specs.Saying.{sets_of, item_sets_of};
ghost use Rattle.dd_walk.specs.declared.fault.DirFault.TheVariants.{Memory as want};
ghost use Rattle.dd_walk.specs.ReadAnswers.{IsLifted};
ghost use Rattle.dd_walk.specs.Pending.{Rises, AreLeft, count_left, pending_view};

use crate::fault::DirFault;
use dd_elem::{Memory, Tag};
use dd_set::{DataSet, Item, Value};
use std::alloc::Global;

pub(crate) fn items_of<'a>(set: DataSet<'a>, tag: Tag) -> Option<Vec<Item<'a>>>
    ensures { option_map (λ items. sets_of (items_view items.items)) result
        ≡ option_and_then (λ (e : Element). item_sets_of e.content)
        (find_in tag (set_view set.entry)) }
{
    for element in set.elements {
        if element.tag == tag {
            return items_held(element.value);
        }
    }
    None
}

fn items_held<'a>(value: Value<'a>) -> Option<Vec<Item<'a>>>
    ensures { option_map (λ items. sets_of (items_view items.items)) result
        ≡ item_sets_of (value_view value.entry) }
{
    match value {
        Value::Items { items, .. } => Some(items),
        Value::Bytes(_) | Value::Fragments(_) => None,
    }
}

pub(crate) fn pending_of<'a>(
    alloc: Global,
    items: Vec<Item<'a>>,
) -> Result<Vec<Option<DataSet<'a>>>, Memory>
    ensures full { IfOk result (λ pending. pending_view pending.items
        ≡ map (λ (set : Elements). Some set) (sets_of (items_view items.entry.items))) }
    ensures memory { OnErr result (0 < length items.entry.items) }
{
    let mut pending = Vec::new(alloc);
    for item in items {
        pending.push(Some(item.set))?;
    }
    Ok(pending)
}

/// Takes the data set of the record at this offset out of the pending ones.
pub(crate) fn lift<'a>(
    starts: &[u64],
    pending: &mut [Option<DataSet<'a>>],
    offset: u32,
) -> Result<DataSet<'a>, DirFault>
    requires rise { Rises 0 starts.now }
    requires each { length starts.now ≡ length pending.old }
    ensures exact { (sets : List Elements) → AreLeft sets (pending_view pending.old)
        → IsLifted starts.now sets offset (pending_view pending.old) (pending_view pending.new) result }
    ensures fewer { IfOk result (λ _. count_left (pending_view pending.old)
        ≡ 1 + count_left (pending_view pending.new)) }
    ensures memory { result ≢ Err want }
{
    match starts.binary_search(&u64::from(offset)) {
        Err(_) => Err(DirFault::Dangling(offset)),
        Ok(index) => {
            let item = &mut pending[index];
            match item.take() {
                None => Err(DirFault::Twice(offset)),
                Some(set) => Ok(set),
            }
        }
    }
}

/// Counts the records that were not reached.
pub(crate) fn count_left(pending: &[Option<DataSet<'_>>]) -> u64
    ensures { result ≡ count_left (pending_view pending.now) }
{
    let mut count = 0;
    for item in pending {
        if item.is_some() {
            count += 1;
        }
    }
    count
}
