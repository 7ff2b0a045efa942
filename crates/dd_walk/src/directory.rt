//! What a directory says of its records.

ghost use Rattle.std.specs.Prelude.{◌≡◌, ◌+◌, ◌<◌, ◌^◌, EachIndex, List, ℕ, length, map, slice_index, option_map};
ghost use Rattle.dd_encoding.specs.declared.syntax.Syntax.TheVariants.{Explicit};
ghost use Rattle.dd_encoding.specs.Spelling.{Spells, elements_text};
ghost use Rattle.dd_set.specs.Views.{set_view};
ghost use Rattle.dd_walk.specs.ReadAnswers.{TellsContents};
ghost use Rattle.dd_walk.specs.Reading.{is_directory_meta, contents_in};
ghost use Rattle.dd_walk.specs.Saying.{id_in, withdrawn_in};

use crate::fault::DirFault;
use crate::pending::items_of;
use crate::values::{clean_at, number_at};
use dd_elem::Uid;
use dd_part10::Meta;
use dd_records::table::CREATOR;
use dd_records::{
    DIRECTORY_CLASS, DIRECTORY_SYNTAX, FIRST_ROOT, LAST_ROOT, PRIVATE_CREATOR, RECORDS, SET_ID,
    WITHDRAWN,
};
use dd_set::{DataSet, Item, Syntax, value_at};
use std::alloc::Global;

/// What a directory says. `first` and `last` are the offsets of root records, and items that may be records begin at
/// `starts`.
#[derive(Debug, Drop)]
pub(crate) struct Contents<'a> {
    pub(crate) uid: Uid,
    pub(crate) id: &'a [u8],
    pub(crate) withdrawn: Option<&'a [u8]>,
    pub(crate) first: u32,
    pub(crate) last: u32,
    pub(crate) starts: Vec<u64>,
    pub(crate) items: Vec<Item<'a>>,
}

/// Compares the class and the transfer syntax with a directory's (PS3.10 section 8.6).
pub(crate) fn is_directory_meta(meta: &Meta) -> bool
    ensures { result ≡ is_directory_meta meta.now }
{
    meta.class.as_bytes() == DIRECTORY_CLASS && meta.transfer.as_bytes() == DIRECTORY_SYNTAX
}

/// Reads a data set that stands after `at` bytes.
#[tactic(auto, unfolding(crate::specs::Reading::contents_in))]
pub(crate) fn directory_of<'a>(
    alloc: Global,
    uid: Uid,
    set: DataSet<'a>,
    at: u64,
) -> Result<Contents<'a>, DirFault>
    requires spelled { Spells Explicit (set_view set) (elements_text (set_view set)) }
    requires fits { at + length (elements_text (set_view set)) < 2 ^ 64 }
    ensures { (front : List ℕ) → length front ≡ at
        → TellsContents (contents_in uid front (set_view set.entry)) result }
{
    let Some(first) = number_at(&set, FIRST_ROOT) else {
        return Err(DirFault::NotDirectory);
    };
    let Some(last) = number_at(&set, LAST_ROOT) else {
        return Err(DirFault::NotDirectory);
    };
    let Some(mut starts) = set.item_starts(alloc, Syntax::Explicit, RECORDS)? else {
        return Err(DirFault::NotDirectory);
    };
    shift(&mut starts, at);
    let id = id_of(&set);
    let withdrawn = withdrawn_of(&set);
    let Some(items) = items_of(set, RECORDS) else {
        return Err(DirFault::NotDirectory);
    };
    Ok(Contents {
        uid,
        id,
        withdrawn,
        first,
        last,
        starts,
        items,
    })
}

fn id_of<'a>(set: &DataSet<'a>) -> &'a [u8]
    ensures { result.now ≡ id_in (set_view set.now) }
{
    value_at(set, SET_ID).unwrap_or(&[])
}

/// None where the value does not stand in the block of private elements of its creator (PS3.5 section 7.8.1), is a
/// sequence, or is not there.
fn withdrawn_of<'a>(set: &DataSet<'a>) -> Option<&'a [u8]>
    ensures { option_map (λ value. value.now) result ≡ withdrawn_in (set_view set.now) }
{
    if value_at(set, CREATOR.tag)? != PRIVATE_CREATOR {
        return None;
    }
    clean_at(set, WITHDRAWN)
}

fn shift(starts: &mut [u64], by: u64)
    requires { EachIndex starts.old (λ k. slice_index starts.old k + by < 2 ^ 64) }
    ensures { starts.new ≡ map (λ start. start + by) starts.old }
{
    for start in starts.iter_mut() {
        *start += by;
    }
}
