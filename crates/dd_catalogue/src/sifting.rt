//! Keys that are taken out of a list.

ghost use Rattle.std.specs.Prelude.{◌≡◌, ◌<◌, ◌≤◌, ◌^◌, [], length, map, min};
ghost use Rattle.std.specs.List.{AllWithin};
ghost use Rattle.std.specs.declared.cmp.Ordering.TheVariants.{Less};
ghost use Rattle.dd_elem.specs.Ordered.{bytes_cmp};
ghost use Rattle.dd_elem.specs.Device.{last_count};
ghost use Rattle.dd_catalogue.specs.Best.{IsRising};
ghost use Rattle.dd_catalogue.specs.Compared.{compared_keys};
ghost use Rattle.dd_catalogue.specs.Free.{free};
ghost use Rattle.dd_catalogue.specs.Table.{IsIndex, found_index, met_by, passed_by};

use crate::best::Table;
use crate::greatest::Keyed;
use dd_elem::Uid;
use std::cmp::Ordering;

/// Walks once along both lists, and gives how many pairs of keys were compared.
pub(crate) fn sift<T: Keyed + Drop>(held: &mut Vec<T>, keys: &[Uid]) -> u64
    requires held { IsRising T.key_of bytes_cmp held.old.items }
    requires keys { IsRising (λ uid. uid) bytes_cmp keys.now }
    ensures items { held.new.items ≡ free T.key_of bytes_cmp keys.now held.old.items }
    ensures count { result
        ≡ min (compared_keys bytes_cmp (map T.key_of held.old.items) keys.now) last_count }
    ensures none { keys.now ≡ [] → result ≡ 0 }
{
    if keys.is_empty() {
        return 0;
    }
    let mut passed = 0;
    let mut met: u64 = 0;
    let mut kept = 0;
    for index in 0..held.len() {
        let found = seek(keys, passed, held[index].key());
        met = met.saturating_add(count_met(&found, keys.len()));
        passed = count_passed(&found);
        if found.is_err() {
            held.swap(kept, index);
            kept += 1;
        }
    }
    held.truncate(kept);
    met.saturating_add(passed as u64)
}

fn seek(keys: &[Uid], from: usize, key: &[u8]) -> Result<usize, usize>
    requires rising { IsRising (λ uid. uid) bytes_cmp keys.now }
    requires within { from ≤ length keys.now }
    requires smaller { AllWithin (λ uid. bytes_cmp uid key.now ≡ Less) keys.now 0 from }
    ensures index { IsIndex (λ uid. uid) key.now keys.now result }
    ensures smaller { AllWithin (λ uid. bytes_cmp uid key.now ≡ Less)
        keys.now 0 (found_index result) }
{
    let mut index = from;
    while index < keys.len() {
        match keys[index].as_bytes().cmp(key) {
            Ordering::Less => index += 1,
            Ordering::Equal => return Ok(index),
            Ordering::Greater => return Err(index),
        }
    }
    Err(index)
}

fn count_passed(found: &Result<usize, usize>) -> usize
    requires { passed_by found.now < 2 ^ 64 }
    ensures { result ≡ passed_by found.now }
{
    match found {
        Ok(index) => *index + 1,
        Err(index) => *index,
    }
}

/// Counts the keys that the search compared and did not pass.
fn count_met(found: &Result<usize, usize>, keys: usize) -> u64
    ensures { result ≡ met_by keys found.now }
{
    match found {
        Err(index) if *index < keys => 1,
        _ => 0,
    }
}

pub(crate) fn sift_references<T: Keyed>(references: &mut Vec<&T>, keys: &Table<Uid>)
    ensures { map (λ value. value.now) references.new.items
        ≡ free T.key_of bytes_cmp keys.now (map (λ value. value.now) references.old.items) }
{
    let mut kept = 0;
    for index in 0..references.len() {
        if !keys.has(references[index].key()) {
            references.swap(kept, index);
            kept += 1;
        }
    }
    references.truncate(kept);
}
