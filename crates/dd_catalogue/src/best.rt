//! Tables: of each key the greatest value.

ghost use Rattle.std.specs.Prelude.{◌≡◌, ◌≢◌, ◌<◌, ◌≤◌, ◌+◌, [], ◌∷◌, ◌++◌, List, is_some, length};
ghost use Rattle.std.specs.Prelude.{map, min, option_copied};
ghost use Rattle.std.specs.Prelude.{IsOk, IfOk, IfErr, OnOk, OnErr, IsSome};
ghost use Rattle.std.specs.List.{HoldsAt, AllWithin};
ghost use Rattle.std.specs.declared.cmp.Ordering.TheVariants.{Less, Equal, Greater};
ghost use Rattle.dd_elem.specs.Device.{last_count};
ghost use Rattle.dd_elem.specs.Ordered.{bytes_cmp};
ghost use Rattle.dd_catalogue.specs.Best.{IsRising, at, best, put};
ghost use Rattle.dd_catalogue.specs.Compared.{compared, compared_keys};
ghost use Rattle.dd_catalogue.specs.Free.{free};
ghost use Rattle.dd_catalogue.specs.Table.{IsIndex, taken_by};

use crate::greatest::{Greatest, Keyed};
use crate::sifting::sift;
use crate::weaving::weave;
use dd_elem::{Memory, Uid};
use std::alloc::Global;
use std::cmp::Ordering;
use std::marker::Model;
use std::mem;

pub(crate) trait TryClone {
    fn try_clone(&self) -> Result<Self, Memory>
        ensures { IfOk result (λ value. value ≡ self.now) };
}

#[derive(Debug, Drop)]
pub(crate) enum Taken<V> {
    /// No value with its key was there.
    Fresh,
    /// The smaller value that was there.
    Displaced(V),
    /// The value itself: the one there is no smaller.
    Returned(V),
}

#[derive(Debug, Drop)]
pub(crate) struct Table<T: Keyed + TryClone + Drop> {
    held: Vec<T>,
}

impl<T: Keyed + TryClone + Drop> Model for Table<T> {
    ghost use Rattle.std.specs.Prelude.{List};
    ghost use Rattle.dd_elem.specs.Ordered.{bytes_cmp};
    ghost use Rattle.dd_catalogue.specs.Best.{IsRising};

    ghost Value = { List T };

    ghost view = { λ table. table.held.items };

    ghost invariant = { λ table. IsRising T.key_of bytes_cmp table.held.items };
}

impl<T: Keyed + TryClone + Drop> Table<T> {
    pub(crate) fn new(alloc: Global) -> Table<T>
        ensures { result ≡ [] }
    {
        Table {
            held: Vec::new(alloc),
        }
    }

    pub(crate) fn from_rising(held: Vec<T>) -> Table<T>
        requires { IsRising T.key_of bytes_cmp held.items }
        ensures { result ≡ held.items }
    {
        Table { held }
    }

    pub(crate) fn values(&self) -> &[T]
        ensures all { result.now ≡ self.now }
        ensures rising { IsRising T.key_of bytes_cmp self.now }
    {
        self.held.as_slice()
    }

    pub(crate) fn get(&self, key: &[u8]) -> Option<&T>
        ensures { option_copied result ≡ at T.key_of bytes_cmp self.now key.now }
    {
        match self.index_of(key) {
            Ok(index) => Some(&self.held[index]),
            Err(_) => None,
        }
    }

    pub(crate) fn has(&self, key: &[u8]) -> bool
        ensures { result ≡ is_some (at T.key_of bytes_cmp self.now key.now) }
    {
        self.index_of(key).is_ok()
    }

    pub(crate) fn remove(&mut self, key: &[u8]) -> Option<T>
        ensures after { self.new ≡ free T.key_of bytes_cmp (key.now ∷ []) self.old }
        ensures value { result ≡ at T.key_of bytes_cmp self.old key.now }
    {
        match self.index_of(key) {
            Ok(index) => Some(self.held.remove(index)),
            Err(_) => None,
        }
    }

    /// Removes the values with these keys, and gives how many pairs of keys were compared.
    pub(crate) fn sift(&mut self, keys: &[Uid]) -> u64
        requires { IsRising (λ uid. uid) bytes_cmp keys.now }
        ensures after { self.new ≡ free T.key_of bytes_cmp keys.now self.old }
        ensures count { result
            ≡ min (compared_keys bytes_cmp (map T.key_of self.old) keys.now) last_count }
        ensures none { keys.now ≡ [] → result ≡ 0 }
    {
        sift(&mut self.held, keys)
    }

    pub(crate) fn allocator(&self) -> Global {
        *self.held.allocator()
    }

    pub(crate) fn copy(&self) -> Result<Table<T>, Memory>
        ensures equal { IfOk result (λ table. table ≡ self.now) }
        ensures some { OnErr result (self.now ≢ []) }
    {
        Ok(Table {
            held: copies(self.allocator(), self.values())?,
        })
    }

    /// Copies each value that is kept once.
    pub(crate) fn of(alloc: Global, values: Vec<&T>) -> Result<Table<T>, Memory>
        ensures { IfOk result (λ table. table
            ≡ best T.key_of bytes_cmp T.order (map (λ value. value.now) values.entry.items)) }
    {
        let greatest = Greatest::of(alloc, values)?;
        Ok(Table {
            held: copies_of_references(alloc, greatest.values())?,
        })
    }

    /// Takes copies of the other table's values, and gives how many pairs of keys were compared.
    pub(crate) fn merge(&mut self, other: &Table<T>) -> Result<u64, Memory>
        ensures ok { OnOk result
            (self.new ≡ best T.key_of bytes_cmp T.order (self.old ++ other.now)) }
        ensures count { IfOk result (λ count.
            count ≡ compared T.key_of bytes_cmp T.order self.old other.now) }
        ensures few { IfOk result (λ count. count ≤ length self.old + length other.now) }
        ensures err { OnErr result (self.new ≡ self.old) }
        ensures empty { other.now ≡ [] → IsOk result }
        ensures rising { IsRising T.key_of bytes_cmp self.old
            × IsRising T.key_of bytes_cmp other.now }
    {
        let (mine, theirs) = (self.values(), other.values());
        if theirs.is_empty() {
            return Ok(0);
        }
        let Some(room) = mine.len().checked_add(theirs.len()) else {
            return Err(Memory);
        };
        let alloc = self.allocator();
        let copied = copies(alloc, theirs)?;
        let both = Vec::with_capacity(alloc, room)?;
        let own = mem::replace(&mut self.held, both);
        Ok(weave(own, copied, &mut self.held))
    }

    /// Hands the value back where an allocation was refused.
    pub(crate) fn take(&mut self, value: T) -> Result<Taken<T>, T>
        ensures ok { OnOk result (self.new ≡ best T.key_of bytes_cmp T.order (value ∷ self.old)) }
        ensures took { IfOk result (λ took. took
            ≡ taken_by T.order value (at T.key_of bytes_cmp self.old (T.key_of value))) }
        ensures err { OnErr result (self.new ≡ self.old) }
        ensures back { IfErr result (λ back. back ≡ value) }
        ensures there { IsSome (at T.key_of bytes_cmp self.old (T.key_of value)) → IsOk result }
    {
        match self.index_of(value.key()) {
            Ok(index) => Ok(self.challenge(index, value)),
            Err(index) => self.admit(index, value),
        }
    }

    fn admit(&mut self, index: usize, value: T) -> Result<Taken<T>, T>
        requires within { index ≤ length self.old }
        requires smaller { AllWithin (λ w. bytes_cmp (T.key_of w) (T.key_of value) ≡ Less)
            self.old 0 index }
        requires greater { AllWithin (λ w. bytes_cmp (T.key_of w) (T.key_of value) ≡ Greater)
            self.old index (length self.old) }
        ensures ok { OnOk result (self.new ≡ put T.key_of bytes_cmp T.order value self.old) }
        ensures new { IfOk result (λ took. took ≡ Taken.Fresh) }
        ensures err { OnErr result (self.new ≡ self.old) }
        ensures back { IfErr result (λ back. back ≡ value) }
    {
        if let Err(failed) = self.held.insert(index, value) {
            return Err(failed.value);
        }
        Ok(Taken::Fresh)
    }

    fn challenge(&mut self, index: usize, value: T) -> Taken<T>
        requires within { index < length self.old }
        requires same { HoldsAt (λ w. bytes_cmp (T.key_of w) (T.key_of value) ≡ Equal)
            self.old index }
        ensures after { self.new ≡ put T.key_of bytes_cmp T.order value self.old }
        ensures took { result ≡ taken_by T.order value
            (at T.key_of bytes_cmp self.old (T.key_of value)) }
    {
        if self.held[index].compare(&value).is_lt() {
            Taken::Displaced(mem::replace(&mut self.held[index], value))
        } else {
            Taken::Returned(value)
        }
    }

    /// Looks at the last value first.
    fn index_of(&self, key: &[u8]) -> Result<usize, usize>
        ensures index { IsIndex T.key_of key.now self.now result }
        ensures rising { IsRising T.key_of bytes_cmp self.now }
    {
        let Some(last) = self.held.last() else {
            return Err(0);
        };
        match last.key().cmp(key) {
            Ordering::Less => Err(self.held.len()),
            Ordering::Equal => Ok(self.held.len() - 1),
            Ordering::Greater => self.search(key),
        }
    }

    fn search(&self, key: &[u8]) -> Result<usize, usize>
        ensures { IsIndex T.key_of key.now self.now result }
    {
        self.held.binary_search_by(
            |value: &T| -> Ordering
                ensures { result ≡ bytes_cmp (T.key_of value.now) key.entry.now }
            { value.key().cmp(key) },
        )
    }
}

pub(crate) fn copies<T: TryClone + Drop>(alloc: Global, values: &[T]) -> Result<Vec<T>, Memory>
    ensures equal { IfOk result (λ copies. copies.items ≡ values.now) }
    ensures some { OnErr result (values.now ≢ []) }
{
    if values.is_empty() {
        return Ok(Vec::new(alloc));
    }
    let mut copies = Vec::with_capacity(alloc, values.len())?;
    for value in values {
        copies.push(value.try_clone()?)?;
    }
    Ok(copies)
}

fn copies_of_references<T: TryClone + Drop>(alloc: Global, values: &[&T]) -> Result<Vec<T>, Memory>
    ensures { IfOk result (λ copies. copies.items ≡ map (λ value. value.now) values.now) }
{
    let mut copies = Vec::with_capacity(alloc, values.len())?;
    for value in values {
        copies.push(value.try_clone()?)?;
    }
    Ok(copies)
}
