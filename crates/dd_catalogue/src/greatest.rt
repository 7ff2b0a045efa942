//! Tables of references: of each key the greatest value.

ghost use Rattle.std.specs.Prelude.{◌≡◌, ◌<◌, ◌≤◌, [], ◌∷◌, List, ℕ, length, option_copied, unwrap_or, map, IfOk, OnOk};
ghost use Rattle.std.specs.List.{HoldsAt, AllWithin};
ghost use Rattle.std.specs.declared.cmp.Ordering.TheVariants.{Less, Equal, Greater};
ghost use Rattle.dd_elem.specs.Ordered.{bytes_cmp};
ghost use Rattle.dd_catalogue.specs.Best.{IsRising, at, best, put};
ghost use Rattle.dd_catalogue.specs.Table.{IsIndex};

use dd_elem::{Memory, Ordered};
use std::alloc::Global;
use std::cmp::Ordering;
use std::marker::Model;

pub(crate) trait Keyed: Ordered {
    ghost key_of: { Self → List ℕ };

    fn key(&self) -> &[u8]
        ensures { result.now ≡ key_of self.now };
}

#[derive(Drop)]
pub(crate) struct Greatest<'a, T: Keyed> {
    held: Vec<&'a T>,
}

impl<'a, T: Keyed> Model for Greatest<'a, T> {
    ghost use Rattle.std.specs.Prelude.{List, map};
    ghost use Rattle.dd_elem.specs.Ordered.{bytes_cmp};
    ghost use Rattle.dd_catalogue.specs.Best.{IsRising};

    ghost Value = { List T };

    ghost view = { λ greatest. map (λ value. value.now) greatest.held.items };

    ghost invariant = { λ greatest.
        IsRising T.key_of bytes_cmp (map (λ value. value.now) greatest.held.items) };
}

impl<'a, T: Keyed> Greatest<'a, T> {
    pub(crate) fn none(alloc: Global) -> Greatest<'a, T>
        ensures { result ≡ [] }
    {
        Greatest {
            held: Vec::new(alloc),
        }
    }

    pub(crate) fn of(alloc: Global, mut values: Vec<&'a T>) -> Result<Greatest<'a, T>, Memory>
        ensures { IfOk result (λ greatest. greatest
            ≡ best T.key_of bytes_cmp T.order (map (λ value. value.now) values.entry.items)) }
    {
        values.sort_by(|one: &&T, other: &&T| one.key().cmp(other.key()))?;
        let mut greatest = Greatest::none(alloc);
        for value in &values {
            greatest.offer(*value)?;
        }
        Ok(greatest)
    }

    pub(crate) fn among(alloc: Global, values: &'a [T]) -> Result<Greatest<'a, T>, Memory>
        ensures { IfOk result (λ greatest. greatest
            ≡ best T.key_of bytes_cmp T.order values.now) }
    {
        Greatest::of(alloc, references_to(alloc, values)?)
    }

    fn offer(&mut self, value: &'a T) -> Result<(), Memory>
        ensures { OnOk result (self.new ≡ best T.key_of bytes_cmp T.order (value.now ∷ self.old)) }
    {
        match self.index_of(value.key()) {
            Ok(index) => {
                self.challenge(index, value);
                Ok(())
            }
            Err(index) => self.admit(index, value),
        }
    }

    fn admit(&mut self, index: usize, value: &'a T) -> Result<(), Memory>
        requires within { index ≤ length self.old }
        requires smaller { AllWithin (λ w. bytes_cmp (T.key_of w) (T.key_of value.now) ≡ Less)
            self.old 0 index }
        requires greater { AllWithin (λ w. bytes_cmp (T.key_of w) (T.key_of value.now) ≡ Greater)
            self.old index (length self.old) }
        ensures { OnOk result (self.new ≡ put T.key_of bytes_cmp T.order value.now self.old) }
    {
        self.held.insert(index, value)?;
        Ok(())
    }

    fn challenge(&mut self, index: usize, value: &'a T)
        requires within { index < length self.old }
        requires same { HoldsAt (λ w. bytes_cmp (T.key_of w) (T.key_of value.now) ≡ Equal)
            self.old index }
        ensures { self.new ≡ put T.key_of bytes_cmp T.order value.now self.old }
    {
        if self.held[index].compare(value).is_lt() {
            self.held[index] = value;
        }
    }

    pub(crate) fn values(&self) -> &[&'a T]
        ensures all { map (λ value. value.now) result.now ≡ self.now }
        ensures rising { IsRising T.key_of bytes_cmp self.now }
    {
        self.held.as_slice()
    }

    pub(crate) fn get(&self, key: &[u8]) -> Option<&'a T>
        ensures { option_copied result ≡ at T.key_of bytes_cmp self.now key.now }
    {
        match self.index_of(key) {
            Ok(index) => Some(self.held[index]),
            Err(_) => None,
        }
    }

    /// Gives the value with the key of `own`, or else `own`.
    pub(crate) fn like(&self, own: &'a T) -> &'a T
        ensures { result.now
            ≡ unwrap_or (at T.key_of bytes_cmp self.now (T.key_of own.now)) own.now }
    {
        self.get(own.key()).unwrap_or(own)
    }

    fn index_of(&self, key: &[u8]) -> Result<usize, usize>
        ensures index { IsIndex T.key_of key.now self.now result }
        ensures rising { IsRising T.key_of bytes_cmp self.now }
    {
        index_among(&self.held, key)
    }
}

/// Looks at the last value first.
fn index_among<T: Keyed>(held: &[&T], key: &[u8]) -> Result<usize, usize>
    requires { IsRising (λ value. T.key_of value.now) bytes_cmp held.now }
    ensures { IsIndex (λ value. T.key_of value.now) key.now held.now result }
{
    let Some(last) = held.last() else {
        return Err(0);
    };
    match last.key().cmp(key) {
        Ordering::Less => Err(held.len()),
        Ordering::Equal => Ok(held.len() - 1),
        Ordering::Greater => search(held, key),
    }
}

fn search<T: Keyed>(held: &[&T], key: &[u8]) -> Result<usize, usize>
    requires { IsRising (λ value. T.key_of value.now) bytes_cmp held.now }
    ensures { IsIndex (λ value. T.key_of value.now) key.now held.now result }
{
    held.binary_search_by(
        |value: &&T| -> Ordering
            ensures { result ≡ bytes_cmp (T.key_of value.now.now) key.entry.now }
        { value.key().cmp(key) },
    )
}

pub(crate) fn references_to<T>(alloc: Global, values: &[T]) -> Result<Vec<&T>, Memory>
    ensures { IfOk result (λ references. map (λ value. value.now) references.items ≡ values.now) }
{
    let mut references = Vec::with_capacity(alloc, values.len())?;
    for value in values {
        references.push(value)?;
    }
    Ok(references)
}
