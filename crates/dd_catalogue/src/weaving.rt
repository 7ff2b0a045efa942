//! Two lists that rise by key, woven into one.

ghost use Rattle.std.specs.Prelude.{◌≡◌, ◌+◌, ◌≤◌, ◌++◌, length, vec_len, vec_capacity};
ghost use Rattle.dd_elem.specs.Ordered.{bytes_cmp};
ghost use Rattle.dd_catalogue.specs.Best.{IsRising, best};
ghost use Rattle.dd_catalogue.specs.Compared.{compared};
ghost use Rattle.dd_catalogue.specs.Weaving.{IsStep};

use crate::greatest::Keyed;
use std::cmp::Ordering;
use std::collections::VecDeque;

/// Gives how many pairs of keys were compared.
pub(crate) fn weave<T: Keyed + Drop>(own: Vec<T>, other: Vec<T>, both: &mut Vec<T>) -> u64
    requires own { IsRising T.key_of bytes_cmp own.items }
    requires other { IsRising T.key_of bytes_cmp other.items }
    requires room { vec_len both.old + (length own.items + length other.items)
        ≤ vec_capacity both.old }
    ensures items { both.new.items
        ≡ both.old.items ++ best T.key_of bytes_cmp T.order (own.items ++ other.items) }
    ensures count { result ≡ compared T.key_of bytes_cmp T.order own.items other.items }
{
    let mut mine = VecDeque::from(own);
    let mut theirs = VecDeque::from(other);
    let mut count = 0;
    while let Some(value) = next(&mut mine, &mut theirs) {
        both.push_reserved(value);
        count += 1;
    }
    move_all(mine, both);
    move_all(theirs, both);
    count
}

/// Takes the next value of the best of both lists, where neither is at its end.
fn next<T: Keyed + Drop>(mine: &mut VecDeque<T>, theirs: &mut VecDeque<T>) -> Option<T>
    requires mine { IsRising T.key_of bytes_cmp mine.old.items }
    requires theirs { IsRising T.key_of bytes_cmp theirs.old.items }
    ensures { IsStep T.key_of bytes_cmp T.order mine.old.items theirs.old.items result
        mine.new.items theirs.new.items }
{
    let one = mine.front()?;
    let other = theirs.front()?;
    match one.key().cmp(other.key()) {
        Ordering::Less => mine.pop_front(),
        Ordering::Greater => theirs.pop_front(),
        Ordering::Equal => {
            if one.compare(other).is_lt() {
                drop(mine.pop_front());
                return theirs.pop_front();
            }
            drop(theirs.pop_front());
            mine.pop_front()
        }
    }
}

fn move_all<T: Drop>(mut values: VecDeque<T>, both: &mut Vec<T>)
    requires { vec_len both.old + length values.items ≤ vec_capacity both.old }
    ensures items { both.new.items ≡ both.old.items ++ values.items }
    ensures len { vec_len both.new ≡ vec_len both.old + length values.items }
    ensures capacity { vec_capacity both.new ≡ vec_capacity both.old }
{
    while let Some(value) = values.pop_front() {
        both.push_reserved(value);
    }
}
