//! The greatest value of each key, found in place.

ghost use Rattle.std.specs.Prelude.{◌≡◌};
ghost use Rattle.std.specs.Ordering.{is_eq};
ghost use Rattle.dd_elem.specs.Ordered.{bytes_cmp};
ghost use Rattle.dd_catalogue.specs.Best.{best};
ghost use Rattle.dd_catalogue.specs.Ranks.{rank_cmp};

use crate::greatest::Keyed;
use std::cmp::Ordering;

/// Sorts the list, and keeps of each key the greatest value. Takes no memory.
pub(crate) fn keep_greatest<T: Keyed + Drop>(values: &mut Vec<T>)
    ensures { values.new.items ≡ best T.key_of bytes_cmp T.order values.old.items }
{
    values.sort_unstable_by(
        |one: &T, other: &T| -> Ordering
            ensures { result ≡ rank_cmp T.key_of T.order one.now other.now }
        { one.key().cmp(other.key()).then_with(|| other.compare(one)) },
    );
    values.dedup_by(
        |later: &mut T, first: &mut T| -> bool
            ensures same { result ≡ is_eq (bytes_cmp (T.key_of later.old) (T.key_of first.old)) }
            ensures later { later.new ≡ later.old }
            ensures first { first.new ≡ first.old }
        { later.key().cmp(first.key()).is_eq() },
    );
}
