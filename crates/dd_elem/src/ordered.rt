ghost use Rattle.std.specs.Prelude.{◌≡◌};
ghost use Rattle.std.specs.Cmp.{IsTotalOrder};
ghost use Rattle.std.specs.declared.cmp.Ordering.{Ordering};
ghost use Rattle.std.proofs.lemmas.Cmp.{nat_list_cmp_total};
ghost use Rattle.std.proofs.lemmas.Map.Lookups.{exact_bytes};
ghost use Rattle.dd_elem.specs.Ordered.{TellsApart, bytes_cmp};

use crate::uid::Uid;
use std::cmp::Ordering;

/// A type with a total order, in which only equal values compare equal.
pub trait Ordered {
    ghost order: { Self → Self → Ordering };

    fn compare(&self, other: &Self) -> Ordering
        ensures { result ≡ order self.now other.now };

    ghost total: { IsTotalOrder order };

    ghost apart: { TellsApart order };
}

/// Dictionary order: a proper prefix is smaller.
impl Ordered for Uid {
    ghost order = { bytes_cmp };

    ghost total = { nat_list_cmp_total };

    ghost apart = { exact_bytes };

    fn compare(&self, other: &Self) -> Ordering {
        self.as_bytes().cmp(other.as_bytes())
    }
}
