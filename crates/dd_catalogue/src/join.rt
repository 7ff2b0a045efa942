//! Values that can be joined.

ghost use Rattle.std.specs.Prelude.{◌≡◌, ◌<◌, ℕ, length, take, Contains, OnOk, OnErr};
ghost use Rattle.std.specs.List.{fold};
ghost use Rattle.dd_catalogue.specs.Joins.{AreJoined, GatherIsFree, JoinLaws, OrderIsFree};

use dd_elem::{Memory, Ordered};
use dd_version::Version;

/// A type whose values can be joined: what is joined, in whatever order and however often, gives the
/// same.
pub trait Join {
    // is it one of the values that are joined?
    ghost is_value: { Self → Type 0 };

    ghost joined: { Self → Self → Self };

    // does joining the second to the first take memory?
    ghost takes_memory: { Self → Self → Type 0 };

    /// Joins the other value to this one. Memory where an allocation was refused, and only where the join takes
    /// memory.
    fn join(&mut self, other: &Self) -> Result<(), Memory>
        ensures ok { OnOk result (self.new ≡ joined self.old other.now) }
        ensures err { OnErr result (self.new ≡ self.old) }
        ensures memory { OnErr result (takes_memory self.old other.now) }
        ensures values { is_value self.old × is_value other.now };

    ghost laws: { JoinLaws is_value joined };
}

/// Joins each of `rest` to `first`, in turn. Memory where an allocation was refused; then `first` holds its join with
/// those before. Two answers over the same members are equal (`gather_order_is_free`).
pub fn gather<J: Join>(first: &mut J, rest: &[J]) -> Result<(), Memory>
    ensures ok { OnOk result (first.new ≡ fold J.joined first.old rest.now) }
    ensures err { OnErr result ((n : ℕ) × (n < length rest.now)
        × (first.new ≡ fold J.joined first.old (take n rest.now))) }
    ensures memory { OnErr result
        ((value : J) × Contains rest.now value × J.takes_memory first.new value) }
    ensures values { OnOk result (AreJoined J.is_value first.old rest.now) }
{
    for value in rest {
        first.join(value)?;
    }
    Ok(())
}

/// The join of two values is a value, and joining is commutative, associative and idempotent.
pub fn join_is_lawful<J: Join>()
    ensures { JoinLaws J.is_value J.joined }
{}

/// Lists of values with the same members, in any order and with repeats, give the same when joined.
pub fn join_order_is_free<J: Join>()
    ensures { OrderIsFree J.is_value J.joined }
{}

/// What was gathered of lists with the same members, in any order and with repeats, is the same.
pub fn gather_order_is_free<J: Join>()
    ensures { GatherIsFree J.is_value J.joined }
{}

/// Joins two versions to the greater one, which takes memory where the other is greater.
impl Join for Version {
    ghost use Rattle.dd_version.specs.Fitting.{Fits};
    ghost use Rattle.dd_version.specs.Orders.{parts_cmp};
    ghost use Rattle.dd_catalogue.specs.Best.{greater};
    ghost use Rattle.dd_catalogue.specs.VersionJoin.{IsLess, version_laws};

    ghost is_value = { Fits };

    ghost joined = { greater parts_cmp };

    ghost takes_memory = { IsLess };

    fn join(&mut self, other: &Version) -> Result<(), Memory> {
        if self.parts().compare(other.parts()).is_lt() {
            *self = other.copy()?;
        }
        Ok(())
    }

    ghost laws = { version_laws };
}
