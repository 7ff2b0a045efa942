//! Studies and series that are filed under two owners: a study is owned by its patient, a series by its study.

ghost use Rattle.std.specs.Prelude.{◌≡◌, map, filter, IfOk};
ghost use Rattle.dd_elem.specs.Ordered.{bytes_cmp};
ghost use Rattle.dd_catalogue.specs.Best.{best};
ghost use Rattle.dd_catalogue.specs.Carriers.{carrier_cmp};
ghost use Rattle.dd_catalogue.specs.Owners.{HasThoseOfTwoOwners, is_of_another_owner};

use crate::carriers::Carrier;
use crate::greatest::Greatest;
use crate::tuples::Tuple;
use dd_elem::Memory;
use std::alloc::Global;

pub(crate) fn of_two_owners<'b, 'a, T: Tuple, O: Tuple + 'a>(
    alloc: Global,
    carriers: &'b [Carrier<'a, T>],
    table: &Greatest<'b, Carrier<'a, T>>,
) -> Result<Greatest<'b, Carrier<'a, T>>, Memory>
    requires { table.now ≡ best (λ v. T.key_of (T.tuple_of v)) bytes_cmp
        (carrier_cmp T.tuple_of T.order) carriers.now }
    ensures { IfOk result (λ owned. HasThoseOfTwoOwners (λ v. T.key_of (T.tuple_of v))
        (λ v. O.key_of (O.tuple_of v)) carriers.now owned) }
{
    let others = of_another_owner::<T, O>(alloc, carriers, table)?;
    Greatest::of(alloc, others)
}

fn owner_of<'a, T: Tuple, O: Tuple + 'a>(carrier: &Carrier<'a, T>) -> &'a [u8]
    ensures { result.now ≡ O.key_of (O.tuple_of carrier.now) }
{
    O::of(carrier.version()).key()
}

fn of_another_owner<'b, 'a, T: Tuple, O: Tuple + 'a>(
    alloc: Global,
    carriers: &'b [Carrier<'a, T>],
    table: &Greatest<'b, Carrier<'a, T>>,
) -> Result<Vec<&'b Carrier<'a, T>>, Memory>
    ensures { IfOk result (λ others. map (λ one. one.now) others.items
        ≡ filter (is_of_another_owner (λ v. T.key_of (T.tuple_of v))
        (λ v. O.key_of (O.tuple_of v)) table.now) carriers.now) }
{
    let mut others = Vec::new(alloc);
    for one in carriers {
        if owner_of::<T, O>(table.like(one)) != owner_of::<T, O>(one) {
            others.push(one)?;
        }
    }
    Ok(others)
}
