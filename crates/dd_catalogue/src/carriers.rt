//! Versions as carriers of the keys of their patients, their studies or their series.

ghost use Rattle.std.specs.Prelude.{◌≡◌, IfOk, map};

use crate::greatest::Keyed;
use crate::tuples::Tuple;
use dd_elem::{Memory, Ordered};
use dd_version::Version;
use std::alloc::Global;
use std::cmp::Ordering;
use std::marker::Model;

#[derive(Drop)]
pub(crate) struct Carrier<'a, T: Tuple> {
    version: &'a Version,
    keys: &'a T,
}

impl<'a, T: Tuple> Model for Carrier<'a, T> {
    ghost use Rattle.std.specs.Prelude.{◌≡◌};
    ghost use Rattle.dd_version.specs.declared.parts.Parts.{Parts};

    ghost Value = { Parts };

    ghost view = { λ carrier. carrier.version.now };

    ghost invariant = { λ carrier. carrier.keys.now ≡ T.tuple_of carrier.version.now };
}

impl<'a, T: Tuple> Carrier<'a, T> {
    fn of(version: &'a Version) -> Carrier<'a, T>
        ensures { result ≡ version.now }
    {
        Carrier {
            version,
            keys: T::of(version),
        }
    }

    pub(crate) fn version(&self) -> &'a Version
        ensures { result.now ≡ self.now }
    {
        self.version
    }
}

/// Compares the keys, then the versions.
impl<'a, T: Tuple> Ordered for Carrier<'a, T> {
    ghost use Rattle.dd_catalogue.specs.Carriers.{carrier_cmp, carrier_total, carrier_apart};

    ghost order = { carrier_cmp T.tuple_of T.order };

    ghost total = { carrier_total T.tuple_of T.total };

    ghost apart = { carrier_apart T.tuple_of T.order };

    fn compare(&self, other: &Self) -> Ordering {
        self.keys
            .compare(other.keys)
            .then_with(|| self.version.compare(other.version))
    }
}

impl<'a, T: Tuple> Keyed for Carrier<'a, T> {
    ghost key_of = { λ version. T.key_of (T.tuple_of version) };

    fn key(&self) -> &[u8] {
        self.keys.key()
    }
}

pub(crate) fn carriers_of<'a, T: Tuple>(
    alloc: Global,
    versions: &[&'a Version],
) -> Result<Vec<Carrier<'a, T>>, Memory>
    ensures { IfOk result (λ carriers.
        carriers.items ≡ map (λ version. version.now) versions.now) }
{
    let mut carriers = Vec::with_capacity(alloc, versions.len())?;
    for version in versions {
        carriers.push(Carrier::of(version))?;
    }
    Ok(carriers)
}
