//! Facts that types give, for proofs.

ghost use Rattle.std.specs.Prelude.{◌≡◌};
ghost use Rattle.dd_catalogue.specs.Contents.{IsHeld};
ghost use Rattle.dd_version.specs.WellFormed.{IsWellFormed};

use dd_catalogue::Catalogue;
use dd_version::{Parts, Version, version_is_well_formed};

pub(crate) fn parts_of(version: &Version) -> &Parts
    ensures value { result.now ≡ version.now }
    ensures formed { IsWellFormed version.now }
{
    version_is_well_formed(version);
    version.parts()
}

/// States that the versions of a catalogue rise by instance, and that its withdrawn UIDs rise.
pub(crate) fn catalogue_is_held(catalogue: &Catalogue)
    ensures { IsHeld catalogue.now }
{
    catalogue.versions();
}
