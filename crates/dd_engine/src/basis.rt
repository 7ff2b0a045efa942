ghost use Rattle.std.specs.Prelude.{◌≡◌};
ghost use Rattle.dd_catalogue.specs.Changes.{with_changes};
ghost use Rattle.dd_engine.specs.Planned.{kept_in};

use dd_catalogue::{Catalogue, Changes, Withdrawals};
use dd_version::Version;

/// What a plan is made from.
#[derive(Drop)]
pub(crate) struct Basis<T> {
    pub(crate) versions: Vec<Version>,
    /// The origin of each version.
    pub(crate) origins: Vec<T>,
    /// The SOP Instance UIDs that are withdrawn.
    pub(crate) withdrawn: Withdrawals,
}

impl<T: Copy> Basis<T> {
    /// Makes the catalogue of these versions in their own memory, with these changes.
    pub(crate) fn into_catalogue(self, changes: Changes) -> Catalogue
        ensures { result ≡ record {
          versions = with_changes changes (kept_in self);
          withdrawn = self.withdrawn;
        } }
    {
        let Basis {
            versions,
            origins: _origins,
            withdrawn,
        } = self;
        Catalogue::from_list(versions, withdrawn, changes)
    }
}
