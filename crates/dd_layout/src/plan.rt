ghost use Rattle.std.specs.Prelude.{◌≡◌, All, length};
ghost use Rattle.dd_catalogue.specs.Best.{IsRising};
ghost use Rattle.dd_catalogue.specs.Versions.{IsCatalogue};
ghost use Rattle.dd_elem.specs.Ordered.{bytes_cmp};
ghost use Rattle.dd_layout.specs.Layouts.{IsLaidOut, IsSound, StandsWithin};
ghost use Rattle.dd_layout.specs.Plans.{records_of, size};

use dd_catalogue::Catalogue;
use dd_elem::Uid;
use dd_records::{Label, PlanRecord};
use dd_version::Version;
use std::marker::Model;

/// Holds the records, the withdrawn instances and the size of a directory.
#[derive(Debug)]
pub struct Plan {
    label: Label,
    catalogue: Catalogue,
    records: Vec<PlanRecord>,
    size: u32,
}

impl Model for Plan {
    ghost use Rattle.dd_layout.specs.Layouts.{Layout, IsLaidOut};

    ghost Value = { Layout };

    ghost view = { λ plan. record {
      label = plan.label;
      versions = plan.catalogue.versions;
      withdrawn = plan.catalogue.withdrawn;
    } };

    ghost invariant = { λ plan.
        IsLaidOut plan.label plan.catalogue.versions plan.catalogue.withdrawn plan.records.items plan.size };
}

// By hand, so that dropping a plan is one call.
impl Drop for Plan {
    fn drop(self) {
        let Plan {
            label: _label,
            catalogue: _catalogue,
            records: _records,
            size: _size,
        } = self;
    }
}

impl Plan {
    pub(crate) fn of(
        label: Label,
        catalogue: Catalogue,
        records: Vec<PlanRecord>,
        size: u32,
    ) -> Plan
        requires { IsLaidOut label catalogue.versions catalogue.withdrawn records.items size }
        ensures { result ≡ record { label = label; versions = catalogue.versions; withdrawn = catalogue.withdrawn } }
    {
        Plan {
            label,
            catalogue,
            records,
            size,
        }
    }

    pub(crate) fn into_parts(self) -> (Catalogue, Vec<PlanRecord>, u32)
        ensures versions { result.0.versions ≡ self.versions }
        ensures withdrawn { result.0.withdrawn ≡ self.withdrawn }
        ensures laid_out { IsLaidOut self.label self.versions self.withdrawn result.1.items result.2 }
    {
        let Plan {
            label: _label,
            catalogue,
            records,
            size,
        } = self;
        (catalogue, records, size)
    }

    /// Gives the label that the file-set gets.
    pub fn label(&self) -> &Label
        ensures { result.now ≡ self.now.label }
    {
        &self.label
    }

    /// Lists the versions that the records are of, in harmony, rising by SOP Instance UID.
    pub fn versions(&self) -> &[Version]
        ensures all { result.now ≡ self.now.versions }
        ensures rising { IsCatalogue self.now.versions }
    {
        self.catalogue.versions()
    }

    /// Lists the withdrawn SOP Instance UIDs, rising.
    pub fn withdrawn(&self) -> &[Uid]
        ensures all { result.now ≡ self.now.withdrawn }
        ensures rising { IsRising (λ uid. uid) bytes_cmp self.now.withdrawn }
    {
        self.catalogue.withdrawn()
    }

    /// Gives the size of the file, in bytes.
    pub fn size(&self) -> u32
        ensures { result ≡ size self.now.label self.now.versions self.now.withdrawn }
    {
        self.size
    }

    /// Lists the records in the order of their bytes: each, then all below it, then its next sibling (PS3.3 section
    /// F.4).
    pub fn records(&self) -> &[PlanRecord]
        ensures all { result.now ≡ records_of self.now.label self.now.versions }
        ensures sound { All (IsSound (length self.now.versions)) result.now }
        ensures within { All (StandsWithin
            (size self.now.label self.now.versions self.now.withdrawn)) result.now }
    {
        &self.records
    }
}
