//! The offsets of the first and of the last root record, or 0 (PS3.3 section F.3.2.2).

ghost use Rattle.std.specs.Prelude.{◌≡◌, List};
ghost use Rattle.dd_version.specs.declared.parts.Parts.{Parts};
ghost use Rattle.dd_records.specs.declared.label.Label.{Label};
ghost use Rattle.dd_layout.specs.Plans.{records_of};
ghost use Rattle.dd_dir.specs.Directories.{first_root, last_root};

use dd_records::{Level, PlanRecord};

pub(crate) fn first_root(records: &[PlanRecord]) -> u32
    ensures { (label : Label) (versions : List Parts) → records.now ≡ records_of label versions
        → result ≡ first_root label versions }
{
    match records
        .iter()
        .find(|planned| planned.level == Level::Patient)
    {
        None => 0,
        Some(planned) => planned.at,
    }
}

pub(crate) fn last_root(records: &[PlanRecord]) -> u32
    ensures { (label : Label) (versions : List Parts) → records.now ≡ records_of label versions
        → result ≡ last_root label versions }
{
    match records
        .iter()
        .rev()
        .find(|planned| planned.level == Level::Patient)
    {
        None => 0,
        Some(planned) => planned.at,
    }
}
