ghost use Rattle.std.specs.Prelude.{◌≡◌, ◌≤◌, All, map, IsSome, SomeIff};
ghost use Rattle.dd_layout.specs.Plans.{records_end, tree};
ghost use Rattle.dd_records.specs.Records.{IsFileOf};
ghost use Rattle.dd_layout.specs.Stages.{numbered_at, placed_at};

use dd_records::{Label, PlanRecord, first_offset, record_size};
use dd_version::Version;

/// Gives each record its offset, and answers where the last one ends: None where that is above `most`.
pub(crate) fn set_offsets(
    records: &mut [PlanRecord],
    versions: &[Version],
    label: &Label,
    most: u32,
) -> Option<u32>
    requires records { records.old ≡ map (numbered_at versions.now) (tree versions.now) }
    requires files { All (λ planned. IsFileOf planned.level planned.file) records.old }
    ensures fits { SomeIff result (records_end label.now versions.now ≤ most)
        (records_end label.now versions.now) }
    ensures placed { IsSome result → records.new
        ≡ map (placed_at label.now versions.now) (tree versions.now) }
{
    let most = u64::from(most);
    let mut end = first_offset(label);
    if end > most {
        return None;
    }
    for record in records.iter_mut() {
        let size = record_size(record.level, versions[record.of].parts());
        record.at = end as u32;
        end += size;
        if end > most {
            return None;
        }
    }
    Some(end as u32)
}
