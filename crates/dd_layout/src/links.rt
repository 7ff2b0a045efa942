ghost use Rattle.std.specs.Prelude.{◌≡◌, List, map};
ghost use Rattle.dd_version.specs.declared.parts.Parts.{Parts};
ghost use Rattle.dd_records.specs.declared.label.Label.{Label};
ghost use Rattle.dd_layout.specs.Linking.{later_from, lower_of, next_of};
ghost use Rattle.dd_layout.specs.Plans.{records_of, tree};
ghost use Rattle.dd_layout.specs.Stages.{placed_at};

use dd_records::{Level, PlanRecord};

/// The next siblings, while records are walked from the last to the first. Each level has the offset of its first
/// record that no record of a higher level precedes, or 0.
#[derive(Clone, Copy)]
struct Later {
    patient: u32,
    study: u32,
    series: u32,
    image: u32,
}

impl Later {
    const NONE: Later = Later {
        patient: 0,
        study: 0,
        series: 0,
        image: 0,
    };

    fn next(self, level: Level) -> u32
        ensures { result ≡ next_of level self }
    {
        match level {
            Level::Patient => self.patient,
            Level::Study => self.study,
            Level::Series => self.series,
            Level::Image => self.image,
        }
    }

    fn first_below(self, level: Level) -> u32
        ensures { result ≡ lower_of level self }
    {
        match level {
            Level::Patient => self.study,
            Level::Study => self.series,
            Level::Series => self.image,
            Level::Image => 0,
        }
    }

    /// Passes a record of this level at this offset.
    fn before(self, level: Level, at: u32) -> Later
        ensures { result ≡ later_from level at self }
    {
        match level {
            Level::Patient => Later {
                patient: at,
                ..Later::NONE
            },
            Level::Study => Later {
                study: at,
                series: 0,
                image: 0,
                ..self
            },
            Level::Series => Later {
                series: at,
                image: 0,
                ..self
            },
            Level::Image => Later { image: at, ..self },
        }
    }
}

pub(crate) fn link(records: &mut [PlanRecord])
    ensures { (label : Label) (versions : List Parts)
        → records.old ≡ map (placed_at label versions) (tree versions)
        → records.new ≡ records_of label versions }
{
    let mut later = Later::NONE;
    for i in (0..records.len()).rev() {
        let record = &mut records[i];
        record.next = later.next(record.level);
        record.lower = later.first_below(record.level);
        later = later.before(record.level, record.at);
    }
}
