//! The ranks of records, and the File IDs of images.

ghost use Rattle.std.specs.Prelude.{◌≡◌, ◌+◌, ◌<◌, ◌≤◌, ◌^◌, All, List, None, Some, map, ℕ};
ghost use Rattle.dd_elem.specs.FileId.{max_rank};
ghost use Rattle.dd_version.specs.declared.parts.Parts.{Parts};
ghost use Rattle.dd_layout.specs.Numbering.{after, count_of, counted_file, topmost};
ghost use Rattle.dd_layout.specs.Plans.{level_of, tree};
ghost use Rattle.dd_records.specs.Records.{IsFileOf};
ghost use Rattle.dd_layout.specs.Refusal.{crowded};
ghost use Rattle.dd_layout.specs.Stages.{bare_at, level_in, numbered_at};

use dd_elem::FileId;
use dd_records::{Level, PlanRecord};

/// Counts the records of each level below the present parent.
#[derive(Clone, Copy)]
struct Counters {
    patient: u64,
    study: u64,
    series: u64,
    image: u64,
}

impl Counters {
    const NONE: Counters = Counters {
        patient: 0,
        study: 0,
        series: 0,
        image: 0,
    };

    fn of(self, level: Level) -> u64
        ensures { result ≡ count_of level self }
    {
        match level {
            Level::Patient => self.patient,
            Level::Study => self.study,
            Level::Series => self.series,
            Level::Image => self.image,
        }
    }

    fn after(self, level: Level) -> Counters
        requires { count_of level self + 1 < 2 ^ 64 }
        ensures { result ≡ after level self }
    {
        match level {
            Level::Patient => Counters {
                patient: self.patient + 1,
                ..Counters::NONE
            },
            Level::Study => Counters {
                study: self.study + 1,
                series: 0,
                image: 0,
                ..self
            },
            Level::Series => Counters {
                series: self.series + 1,
                image: 0,
                ..self
            },
            Level::Image => Counters {
                image: self.image + 1,
                ..self
            },
        }
    }

    /// None where it is no image, or a counter is 0 or above 999,999.
    fn file(self, level: Level) -> Option<FileId>
        ensures { result ≡ counted_file level self }
    {
        match level {
            Level::Patient | Level::Study | Level::Series => None,
            Level::Image => FileId::ranked(
                u32::try_from(self.patient).ok()?,
                u32::try_from(self.study).ok()?,
                u32::try_from(self.series).ok()?,
                u32::try_from(self.image).ok()?,
            ),
        }
    }
}

fn topmost_of(level: Level, before: Option<Level>) -> Level
    ensures { result ≡ topmost level before }
{
    match (level, before) {
        (_, None | Some(Level::Image)) => level,
        (Level::Patient, _) | (_, Some(Level::Patient)) => Level::Patient,
        (Level::Study, _) | (_, Some(Level::Study)) => Level::Study,
        (Level::Series | Level::Image, Some(Level::Series)) => Level::Series,
    }
}

/// Finds the topmost level of which more records than `most` stand below one parent.
pub(crate) fn crowded_level(records: &[PlanRecord], most: u32) -> Option<Level>
    ensures { (versions : List Parts) → map level_in records.now ≡ map level_of (tree versions)
        → result ≡ crowded most (tree versions) }
{
    let mut counters = Counters::NONE;
    let mut crowded = None;
    for record in records {
        counters = counters.after(record.level);
        if counters.of(record.level) > u64::from(most) {
            crowded = Some(topmost_of(record.level, crowded));
        }
    }
    crowded
}

pub(crate) fn number(records: &mut [PlanRecord])
    ensures numbered { (versions : List Parts) (most : ℕ) → most ≤ max_rank
        → crowded most (tree versions) ≡ None
        → records.old ≡ map (bare_at versions) (tree versions)
        → records.new ≡ map (numbered_at versions) (tree versions) }
    ensures files { (versions : List Parts) (most : ℕ) → most ≤ max_rank
        → crowded most (tree versions) ≡ None
        → records.old ≡ map (bare_at versions) (tree versions)
        → All (λ planned. IsFileOf planned.level planned.file) records.new }
{
    let mut counters = Counters::NONE;
    for record in records.iter_mut() {
        counters = counters.after(record.level);
        record.file = counters.file(record.level);
    }
}
