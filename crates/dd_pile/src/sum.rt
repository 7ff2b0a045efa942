ghost use Rattle.std.specs.Prelude.{map};
ghost use Rattle.dd_staged.specs.Sources.{source_view};
ghost use Rattle.dd_pile.specs.Sums.{AddsUp};

use dd_staged::{SourceFault, Staged};

/// How many sources were staged.
#[derive(Clone, Copy, Debug, PartialEq, Eq)]
pub struct StageSum {
    pub sources: usize,
    /// How many of them have no version.
    pub skipped: usize,
    /// How many of these were not read.
    pub unread: usize,
    /// The bytes of the copies of all others, up to `u64::MAX`.
    pub bytes: u64,
}

impl StageSum {
    pub(crate) fn of(list: &[Staged]) -> StageSum
        ensures { AddsUp (map source_view list.now) result }
    {
        let mut sum = StageSum {
            sources: list.len(),
            skipped: 0,
            unread: 0,
            bytes: 0,
        };
        for staged in list {
            match staged.found {
                Ok(_) => sum.bytes = sum.bytes.saturating_add(staged.size),
                Err(SourceFault::Key(_)) => sum.skipped += 1,
                Err(_) => {
                    sum.skipped += 1;
                    sum.unread += 1;
                }
            }
        }
        sum
    }
}
