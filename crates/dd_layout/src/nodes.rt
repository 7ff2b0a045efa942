//! The nodes of a tree: which records a directory has, and of which version each is.

ghost use Rattle.std.specs.Prelude.{◌≡◌, ◌≢◌, ◌≤◌, ◌∷◌, ◌++◌, [], drop, length, map, option_copied, IfOk, OnOk, OnErr};
ghost use Rattle.dd_layout.specs.Paths.{leads_to, prefixes};
ghost use Rattle.dd_layout.specs.Plans.{path_of, tree};
ghost use Rattle.dd_layout.specs.Refusal.{above};
ghost use Rattle.dd_layout.specs.Stages.{bare_at};
ghost use Rattle.dd_layout.specs.WalkedRecords.{front_of, least_run, path_before, record_here, records_from};
ghost use Rattle.dd_layout.specs.WalkedRecords.{shared, standing};

use crate::order::{Placed, in_path_order, shared_length};
use dd_elem::Memory;
use dd_records::{Level, PlanRecord};
use dd_version::Version;
use std::alloc::Global;

const LEVELS: [Level; 4] = [Level::Patient, Level::Study, Level::Series, Level::Image];

/// Makes the records in the order of their bytes, each with its level and the least version below it.
pub(crate) fn nodes(alloc: Global, versions: &[Version]) -> Result<Vec<PlanRecord>, Memory>
    ensures records { IfOk result (λ records. records.items
        ≡ map (bare_at versions.now) (tree versions.now)) }
    ensures some { OnErr result (versions.now ≢ []) }
{
    if versions.is_empty() {
        return Ok(Vec::new(alloc));
    }
    let placed = in_path_order(alloc, versions)?;
    records_along(alloc, &placed)
}

fn records_along(alloc: Global, placed: &[Placed]) -> Result<Vec<PlanRecord>, Memory>
    ensures { IfOk result (λ records. records.items ≡ records_from [] (map standing placed.now)) }
{
    let mut records = Vec::with_capacity(alloc, record_count(placed))?;
    let mut before = None;
    let mut rest = placed;
    while let [first, later @ ..] = rest {
        let shared = shared_with(before, first.version);
        push_records(&mut records, shared, first, later)?;
        before = Some(first.version);
        rest = later;
    }
    Ok(records)
}

fn record_count(placed: &[Placed]) -> usize
    ensures { result ≡ length (records_from [] (map standing placed.now)) }
{
    let mut count = 0;
    let mut before = None;
    let mut rest = placed;
    while let [first, later @ ..] = rest {
        count += LEVELS.len() - shared_with(before, first.version);
        before = Some(first.version);
        rest = later;
    }
    count
}

fn shared_with(before: Option<&Version>, version: &Version) -> usize
    ensures exact { result ≡ shared (path_before (option_copied before.entry))
        (path_of version.now) }
    ensures few { result ≤ 4 }
{
    match before {
        Some(before) => shared_length(before, version),
        None => 0,
    }
}

/// Adds the records that lead to the first version, without the shared ones.
fn push_records(
    records: &mut Vec<PlanRecord>,
    shared: usize,
    first: &Placed,
    later: &[Placed],
) -> Result<(), Memory>
    requires { shared ≤ 4 }
    ensures { OnOk result (records.new.items ≡ records.old.items ++ map
        (record_here (map standing (first.now ∷ later.now)))
        (drop shared (prefixes (path_of first.now.version.now)))) }
{
    for level in &LEVELS[shared..] {
        records.push(PlanRecord {
            level: *level,
            at: 0,
            next: 0,
            lower: 0,
            file: None,
            of: least_below(*level, first, later),
        })?;
    }
    Ok(())
}

/// Finds the least index of the first version and of those right after it below its record of this level.
fn least_below(level: Level, first: &Placed, later: &[Placed]) -> usize
    ensures { result ≡ least_run (front_of level first.now.version.now) first.now.of
        (map standing later.now) }
{
    let mut least = first.of;
    let mut rest = later;
    while let [next, further @ ..] = rest {
        if !leads(level, first.version, next.version) {
            return least;
        }
        if next.of < least {
            least = next.of;
        }
        rest = further;
    }
    least
}

fn leads(level: Level, first: &Version, other: &Version) -> bool
    ensures { result ≡ leads_to (front_of level first.now) (path_of other.now) }
{
    depth_of(level) < shared_length(first, other)
}

fn depth_of(level: Level) -> usize
    ensures { result ≡ above level }
{
    match level {
        Level::Patient => 0,
        Level::Study => 1,
        Level::Series => 2,
        Level::Image => 3,
    }
}
