//! Records as trees, by their offsets.

ghost use Rattle.std.specs.Prelude.{◌≡◌, ◌≢◌, ◌<◌, ◌≤◌, List, IfOk, Err, length};
ghost use Rattle.dd_encoding.specs.Elements.{Elements};
ghost use Rattle.dd_walk.specs.declared.fault.DirFault.TheVariants.{Memory};
ghost use Rattle.dd_walk.specs.ForestViews.{trees_view};
ghost use Rattle.dd_walk.specs.ReadAnswers.{IsStep, IsTree, AreFollowed};
ghost use Rattle.dd_walk.specs.Pending.{Rises, AreLeft, count_left, pending_view};
ghost use Rattle.dd_walk.specs.Trees.{last_offset_or};
ghost use Rattle.dd_walk.specs.Walks.{max_record_levels};

use crate::fault::DirFault;
use crate::forest::Tree;
use crate::links::{Links, links_in};
use crate::pending::lift;
use dd_set::DataSet;
use std::alloc::Global;

const MAX_LEVELS: u32 = 32;

/// Takes the record at this offset out of the pending ones, and reads its links.
#[tactic(auto, unfolding(crate::specs::Walks::step_at))]
fn step<'a>(
    starts: &[u64],
    pending: &mut [Option<DataSet<'a>>],
    offset: u32,
    level: u32,
) -> Result<(DataSet<'a>, Links<'a>), DirFault>
    requires rise { Rises 0 starts.now }
    requires each { length starts.now ≡ length pending.old }
    ensures exact { (sets : List Elements) → AreLeft sets (pending_view pending.old)
        → IsStep starts.now sets offset level (pending_view pending.old) (pending_view pending.new) result }
    ensures fewer { IfOk result
        (λ _. count_left (pending_view pending.new) < count_left (pending_view pending.old)) }
    ensures room { IfOk result (λ _. level < max_record_levels) }
    ensures memory { result ≢ Err Memory }
{
    let set = lift(starts, pending, offset)?;
    if level >= MAX_LEVELS {
        return Err(DirFault::TooDeep(offset));
    }
    match links_in(&set) {
        None => Err(DirFault::RecordShape(offset)),
        Some(links) => Ok((set, links)),
    }
}

/// Reads the record at this offset with those below it, and gives the offset of the next one.
#[cycle(walk)]
fn tree<'a>(
    alloc: Global,
    starts: &[u64],
    pending: &mut [Option<DataSet<'a>>],
    offset: u32,
    level: u32,
) -> Result<(Tree<'a>, u32), DirFault>
    requires rise { Rises 0 starts.now }
    requires each { length starts.now ≡ length pending.old }
    requires some { offset ≢ 0 }
    ensures exact { (sets : List Elements) → AreLeft sets (pending_view pending.old)
        → IsTree starts.now sets offset level (pending_view pending.old) (pending_view pending.new) result }
    ensures fewer { IfOk result
        (λ _. count_left (pending_view pending.new) < count_left (pending_view pending.old)) }
    ensures memory { result ≡ Err Memory → 0 < count_left (pending_view pending.old) }
{
    let (set, links) = step(starts, pending, offset, level)?;
    let below = chain(alloc, starts, pending, links.lower, level + 1)?;
    let tree = Tree {
        at: offset,
        kind: links.kind,
        in_use: links.in_use,
        set,
        below,
    };
    Ok((tree, links.next))
}

/// Reads the records of a level from this offset on, each with those below it.
#[cycle(walk)]
pub(crate) fn chain<'a>(
    alloc: Global,
    starts: &[u64],
    pending: &mut [Option<DataSet<'a>>],
    first: u32,
    level: u32,
) -> Result<Vec<Tree<'a>>, DirFault>
    requires rise { Rises 0 starts.now }
    requires each { length starts.now ≡ length pending.old }
    ensures exact { (sets : List Elements) → AreLeft sets (pending_view pending.old)
        → AreFollowed starts.now sets first level (pending_view pending.old)
        (pending_view pending.new) result }
    ensures fewer { IfOk result
        (λ _. count_left (pending_view pending.new) ≤ count_left (pending_view pending.old)) }
    ensures memory { result ≡ Err Memory → 0 < count_left (pending_view pending.old) }
{
    let mut trees = Vec::new(alloc);
    let mut offset = first;
    'siblings: while offset != 0 {
        let (joined, next) = tree(alloc, starts, pending, offset, level)?;
        trees.push(joined)?;
        offset = next;
    }
    Ok(trees)
}

pub(crate) fn last_offset(trees: &[Tree<'_>]) -> u32
    ensures { result ≡ last_offset_or 0 (trees_view trees.now) }
{
    let mut last = 0;
    for tree in trees {
        last = tree.at;
    }
    last
}
