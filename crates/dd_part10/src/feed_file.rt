ghost use Rattle.std.specs.Prelude.{◌≢◌, ◌≤◌, length, IfOk, Err};
ghost use Rattle.dd_grammar.specs.declared.fault.SetFault.TheVariants.{Memory};
ghost use Rattle.dd_stream.specs.Feeds.{Scans};
ghost use Rattle.dd_part10.specs.declared.fault.FileFault.TheVariants as faults;
ghost use Rattle.dd_part10.specs.File.{max_group_length};
ghost use Rattle.dd_part10.specs.Memory.{WantsNone};
ghost use Rattle.dd_part10.specs.Taking.{PrefixTaken, CountTaken, GroupTaken, MetaTaken, HeadTaken, SetTaken};
ghost use Rattle.dd_part10.specs.Taking.{FileTaken};

use crate::fault::FileFault;
use crate::group::{MAX_GROUP_LENGTH, named_syntax, read_count, read_meta};
use crate::reading::{may_follow, rest_after_prefix};
use crate::scanned::Scanned;
use dd_elem::Tag;
use dd_encoding::{COUNT_LENGTH, Meta, PREFIX_END, Syntax};
use dd_scan::{Scan, take_set};
use dd_stream::{Feed, fill};
use std::alloc::Global;

/// Groups up to this size are read into a small buffer.
const SHORT_GROUP: usize = 1024;

/// Takes a file from a feed, to its end, with every check of `parse_file` in its order. Keeps its meta information
/// and the wanted elements of its data set.
pub fn take_file<F: Feed>(alloc: Global, feed: &mut F, wanted: &[Tag]) -> Result<Scanned, FileFault>
    ensures found { Scans F.moves F.tells feed.old feed.new
        (λ bytes rest. FileTaken wanted.now result bytes) }
{
    let (meta, syntax) = take_head(alloc, feed)?;
    let scan = take_data_set(alloc, feed, syntax, wanted)?;
    Ok(Scanned {
        meta,
        found: scan.found,
    })
}

fn take_head<F: Feed>(alloc: Global, feed: &mut F) -> Result<(Meta, Syntax), FileFault>
    ensures found { Scans F.moves F.tells feed.old feed.new
        (λ bytes rest. HeadTaken result bytes rest) }
    ensures memory { result ≢ Err (faults.Set Memory) }
{
    take_prefix(feed)?;
    let meta = take_meta(alloc, feed)?;
    let syntax = named_syntax(&meta)?;
    Ok((meta, syntax))
}

fn take_prefix<F: Feed>(feed: &mut F) -> Result<(), FileFault>
    ensures found { Scans F.moves F.tells feed.old feed.new
        (λ bytes rest. PrefixTaken result bytes rest) }
    ensures memory { WantsNone result }
{
    let mut front = [0; PREFIX_END];
    let n = fill(feed, &mut front);
    rest_after_prefix(&front[..n])?;
    Ok(())
}

fn take_count<F: Feed>(feed: &mut F) -> Result<u32, FileFault>
    ensures found { Scans F.moves F.tells feed.old feed.new
        (λ bytes rest. CountTaken result bytes rest) }
    ensures few { IfOk result (λ n. n ≤ max_group_length) }
    ensures memory { WantsNone result }
{
    let mut front = [0; COUNT_LENGTH];
    let n = fill(feed, &mut front);
    read_count(&front[..n])
}

fn take_meta<F: Feed>(alloc: Global, feed: &mut F) -> Result<Meta, FileFault>
    ensures found { Scans F.moves F.tells feed.old feed.new
        (λ bytes rest. MetaTaken result bytes rest) }
    ensures memory { result ≢ Err (faults.Set Memory) }
{
    let count = take_count(feed)? as usize;
    if count <= SHORT_GROUP {
        let mut room = [0; SHORT_GROUP];
        take_group(alloc, feed, &mut room[..count])
    } else {
        let mut room = [0; MAX_GROUP_LENGTH as usize];
        take_group(alloc, feed, &mut room[..count])
    }
}

fn take_group<F: Feed>(alloc: Global, feed: &mut F, group: &mut [u8]) -> Result<Meta, FileFault>
    ensures found { Scans F.moves F.tells feed.old feed.new
        (λ bytes rest. GroupTaken (length group.old) result bytes rest) }
    ensures memory { result ≢ Err (faults.Set Memory) }
{
    if fill(feed, group) < group.len() {
        return Err(FileFault::GroupLength);
    }
    read_meta(alloc, group)
}

fn take_data_set<F: Feed>(
    alloc: Global,
    feed: &mut F,
    syntax: Syntax,
    wanted: &[Tag],
) -> Result<Scan, FileFault>
    ensures found { Scans F.moves F.tells feed.old feed.new
        (λ bytes rest. SetTaken syntax wanted.now result bytes) }
    ensures memory { result ≢ Err (faults.Meta Memory) }
{
    let scan = take_set(alloc, feed, syntax, wanted).map_err(FileFault::Set)?;
    if !may_follow(scan.first) {
        return Err(FileFault::GroupLength);
    }
    Ok(scan)
}
