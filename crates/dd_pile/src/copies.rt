//! The copies of sources in a pile.

ghost use Rattle.std.specs.Prelude.{◌≡◌, ◌+◌, ◌<◌, ◌^◌, ℕ, List, Err, IfErr, IfOk, IsOk, false, option_map, true};
ghost use Rattle.dd_files.specs.Files.{ended};
ghost use Rattle.dd_files.specs.Reasons.{HasCounted, HasFailedReader};
ghost use Rattle.dd_filing.specs.Ahead.{IsDue};
ghost use Rattle.dd_filing.specs.declared.places.Ahead.TheVariants as known;
ghost use Rattle.dd_pile.specs.Copies.{IsCopiedDueTo, IsKnown, MakesCopy, StartsCopy, cut_or_refused};
ghost use Rattle.dd_files.specs.Keeping.{Adds, IfSaid};
ghost use Rattle.dd_pile.specs.Last.{HaveEnded};
ghost use Rattle.dd_pile.specs.Paths.{IsCopyOfPile};
ghost use Rattle.dd_pile.specs.Piles.{StagesOne, as_listed, stage_number};
ghost use Rattle.dd_pile.specs.Refusals.{IsDueTo, IsOfCopy, IsSkippedBy};
ghost use Rattle.dd_staged.specs.Sources.{IsListed, has_copy, source_view};

use crate::paths::{FOLDER_COPIES, copy_path, folder_path};
use crate::refusal::StageRefusal;
use crate::source::StageSource;
use dd_files::{Files, SOURCE_LIMIT};
use dd_filing::{Ahead, FileAhead, FilingFault, SourceCopy, copy_source};
use dd_keys::KeyFault;
use dd_staged::{SourceFault, Staged};
use dd_version::Version;
use std::alloc::Global;

/// A source whose turn it is to be copied.
#[derive(Clone, Copy)]
pub(crate) struct Turn<'a> {
    pub(crate) pile: &'a str,
    /// The number of the source, from 0.
    pub(crate) at: usize,
    pub(crate) source: StageSource<'a>,
    /// Whether a source that can't be opened or read is listed.
    pub(crate) keeps_going: bool,
}

/// What became of the copy of a source.
#[derive(Debug, Drop)]
pub(crate) enum Copied {
    /// It was written, but has not ended.
    Whole(SourceCopy),
    /// The source could not be opened, and nothing was made.
    Absent,
    /// A read of the source failed. What came before was written, and has not ended.
    Cut,
}

/// Copies the source to its place in the pile, and lists it. Where it is to keep going, one that can't be opened or
/// read is listed, too.
pub(crate) fn stage_source<F: Files>(
    alloc: Global,
    turn: &Turn<'_>,
    ahead: Ahead<'_>,
    files: &mut F,
) -> Result<Staged, StageRefusal>
    requires small { turn.now.at < 2 ^ 63 }
    requires known { IsKnown turn.now.source.path.now ahead (F.held files.old) }
    requires due { IsDue (HasCounted (F.refusals files.old)) (HasFailedReader F.In.Read) ahead }
    ensures refusal { IfErr result (IsOfCopy turn.now.at) }
    ensures staged { IfOk result (λ staged.
        IfSaid (StagesOne turn.now.pile.now (turn.now.at + 1) turn.now.source (source_view staged))
        (F.held files.old) (F.held files.new)) }
    ensures ended { IsOk result → IfSaid HaveEnded (F.held files.old) (F.held files.new) }
    ensures named { IfOk result (λ staged. staged.name.items ≡ turn.now.source.name.now) }
    ensures listed { IfOk result (λ staged. IsListed (source_view staged)) }
    ensures all { turn.now.keeps_going ≡ false → turn.now.source.is_bad_name ≡ false
        → IfOk result (λ staged. has_copy staged.found ≡ true) }
    ensures adds { IfSaid (Adds (IsCopyOfPile turn.now.pile.now)) (F.held files.old) (F.held files.new) }
    ensures due { IfErr result (IsDueTo F.In.Read (F.refusals files.new) (F.Write.failures files.new)) }
    ensures skipped { IfOk result (λ staged.
        IfErr staged.found (IsSkippedBy F.In.Read (F.refusals files.new))) }
    ensures counts { IsOk result → HasCounted (F.refusals files.old) → HasCounted (F.refusals files.new) }
{
    if turn.source.is_bad_name {
        return list_skipped(
            alloc,
            turn,
            SourceFault::BadName(stage_number(turn.at)),
            files,
        );
    }
    match make_copy(alloc, turn, ahead, files)? {
        Copied::Whole(copy) => list_written(alloc, turn, copy.size, as_listed(copy.found), files),
        Copied::Absent if turn.keeps_going => list_skipped(alloc, turn, SourceFault::Absent, files),
        Copied::Absent => Err(StageRefusal::Absent(turn.at)),
        Copied::Cut if turn.keeps_going => {
            list_written(alloc, turn, 0, Err(SourceFault::Unread), files)
        }
        Copied::Cut => Err(StageRefusal::Unread(turn.at)),
    }
}

fn as_listed(found: Result<Version, KeyFault>) -> Result<Version, SourceFault>
    ensures { result ≡ as_listed found }
{
    match found {
        Ok(version) => Ok(version),
        Err(fault) => Err(SourceFault::Key(fault)),
    }
}

/// Gives the number of the source within its stage, as a list says it.
fn stage_number(at: usize) -> u32
    requires { at < 2 ^ 63 }
    ensures value { result ≡ stage_number (at + 1) }
    ensures small { result < 2 ^ 32 }
{
    match u32::try_from(at + 1) {
        Ok(number) => number,
        Err(_) => u32::MAX,
    }
}

/// Ends the copy, and lists the source so.
fn list_written<F: Files>(
    alloc: Global,
    turn: &Turn<'_>,
    size: u64,
    found: Result<Version, SourceFault>,
    files: &mut F,
) -> Result<Staged, StageRefusal>
    ensures refusal { IfErr result (IsOfCopy turn.now.at) }
    ensures listed { IfOk result (λ staged. source_view staged ≡ record {
      name = turn.now.source.name.now;
      size = size;
      found = found;
    }) }
    ensures ended { IsOk result → F.held files.new ≡ option_map ended (F.held files.old) }
    ensures adds { IfSaid (Adds (IsCopyOfPile turn.now.pile.now)) (F.held files.old) (F.held files.new) }
    ensures due { IfErr result (IsDueTo F.In.Read (F.refusals files.new) (F.Write.failures files.new)) }
    ensures counts { IsOk result → HasCounted (F.refusals files.old) → HasCounted (F.refusals files.new) }
{
    end_copy(turn.at, files)?;
    Ok(Staged {
        name: Vec::from_slice(alloc, turn.source.name)?,
        size,
        found,
    })
}

/// Lists a source of which there is no copy. Makes its folder all the same, for the copies after it.
fn list_skipped<F: Files>(
    alloc: Global,
    turn: &Turn<'_>,
    fault: SourceFault,
    files: &mut F,
) -> Result<Staged, StageRefusal>
    requires small { turn.now.at < 2 ^ 63 }
    ensures refusal { IfErr result (IsOfCopy turn.now.at) }
    ensures listed { IfOk result (λ staged. source_view staged ≡ record {
      name = turn.now.source.name.now;
      size = 0;
      found = Err fault;
    }) }
    ensures kept { F.held files.new ≡ F.held files.old }
    ensures due { IfErr result (IsDueTo F.In.Read (F.refusals files.new) (F.Write.failures files.new)) }
    ensures counts { IsOk result → HasCounted (F.refusals files.old) → HasCounted (F.refusals files.new) }
{
    make_folder(alloc, turn, files)?;
    Ok(Staged {
        name: Vec::from_slice(alloc, turn.source.name)?,
        size: 0,
        found: Err(fault),
    })
}

fn make_copy<F: Files>(
    alloc: Global,
    turn: &Turn<'_>,
    ahead: Ahead<'_>,
    files: &mut F,
) -> Result<Copied, StageRefusal>
    requires small { turn.now.at < 2 ^ 63 }
    requires known { IsKnown turn.now.source.path.now ahead (F.held files.old) }
    requires due { IsDue (HasCounted (F.refusals files.old)) (HasFailedReader F.In.Read) ahead }
    ensures refusal { IfErr result (IsOfCopy turn.now.at) }
    ensures made { IfOk result (λ copied.
        MakesCopy turn.now.pile.now (turn.now.at + 1) turn.now.source.path.now copied
        (F.held files.old) (F.held files.new)) }
    ensures reason { IfOk result (IsCopiedDueTo F.In.Read (F.refusals files.new)) }
    ensures adds { IfSaid (Adds (IsCopyOfPile turn.now.pile.now)) (F.held files.old) (F.held files.new) }
    ensures due { IfErr result (IsDueTo F.In.Read (F.refusals files.new) (F.Write.failures files.new)) }
    ensures counts { IsOk result → HasCounted (F.refusals files.old) → HasCounted (F.refusals files.new) }
{
    match ahead {
        Ahead::File(file) => send_copy(alloc, turn, &file, files),
        Ahead::Absent => Ok(Copied::Absent),
        Ahead::Unknown => stream_copy(alloc, turn, files),
    }
}

/// Writes the copy from memory.
fn send_copy<F: Files>(
    alloc: Global,
    turn: &Turn<'_>,
    ahead: &FileAhead<'_>,
    files: &mut F,
) -> Result<Copied, StageRefusal>
    requires small { turn.now.at < 2 ^ 63 }
    requires known { IsKnown turn.now.source.path.now (known.File ahead.now) (F.held files.old) }
    requires due { IsDue (HasCounted (F.refusals files.old)) (HasFailedReader F.In.Read)
        (known.File ahead.now) }
    ensures refusal { IfErr result (IsOfCopy turn.now.at) }
    ensures made { IfOk result (λ copied.
        MakesCopy turn.now.pile.now (turn.now.at + 1) turn.now.source.path.now copied
        (F.held files.old) (F.held files.new)) }
    ensures reason { IfOk result (IsCopiedDueTo F.In.Read (F.refusals files.new)) }
    ensures adds { IfSaid (Adds (IsCopyOfPile turn.now.pile.now)) (F.held files.old) (F.held files.new) }
    ensures due { IfErr result (IsDueTo F.In.Read (F.refusals files.new) (F.Write.failures files.new)) }
    ensures counts { IsOk result → HasCounted (F.refusals files.old) → HasCounted (F.refusals files.new) }
{
    start_copy(alloc, turn, files)?;
    match ahead.copy_source_to(files) {
        Ok(copy) => Ok(Copied::Whole(copy)),
        Err(fault) => cut_or_refused(fault, turn.at),
    }
}

/// Writes the copy while its source is read.
fn stream_copy<F: Files>(
    alloc: Global,
    turn: &Turn<'_>,
    files: &mut F,
) -> Result<Copied, StageRefusal>
    requires small { turn.now.at < 2 ^ 63 }
    ensures refusal { IfErr result (IsOfCopy turn.now.at) }
    ensures made { IfOk result (λ copied.
        MakesCopy turn.now.pile.now (turn.now.at + 1) turn.now.source.path.now copied
        (F.held files.old) (F.held files.new)) }
    ensures reason { IfOk result (IsCopiedDueTo F.In.Read (F.refusals files.new)) }
    ensures adds { IfSaid (Adds (IsCopyOfPile turn.now.pile.now)) (F.held files.old) (F.held files.new) }
    ensures due { IfErr result (IsDueTo F.In.Read (F.refusals files.new) (F.Write.failures files.new)) }
    ensures counts { IsOk result → HasCounted (F.refusals files.old) → HasCounted (F.refusals files.new) }
{
    let Ok(mut reader) = files.source(turn.source.path) else {
        return Ok(Copied::Absent);
    };
    start_copy(alloc, turn, files)?;
    match copy_source(alloc, &mut reader, files, SOURCE_LIMIT) {
        Ok(copy) => Ok(Copied::Whole(copy)),
        Err(fault) => cut_or_refused(fault, turn.at),
    }
}

/// Starts the copy, in its folder.
fn start_copy<F: Files>(alloc: Global, turn: &Turn<'_>, files: &mut F) -> Result<(), StageRefusal>
    requires { turn.now.at < 2 ^ 63 }
    ensures refusal { IfErr result (IsOfCopy turn.now.at) }
    ensures started { IsOk result → StartsCopy turn.now.pile.now (turn.now.at + 1)
        (F.held files.old) (F.held files.new) }
    ensures adds { IfSaid (Adds (IsCopyOfPile turn.now.pile.now)) (F.held files.old) (F.held files.new) }
    ensures due { IfErr result (IsDueTo F.In.Read (F.refusals files.new) (F.Write.failures files.new)) }
    ensures counts { IsOk result → HasCounted (F.refusals files.old) → HasCounted (F.refusals files.new) }
{
    make_folder(alloc, turn, files)?;
    let path = copy_path(alloc, turn.pile, turn.at + 1)?;
    match files.create(path.as_str()) {
        Ok(()) => Ok(()),
        Err(_) => Err(StageRefusal::CopyUnmade(turn.at)),
    }
}

/// Makes the folder of the copy, where it is the first in it.
fn make_folder<F: Files>(alloc: Global, turn: &Turn<'_>, files: &mut F) -> Result<(), StageRefusal>
    requires { turn.now.at < 2 ^ 63 }
    ensures refusal { IfErr result (IsOfCopy turn.now.at) }
    ensures kept { F.held files.new ≡ F.held files.old }
    ensures due { IfErr result (IsDueTo F.In.Read (F.refusals files.new) (F.Write.failures files.new)) }
    ensures counts { IsOk result → HasCounted (F.refusals files.old) → HasCounted (F.refusals files.new) }
{
    let number = turn.at + 1;
    if turn.at != 0 && number % FOLDER_COPIES != 0 {
        return Ok(());
    }
    let folder = folder_path(alloc, turn.pile, number)?;
    match files.folder_in(turn.pile, folder.as_str()) {
        Ok(()) => Ok(()),
        Err(_) => Err(StageRefusal::FolderUnmade(turn.at)),
    }
}

/// Ends the copy of the source with this number, and has it stored with others.
fn end_copy<F: Files>(at: usize, files: &mut F) -> Result<(), StageRefusal>
    ensures refusal { IfErr result (IsOfCopy at) }
    ensures ended { IsOk result → F.held files.new ≡ option_map ended (F.held files.old) }
    ensures adds { (pile : List ℕ) → IfSaid (Adds (IsCopyOfPile pile)) (F.held files.old) (F.held files.new) }
    ensures due { IfErr result (IsDueTo F.In.Read (F.refusals files.new) (F.Write.failures files.new)) }
    ensures counts { IsOk result → HasCounted (F.refusals files.old) → HasCounted (F.refusals files.new) }
{
    if files.finish().is_err() {
        return Err(StageRefusal::CopyUnsent(at));
    }
    match files.store_batch() {
        Ok(()) => Ok(()),
        Err(_) => Err(StageRefusal::Unstored),
    }
}

/// Says what a fault of the copy of the source with this number makes of it: a part of a copy where the source failed.
fn cut_or_refused(fault: FilingFault, at: usize) -> Result<Copied, StageRefusal>
    ensures { result ≡ cut_or_refused fault at }
{
    match fault {
        FilingFault::Unread | FilingFault::Changed => Ok(Copied::Cut),
        FilingFault::Memory => Err(StageRefusal::Memory),
        FilingFault::Unsent => Err(StageRefusal::CopyUnsent(at)),
    }
}
