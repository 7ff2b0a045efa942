//! A pile made of sources.

ghost use Rattle.std.specs.Prelude.{◌≡◌, ◌≢◌, false, Err, IfErr, IfOk, IsErr, IsOk, length, map, option_map};
ghost use Rattle.std.specs.List.{AllByRecursion};
ghost use Rattle.dd_files.specs.Files.{stored};
ghost use Rattle.dd_files.specs.Keeping.{Adds, IfSaid};
ghost use Rattle.dd_pile.specs.Last.{HaveEnded, MakesListLast};
ghost use Rattle.dd_pile.specs.Paths.{IsCopyOfPile};
ghost use Rattle.dd_pile.specs.Piles.{CopiesStand, HasCopy, HasNoRoom, HaveNames, IsRefusedInTurn, MakesPile};
ghost use Rattle.dd_pile.specs.Refusals.{IsDueTo};
ghost use Rattle.dd_staged.specs.Refusals.{sources_view};
ghost use Rattle.dd_staged.specs.Sources.{IsListed};

use crate::copies::{Turn, stage_source};
use crate::list::write_list;
use crate::reading_ahead::read_ahead;
use crate::refusal::StageRefusal;
use crate::source::StageSource;
use crate::sum::StageSum;
use dd_files::{Files, Progress, Step};
use dd_filing::FilesAhead;
use dd_staged::Staged;
use std::alloc::Global;

/// Makes a pile of these sources: copies each to its place, in their order, and then writes the list of them. Makes the
/// folder of the pile with its parents, where it is not there.
///
/// A source of less than 8 MiB is read once, where memory allows. One without a version is copied and listed, too; of
/// one with more than 4,294,967,295 bytes the copy has one byte more than these. The list is created once every copy is
/// stored, and is then stored, too: wherever the power is cut, there is no new list, or every copy is there, whole.
///
/// It ends with the first source that can't be opened, read or copied; what was made until then stays. Where it is to
/// keep going, one that can't be opened or read is listed so, with a length of 0; what was copied of it counts for
/// nothing. A source with a bad name is always listed so.
pub fn stage_sources<F: Files + Progress>(
    alloc: Global,
    pile: &str,
    sources: &[StageSource<'_>],
    keeps_going: bool,
    files: &mut F,
) -> Result<StageSum, StageRefusal>
    // A refusal that names a source comes once the copies of all sources before it were made.
    ensures refusal { IfErr result
        (IsRefusedInTurn pile.now sources.now (F.held files.old) (F.held files.new)) }
    ensures large { result ≡ Err StageRefusal.ListTooLarge
        → HasNoRoom pile.now sources.now (F.held files.old) (F.held files.new) }
    ensures made { IfOk result (λ sum. MakesPile pile.now sources.now sum
        (F.held files.old) (F.held files.new)) }
    ensures all { keeps_going ≡ false → HaveNames sources.now
        → IfOk result (λ sum. sum.unread ≡ 0) }
    ensures due { IfErr result (IsDueTo F.In.Read (F.refusals files.new) (F.Write.failures files.new)) }

    // Also after an Err: what stood before is as it was, and the list is created once all copies are stored.
    ensures last { IfSaid (MakesListLast pile.now) (F.held files.old) (F.held files.new) }
{
    if files.folder(pile).is_err() {
        return Err(StageRefusal::PileUnmade);
    }
    let list = copy_sources(alloc, pile, sources, keeps_going, files)?;
    store(files)?;
    write_list(alloc, pile, &list, files)?;
    store(files)?;
    files.hide_line();
    Ok(StageSum::of(&list))
}

fn copy_sources<F: Files + Progress>(
    alloc: Global,
    pile: &str,
    sources: &[StageSource<'_>],
    keeps_going: bool,
    files: &mut F,
) -> Result<Vec<Staged>, StageRefusal>
    ensures refusal { IfErr result
        (IsRefusedInTurn pile.now sources.now (F.held files.old) (F.held files.new)) }
    ensures small { result ≢ Err StageRefusal.ListTooLarge }
    ensures count { IfOk result (λ list. length list.items ≡ length sources.now) }
    ensures names { IfOk result (λ list. map (λ listed. listed.name) (sources_view list)
        ≡ map (λ source. source.name.now) sources.now) }
    ensures stand { IfOk result (λ list.
        IfSaid (CopiesStand pile.now sources.now (sources_view list))
        (F.held files.old) (F.held files.new)) }
    ensures listed { IfOk result (λ list. AllByRecursion IsListed (sources_view list)) }
    ensures all { keeps_going ≡ false → HaveNames sources.now
        → IfOk result (λ list. AllByRecursion HasCopy (sources_view list)) }
    ensures adds { IfSaid (Adds (IsCopyOfPile pile.now)) (F.held files.old) (F.held files.new) }
    ensures ended { IsOk result → IfSaid HaveEnded (F.held files.old) (F.held files.new) }
    ensures due { IfErr result (IsDueTo F.In.Read (F.refusals files.new) (F.Write.failures files.new)) }
{
    let mut list = Vec::new(alloc);
    let mut ahead = FilesAhead::new(alloc);
    files.begin_step(Step::Copying, sources.len() as u64);
    for (at, source) in sources.iter().enumerate() {
        read_ahead(alloc, &sources[at..], &mut ahead, files);
        let turn = Turn {
            pile,
            at,
            source: *source,
            keeps_going,
        };
        let staged = stage_source(alloc, &turn, ahead.next(), files)?;
        list.push(staged)?;
        ahead.pass();
        files.advance();
    }
    Ok(list)
}

fn store<F: Files>(files: &mut F) -> Result<(), StageRefusal>
    ensures fault { IfErr result (λ refusal. refusal ≡ StageRefusal.Unstored) }
    ensures kept { IsErr result → F.held files.new ≡ F.held files.old }
    ensures stored { IsOk result → F.held files.new ≡ option_map stored (F.held files.old) }
    ensures due { IfErr result (IsDueTo F.In.Read (F.refusals files.new) (F.Write.failures files.new)) }
{
    match files.store() {
        Ok(()) => Ok(()),
        Err(_) => Err(StageRefusal::Unstored),
    }
}
