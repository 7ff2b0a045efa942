//! The list of a pile.

ghost use Rattle.std.specs.Prelude.{◌≡◌, ◌≢◌, ◌<◌, ◌≤◌, ◌^◌, ℕ, List, ⊤, Err, IfErr, IfOk, IsOk};
ghost use Rattle.std.specs.Prelude.{length, map, option_map};
ghost use Rattle.std.specs.List.{AllByRecursion};
ghost use Rattle.dd_elem.specs.Device.{counted};
ghost use Rattle.dd_files.specs.Files.{published};
ghost use Rattle.dd_files.specs.Keeping.{Adds, IfSaid, IsFree};
ghost use Rattle.dd_files.specs.Reasons.{HasFailedReader};
ghost use Rattle.dd_pile.specs.Lists.{IfList};
ghost use Rattle.dd_pile.specs.Paths.{IsListPath};
ghost use Rattle.dd_pile.specs.Piles.{WritesList};
ghost use Rattle.dd_pile.specs.Refusals.{IsDueTo, IsOfList};
ghost use Rattle.dd_staged.specs.Refusals.{IsBadStage, sources_view};
ghost use Rattle.dd_staged.specs.Sources.{IsListed, source_view};
ghost use Rattle.dd_staged.specs.Stages.{IsStage, stage_text};

use crate::paths::list_path;
use crate::pile_fault::PileFault;
use crate::refusal::StageRefusal;
use dd_files::{Files, ReadFault, SOURCE_LIMIT, read_whole};
use dd_staged::{StageFault, Staged, read_stage, stage_size, write_stage};
use std::alloc::Global;

/// Writes the list, which may have at most 4,294,967,295 bytes.
pub(crate) fn write_list<F: Files>(
    alloc: Global,
    pile: &str,
    list: &[Staged],
    files: &mut F,
) -> Result<(), StageRefusal>
    ensures refusal { IfErr result IsOfList }
    ensures large { result ≡ Err StageRefusal.ListTooLarge
        → 2 ^ 32 ≤ length (stage_text (map source_view list.now)) }
    ensures unmade { result ≡ Err StageRefusal.ListTooLarge
        → F.held files.new ≡ F.held files.old }
    ensures written { IsOk result → WritesList pile.now (map source_view list.now)
        (F.held files.old) (F.held files.new) }
    ensures stage { let sources = map source_view list.now
        in IsOk result → AllByRecursion IsListed sources → IsStage (stage_text sources) sources }
    ensures adds { IfSaid (Adds (IsListPath pile.now)) (F.held files.old) (F.held files.new) }
    ensures due { IfErr result (IsDueTo F.In.Read (F.refusals files.new) (F.Write.failures files.new)) }
{
    if stage_size(list).is_none() {
        return Err(StageRefusal::ListTooLarge);
    }
    let path = list_path(alloc, pile)?;
    make_list(path.as_str(), list, files)
}

fn make_list<F: Files>(path: &str, list: &[Staged], files: &mut F) -> Result<(), StageRefusal>
    requires { length (stage_text (map source_view list.now)) < 2 ^ 32 }
    ensures refusal { IfErr result IsOfList }
    ensures small { result ≢ Err StageRefusal.ListTooLarge }
    ensures free { IsOk result → IsFree path.now (F.held files.old) }
    ensures written { IsOk result → F.held files.new
        ≡ option_map (published path.now (stage_text (map source_view list.now)))
        (F.held files.old) }
    ensures stage { let sources = map source_view list.now
        in IsOk result → AllByRecursion IsListed sources → IsStage (stage_text sources) sources }
    ensures adds { (pile : List ℕ) → IsListPath pile path.now
        → IfSaid (Adds (IsListPath pile)) (F.held files.old) (F.held files.new) }
    ensures due { IfErr result (IsDueTo F.In.Read (F.refusals files.new) (F.Write.failures files.new)) }
{
    match files.create(path) {
        Ok(()) => {}
        Err(_) => return Err(StageRefusal::ListUnmade),
    }
    match write_stage(list, files) {
        Ok(_) => {}
        Err(_) => return Err(StageRefusal::ListUnsent),
    }
    match files.finish() {
        Ok(()) => Ok(()),
        Err(_) => Err(StageRefusal::ListUnsent),
    }
}

/// Reads the list of a pile. Its bytes are in memory until they are read.
///
/// Absent where it can't be opened, Unread where a read fails, TooLong where it has more than 4,294,967,295 bytes, and
/// BadStage where it spells no list.
pub fn read_pile<F: Files>(
    alloc: Global,
    pile: &str,
    files: &mut F,
) -> Result<Vec<Staged>, PileFault>
    ensures found { IfOk result (λ list.
        IfList pile.now (λ bytes. IsStage bytes (sources_view list)) (F.held files.old)) }
    ensures bad { (n : ℕ) → result ≡ Err (PileFault.BadStage n)
        → IfList pile.now (IsBadStage n) (F.held files.old) }
    ensures long { result ≡ Err PileFault.TooLong
        → IfList pile.now (λ bytes. 2 ^ 32 ≤ length bytes) (F.held files.old) }
    ensures absent { result ≡ Err PileFault.Absent
        → F.refusals files.new ≡ counted (F.refusals files.old) }
    ensures unread { result ≡ Err PileFault.Unread → IfList pile.now (λ _. ⊤) (F.held files.old) }
    ensures worked { result ≢ Err PileFault.Absent → F.refusals files.new ≡ F.refusals files.old }
    ensures kept { F.held files.new ≡ F.held files.old }
    ensures failed { result ≡ Err PileFault.Unread → HasFailedReader F.In.Read }
{
    let text = list_bytes(alloc, pile, files)?;
    match read_stage(alloc, &text) {
        Ok(list) => Ok(list),
        Err(StageFault::BadStage(number)) => Err(PileFault::BadStage(number)),
        Err(StageFault::Memory) => Err(PileFault::Memory),
    }
}

fn list_bytes<F: Files>(alloc: Global, pile: &str, files: &mut F) -> Result<Vec<u8>, PileFault>
    ensures found { IfOk result (λ text.
        IfList pile.now (λ bytes. bytes ≡ text.items) (F.held files.old)) }
    ensures spelled { (n : ℕ) → result ≢ Err (PileFault.BadStage n) }
    ensures long { result ≡ Err PileFault.TooLong
        → IfList pile.now (λ bytes. 2 ^ 32 ≤ length bytes) (F.held files.old) }
    ensures absent { result ≡ Err PileFault.Absent
        → F.refusals files.new ≡ counted (F.refusals files.old) }
    ensures unread { result ≡ Err PileFault.Unread → IfList pile.now (λ _. ⊤) (F.held files.old) }
    ensures worked { result ≢ Err PileFault.Absent → F.refusals files.new ≡ F.refusals files.old }
    ensures kept { F.held files.new ≡ F.held files.old }
    ensures failed { result ≡ Err PileFault.Unread → HasFailedReader F.In.Read }
{
    let path = list_path(alloc, pile)?;
    let Ok(mut reader) = files.exact_file(pile, path.as_str()) else {
        return Err(PileFault::Absent);
    };
    match read_whole(alloc, &mut reader, SOURCE_LIMIT) {
        Ok(text) => Ok(text),
        Err(ReadFault::Read) => Err(PileFault::Unread),
        Err(ReadFault::TooLong) => Err(PileFault::TooLong),
        Err(ReadFault::Memory) => Err(PileFault::Memory),
    }
}
