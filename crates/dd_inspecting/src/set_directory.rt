ghost use Rattle.std.specs.Prelude.{◌≡◌, ◌<◌, ◌⊎◌, ℕ, Bool, IfErr, IfOk, IsOk, List, Option};
ghost use Rattle.dd_walk.specs.ReadAnswers.{SaysMemory};
ghost use Rattle.dd_walk.specs.Reading.{Refuses};
ghost use Rattle.dd_files.specs.Files.{Held};
ghost use Rattle.dd_faults.specs.Refusal.{IsOfWork};
ghost use Rattle.dd_faults.specs.Reasons.{IsDue, IsOfEngine};
ghost use Rattle.dd_inspecting.specs.Directories.{HasDirectory};
ghost use Rattle.dd_inspecting.specs.Grounds.{GroundsOfCheck, GroundsOfList};

use dd_faults::{ProgramFault, Refusal, Subject};
use dd_files::{DIRECTORY, Files, ReadFault, SOURCE_LIMIT, path_in, read_whole};
use dd_walk::DirFault;
use std::alloc::Global;

/// Reads the whole directory of the file-set in this folder, which has this number. Absent where it can't be opened,
/// Unread where a read fails, TooLong where it has more than 4,294,967,295 bytes.
pub fn directory_bytes<F: Files>(
    alloc: Global,
    at: usize,
    folder: &str,
    files: &mut F,
) -> Result<Vec<u8>, Refusal>
    ensures refusal { (paths : ℕ) → at < paths → IfErr result (IsOfWork paths) }
    ensures due { (strict : Bool) → IfErr result (λ refusal.
        IsDue F.In.Read (F.refusals files.new) (F.Write.failures files.new) strict refusal.fault) }
    ensures grounds { IfErr result (λ refusal.
        GroundsOfCheck folder.now (F.held files.old) refusal.fault) }
    ensures long { IfErr result (λ refusal.
        refusal.fault ≡ ProgramFault.TooLong → refusal.subject ≡ Subject.Source at) }
    ensures read { IfOk result (λ bytes.
        HasDirectory folder.now bytes.items (F.held files.old)) }
    ensures worked { IsOk result → F.refusals files.new ≡ F.refusals files.old }
    ensures kept { F.held files.new ≡ F.held files.old }
{
    let path = path_in(alloc, folder, DIRECTORY)?;
    let Ok(mut reader) = files.member(folder, path.as_str()) else {
        return Err(Refusal::of(Subject::SetDirectory(at), ProgramFault::Absent));
    };
    match read_whole(alloc, &mut reader, SOURCE_LIMIT) {
        Ok(bytes) => Ok(bytes),
        Err(ReadFault::Read) => Err(Refusal::of(Subject::SetDirectory(at), ProgramFault::Unread)),
        Err(ReadFault::TooLong) => Err(Refusal::of(Subject::Source(at), ProgramFault::TooLong)),
        Err(ReadFault::Memory) => Err(Refusal::memory()),
    }
}

/// Gives the refusal for the set with this number, whose directory can't be read.
pub fn refusal_of(at: usize, fault: DirFault) -> Refusal
    ensures work { (paths : ℕ) → at < paths → IsOfWork paths result }
    ensures engine { IsOfEngine result.fault }
    ensures grounds { (folder bytes : List ℕ) (held : Option Held) → HasDirectory folder bytes held
        → SaysMemory fault ⊎ Refuses bytes fault → GroundsOfList folder held result.fault }
{
    if fault.is_want_of_memory() {
        Refusal::memory()
    } else {
        Refusal::of(Subject::Source(at), ProgramFault::Dir(fault))
    }
}
