ghost use Rattle.std.specs.Prelude.{◌≡◌, ◌<◌, ℕ, Bool, IfErr, IfOk, List, Option, length, map};
ghost use Rattle.dd_engine.specs.declared.choice.Choice.{Choice};
ghost use Rattle.dd_files.specs.Files.{Held};
ghost use Rattle.dd_line.specs.Line.{words_of};
ghost use Rattle.dicomdir.specs.Merges.{AreDirectories};
ghost use Rattle.dd_faults.specs.Refusal.{IsOfWork};
ghost use Rattle.dicomdir.specs.Grounds.{GroundsOfSets};
ghost use Rattle.dd_faults.specs.Reasons.{IsDue};

use dd_faults::Refusal;
use dd_files::{Files, Progress, Step};
use dd_inspecting::directory_bytes;
use std::alloc::Global;

pub(crate) fn read_directories<F: Files + Progress>(
    alloc: Global,
    folders: &[String],
    files: &mut F,
) -> Result<Vec<Vec<u8>>, Refusal>
    ensures refusal { IfErr result (IsOfWork (length folders.now)) }
    ensures due { (strict : Bool) → IfErr result (λ refusal.
        IsDue F.In.Read (F.refusals files.new) (F.Write.failures files.new) strict refusal.fault) }
    ensures grounds { (choice : Choice) (bytes : ℕ) (given : List (List ℕ)) (links : Bool) (new : Option Held)
        → IfErr result (λ refusal. GroundsOfSets choice bytes given (words_of folders.now) links (F.held files.old) new
        refusal.subject refusal.fault) }
    ensures all { IfOk result (λ all. length all.items ≡ length folders.now) }
    ensures read { IfOk result (λ all. AreDirectories (words_of folders.now)
        (map (λ bytes. bytes.items) all.items) (F.held files.old)) }
    ensures kept { F.held files.new ≡ F.held files.old }
{
    files.begin_step(Step::Reading, folders.len() as u64);
    let mut all = Vec::new(alloc);
    for (at, folder) in folders.iter().enumerate() {
        let bytes = directory_bytes(alloc, at, folder.as_str(), files)?;
        match all.push(bytes) {
            Ok(()) => files.advance(),
            Err(_) => return Err(Refusal::memory()),
        }
    }
    files.hide_line();
    Ok(all)
}
