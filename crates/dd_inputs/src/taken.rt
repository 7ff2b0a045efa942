ghost use Rattle.std.specs.Prelude.{◌≡◌, ◌⊎◌, ℕ, IfErr, IsOk};
ghost use Rattle.dd_faults.specs.Refusal.{IsOfWork};
ghost use Rattle.dd_files.specs.Reasons.{HasCounted};
ghost use Rattle.dd_inputs.specs.Reasons.{StandsDirectory};

use dd_faults::{ProgramFault, Refusal, Subject};
use dd_files::{DIRECTORY, Files, path_in};
use std::alloc::Global;

/// Refuses a folder whose directory can be opened, also where the system shows it under another spelling of its name.
pub(crate) fn refuse_taken<F: Files>(
    alloc: Global,
    folder: &str,
    files: &mut F,
) -> Result<(), Refusal>
    ensures refusal { (paths : ℕ) → IfErr result (IsOfWork paths) }
    ensures kept { F.held files.new ≡ F.held files.old }
    ensures absent { IsOk result → HasCounted (F.refusals files.new) }
    ensures due { IfErr result (λ refusal. (refusal.fault ≡ ProgramFault.Memory)
        ⊎ ((refusal.fault ≡ ProgramFault.Create) × StandsDirectory folder.now (F.held files.old))) }
{
    let path = path_in(alloc, folder, DIRECTORY)?;
    if files.source(path.as_str()).is_ok() || files.member(folder, path.as_str()).is_ok() {
        return Err(Refusal::of(Subject::Directory, ProgramFault::Create));
    }
    Ok(())
}
