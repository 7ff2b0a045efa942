ghost use Rattle.std.proofs.Props.{props};
ghost use Rattle.std.specs.Prelude.{◌≡◌, ◌++◌, ◌<◌, ℕ, All, List, IfErr, IsErr, IsOk, option_map};
ghost use Rattle.dd_dir.specs.Directories.{directory_of};
ghost use Rattle.dd_elem.specs.Device.{counted, HasFailed};
ghost use Rattle.dd_files.specs.Files.{ended, grown, published, started, stored};
ghost use Rattle.dd_files.specs.Keeping.{Adds, IfSaid, IsFree};
ghost use Rattle.dd_file_set.specs.Changed.{HasUnfitPick, IfChanged};
ghost use Rattle.dd_file_set.specs.Left.{IsPartWritten, MakesDirectoryLast};
ghost use Rattle.dd_file_set.specs.Made.{MakesFileSet, RealisesPlan, SaysPlan};
ghost use Rattle.dd_file_set.specs.Reasons.{IsDueTo};
ghost use Rattle.dd_faults.specs.Refusal.{IsBadLine, IsOfWork};
ghost use Rattle.dd_file_set.specs.Standing.{picked_rows};

use crate::copies::copy_images;
use crate::origins::Origins;
use dd_dir::write_directory;
use dd_faults::{ProgramFault, Refusal, Subject};
use dd_files::{DIRECTORY, Files, Progress, path_in};
use dd_layout::Plan;
use std::alloc::Global;

/// The file-set that is to be made.
#[derive(Drop)]
pub struct FileSet<'a, O: Origins> {
    /// The folder that it is made in.
    pub folder: &'a str,
    /// Its directory, and the File ID of each image.
    pub plan: &'a Plan,
    /// The files that images are made of.
    pub origins: &'a O,
    /// The file of each image, in the order of the plan.
    pub picks: &'a [O::Pick],
    ghost within: { All (λ pick. O.number pick < O.count origins.now) picks.now } by { Prim.hlevel props },
}

/// Makes each image of the plan in the folder, from the file that is picked, and then writes the directory. All is
/// stored before the directory is begun, and the directory once it has ended. Progress is shown until then.
pub fn write_file_set<F: Files + Progress, O: Origins>(
    alloc: Global,
    set: &FileSet<'_, O>,
    files: &mut F,
) -> Result<(), Refusal>
    ensures refusal { IfErr result (IsOfWork (O.paths set.now.origins.now)) }

    // Where the files say what they hold, an image was made for each pick, and then the directory.
    ensures made { IsOk result
        → MakesFileSet
        (O.stands_at set.now.origins.now) (O.may_link set.now.origins.now) (O.said set.now.origins.now)
        set.now.folder.now set.now.plan.now set.now.picks.now
        (F.held files.old) (F.held files.new) }

    // Also where it is refused, the directory is made only once all else that it made was stored.
    ensures last { IfSaid (MakesDirectoryLast set.now.folder.now)
        (F.held files.old) (F.held files.new) }
    ensures due { IfErr result (λ refusal.
        IsDueTo F.In.Read (F.refusals files.new) (F.Write.failures files.new) refusal.fault) }

    // Where a file is said to have changed, the file of a pick has bytes of which its image can't be made.
    ensures changed { IfErr result (λ refusal. IfChanged (HasUnfitPick
        (O.stands_at set.now.origins.now) (O.may_link set.now.origins.now) (O.said set.now.origins.now)
        (O.gives_links set.now.origins.now)
        set.now.plan.now.versions (picked_rows set.now.plan.now set.now.picks.now)
        (F.held files.new)) refusal.fault) }
{
    copy_images(alloc, set, files)?;
    if files.folder(set.folder).is_err() {
        return Err(Refusal::of(Subject::Folder, ProgramFault::Folder));
    }
    let path = path_in(alloc, set.folder, DIRECTORY)?;
    store(files)?;
    match make_directory(path.as_str(), set.plan, files) {
        Ok(()) => {}
        Err(fault) => return Err(Refusal::of(Subject::Directory, fault)),
    }
    store(files)?;
    files.hide_line();
    Ok(())
}

fn store<F: Files>(files: &mut F) -> Result<(), Refusal>
    ensures refused { IsErr result → F.refusals files.new ≡ counted (F.refusals files.old) }
    ensures fault { IfErr result (λ refusal.
        refusal ≡ record { subject = Subject.Unstored; fault = ProgramFault.Unsent }) }
    ensures stored { IsOk result → F.held files.new ≡ option_map stored (F.held files.old) }
    ensures kept { IsErr result → F.held files.new ≡ F.held files.old }
    ensures due { IfErr result (λ refusal.
        IsDueTo F.In.Read (F.refusals files.new) (F.Write.failures files.new) refusal.fault) }
{
    match files.store() {
        Ok(()) => Ok(()),
        Err(_) => Err(Refusal::of(Subject::Unstored, ProgramFault::Unsent)),
    }
}

#[tactic(auto, using(dd_files::proofs::KeptFiles::held_published))]
fn make_directory<F: Files>(path: &str, plan: &Plan, files: &mut F) -> Result<(), ProgramFault>
    ensures line { IfErr result (λ fault. ¬ IsBadLine fault) }
    ensures free { IsOk result → IsFree path.now (F.held files.old) }
    ensures holds { IsOk result → F.held files.new
        ≡ option_map
        (published path.now (directory_of plan.now.label plan.now.versions plan.now.withdrawn))
        (F.held files.old) }
    ensures visited { IsOk result → RealisesPlan plan.now }
    ensures again { IsOk result → SaysPlan plan.now }
    ensures adds { IfSaid (Adds (λ other. path.now ≡ other))
        (F.held files.old) (F.held files.new) }
    ensures part { IfSaid (IsPartWritten path.now
        (directory_of plan.now.label plan.now.versions plan.now.withdrawn))
        (F.held files.old) (F.held files.new) }
    ensures due { IfErr result
        (IsDueTo F.In.Read (F.refusals files.new) (F.Write.failures files.new)) }
    ensures unchanged { IfErr result (IfChanged ⊥) }
{
    start_directory(path, files)?;
    send_directory(plan, files)?;
    finish_directory(files)
}

fn start_directory<F: Files>(path: &str, files: &mut F) -> Result<(), ProgramFault>
    ensures refused { IsErr result → F.refusals files.new ≡ counted (F.refusals files.old) }
    ensures fault { IfErr result (λ fault. fault ≡ ProgramFault.Create) }
    ensures free { IsOk result → IsFree path.now (F.held files.old) }
    ensures made { IsOk result
        → F.held files.new ≡ option_map (started path.now) (F.held files.old) }
    ensures kept { IsErr result → F.held files.new ≡ F.held files.old }
    ensures due { IfErr result
        (IsDueTo F.In.Read (F.refusals files.new) (F.Write.failures files.new)) }
{
    match files.create(path) {
        Ok(()) => Ok(()),
        Err(_) => Err(ProgramFault::Create),
    }
}

fn send_directory<F: Files>(plan: &Plan, files: &mut F) -> Result<(), ProgramFault>
    ensures unsent { IsErr result
        → HasFailed (F.Write.failures files.old) (F.Write.failures files.new) }
    ensures fault { IfErr result (λ fault. fault ≡ ProgramFault.Unsent) }
    ensures holds { IsOk result → F.held files.new
        ≡ option_map (grown (directory_of plan.now.label plan.now.versions plan.now.withdrawn))
        (F.held files.old) }
    ensures visited { IsOk result → RealisesPlan plan.now }
    ensures again { IsOk result → SaysPlan plan.now }
    ensures grows { (front : List ℕ) × ((rest : List ℕ)
        × (directory_of plan.now.label plan.now.versions plan.now.withdrawn ≡ front ++ rest))
        × (F.held files.new ≡ option_map (grown front) (F.held files.old)) }
    ensures due { IfErr result
        (IsDueTo F.In.Read (F.refusals files.new) (F.Write.failures files.new)) }
{
    match write_directory(plan, files) {
        Ok(_) => Ok(()),
        Err(_) => Err(ProgramFault::Unsent),
    }
}

fn finish_directory<F: Files>(files: &mut F) -> Result<(), ProgramFault>
    ensures refused { IsErr result → F.refusals files.new ≡ counted (F.refusals files.old) }
    ensures fault { IfErr result (λ fault. fault ≡ ProgramFault.Unsent) }
    ensures closed { IsOk result → F.held files.new ≡ option_map ended (F.held files.old) }
    ensures adds { (path : List ℕ) → IfSaid (Adds (λ other. path ≡ other))
        (F.held files.old) (F.held files.new) }
    ensures same { IfSaid (λ old new. new.bytes_at ≡ old.bytes_at)
        (F.held files.old) (F.held files.new) }
    ensures due { IfErr result
        (IsDueTo F.In.Read (F.refusals files.new) (F.Write.failures files.new)) }
{
    match files.finish() {
        Ok(()) => Ok(()),
        Err(_) => Err(ProgramFault::Unsent),
    }
}
