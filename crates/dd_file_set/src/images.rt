//! An image of a file-set: its file, its folder, and how it is stored.
ghost use Rattle.std.specs.Prelude.{◌≡◌, ◌≢◌, ◌<◌, ℕ, List, IfErr, IfOk, IsErr, IsOk, option_map};
ghost use Rattle.dd_elem.specs.Device.{counted};
ghost use Rattle.dd_files.specs.Files.{IsUnread};
ghost use Rattle.dd_files.specs.Reasons.{HasCounted};
ghost use Rattle.dd_file_set.specs.Changed.{IfChanged};
ghost use Rattle.dd_file_set.specs.Made.{HasFolderOf, IsPlace};
ghost use Rattle.dd_file_set.specs.ReadingAhead.{OpensOne};
ghost use Rattle.dd_file_set.specs.Reasons.{IsDueTo};
ghost use Rattle.dd_faults.specs.Refusal.{IsOfWork};

use crate::origins::{Lookup, Origins};
use dd_elem::FileId;
use dd_faults::{FOLDER_LENGTH, ProgramFault, Refusal, Subject};
use dd_files::{Files, NotThere, file_path};
use dd_filing::Wanted;
use dd_version::Version;
use std::alloc::Global;

#[derive(Drop)]
pub(crate) struct Image<'a, O: Origins> {
    pub(crate) folder: &'a str,
    /// The File ID of the image.
    pub(crate) file: FileId,
    /// Its version in the plan.
    pub(crate) planned: &'a Version,
    /// The files that images are made of.
    pub(crate) origins: &'a O,
    /// The file that this one is made of.
    pub(crate) pick: O::Pick,
}

impl<O: Origins> Image<'_, O> {
    /// Gives what the copy of the image is compared with.
    pub(crate) fn wanted(&self) -> Wanted<'_>
        ensures planned { result.planned.now ≡ self.now.planned.now }
        ensures said { option_map (λ said. said.now) result.said ≡ O.said self.now.origins.now self.now.pick }
    {
        Wanted {
            planned: self.planned,
            said: self.origins.said(self.pick),
        }
    }
}

pub(crate) fn open<F: Files, O: Origins>(
    alloc: Global,
    origins: &O,
    pick: O::Pick,
    files: &mut F,
) -> Result<F::In, Refusal>
    requires { O.number pick < O.count origins.now }
    ensures refusal { IfErr result (IsOfWork (O.paths origins.now)) }
    ensures opened { IfOk result
        (OpensOne F.In.Read (O.stands_at origins.now pick) (F.held files.old)) }
    ensures kept { F.held files.new ≡ F.held files.old }
    ensures due { IfErr result (λ refusal.
        IsDueTo F.In.Read (F.refusals files.new) (F.Write.failures files.new) refusal.fault) }
    ensures counts { HasCounted (F.refusals files.old) → HasCounted (F.refusals files.new) }
    ensures unchanged { IfErr result (λ refusal. IfChanged ⊥ refusal.fault) }
{
    let path = origins.path(alloc, pick)?;
    match open_at(origins.lookup(pick), path.as_str(), files) {
        Ok(reader) => Ok(reader),
        Err(_) => Err(Refusal::of(origins.subject(pick), ProgramFault::Absent)),
    }
}

fn open_at<F: Files>(lookup: Lookup<'_>, path: &str, files: &mut F) -> Result<F::In, NotThere>
    ensures opened { IfOk result (IsUnread F.In.Read (F.held files.old) path.now) }
    ensures kept { F.held files.new ≡ F.held files.old }
    ensures due { IsErr result → HasCounted (F.refusals files.new) }
    ensures counts { HasCounted (F.refusals files.old) → HasCounted (F.refusals files.new) }
{
    match lookup {
        Lookup::Source => files.source(path),
        Lookup::Member(set) => files.member(set, path),
        Lookup::Stored(folder, _) => files.exact_file(folder, path),
    }
}

pub(crate) fn make_folder<F: Files>(
    alloc: Global,
    folder: &str,
    file: FileId,
    files: &mut F,
) -> Result<(), Refusal>
    ensures refusal { (paths : ℕ) → IfErr result (IsOfWork paths) }
    ensures fault { IfErr result (λ refusal. refusal.fault ≢ ProgramFault.Create) }
    ensures made { IsOk result → (path : List ℕ) → IsPlace folder.now file path
        → HasFolderOf (F.has_folder files.new) path }
    ensures kept { F.held files.new ≡ F.held files.old }
    ensures due { IfErr result (λ refusal.
        IsDueTo F.In.Read (F.refusals files.new) (F.Write.failures files.new) refusal.fault) }
    ensures counts { IsOk result → HasCounted (F.refusals files.old)
        → HasCounted (F.refusals files.new) }
    ensures unchanged { IfErr result (λ refusal. IfChanged ⊥ refusal.fault) }
{
    let text = file.text();
    let path = file_path(alloc, folder, &text[..FOLDER_LENGTH])?;
    if files.folder_in(folder, path.as_str()).is_err() {
        return Err(Refusal::of(Subject::ImageFolder(file), ProgramFault::Folder));
    }
    Ok(())
}

/// Has the images stored that wait, where they are a batch.
pub(crate) fn store_batch<F: Files>(files: &mut F) -> Result<(), Refusal>
    ensures refused { IsErr result → F.refusals files.new ≡ counted (F.refusals files.old) }
    ensures fault { IfErr result (λ refusal.
        refusal ≡ record { subject = Subject.Unstored; fault = ProgramFault.Unsent }) }
    ensures kept { F.held files.new ≡ F.held files.old }
    ensures due { IfErr result (λ refusal.
        IsDueTo F.In.Read (F.refusals files.new) (F.Write.failures files.new) refusal.fault) }
    ensures counts { IsOk result → HasCounted (F.refusals files.old)
        → HasCounted (F.refusals files.new) }
{
    match files.store_batch() {
        Ok(()) => Ok(()),
        Err(_) => Err(Refusal::of(Subject::Unstored, ProgramFault::Unsent)),
    }
}
