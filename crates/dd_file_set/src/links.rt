//! Hard links to files, as images of a file-set.
ghost use Rattle.std.specs.Prelude.{◌≡◌, ◌<◌, ℕ, Err, IfErr, IfOk, IfSome, IsErr, IsOk, IsSomeAnd, false, option_map};
ghost use Rattle.std.specs.Prelude.{true};
ghost use Rattle.dd_files.specs.Files.{linked};
ghost use Rattle.dd_files.specs.Keeping.{Adds, IfSaid, IsFree};
ghost use Rattle.dd_files.specs.Reasons.{HasCounted};
ghost use Rattle.dd_file_set.specs.Changed.{HasUnfit, IfChanged};
ghost use Rattle.dd_file_set.specs.Made.{HasFolderOf, IsAsStored, IsImagePath, LinksImage};
ghost use Rattle.dd_file_set.specs.Reasons.{IsDueTo, IsLinkDueTo};
ghost use Rattle.dd_faults.specs.Refusal.{IsAmong, IsOfWork};

use crate::images::{Image, make_folder, open, store_batch};
use crate::origins::{Lookup, Origins};
use dd_elem::FileId;
use dd_faults::{ProgramFault, Refusal, Subject};
use dd_files::{Files, LinkFault, Progress, file_path};
use std::alloc::Global;

/// Makes a hard link to the file of an image at its File ID in the folder, and has it stored with others. Answers false
/// where it may get none, or the system gives none. A file that was not stored before is opened first, so that it is
/// refused where a copy is. One that was must have the length that it had.
pub(crate) fn link_image<F: Files + Progress, O: Origins>(
    alloc: Global,
    image: &Image<'_, O>,
    files: &mut F,
) -> Result<bool, Refusal>
    requires { O.number image.now.pick < O.count image.now.origins.now }
    ensures refusal { IfErr result (IsOfWork (O.paths image.now.origins.now)) }
    ensures linked { IfOk result (λ is_linked. is_linked ≡ true → LinksImage
        (O.stands_at image.now.origins.now image.now.pick)
        (O.may_link image.now.origins.now image.now.pick)
        image.now.folder.now image.now.file (F.held files.old) (F.held files.new)) }
    ensures kept { IfOk result (λ is_linked.
        is_linked ≡ false → F.held files.new ≡ F.held files.old) }
    ensures adds { IfSaid (Adds (IsImagePath image.now.folder.now))
        (F.held files.old) (F.held files.new) }
    ensures due { IfErr result (λ refusal.
        IsDueTo F.In.Read (F.refusals files.new) (F.Write.failures files.new) refusal.fault) }
    ensures counts { IsOk result → HasCounted (F.refusals files.old)
        → HasCounted (F.refusals files.new) }
    ensures changed { IfErr result (λ refusal. IfChanged (HasUnfit
        (O.stands_at image.now.origins.now image.now.pick) (O.may_link image.now.origins.now image.now.pick)
        (O.said image.now.origins.now image.now.pick)
        (O.gives_links image.now.origins.now) image.now.planned.now (F.held files.old)) refusal.fault) }
{
    let Image {
        folder,
        file,
        origins,
        pick,
        ..
    } = *image;
    if !origins.gives_links() {
        return Ok(false);
    }
    let lookup = origins.lookup(pick);
    open_unstored(alloc, image, lookup, files)?;
    make_folder(alloc, folder, file, files)?;
    let from = origins.path(alloc, pick)?;
    let path = file_path(alloc, folder, &file.text())?;
    match give_link(lookup, from.as_str(), path.as_str(), files) {
        Ok(()) => {}
        Err(LinkFault::Refused) => return Ok(false),
        Err(fault) => return Err(refusal_of(fault, file, origins.subject(pick))),
    }
    files.advance();
    store_link(lookup, files)?;
    Ok(true)
}

/// Opens the file of an image, unless it was stored before.
fn open_unstored<F: Files, O: Origins>(
    alloc: Global,
    image: &Image<'_, O>,
    lookup: Lookup<'_>,
    files: &mut F,
) -> Result<(), Refusal>
    requires { O.number image.now.pick < O.count image.now.origins.now }
    ensures refusal { IfErr result (IsOfWork (O.paths image.now.origins.now)) }
    ensures kept { F.held files.new ≡ F.held files.old }
    ensures due { IfErr result (λ refusal.
        IsDueTo F.In.Read (F.refusals files.new) (F.Write.failures files.new) refusal.fault) }
    ensures counts { IsOk result → HasCounted (F.refusals files.old)
        → HasCounted (F.refusals files.new) }
    ensures unchanged { IfErr result (λ refusal. IfChanged ⊥ refusal.fault) }
{
    match lookup {
        Lookup::Stored(..) => {}
        Lookup::Source | Lookup::Member(_) => {
            open(alloc, image.origins, image.pick, files)?;
        }
    }
    Ok(())
}

/// Gives the file at `from` the hard link `path`. A file that was stored before must have its number of bytes.
fn give_link<F: Files>(
    lookup: Lookup<'_>,
    from: &str,
    path: &str,
    files: &mut F,
) -> Result<(), LinkFault>
    requires { HasFolderOf (F.has_folder files.old) path.now }
    ensures there { IsOk result → IfSome (F.held files.old)
        (λ held. IsSomeAnd (held.bytes_at from.now) (IsAsStored lookup.entry)) }
    ensures free { IsOk result → IsFree path.now (F.held files.old) }
    ensures linked { IsOk result
        → F.held files.new ≡ option_map (linked from.now path.now) (F.held files.old) }
    ensures kept { IsErr result → F.held files.new ≡ F.held files.old }
    ensures due { IfErr result (IsLinkDueTo (F.refusals files.new)) }
    ensures counts { HasCounted (F.refusals files.old) → HasCounted (F.refusals files.new) }
    ensures changed { result ≡ Err LinkFault.Changed → IfSome (F.held files.old)
        (λ held. IsSomeAnd (held.bytes_at from.now) (λ bytes. ¬ IsAsStored lookup.entry bytes)) }
{
    match lookup {
        Lookup::Stored(folder, size) => files.link_stored(folder, from, path, size),
        Lookup::Member(set) => files.link(set, from, path),
        Lookup::Source => Err(LinkFault::Refused),
    }
}

/// Has a link stored with others, unless its file was stored before.
fn store_link<F: Files>(lookup: Lookup<'_>, files: &mut F) -> Result<(), Refusal>
    ensures refusal { (paths : ℕ) → IfErr result (IsOfWork paths) }
    ensures kept { F.held files.new ≡ F.held files.old }
    ensures due { IfErr result (λ refusal.
        IsDueTo F.In.Read (F.refusals files.new) (F.Write.failures files.new) refusal.fault) }
    ensures counts { IsOk result → HasCounted (F.refusals files.old)
        → HasCounted (F.refusals files.new) }
    ensures unchanged { IfErr result (λ refusal. IfChanged ⊥ refusal.fault) }
{
    match lookup {
        Lookup::Stored(..) => Ok(()),
        Lookup::Source | Lookup::Member(_) => store_batch(files),
    }
}

/// Makes the refusal of a link to this File ID. `origin` names the file that was to get it.
fn refusal_of(fault: LinkFault, file: FileId, origin: Subject) -> Refusal
    ensures work { (paths : ℕ) → IsAmong paths origin → IsOfWork paths result }
    ensures absent { fault ≡ LinkFault.Absent → result.fault ≡ ProgramFault.Absent }
    ensures changed { fault ≡ LinkFault.Changed → result.fault ≡ ProgramFault.Changed }
    ensures taken { fault ≡ LinkFault.Taken → result.fault ≡ ProgramFault.Create }
    ensures why { IfChanged (fault ≡ LinkFault.Changed) result.fault }
{
    match fault {
        LinkFault::Changed => Refusal::of(origin, ProgramFault::Changed),
        LinkFault::Taken => Refusal::of(Subject::Image(file), ProgramFault::Create),
        LinkFault::Absent | LinkFault::Refused => Refusal::of(origin, ProgramFault::Absent),
    }
}
