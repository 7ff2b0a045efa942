//! The images of a file-set, in its folder: copies of files, or hard links to them.
ghost use Rattle.std.specs.Prelude.{◌≡◌, ◌≢◌, ◌<◌, ℕ, All, IfErr, IfOk, IsOk, List, length, option_map};
ghost use Rattle.dd_files.specs.Files.{ended};
ghost use Rattle.dd_files.specs.Keeping.{Adds, IfSaid};
ghost use Rattle.dd_files.specs.Reasons.{HasCounted, HasFailedReader};
ghost use Rattle.dd_filing.specs.Ahead.{AreDue, IsDue};
ghost use Rattle.dd_filing.specs.declared.places.Ahead.TheVariants as known;
ghost use Rattle.dd_layout.specs.Plans.{records_of};
ghost use Rattle.dd_file_set.specs.Changed.{HasUnfit, HasUnfitFirst, HasUnfitPick, IfChanged};
ghost use Rattle.dd_file_set.specs.Claims.{IsRefusedAs};
ghost use Rattle.dd_file_set.specs.Made.{Copies, CopiesImage, HasFolderOf, IsImagePath, IsPlace, MakesImage};
ghost use Rattle.dd_file_set.specs.Made.{MakesImages, StartsImage};
ghost use Rattle.dd_file_set.specs.Standing.{picked_rows};
ghost use Rattle.dd_file_set.specs.ReadingAhead.{IsKnown, KnowsNext};
ghost use Rattle.dd_file_set.specs.Reasons.{IsDueTo};
ghost use Rattle.dd_faults.specs.Refusal.{IsAmong, IsMemory, IsOfWork};

use crate::file_set::FileSet;
use crate::images::{Image, make_folder, open, store_batch};
use crate::links::link_image;
use crate::origins::Origins;
use crate::reading_ahead::read_ahead;
use dd_elem::FileId;
use dd_faults::{ProgramFault, Refusal, Subject};
use dd_files::{Files, Progress, SOURCE_LIMIT, Step, file_path};
use dd_filing::{Ahead, FileAhead, Filed, FilesAhead, FilingFault, file_image, one_filed};
use dd_records::PlanRecord;
use std::alloc::Global;

#[derive(Drop)]
struct Left<'a, O: Origins> {
    picks: &'a [O::Pick],
    /// The first of the picks, of which some were read ahead.
    ahead: FilesAhead,
}

/// Makes each image at its File ID in the folder, in the order of the plan: a copy of its file, or a hard link to it.
/// Each copy must be a file of the version that is planned there, and wholly of the one that is said of its file.
#[tactic(auto, using(dd_files::proofs::KeptFiles::said_is))]
pub(crate) fn copy_images<F: Files + Progress, O: Origins>(
    alloc: Global,
    set: &FileSet<'_, O>,
    files: &mut F,
) -> Result<(), Refusal>
    ensures refusal { IfErr result (IsOfWork (O.paths set.now.origins.now)) }

    // Where the files say what they hold, an image was made of the file of each pick, as a file of its planned version
    // or as a hard link. All other files are as they were.
    ensures made { IsOk result → MakesImages
        (O.stands_at set.now.origins.now) (O.may_link set.now.origins.now) (O.said set.now.origins.now)
        set.now.folder.now set.now.plan.now.versions
        (records_of set.now.plan.now.label set.now.plan.now.versions) set.now.picks.now
        (F.held files.old) (F.held files.new) }
    ensures adds { IfSaid (Adds (IsImagePath set.now.folder.now))
        (F.held files.old) (F.held files.new) }
    ensures due { IfErr result (λ refusal.
        IsDueTo F.In.Read (F.refusals files.new) (F.Write.failures files.new) refusal.fault) }
    ensures changed { IfErr result (λ refusal. IfChanged (HasUnfitPick
        (O.stands_at set.now.origins.now) (O.may_link set.now.origins.now) (O.said set.now.origins.now)
        (O.gives_links set.now.origins.now)
        set.now.plan.now.versions (picked_rows set.now.plan.now set.now.picks.now)
        (F.held files.new)) refusal.fault) }
{
    let mut left = Left {
        picks: set.picks,
        ahead: FilesAhead::new(alloc),
    };
    files.begin_step(Step::Copying, left.picks.len() as u64);
    for record in set.plan.records() {
        copy_record(alloc, set, record, &mut left, files)?;
    }
    Ok(())
}

/// Makes the image of a record of the plan, where it has one, from the first file that is left.
fn copy_record<F: Files + Progress, O: Origins>(
    alloc: Global,
    set: &FileSet<'_, O>,
    row: &PlanRecord,
    left: &mut Left<'_, O>,
    files: &mut F,
) -> Result<(), Refusal>
    requires has { All (λ pick. O.number pick < O.count set.now.origins.now) left.old.picks.now }
    requires within { row.now.of < length set.now.plan.now.versions }
    requires known { KnowsNext (O.stands_at set.now.origins.now) left.old.picks.now left.old.ahead
        (F.held files.old) }
    requires ahead { AreDue (HasCounted (F.refusals files.old)) (HasFailedReader F.In.Read)
        left.old.ahead }
    ensures refusal { IfErr result (IsOfWork (O.paths set.now.origins.now)) }
    ensures has { IsOk result → All (λ pick. O.number pick < O.count set.now.origins.now) left.new.picks.now }
    ensures copied { IsOk result → Copies
        (O.stands_at set.now.origins.now) (O.may_link set.now.origins.now) (O.said set.now.origins.now)
        set.now.folder.now set.now.plan.now.versions row.now left.old.picks.now left.new.picks.now
        (F.held files.old) (F.held files.new) }
    ensures known { IsOk result → KnowsNext (O.stands_at set.now.origins.now) left.new.picks.now
        left.new.ahead (F.held files.new) }
    ensures adds { IfSaid (Adds (IsImagePath set.now.folder.now))
        (F.held files.old) (F.held files.new) }
    ensures due { IfErr result (λ refusal.
        IsDueTo F.In.Read (F.refusals files.new) (F.Write.failures files.new) refusal.fault) }
    ensures ahead { IsOk result → AreDue (HasCounted (F.refusals files.new))
        (HasFailedReader F.In.Read) left.new.ahead }
    ensures changed { IfErr result (λ refusal. IfChanged (HasUnfitFirst
        (O.stands_at set.now.origins.now) (O.may_link set.now.origins.now) (O.said set.now.origins.now)
        (O.gives_links set.now.origins.now)
        set.now.plan.now.versions row.now left.old.picks.now (F.held files.old)) refusal.fault) }
{
    match (row.file, left.picks) {
        (Some(file), [pick, later @ ..]) => {
            read_ahead(alloc, set.origins, left.picks, &mut left.ahead, files);
            let versions = set.plan.versions();
            let image = Image {
                folder: set.folder,
                file,
                planned: &versions[row.of],
                origins: set.origins,
                pick: *pick,
            };
            let ahead = left.ahead.next();
            make_image(alloc, &image, ahead, files)?;
            left.picks = later;
            left.ahead.pass();
            Ok(())
        }
        _ => Ok(()),
    }
}

fn make_image<F: Files + Progress, O: Origins>(
    alloc: Global,
    image: &Image<'_, O>,
    ahead: Ahead<'_>,
    files: &mut F,
) -> Result<(), Refusal>
    requires has { O.number image.now.pick < O.count image.now.origins.now }
    requires known { IsKnown (O.stands_at image.now.origins.now image.now.pick) ahead
        (F.held files.old) }
    requires due { IsDue (HasCounted (F.refusals files.old)) (HasFailedReader F.In.Read) ahead }
    ensures refusal { IfErr result (IsOfWork (O.paths image.now.origins.now)) }
    ensures made { IsOk result → MakesImage
        (O.stands_at image.now.origins.now image.now.pick)
        (O.may_link image.now.origins.now image.now.pick) (O.said image.now.origins.now image.now.pick)
        image.now.folder.now image.now.file image.now.planned.now
        (F.held files.old) (F.held files.new) }
    ensures adds { IfSaid (Adds (IsImagePath image.now.folder.now))
        (F.held files.old) (F.held files.new) }
    ensures due { IfErr result (λ refusal.
        IsDueTo F.In.Read (F.refusals files.new) (F.Write.failures files.new) refusal.fault) }
    ensures counts { IsOk result → HasCounted (F.refusals files.old)
        → HasCounted (F.refusals files.new) }
    ensures changed { IfErr result (λ refusal. IfChanged (HasUnfit
        (O.stands_at image.now.origins.now image.now.pick) (O.may_link image.now.origins.now image.now.pick)
        (O.said image.now.origins.now image.now.pick)
        (O.gives_links image.now.origins.now) image.now.planned.now (F.held files.old)) refusal.fault) }
{
    if link_image(alloc, image, files)? {
        return Ok(());
    }
    copy_image(alloc, image, ahead, files)
}

fn copy_image<F: Files + Progress, O: Origins>(
    alloc: Global,
    image: &Image<'_, O>,
    ahead: Ahead<'_>,
    files: &mut F,
) -> Result<(), Refusal>
    requires has { O.number image.now.pick < O.count image.now.origins.now }
    requires known { IsKnown (O.stands_at image.now.origins.now image.now.pick) ahead
        (F.held files.old) }
    requires due { IsDue (HasCounted (F.refusals files.old)) (HasFailedReader F.In.Read) ahead }
    ensures refusal { IfErr result (IsOfWork (O.paths image.now.origins.now)) }
    ensures made { IsOk result
        → CopiesImage (O.stands_at image.now.origins.now image.now.pick) (O.said image.now.origins.now image.now.pick)
        image.now.folder.now image.now.file image.now.planned.now
        (F.held files.old) (F.held files.new) }
    ensures adds { IfSaid (Adds (IsImagePath image.now.folder.now))
        (F.held files.old) (F.held files.new) }
    ensures due { IfErr result (λ refusal.
        IsDueTo F.In.Read (F.refusals files.new) (F.Write.failures files.new) refusal.fault) }
    ensures counts { IsOk result → HasCounted (F.refusals files.old)
        → HasCounted (F.refusals files.new) }
    ensures changed { IfErr result (λ refusal. IfChanged (HasUnfit
        (O.stands_at image.now.origins.now image.now.pick) (O.may_link image.now.origins.now image.now.pick)
        (O.said image.now.origins.now image.now.pick)
        (O.gives_links image.now.origins.now) image.now.planned.now (F.held files.old)) refusal.fault) }
{
    match ahead {
        Ahead::File(file) => copy_ahead(alloc, image, &file, files),
        Ahead::Absent => {
            let subject = image.origins.subject(image.pick);
            Err(Refusal::of(subject, ProgramFault::Absent))
        }
        Ahead::Unknown => copy_streamed(alloc, image, files),
    }
}

fn copy_ahead<F: Files + Progress, O: Origins>(
    alloc: Global,
    image: &Image<'_, O>,
    ahead: &FileAhead<'_>,
    files: &mut F,
) -> Result<(), Refusal>
    requires has { O.number image.now.pick < O.count image.now.origins.now }
    requires known { IsKnown (O.stands_at image.now.origins.now image.now.pick)
        (known.File ahead.now) (F.held files.old) }
    requires due { IsDue (HasCounted (F.refusals files.old)) (HasFailedReader F.In.Read)
        (known.File ahead.now) }
    ensures refusal { IfErr result (IsOfWork (O.paths image.now.origins.now)) }
    ensures made { IsOk result
        → CopiesImage (O.stands_at image.now.origins.now image.now.pick) (O.said image.now.origins.now image.now.pick)
        image.now.folder.now image.now.file image.now.planned.now
        (F.held files.old) (F.held files.new) }
    ensures adds { IfSaid (Adds (IsImagePath image.now.folder.now))
        (F.held files.old) (F.held files.new) }
    ensures due { IfErr result (λ refusal.
        IsDueTo F.In.Read (F.refusals files.new) (F.Write.failures files.new) refusal.fault) }
    ensures counts { IsOk result → HasCounted (F.refusals files.old)
        → HasCounted (F.refusals files.new) }
    ensures changed { IfErr result (λ refusal. IfChanged (HasUnfit
        (O.stands_at image.now.origins.now image.now.pick) (O.may_link image.now.origins.now image.now.pick)
        (O.said image.now.origins.now image.now.pick)
        (O.gives_links image.now.origins.now) image.now.planned.now (F.held files.old)) refusal.fault) }
{
    start_copy(alloc, image.folder, image.file, files)?;
    one_filed();
    match ahead.copy_to(files, &image.wanted()) {
        Ok(filed) => end_copy(alloc, image, filed, files),
        Err(fault) => Err(refusal_of(fault, image.file, image.origins.subject(image.pick))),
    }
}

#[tactic(auto, using(dd_files::proofs::KeptFiles::said_is))]
fn copy_streamed<F: Files + Progress, O: Origins>(
    alloc: Global,
    image: &Image<'_, O>,
    files: &mut F,
) -> Result<(), Refusal>
    requires { O.number image.now.pick < O.count image.now.origins.now }
    ensures refusal { IfErr result (IsOfWork (O.paths image.now.origins.now)) }
    ensures made { IsOk result
        → CopiesImage (O.stands_at image.now.origins.now image.now.pick) (O.said image.now.origins.now image.now.pick)
        image.now.folder.now image.now.file image.now.planned.now
        (F.held files.old) (F.held files.new) }
    ensures adds { IfSaid (Adds (IsImagePath image.now.folder.now))
        (F.held files.old) (F.held files.new) }
    ensures due { IfErr result (λ refusal.
        IsDueTo F.In.Read (F.refusals files.new) (F.Write.failures files.new) refusal.fault) }
    ensures counts { IsOk result → HasCounted (F.refusals files.old)
        → HasCounted (F.refusals files.new) }
    ensures changed { IfErr result (λ refusal. IfChanged (HasUnfit
        (O.stands_at image.now.origins.now image.now.pick) (O.may_link image.now.origins.now image.now.pick)
        (O.said image.now.origins.now image.now.pick)
        (O.gives_links image.now.origins.now) image.now.planned.now (F.held files.old)) refusal.fault) }
{
    let mut reader = open(alloc, image.origins, image.pick, files)?;
    start_copy(alloc, image.folder, image.file, files)?;
    one_filed();
    match file_image(alloc, &mut reader, files, &image.wanted(), SOURCE_LIMIT) {
        Ok(filed) => end_copy(alloc, image, filed, files),
        Err(fault) => Err(refusal_of(fault, image.file, image.origins.subject(image.pick))),
    }
}

fn start_copy<F: Files>(
    alloc: Global,
    folder: &str,
    file: FileId,
    files: &mut F,
) -> Result<(), Refusal>
    ensures refusal { (paths : ℕ) → IfErr result (IsOfWork paths) }
    ensures started { IsOk result
        → StartsImage folder.now file (F.held files.old) (F.held files.new) }
    // The name is refused only once the folder of the image was made.
    ensures folder { IfErr result (λ refusal. refusal.fault ≡ ProgramFault.Create → (path : List ℕ)
        × IsPlace folder.now file path × HasFolderOf (F.has_folder files.new) path) }
    ensures adds { IfSaid (Adds (IsImagePath folder.now))
        (F.held files.old) (F.held files.new) }
    ensures due { IfErr result (λ refusal.
        IsDueTo F.In.Read (F.refusals files.new) (F.Write.failures files.new) refusal.fault) }
    ensures counts { IsOk result → HasCounted (F.refusals files.old)
        → HasCounted (F.refusals files.new) }
    ensures unchanged { IfErr result (λ refusal. IfChanged ⊥ refusal.fault) }
{
    make_folder(alloc, folder, file, files)?;
    let path = file_path(alloc, folder, &file.text())?;
    match files.create(path.as_str()) {
        Ok(()) => Ok(()),
        Err(_) => Err(Refusal::of(Subject::Image(file), ProgramFault::Create)),
    }
}

/// Ends the copy of an image, which must be a file of its planned version, and has it stored with others.
#[tactic(auto, using(dd_files::proofs::KeptFiles::said_ended, dd_files::proofs::KeptFiles::said_is))]
fn end_copy<F: Files + Progress, O: Origins>(
    alloc: Global,
    image: &Image<'_, O>,
    filed: Filed,
    files: &mut F,
) -> Result<(), Refusal>
    requires { O.number image.now.pick < O.count image.now.origins.now }
    ensures refusal { IfErr result (IsOfWork (O.paths image.now.origins.now)) }
    ensures planned { IsOk result → filed ≡ Filed.AsPlanned }
    ensures ended { IsOk result → F.held files.new ≡ option_map ended (F.held files.old) }
    ensures adds { IfSaid (Adds (IsImagePath image.now.folder.now))
        (F.held files.old) (F.held files.new) }
    ensures due { IfErr result (λ refusal.
        IsDueTo F.In.Read (F.refusals files.new) (F.Write.failures files.new) refusal.fault) }
    ensures counts { IsOk result → HasCounted (F.refusals files.old)
        → HasCounted (F.refusals files.new) }
    ensures changed { IfErr result (λ refusal. IfChanged (filed ≢ Filed.AsPlanned) refusal.fault) }
{
    if files.finish().is_err() {
        return Err(Refusal::of(Subject::Image(image.file), ProgramFault::Unsent));
    }
    accept(alloc, image, filed)?;
    files.advance();
    store_batch(files)
}

/// Refuses a copy that is not a file of the planned version. Where it is of a version with another digest, the
/// refusal names the file that was copied. Else it names the file whose record says what the plan says.
fn accept<O: Origins>(alloc: Global, image: &Image<'_, O>, filed: Filed) -> Result<(), Refusal>
    requires { O.number image.now.pick < O.count image.now.origins.now }
    ensures refusal { IfErr result (IsOfWork (O.paths image.now.origins.now)) }
    ensures planned { IsOk result → filed ≡ Filed.AsPlanned }
    ensures refused { IfErr result (IsRefusedAs filed
        (O.is_subject image.now.origins.now image.now.pick)
        (O.is_claimant image.now.origins.now image.now.pick image.now.planned.now)) }
    ensures changed { IfErr result (λ _. filed ≢ Filed.AsPlanned) }
{
    let Image {
        planned,
        origins,
        pick,
        ..
    } = *image;
    let subject = match filed {
        Filed::AsPlanned => return Ok(()),
        Filed::OtherVersion => origins.subject(pick),
        Filed::Mislabelled => origins.claimant(alloc, pick, planned)?,
    };
    Err(Refusal::of(subject, ProgramFault::Changed))
}

/// Makes the refusal of a fault of a copy to this File ID. `origin` names the file that was copied.
fn refusal_of(fault: FilingFault, file: FileId, origin: Subject) -> Refusal
    ensures memory { fault ≡ FilingFault.Memory → IsMemory result }
    ensures unread { fault ≡ FilingFault.Unread
        → result ≡ record { subject = origin; fault = ProgramFault.Unread } }
    ensures changed { fault ≡ FilingFault.Changed
        → result ≡ record { subject = origin; fault = ProgramFault.Changed } }
    ensures unsent { fault ≡ FilingFault.Unsent
        → result ≡ record { subject = Subject.Image file; fault = ProgramFault.Unsent } }
    ensures work { (paths : ℕ) → IsAmong paths origin → IsOfWork paths result }
    ensures why { IfChanged (fault ≡ FilingFault.Changed) result.fault }
{
    match fault {
        FilingFault::Memory => Refusal::memory(),
        FilingFault::Unread => Refusal::of(origin, ProgramFault::Unread),
        FilingFault::Changed => Refusal::of(origin, ProgramFault::Changed),
        FilingFault::Unsent => Refusal::of(Subject::Image(file), ProgramFault::Unsent),
    }
}
