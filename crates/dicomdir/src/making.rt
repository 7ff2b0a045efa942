ghost use Rattle.std.specs.Prelude.{◌≡◌, ◌≤◌, ◌⊎◌, IfErr, IfOk, IsErr, IsOk, false, length, string_bytes};
ghost use Rattle.dd_elem.specs.Device.{HasFailed};
ghost use Rattle.dd_files.specs.Keeping.{IfSaid};
ghost use Rattle.dd_layout.specs.Plans.{size};
ghost use Rattle.dd_lines.specs.Text.{TakesText};
ghost use Rattle.dd_messages.specs.Counts.{ending_text, images_text};
ghost use Rattle.dd_faults.specs.Grounds.{GroundsOfMaking};
ghost use Rattle.dicomdir.specs.Grounds.{HasUnfitImage};
ghost use Rattle.dd_refusals.specs.Styles.{style_by};
ghost use Rattle.dd_file_set.specs.Left.{MakesDirectoryLast};
ghost use Rattle.dd_file_set.specs.Made.{MakesFileSet};
ghost use Rattle.dicomdir.specs.Prints.{size_of};
ghost use Rattle.dd_file_set.specs.Reasons.{IsDueTo};
ghost use Rattle.dd_faults.specs.Refusal.{IsOfWork};
ghost use Rattle.dd_messages.specs.declared.counts.Ending.TheVariants.{Done};

use crate::names::Names;
use dd_elem::Write;
use dd_faults::Refusal;
use dd_file_set::{FileSet, Origins, write_file_set};
use dd_files::{Files, Progress};
use dd_json::Style;
use dd_layout::Plan;
use dd_line::NewSet;
use dd_messages::{Ending, print_counts, print_counts_json, print_images, print_images_json};
use dd_refusals::style_for;
use std::alloc::Global;
use std::fmt;

/// How a command makes its file-set.
#[derive(Clone, Copy)]
pub(crate) struct Making<'a> {
    pub(crate) alloc: Global,
    pub(crate) folder: &'a str,
    pub(crate) names: &'a Names,
    /// The most bytes that its directory may have.
    pub(crate) max_bytes: u32,
    /// Whether a line SKIP or NOTE refuses the run.
    pub(crate) strict: bool,
    /// Whether nothing is made, and the last line says what would be made.
    pub(crate) dry_run: bool,
    /// Whether images get hard links in place of copies.
    pub(crate) link: bool,
    /// Whether sources that can't be opened or read are skipped.
    pub(crate) keep_going: bool,
    /// The numbers of the sources that have no path, since their names are not UTF-8, in rising order.
    pub(crate) bad_names: &'a [usize],
    /// Whether a person is shown what became of the sources.
    pub(crate) explains: bool,
    /// How the lines of the output are printed.
    pub(crate) style: Style,
}

impl<'a> Making<'a> {
    pub(crate) fn of(
        alloc: Global,
        new_set: &'a NewSet,
        names: &'a Names,
        link: bool,
        explains: bool,
    ) -> Making<'a>
        ensures folder { result.folder.now ≡ string_bytes new_set.now.out }
        ensures names { result.names.now ≡ names.now }
        ensures limit { result.max_bytes ≡ new_set.now.max_bytes }
        ensures strict { result.strict ≡ new_set.now.strict }
        ensures dry { result.dry_run ≡ new_set.now.dry_run }
        ensures link { result.link ≡ link }
        ensures keep_going { result.keep_going ≡ false }
        ensures style { result.style ≡ style_by new_set.now.json }
    {
        Making {
            alloc,
            folder: new_set.out.as_str(),
            names,
            max_bytes: new_set.max_bytes,
            strict: new_set.strict,
            dry_run: new_set.dry_run,
            link,
            keep_going: false,
            bad_names: &[],
            explains,
            style: style_for(new_set.json),
        }
    }

    /// Says whether a person is shown words about what the files hold.
    pub(crate) fn explains_in_words(&self) -> bool {
        self.explains && self.style == Style::Text
    }
}

/// Makes this file-set, prints that, and gives the status: 1 where the output failed.
pub(crate) fn make_file_set<F: Files + Progress, O: Origins, W: Write>(
    alloc: Global,
    set: &FileSet<'_, O>,
    style: Style,
    files: &mut F,
    out: &mut W,
) -> Result<u8, Refusal>
    ensures refusal { IfErr result (IsOfWork (O.paths set.now.origins.now)) }
    ensures due { IfErr result (λ refusal.
        IsDueTo F.In.Read (F.refusals files.new) (F.Write.failures files.new) refusal.fault) }
    ensures grounds { IfErr result (λ refusal. GroundsOfMaking (HasUnfitImage
        (O.stands_at set.now.origins.now) (O.may_link set.now.origins.now) (O.said set.now.origins.now)
        (O.gives_links set.now.origins.now)
        set.now.plan.now set.now.picks.now (F.held files.new)) ⊥ refusal.fault) }
    ensures failed { IfOk result (λ status. status ≡ 1 → HasFailed (W.failures out.old) (W.failures out.new)) }
    ensures status { IfOk result (λ status. status ≤ 1) }
    ensures last { IfSaid (MakesDirectoryLast set.now.folder.now) (F.held files.old) (F.held files.new) }
    ensures made { IsOk result → MakesFileSet
        (O.stands_at set.now.origins.now) (O.may_link set.now.origins.now) (O.said set.now.origins.now)
        set.now.folder.now set.now.plan.now set.now.picks.now
        (F.held files.old) (F.held files.new) }
    ensures printed { IfOk result (λ status. status ≡ 0 → TakesText W.Write out.old out.new
        (ending_text style Done (length set.now.plan.now.versions) (size_of set.now.plan.now))) }
{
    write_file_set(alloc, set, files)?;
    Ok(tell_counts(Ending::Done, set.plan, style, out))
}

/// Prints the last line: how many images the file-set has, and the size of its directory. Gives the status: 1 where the
/// output failed.
pub(crate) fn tell_counts<O: Write>(ending: Ending, plan: &Plan, style: Style, out: &mut O) -> u8
    ensures status { (result ≡ 0) ⊎ (result ≡ 1) }
    ensures done { result ≡ 0 → TakesText O.Write out.old out.new (ending_text style ending
        (length plan.now.versions) (size plan.now.label plan.now.versions plan.now.withdrawn)) }
    ensures failed { result ≡ 1 → HasFailed (O.failures out.old) (O.failures out.new) }
{
    let (instances, bytes) = (plan.versions().len() as u64, u64::from(plan.size()));
    match style {
        Style::Text => status_of(print_counts(ending, instances, bytes, out)),
        Style::Json => status_of(print_counts_json(ending.word(), instances, bytes, out)),
    }
}

/// Gives the status: 1 where the output failed.
pub(crate) fn status_of(printed: fmt::Result) -> u8
    ensures status { (result ≡ 0) ⊎ (result ≡ 1) }
    ensures zero { result ≡ 0 → IsOk printed }
    ensures one { result ≡ 1 → IsErr printed }
{
    match printed {
        Ok(()) => 0,
        Err(_) => 1,
    }
}

/// Prints what would be made, with the number of bytes of all images. Gives the status: 1 where the output failed.
pub(crate) fn tell_plan_of_images<O: Write>(
    plan: &Plan,
    images: u64,
    style: Style,
    out: &mut O,
) -> u8
    ensures status { (result ≡ 0) ⊎ (result ≡ 1) }
    ensures done { result ≡ 0 → TakesText O.Write out.old out.new
        (images_text style (length plan.now.versions)
        (size plan.now.label plan.now.versions plan.now.withdrawn) images) }
    ensures failed { result ≡ 1 → HasFailed (O.failures out.old) (O.failures out.new) }
{
    let (instances, bytes) = (plan.versions().len() as u64, u64::from(plan.size()));
    match style {
        Style::Text => status_of(print_images(instances, bytes, images, out)),
        Style::Json => status_of(print_images_json(instances, bytes, images, out)),
    }
}
