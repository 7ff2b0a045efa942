//! What became of the images of a merge, for a person.
ghost use Rattle.std.specs.Prelude.{◌≡◌, ℕ, List, Ok};
ghost use Rattle.dd_engine.specs.MergeNotes.{NotesMerge};
ghost use Rattle.dd_engine.specs.Merging.{SetListing};
ghost use Rattle.dd_engine.specs.declared.choice.Choice.{Choice};
ghost use Rattle.dd_layout.specs.Limits.{Limits};
ghost use Rattle.dicomdir.specs.Sum.{CountsImages, ImagesAddUp};

use crate::sum::word_of_none;
use dd_engine::NotedMerge;
use dd_files::{Files, Hints};
use dd_json::Style;
use itoa::Buffer;

/// The images of file-sets, by what became of them.
#[derive(Clone, Copy)]
pub(crate) struct SetSum {
    pub(crate) sets: usize,
    /// The IMAGE records that the walks reach.
    pub(crate) images: usize,
    /// The images of the new file-set, each with its first record.
    pub(crate) kept: usize,
    /// The records of whose instance other bytes are kept.
    pub(crate) left_out: usize,
    /// The others: each repeats a record that is kept.
    pub(crate) repeated: usize,
    /// The records whose instance is withdrawn.
    pub(crate) withdrawn: usize,
}

impl SetSum {
    pub(crate) fn new() -> SetSum {
        SetSum {
            sets: 0,
            images: 0,
            kept: 0,
            left_out: 0,
            repeated: 0,
            withdrawn: 0,
        }
    }

    pub(crate) fn of(noted: &NotedMerge<'_>, sets: usize) -> SetSum
        ensures counts { CountsImages noted.now sets result }
        ensures adds { (choice : Choice) (limits : Limits) (given : List (List ℕ)) (listings : List SetListing)
            → NotesMerge choice limits given listings (Ok noted.now) → ImagesAddUp result }
    {
        let images = noted.sets.images;
        let kept = noted.merged.plan.versions().len();
        let left_out = noted.notes.left_out.len();
        let withdrawn = noted.sets.all_withdrawn;
        let others = images.saturating_sub(kept).saturating_sub(left_out);
        SetSum {
            sets,
            images,
            kept,
            left_out,
            repeated: others.saturating_sub(withdrawn),
            withdrawn,
        }
    }
}

/// Shows what was kept, and what became of the images.
pub(crate) fn show_set_sum<F: Files + Hints>(sum: &SetSum, style: Style, files: &mut F)
    ensures kept { F.held files.new ≡ F.held files.old }
{
    files.show_kept();
    match style {
        Style::Text => show_counts(sum, files),
        Style::Json => show_counts_json(sum, files),
    }
}

fn show_counts<F: Files + Hints>(sum: &SetSum, files: &mut F)
    ensures kept { F.held files.new ≡ F.held files.old }
{
    let (mut sets, mut images, mut kept) = (Buffer::new(), Buffer::new(), Buffer::new());
    let (mut left_out, mut repeated) = (Buffer::new(), Buffer::new());
    let mut withdrawn = Buffer::new();
    files.show_line(&[
        sets.format(sum.sets),
        " sets, ",
        images.format(sum.images),
        " images: ",
        kept.format(sum.kept),
        " kept, ",
        left_out.format(sum.left_out),
        " left out, ",
        repeated.format(sum.repeated),
        " repeated, ",
        withdrawn.format(sum.withdrawn),
        " withdrawn",
        word_of_none(sum.kept),
    ]);
}

fn show_counts_json<F: Files + Hints>(sum: &SetSum, files: &mut F)
    ensures kept { F.held files.new ≡ F.held files.old }
{
    let (mut sets, mut images, mut kept) = (Buffer::new(), Buffer::new(), Buffer::new());
    let (mut left_out, mut repeated) = (Buffer::new(), Buffer::new());
    let mut withdrawn = Buffer::new();
    files.show_line(&[
        "{\"line\":\"SUM\",\"sets\":",
        sets.format(sum.sets),
        ",\"images\":",
        images.format(sum.images),
        ",\"kept\":",
        kept.format(sum.kept),
        ",\"left_out\":",
        left_out.format(sum.left_out),
        ",\"repeated\":",
        repeated.format(sum.repeated),
        ",\"withdrawn\":",
        withdrawn.format(sum.withdrawn),
        "}",
    ]);
}
