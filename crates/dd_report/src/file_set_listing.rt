//! The listing of a file-set: of its directory, and in the long form in JSON also of where its files are found.
ghost use Rattle.std.specs.Prelude.{◌≡◌, ℕ, Err, List, OnErr, OnOk};
ghost use Rattle.dd_walk.specs.ForestViews.{walk_view};
ghost use Rattle.dd_lines.specs.Telling.{Tells, way_of};
ghost use Rattle.dd_lines.specs.Text.{FailsInText, TakesText};
ghost use Rattle.dd_report.specs.FoundRecords.{IsListing, found_lines, found_listing, found_rows};

use crate::checking::ReportFault;
use crate::found_records::{FoundRecord, found_records};
use crate::known::Form;
use crate::listing::{list_end, list_names, list_records};
use crate::record_json::add_found_record;
use dd_elem::Write;
use dd_files::FoundPaths;
use dd_json::Style;
use dd_lines::LineBuffer;
use dd_walk::Forest;
use std::alloc::Global;
use std::fmt;

/// Says what is listed, and how.
#[derive(Clone, Copy)]
pub struct Listing<'a> {
    /// Allocates paths.
    pub alloc: Global,
    /// The folder of the file-set.
    pub folder: &'a str,
    /// How much is shown of each record.
    pub form: Form,
    /// How it is printed.
    pub style: Style,
}

/// Lists a directory as `list_records` does. In the long form in JSON each record also has the path at which its file
/// is found in the folder, or `null`. All files are looked for before the first line. Memory where an allocation is
/// refused; nothing is printed then. Unsent where the output fails.
pub fn list_file_set<F: FoundPaths, W: Write>(
    listing: Listing<'_>,
    forest: &Forest<'_>,
    files: &mut F,
    to: &mut W,
) -> Result<(), ReportFault>
    ensures sent { OnOk result ((text : List ℕ)
        × IsListing F.is_shown (F.held files.old) listing.entry.folder.now listing.entry.style listing.entry.form
        (walk_view forest.now) text
        × TakesText W.Write to.old to.new text) }
    ensures unsent { result ≡ Err ReportFault.Unsent → (text : List ℕ)
        × IsListing F.is_shown (F.held files.old) listing.entry.folder.now listing.entry.style listing.entry.form
        (walk_view forest.now) text
        × FailsInText W.Write to.old to.new text }
    ensures memory { result ≡ Err ReportFault.Memory → to.new ≡ to.old }
    ensures kept { F.held files.new ≡ F.held files.old }
    ensures unrefused { F.refusals files.new ≡ F.refusals files.old }
{
    let listed = match (listing.style, listing.form) {
        (Style::Json, Form::Long) => match found_records(listing, &forest.trees, files) {
            Ok(records) => list_found(forest, &records, to),
            Err(_) => return Err(ReportFault::Memory),
        },
        (style, form) => list_records(forest, form, style, to),
    };
    match listed {
        Ok(()) => Ok(()),
        Err(_) => Err(ReportFault::Unsent),
    }
}

/// Lists the directory with these records.
fn list_found<W: Write>(
    forest: &Forest<'_>,
    records: &[FoundRecord<'_, '_>],
    to: &mut W,
) -> fmt::Result
    ensures sent { OnOk result
        (TakesText W.Write to.old to.new (found_listing (walk_view forest.now) (found_rows records.now))) }
    ensures unsent { OnErr result
        (FailsInText W.Write to.old to.new (found_listing (walk_view forest.now) (found_rows records.now))) }
{
    let mut lines = LineBuffer::new(to);
    add_found(forest, records, &mut lines)?;
    lines.flush()
}

fn add_found<W: Write>(
    forest: &Forest<'_>,
    records: &[FoundRecord<'_, '_>],
    lines: &mut LineBuffer<'_, W>,
) -> fmt::Result
    ensures same { lines.new.to.ghost_name ≡ lines.old.to.ghost_name }
    ensures written { Tells result (found_listing (walk_view forest.now) (found_rows records.now))
        (way_of W.Write lines.old) (way_of W.Write lines.new) }
{
    list_names(forest, Style::Json, lines)?;
    add_records(records, lines)?;
    list_end(forest, Style::Json, lines)
}

fn add_records<W: Write>(
    records: &[FoundRecord<'_, '_>],
    lines: &mut LineBuffer<'_, W>,
) -> fmt::Result
    ensures same { lines.new.to.ghost_name ≡ lines.old.to.ghost_name }
    ensures written { Tells result (found_lines (found_rows records.now))
        (way_of W.Write lines.old) (way_of W.Write lines.new) }
{
    for record in records {
        add_found_record(record, lines)?;
    }
    Ok(())
}
