//! Prints what is found of files.
ghost use Rattle.std.specs.Prelude.{◌≡◌, Some};
ghost use Rattle.dd_report.specs.Batches.{Adds, IsReady, KeepsBytes, judged, report_of};
ghost use Rattle.dd_report.specs.Checking.{file_line, finding_parts, right_line, unreached_line};
ghost use Rattle.dd_lines.specs.Telling.{Tells, shown_line, way_of};

use crate::batch::{Batch, Named};
use crate::finding_json::{add_finding, add_right, add_unreached};
use crate::findings::{Finding, Judgement};
use crate::words::{tell_differs, tell_fault, tell_tag};
use dd_elem::Write;
use dd_files::{Files, Progress};
use dd_json::Style;
use dd_lines::LineBuffer;
use itoa::Buffer;
use std::fmt;

/// Prints what is found, or adds the file to the batch where it waits for its digest.
pub(crate) fn tell_judgement<'t, F: Files + Progress, W: Write>(
    named: Named<'t>,
    judgement: Judgement,
    files: &mut F,
    lines: &mut LineBuffer<'_, W>,
    batch: &mut Batch<'t>,
) -> fmt::Result
    requires ready { IsReady batch.old }
    requires bytes { KeepsBytes judgement batch.old.next.slot }
    ensures same { lines.new.to.ghost_name ≡ lines.old.to.ghost_name }
    ensures ready { IsReady batch.new }
    ensures told { Adds result
        (file_line named.entry.style named.entry.at named.entry.file.now (judged judgement batch.old.next.slot))
        (report_of W.Write lines.old batch.old) (report_of W.Write lines.new batch.new) }
    ensures kept { F.held files.new ≡ F.held files.old }
    ensures refusals { F.refusals files.new ≡ F.refusals files.old }
{
    match judgement {
        Judgement::Known(finding) => tell_known(named, finding, files, lines, batch),
        Judgement::Pending(expected) => batch.add(named, expected, files, lines),
    }
}

/// Prints this finding, where it is one, after what is found of the files that wait.
fn tell_known<F: Files + Progress, W: Write>(
    named: Named<'_>,
    finding: Option<Finding>,
    files: &mut F,
    lines: &mut LineBuffer<'_, W>,
    batch: &mut Batch<'_>,
) -> fmt::Result
    requires { IsReady batch.old }
    ensures same { lines.new.to.ghost_name ≡ lines.old.to.ghost_name }
    ensures ready { IsReady batch.new }
    ensures told { Adds result (file_line named.entry.style named.entry.at named.entry.file.now finding)
        (report_of W.Write lines.old batch.old) (report_of W.Write lines.new batch.new) }
    ensures kept { F.held files.new ≡ F.held files.old }
    ensures refusals { F.refusals files.new ≡ F.refusals files.old }
{
    let Some(finding) = finding else {
        return Ok(());
    };
    batch.settle(files, lines)?;
    batch.found = true;
    files.hide_line();
    tell_finding(named, &finding, lines)
}

pub(crate) fn tell_finding<W: Write>(
    named: Named<'_>,
    finding: &Finding,
    lines: &mut LineBuffer<'_, W>,
) -> fmt::Result
    ensures same { lines.new.to.ghost_name ≡ lines.old.to.ghost_name }
    ensures written { Tells result
        (file_line named.entry.style named.entry.at named.entry.file.now (Some finding.now))
        (way_of W.Write lines.old) (way_of W.Write lines.new) }
{
    match named.style {
        Style::Text => tell_in_words(named.at, named.file, finding, lines),
        Style::Json => add_finding(named.at, named.file, finding, lines),
    }
}

/// `at` is the offset of the record, `file` its File ID.
fn tell_in_words<W: Write>(
    at: u32,
    file: &[u8],
    finding: &Finding,
    lines: &mut LineBuffer<'_, W>,
) -> fmt::Result
    ensures same { lines.new.to.ghost_name ≡ lines.old.to.ghost_name }
    ensures written { Tells result (shown_line (finding_parts at file.now finding.now))
        (way_of W.Write lines.old) (way_of W.Write lines.new) }
{
    match finding {
        Finding::BadId => {
            let mut number = Buffer::new();
            let at = number.format(at).as_bytes();
            lines.add_line(&[b"BADID ", at])
        }
        Finding::Missing => lines.add_line(&[b"MISSING ", file]),
        Finding::Unreadable => lines.add_line(&[b"UNREADABLE ", file]),
        Finding::Differs { recorded, found } => { tell_differs(file, recorded, found, lines) }
        Finding::Mislabelled(tag) => tell_tag(file, *tag, lines),
        Finding::NoFile(fault) => tell_fault(file, fault, lines),
        Finding::NoDigest => lines.add_line(&[b"NODIGEST ", file]),
    }
}

/// Prints how many items no offset reaches.
pub(crate) fn tell_unreached<W: Write>(
    unreached: u64,
    style: Style,
    lines: &mut LineBuffer<'_, W>,
) -> fmt::Result
    ensures same { lines.new.to.ghost_name ≡ lines.old.to.ghost_name }
    ensures written { Tells result (unreached_line style unreached)
        (way_of W.Write lines.old) (way_of W.Write lines.new) }
{
    match style {
        Style::Text => {
            let mut number = Buffer::new();
            lines.add_line(&[b"UNREACHED ", number.format(unreached).as_bytes()])
        }
        Style::Json => add_unreached(unreached, lines),
    }
}

/// Prints that nothing is found of this many records.
pub(crate) fn tell_right<W: Write>(
    records: u64,
    style: Style,
    lines: &mut LineBuffer<'_, W>,
) -> fmt::Result
    ensures same { lines.new.to.ghost_name ≡ lines.old.to.ghost_name }
    ensures written { Tells result (right_line style records)
        (way_of W.Write lines.old) (way_of W.Write lines.new) }
{
    match style {
        Style::Text => {
            let mut number = Buffer::new();
            lines.add_line(&[b"OK ", number.format(records).as_bytes(), b" records"])
        }
        Style::Json => add_right(records, lines),
    }
}
