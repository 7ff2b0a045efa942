//! The files of a file-set, compared with its directory.
ghost use Rattle.std.specs.Prelude.{◌≡◌, ◌↔◌, ◌∷◌, List, [], ℕ, IfOk, IsErr, IsTrue, not, true};
ghost use Rattle.std.specs.Prelude.{◌&&◌};
ghost use Rattle.dd_walk.specs.ForestViews.{tree_view, trees_view, walk_view};
ghost use Rattle.dd_walk.specs.Trees.{Node};
ghost use Rattle.dd_version.specs.Fitting.{is_empty};
ghost use Rattle.dd_report.specs.Agreements.{IsInherited, branch_standings, found_in, is_image};
ghost use Rattle.dd_report.specs.Agreements.{standing_below, standings_below};
ghost use Rattle.dd_report.specs.Batches.{Closes, IsReady, KeepsPending, KeepsBytes, Reports, judged, report_of};
ghost use Rattle.dd_report.specs.Checking.{Checks, ChecksAll, FindsFile, TellsFirst, TellsSome, TellsWalk};
ghost use Rattle.dd_report.specs.Checking.{end_line, most_read};
ghost use Rattle.dd_report.specs.Finding.{FindsBy};
ghost use Rattle.dd_lines.specs.Telling.{Tells, way_of};
ghost use Rattle.dd_lines.specs.Text.{FailsInText, TakesText};

use crate::agreements::{Inherited, judge_by_keys};
use crate::batch::{Batch, Named};
use crate::findings::{Judgement, file_in, finding_unopened, id_of, judge_by_digest};
use crate::listing::record_count;
use crate::telling::{tell_judgement, tell_right, tell_unreached};
use dd_elem::{Memory, Read, Write};
use dd_files::{Files, Progress, Step, file_path};
use dd_json::Style;
use dd_lines::LineBuffer;
use dd_records::Level;
use dd_walk::{Forest, Tree};
use std::alloc::Global;
use std::fmt;

/// Says why a check or a listing ended early.
#[derive(Clone, Copy, Debug, PartialEq, Eq)]
pub enum ReportFault {
    /// An allocation was refused.
    Memory,
    /// The output failed.
    Unsent,
}

/// Says what is compared of a record and its file, besides the digest that the record has.
#[derive(Clone, Copy, Debug, PartialEq, Eq)]
pub struct Comparison {
    /// Whether transfer syntax, class, instance, patient, study and series of an image file are compared with what its
    /// IMAGE record and those above say, where the digests do not differ.
    pub keys: bool,
    /// Whether a record without a digest is a finding, where nothing else is found of its file.
    pub strict: bool,
}

/// Says what is checked, and by which comparison.
#[derive(Clone, Copy)]
pub struct Check<'a> {
    /// Allocates paths and what is kept of files.
    pub alloc: Global,
    /// The folder of the file-set.
    pub folder: &'a str,
    /// What is compared.
    pub comparison: Comparison,
    /// How findings are printed.
    pub style: Style,
}

/// A check where the records above say this.
#[derive(Clone, Copy)]
struct CheckAt<'a, 't> {
    check: Check<'a>,
    inherited: Inherited<'t>,
}

/// Checks the files in the folder that the records of a directory name, and shows how many records are checked. Prints
/// what is found, depth first and once for each record. Answers whether anything is found. Memory where an allocation
/// is refused; Unsent where the output fails. After Memory the findings of the first records are sent, after Unsent a
/// front of the text.
pub fn check_records<F: Files + Progress, W: Write>(
    check: Check<'_>,
    forest: &Forest<'_>,
    files: &mut F,
    to: &mut W,
) -> Result<bool, ReportFault>
    ensures told { IfOk result (λ found. (text : List ℕ)
        × TellsWalk F.In.Read (F.held files.old)
        check.entry.folder.now check.entry.comparison check.entry.style
        (walk_view forest.now) found (F.refusals files.old) (F.refusals files.new) text
        × TakesText W.Write to.old to.new text) }

    ensures cut { result ≡ Err ReportFault.Memory → (text : List ℕ)
        × TellsFirst F.In.Read (F.held files.old)
        check.entry.folder.now check.entry.comparison check.entry.style
        (standings_below [] (walk_view forest.now).trees)
        (F.refusals files.old) (F.refusals files.new) text
        × TakesText W.Write to.old to.new text }
    ensures unsent { result ≡ Err ReportFault.Unsent → (text : List ℕ)
        × TellsSome F.In.Read (F.held files.old)
        check.entry.folder.now check.entry.comparison check.entry.style
        (walk_view forest.now) (F.refusals files.old) (F.refusals files.new) text
        × FailsInText W.Write to.old to.new text }

    ensures kept { F.held files.new ≡ F.held files.old }
{
    let mut lines = LineBuffer::new(to);
    let checked = check_forest(check, forest, files, &mut lines);
    if is_unsent(&checked) {
        return Err(ReportFault::Unsent);
    }
    match lines.flush() {
        Ok(()) => checked,
        Err(_) => Err(ReportFault::Unsent),
    }
}

fn is_unsent<T>(checked: &Result<T, ReportFault>) -> bool
    ensures { IsTrue result ↔ (checked.now ≡ Err ReportFault.Unsent) }
{
    matches!(checked, Err(ReportFault::Unsent))
}

fn check_forest<F: Files + Progress, W: Write>(
    check: Check<'_>,
    forest: &Forest<'_>,
    files: &mut F,
    lines: &mut LineBuffer<'_, W>,
) -> Result<bool, ReportFault>
    ensures same { lines.new.to.ghost_name ≡ lines.old.to.ghost_name }
    ensures checks { ChecksAll F.In.Read (F.held files.old)
        check.entry.folder.now check.entry.comparison check.entry.style
        (walk_view forest.now) result (F.refusals files.old) (F.refusals files.new)
        (way_of W.Write lines.old) (way_of W.Write lines.new) }
    ensures kept { F.held files.new ≡ F.held files.old }
{
    let found = check_counted(check, &forest.trees, files, lines)?;
    match tell_end(forest, found, check.style, lines) {
        Ok(()) => Ok(found || forest.unreached > 0),
        Err(_) => Err(ReportFault::Unsent),
    }
}

/// Shows meanwhile how many records are checked.
fn check_counted<F: Files + Progress, W: Write>(
    check: Check<'_>,
    trees: &[Tree<'_>],
    files: &mut F,
    lines: &mut LineBuffer<'_, W>,
) -> Result<bool, ReportFault>
    ensures same { lines.new.to.ghost_name ≡ lines.old.to.ghost_name }
    ensures checks { Checks F.In.Read (F.held files.old)
        check.entry.folder.now check.entry.comparison check.entry.style
        (standings_below [] (trees_view trees.now)) result
        (F.refusals files.old) (F.refusals files.new)
        (way_of W.Write lines.old) (way_of W.Write lines.new) }
    ensures kept { F.held files.new ≡ F.held files.old }
{
    files.begin_step(Step::Reading, record_count(trees));
    let at = CheckAt {
        check,
        inherited: Inherited::at_root(),
    };
    let mut batch = Batch::new(check.alloc, files.lanes());
    let checked = check_trees(at, trees, files, lines, &mut batch);
    let found = found_at_end(checked, files, lines, &mut batch);
    files.hide_line();
    found
}

/// Prints what is found of the files that still wait, unless the output failed before. Answers whether anything is
/// found of all files.
fn found_at_end<F: Files + Progress, W: Write>(
    checked: Result<(), ReportFault>,
    files: &mut F,
    lines: &mut LineBuffer<'_, W>,
    batch: &mut Batch<'_>,
) -> Result<bool, ReportFault>
    requires { IsReady batch.old }
    ensures same { lines.new.to.ghost_name ≡ lines.old.to.ghost_name }
    ensures found { Closes checked result (report_of W.Write lines.old batch.old)
        (way_of W.Write lines.new) }
    ensures kept { F.held files.new ≡ F.held files.old }
    ensures refusals { F.refusals files.new ≡ F.refusals files.old }
{
    if is_unsent(&checked) {
        return Err(ReportFault::Unsent);
    }
    let Ok(()) = batch.settle(files, lines) else {
        return Err(ReportFault::Unsent);
    };
    match checked {
        Ok(()) => Ok(batch.found),
        Err(fault) => Err(fault),
    }
}

/// Prints how many items no offset reaches, if there are any. Else prints how many records there are, if nothing
/// is found.
fn tell_end<W: Write>(
    forest: &Forest<'_>,
    found: bool,
    style: Style,
    lines: &mut LineBuffer<'_, W>,
) -> fmt::Result
    ensures same { lines.new.to.ghost_name ≡ lines.old.to.ghost_name }
    ensures written { (findings : List ℕ) → found ≡ not (is_empty findings)
        → Tells result (end_line style findings (walk_view forest.now))
        (way_of W.Write lines.old) (way_of W.Write lines.new) }
{
    if forest.unreached > 0 {
        return tell_unreached(forest.unreached, style, lines);
    }
    if found {
        return Ok(());
    }
    tell_right(record_count(&forest.trees), style, lines)
}

#[cycle(findings)]
fn check_trees<'t, F: Files + Progress, W: Write>(
    at: CheckAt<'_, 't>,
    trees: &[Tree<'t>],
    files: &mut F,
    lines: &mut LineBuffer<'_, W>,
    batch: &mut Batch<'t>,
) -> Result<(), ReportFault>
    requires { IsReady batch.old }
    ensures same { lines.new.to.ghost_name ≡ lines.old.to.ghost_name }
    ensures ready { IsReady batch.new }
    ensures checks { (above : List Node) → IsInherited at.entry.inherited above
        → Reports F.In.Read (F.held files.old)
        at.entry.check.folder.now at.entry.check.comparison at.entry.check.style
        (standings_below above (trees_view trees.now)) result
        (F.refusals files.old) (F.refusals files.new)
        (report_of W.Write lines.old batch.old) (report_of W.Write lines.new batch.new) }
    ensures kept { F.held files.new ≡ F.held files.old }
{
    for tree in trees {
        check_tree(at, tree, files, lines, batch)?;
    }
    Ok(())
}

#[cycle(findings)]
fn check_tree<'t, F: Files + Progress, W: Write>(
    at: CheckAt<'_, 't>,
    tree: &Tree<'t>,
    files: &mut F,
    lines: &mut LineBuffer<'_, W>,
    batch: &mut Batch<'t>,
) -> Result<(), ReportFault>
    requires { IsReady batch.old }
    ensures same { lines.new.to.ghost_name ≡ lines.old.to.ghost_name }
    ensures ready { IsReady batch.new }
    ensures checks { (above : List Node) → IsInherited at.entry.inherited above
        → Reports F.In.Read (F.held files.old)
        at.entry.check.folder.now at.entry.check.comparison at.entry.check.style
        (branch_standings above (tree_view tree.now)) result
        (F.refusals files.old) (F.refusals files.new)
        (report_of W.Write lines.old batch.old) (report_of W.Write lines.new batch.new) }
    ensures kept { F.held files.new ≡ F.held files.old }
{
    let inherited = at.inherited.under(tree);
    let at = CheckAt {
        check: at.check,
        inherited,
    };
    check_record(at, tree, files, lines, batch)?;
    check_trees(at, &tree.below, files, lines, batch)
}

/// Prints what is found, or adds the file to the batch. `at` has what this record and those above say.
fn check_record<'t, F: Files + Progress, W: Write>(
    at: CheckAt<'_, 't>,
    tree: &Tree<'t>,
    files: &mut F,
    lines: &mut LineBuffer<'_, W>,
    batch: &mut Batch<'t>,
) -> Result<(), ReportFault>
    requires { IsReady batch.old }
    ensures same { lines.new.to.ghost_name ≡ lines.old.to.ghost_name }
    ensures ready { IsReady batch.new }
    ensures checks { (above : List Node)
        → IsInherited at.entry.inherited ((tree_view tree.now).node ∷ above)
        → Reports F.In.Read (F.held files.old)
        at.entry.check.folder.now at.entry.check.comparison at.entry.check.style
        (standing_below above (tree_view tree.now).node ∷ []) result
        (F.refusals files.old) (F.refusals files.new)
        (report_of W.Write lines.old batch.old) (report_of W.Write lines.new batch.new) }
    ensures kept { F.held files.new ≡ F.held files.old }
{
    let Ok(judgement) = judge(at.check, tree, at.inherited, files, batch) else {
        return Err(ReportFault::Memory);
    };
    files.advance();
    let named = Named {
        style: at.check.style,
        at: tree.at,
        file: file_in(tree),
    };
    match tell_judgement(named, judgement, files, lines, batch) {
        Ok(()) => Ok(()),
        Err(_) => Err(ReportFault::Unsent),
    }
}

/// Opens the file only where its name is a File ID, and reads it once. Memory where an allocation is refused.
fn judge<F: Files>(
    check: Check<'_>,
    tree: &Tree<'_>,
    inherited: Inherited<'_>,
    files: &mut F,
    batch: &mut Batch<'_>,
) -> Result<Judgement, Memory>
    ensures found { IfOk result (λ judgement. (above : List Node)
        → IsInherited inherited.entry ((tree_view tree.now).node ∷ above)
        → FindsFile F.In.Read (F.held files.old)
        check.entry.folder.now check.entry.comparison
        (standing_below above (tree_view tree.now).node)
        (F.refusals files.old) (F.refusals files.new) (judged judgement batch.new.next.slot)) }
    ensures bytes { IfOk result (λ judgement. KeepsBytes judgement batch.new.next.slot) }
    ensures pending { KeepsPending batch.old batch.new }

    ensures unrefused { IsErr result → F.refusals files.new ≡ F.refusals files.old }
    ensures kept { F.held files.new ≡ F.held files.old }
{
    let Some(file) = id_of(tree) else {
        return Ok(Judgement::Known(finding_unopened(tree)));
    };
    let path = file_path(check.alloc, check.folder, file)?;
    match files.member(check.folder, path.as_str()) {
        Ok(mut reader) => judge_file(check, tree, inherited, &mut reader, batch),
        Err(_) => Ok(Judgement::Known(finding_unopened(tree))),
    }
}

fn judge_file<R: Read>(
    check: Check<'_>,
    tree: &Tree<'_>,
    inherited: Inherited<'_>,
    reader: &mut R,
    batch: &mut Batch<'_>,
) -> Result<Judgement, Memory>
    ensures found { IfOk result (λ judgement. (above : List Node)
        → IsInherited inherited.entry ((tree_view tree.now).node ∷ above)
        → FindsBy R.Read most_read
        (found_in check.entry.comparison (standing_below above (tree_view tree.now).node))
        (judged judgement batch.new.next.slot) reader.old reader.new) }
    ensures bytes { IfOk result (λ judgement. KeepsBytes judgement batch.new.next.slot) }
    ensures pending { KeepsPending batch.old batch.new }

    // Judging by digest alone allocates nothing: what a slot can't keep is hashed.
    ensures memory { IsErr result → check.entry.comparison.keys ≡ true }
{
    if compares_keys(check, tree) {
        judge_by_keys(check, tree, inherited, reader, &mut batch.next.slot)
    } else {
        Ok(judge_by_digest(tree, check.comparison.strict, reader, batch))
    }
}

fn compares_keys(check: Check<'_>, tree: &Tree<'_>) -> bool
    ensures { result ≡ (check.entry.comparison.keys && is_image (tree_view tree.now).node) }
{
    check.comparison.keys && is_image(tree)
}

fn is_image(tree: &Tree<'_>) -> bool
    ensures { result ≡ is_image (tree_view tree.now).node }
{
    tree.kind == Level::Image.kind()
}
