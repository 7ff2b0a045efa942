//! The records of a directory, and what is withdrawn, as lines.
ghost use Rattle.std.specs.Prelude.{◌≡◌, ◌∷◌, [], OnErr, OnOk, codes, decimal, option_map};
ghost use Rattle.std.specs.List.{concat};
ghost use Rattle.dd_elem.specs.Device.{counted};
ghost use Rattle.dd_keys.specs.Values.{value_at};
ghost use Rattle.dd_set.specs.Views.{set_view};
ghost use Rattle.dd_walk.specs.ForestViews.{tree_view, trees_view, walk_view};
ghost use Rattle.dd_walk.specs.WithdrawnPieces.{pieces_in, pieces_of};
ghost use Rattle.dd_report.specs.Listing.{branch_lines, end_lines, flag_of, label_of, label_tag, lines_in, lines_of};
ghost use Rattle.dd_report.specs.Listing.{listing, long_listing, or_dash, record_count, record_line, record_parts};
ghost use Rattle.dd_report.specs.Listing.{set_line, set_parts, spaced, totals_line, uid_tag, withdrawn_line};
ghost use Rattle.dd_report.specs.Listing.{withdrawn_lines};
ghost use Rattle.dd_lines.specs.Telling.{Tells, shown, shown_line, way_of};
ghost use Rattle.dd_json.specs.declared.value.Style.TheVariants.{Text};
ghost use Rattle.dd_lines.specs.Text.{FailsInText, TakesText};

use crate::known::{Form, add_values, tags_in};
use crate::record_json::{add_record, add_set, add_totals, add_withdrawn};
use dd_elem::{Tag, Write};
use dd_json::Style;
use dd_keys::value_at;
use dd_lines::LineBuffer;
use dd_records::Level;
use dd_records::table::{FILE, INSTANCE, PATIENT_ID, SERIES_UID, STUDY_UID};
use dd_set::DataSet;
use dd_walk::{Forest, Tree};
use itoa::Buffer;
use std::fmt;

/// Lists a directory: a line for each record, depth first, one for each piece of the value that names the withdrawn SOP
/// Instance UIDs, and how many records there are. In the long form a first line has the File-set ID and the UID of the
/// directory. Then the line of each PATIENT, STUDY, SERIES and IMAGE record in words also has the values by which a
/// person recognises it; in JSON each record also has its data set in the DICOM JSON model. It fails only where the
/// output does, and takes no memory.
pub fn list_records<W: Write>(
    forest: &Forest<'_>,
    form: Form,
    style: Style,
    to: &mut W,
) -> fmt::Result
    ensures sent { OnOk result
        (TakesText W.Write to.old to.new (listing style form (walk_view forest.now))) }
    ensures unsent { OnErr result
        (FailsInText W.Write to.old to.new (listing style form (walk_view forest.now))) }
{
    let mut lines = LineBuffer::new(to);
    list_all(forest, form, style, &mut lines)?;
    lines.flush()
}

fn list_all<W: Write>(
    forest: &Forest<'_>,
    form: Form,
    style: Style,
    lines: &mut LineBuffer<'_, W>,
) -> fmt::Result
    ensures same { lines.new.to.ghost_name ≡ lines.old.to.ghost_name }
    ensures written { Tells result (listing style form (walk_view forest.now))
        (way_of W.Write lines.old) (way_of W.Write lines.new) }
{
    match form {
        Form::Short => list_forest(forest, Form::Short, style, lines),
        Form::Long => list_set(forest, style, lines),
    }
}

fn list_set<W: Write>(
    forest: &Forest<'_>,
    style: Style,
    lines: &mut LineBuffer<'_, W>,
) -> fmt::Result
    ensures same { lines.new.to.ghost_name ≡ lines.old.to.ghost_name }
    ensures written { Tells result (long_listing style (walk_view forest.now))
        (way_of W.Write lines.old) (way_of W.Write lines.new) }
{
    list_names(forest, style, lines)?;
    list_forest(forest, Form::Long, style, lines)
}

pub(crate) fn list_names<W: Write>(
    forest: &Forest<'_>,
    style: Style,
    lines: &mut LineBuffer<'_, W>,
) -> fmt::Result
    ensures same { lines.new.to.ghost_name ≡ lines.old.to.ghost_name }
    ensures written { Tells result (set_line style (walk_view forest.now))
        (way_of W.Write lines.old) (way_of W.Write lines.new) }
{
    match style {
        Style::Text => list_set_words(or_dash(Some(forest.id)), forest.uid.as_bytes(), lines),
        Style::Json => add_set(forest.id, forest.uid.as_bytes(), lines),
    }
}

fn list_set_words<W: Write>(id: &[u8], uid: &[u8], lines: &mut LineBuffer<'_, W>) -> fmt::Result
    ensures same { lines.new.to.ghost_name ≡ lines.old.to.ghost_name }
    ensures written { Tells result (shown_line (set_parts id.now uid.now))
        (way_of W.Write lines.old) (way_of W.Write lines.new) }
{
    lines.add_line(&[b"FILE-SET ", id, b" ", uid])
}

fn list_forest<W: Write>(
    forest: &Forest<'_>,
    form: Form,
    style: Style,
    lines: &mut LineBuffer<'_, W>,
) -> fmt::Result
    ensures same { lines.new.to.ghost_name ≡ lines.old.to.ghost_name }
    ensures written { Tells result (lines_in style form (walk_view forest.now))
        (way_of W.Write lines.old) (way_of W.Write lines.new) }
{
    list_trees(&forest.trees, 0, form, style, lines)?;
    list_end(forest, style, lines)
}

/// Lists what comes after the records.
pub(crate) fn list_end<W: Write>(
    forest: &Forest<'_>,
    style: Style,
    lines: &mut LineBuffer<'_, W>,
) -> fmt::Result
    ensures same { lines.new.to.ghost_name ≡ lines.old.to.ghost_name }
    ensures written { Tells result (end_lines style (walk_view forest.now))
        (way_of W.Write lines.old) (way_of W.Write lines.new) }
{
    list_withdrawn(forest.withdrawn, style, lines)?;
    list_totals(forest, style, lines)
}

#[cycle(lines)]
fn list_trees<W: Write>(
    trees: &[Tree<'_>],
    level: u64,
    form: Form,
    style: Style,
    lines: &mut LineBuffer<'_, W>,
) -> fmt::Result
    ensures same { lines.new.to.ghost_name ≡ lines.old.to.ghost_name }
    ensures written { Tells result (lines_of style form level (trees_view trees.now))
        (way_of W.Write lines.old) (way_of W.Write lines.new) }
{
    for tree in trees {
        list_tree(tree, level, form, style, lines)?;
    }
    Ok(())
}

#[cycle(lines)]
fn list_tree<W: Write>(
    tree: &Tree<'_>,
    level: u64,
    form: Form,
    style: Style,
    lines: &mut LineBuffer<'_, W>,
) -> fmt::Result
    ensures same { lines.new.to.ghost_name ≡ lines.old.to.ghost_name }
    ensures written { Tells result (branch_lines style form level (tree_view tree.now))
        (way_of W.Write lines.old) (way_of W.Write lines.new) }
{
    list_record(tree, level, form, style, lines)?;
    list_trees(&tree.below, level.saturating_add(1), form, style, lines)
}

fn list_record<W: Write>(
    tree: &Tree<'_>,
    level: u64,
    form: Form,
    style: Style,
    lines: &mut LineBuffer<'_, W>,
) -> fmt::Result
    ensures same { lines.new.to.ghost_name ≡ lines.old.to.ghost_name }
    ensures written { Tells result (record_line style form level (tree_view tree.now).node)
        (way_of W.Write lines.old) (way_of W.Write lines.new) }
{
    match style {
        Style::Text => list_in_words(tree, level, form, lines),
        Style::Json => add_record(tree, level, form, lines),
    }
}

fn list_in_words<W: Write>(
    tree: &Tree<'_>,
    level: u64,
    form: Form,
    lines: &mut LineBuffer<'_, W>,
) -> fmt::Result
    ensures same { lines.new.to.ghost_name ≡ lines.old.to.ghost_name }
    ensures written { Tells result (record_line Text form level (tree_view tree.now).node)
        (way_of W.Write lines.old) (way_of W.Write lines.new) }
{
    lines.add_indent(level)?;
    add_parts(tree, form, lines)
}

fn add_parts<W: Write>(tree: &Tree<'_>, form: Form, lines: &mut LineBuffer<'_, W>) -> fmt::Result
    ensures same { lines.new.to.ghost_name ≡ lines.old.to.ghost_name }
    ensures written { Tells result (shown_line (record_parts form (tree_view tree.now).node))
        (way_of W.Write lines.old) (way_of W.Write lines.new) }
{
    let mut at = Buffer::new();
    let at = at.format(tree.at).as_bytes();
    add_words(at, tree.kind, label_of(tree), flag_of(tree), lines)?;
    add_values(&tree.set, tags_in(form, tree.kind), lines)?;
    lines.add_end()
}

/// Adds these words, with spaces between the first three.
fn add_words<W: Write>(
    at: &[u8],
    kind: &[u8],
    label: &[u8],
    flag: &[u8],
    lines: &mut LineBuffer<'_, W>,
) -> fmt::Result
    ensures same { lines.new.to.ghost_name ≡ lines.old.to.ghost_name }
    ensures written { Tells result (shown (concat (spaced at.now kind.now label.now flag.now)))
        (way_of W.Write lines.old) (way_of W.Write lines.new) }
{
    lines.add_parts(&[at, b" ", kind, b" ", label, flag])
}

fn label_of<'t>(tree: &'t Tree<'_>) -> &'t [u8]
    ensures { result.now ≡ label_of (tree_view tree.now).node }
{
    value_or_dash(&tree.set, label_tag(tree.kind))
}

/// Gives the value of this element, or `-` where it is absent, empty or a sequence.
pub(crate) fn value_or_dash<'t>(set: &'t DataSet<'_>, tag: Tag) -> &'t [u8]
    ensures { result.now ≡ or_dash (value_at tag (set_view set.now)) }
{
    or_dash(value_at(set, tag))
}

fn or_dash<'v>(value: Option<&'v [u8]>) -> &'v [u8]
    ensures { result.now ≡ or_dash (option_map (λ value. value.now) value.entry) }
{
    match value {
        None | Some([]) => b"-",
        Some(value) => value,
    }
}

pub(crate) fn label_tag(kind: &[u8]) -> Tag
    ensures { result ≡ label_tag kind.now }
{
    if kind == Level::Patient.kind() {
        PATIENT_ID.tag
    } else if kind == Level::Study.kind() {
        STUDY_UID.tag
    } else if kind == Level::Series.kind() {
        SERIES_UID.tag
    } else {
        FILE.tag
    }
}

/// Gives the element with the UID of what a record stands for.
pub(crate) fn uid_tag(kind: &[u8]) -> Tag
    ensures { result ≡ uid_tag kind.now }
{
    if kind == Level::Study.kind() {
        STUDY_UID.tag
    } else if kind == Level::Series.kind() {
        SERIES_UID.tag
    } else {
        INSTANCE.tag
    }
}

/// Gives the mark of a record that is not in use.
fn flag_of<'t>(tree: &'t Tree<'_>) -> &'t [u8]
    ensures { result.now ≡ flag_of (tree_view tree.now).node }
{
    if tree.in_use { b"" } else { b" inactive" }
}

/// Lists a line for each piece of the value; no lines where the value is absent.
fn list_withdrawn<W: Write>(
    value: Option<&[u8]>,
    style: Style,
    lines: &mut LineBuffer<'_, W>,
) -> fmt::Result
    ensures same { lines.new.to.ghost_name ≡ lines.old.to.ghost_name }
    ensures written { Tells result
        (withdrawn_lines style (pieces_in (option_map (λ value. value.now) value.entry)))
        (way_of W.Write lines.old) (way_of W.Write lines.new) }
{
    match value {
        None => Ok(()),
        Some(value) => list_pieces(value, style, lines),
    }
}

fn list_pieces<W: Write>(value: &[u8], style: Style, lines: &mut LineBuffer<'_, W>) -> fmt::Result
    ensures same { lines.new.to.ghost_name ≡ lines.old.to.ghost_name }
    ensures written { Tells result (withdrawn_lines style (pieces_of value.now))
        (way_of W.Write lines.old) (way_of W.Write lines.new) }
{
    let mut rest = Some(value);
    while let Some(value) = rest {
        let (piece, after) = first_piece(value);
        list_piece(piece, style, lines)?;
        rest = after;
    }
    Ok(())
}

/// The first piece of the value, and what comes after the `\` that ends it, if one does.
fn first_piece(value: &[u8]) -> (&[u8], Option<&[u8]>)
    ensures { pieces_of value.now
        ≡ result.0.now ∷ pieces_in (option_map (λ rest. rest.now) result.1) }
{
    match value.iter().position(|byte| *byte == b'\\') {
        Some(at) => (&value[..at], Some(&value[at + 1..])),
        None => (value, None),
    }
}

/// Lists this piece; in words an empty one is `-`.
fn list_piece<W: Write>(piece: &[u8], style: Style, lines: &mut LineBuffer<'_, W>) -> fmt::Result
    ensures same { lines.new.to.ghost_name ≡ lines.old.to.ghost_name }
    ensures written { Tells result (withdrawn_line style piece.now)
        (way_of W.Write lines.old) (way_of W.Write lines.new) }
{
    match style {
        Style::Text => lines.add_line(&[b"WITHDRAWN ", or_dash(Some(piece))]),
        Style::Json => add_withdrawn(piece, lines),
    }
}

fn list_totals<W: Write>(
    forest: &Forest<'_>,
    style: Style,
    lines: &mut LineBuffer<'_, W>,
) -> fmt::Result
    ensures same { lines.new.to.ghost_name ≡ lines.old.to.ghost_name }
    ensures written { Tells result (totals_line style (walk_view forest.now))
        (way_of W.Write lines.old) (way_of W.Write lines.new) }
{
    let (records, unreached) = (record_count(&forest.trees), forest.unreached);
    match style {
        Style::Text => list_counts(records, unreached, lines),
        Style::Json => add_totals(records, unreached, lines),
    }
}

fn list_counts<W: Write>(records: u64, unreached: u64, lines: &mut LineBuffer<'_, W>) -> fmt::Result
    ensures same { lines.new.to.ghost_name ≡ lines.old.to.ghost_name }
    ensures written { Tells result (shown_line
        (decimal records ∷ codes " records, " ∷ decimal unreached ∷ codes " unreached" ∷ []))
        (way_of W.Write lines.old) (way_of W.Write lines.new) }
{
    let (mut first, mut second) = (Buffer::new(), Buffer::new());
    let records = first.format(records).as_bytes();
    let unreached = second.format(unreached).as_bytes();
    lines.add_line(&[records, b" records, ", unreached, b" unreached"])
}

/// How many records there are in these trees, as a count.
#[cycle(counts)]
pub(crate) fn record_count(trees: &[Tree<'_>]) -> u64
    ensures { result ≡ record_count (trees_view trees.now) }
{
    let mut count: u64 = 0;
    for tree in trees {
        count = count.saturating_add(count_of(tree));
    }
    count
}

#[cycle(counts)]
fn count_of(tree: &Tree<'_>) -> u64
    ensures { result ≡ counted (record_count (tree_view tree.now).below) }
{
    record_count(&tree.below).saturating_add(1)
}
