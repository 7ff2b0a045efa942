//! Records as rows of a table, and their values as texts in a row.

ghost use Rattle.std.specs.Prelude.{◌≡◌, ◌∷◌, [], OnOk};
ghost use Rattle.dd_walk.specs.ForestViews.{tree_view, trees_view};
ghost use Rattle.dd_walk.specs.Saying.{key_of};
ghost use Rattle.dd_calls.specs.Rows.{Adds, AddsRows, branch_rows, kind_number, row_view, rows_of, tag_of};
ghost use Rattle.dd_calls.specs.Rows.{values_at};

use crate::texts::Texts;
use crate::values::value_in;
use dd_elem::Tag;
use dd_records::Level;
use dd_walk::Tree;
use std::alloc::{AllocError, Global};

/// A record of a directory.
#[repr(C)]
#[derive(Debug, Clone, Copy, PartialEq, Eq)]
pub struct Row {
    /// Where it starts: the offset of its Item tag from the first byte of the directory.
    pub at: u32,
    /// How many records stand above it.
    pub level: u32,
    /// Its type: 1 PATIENT, 2 STUDY, 3 SERIES, 4 IMAGE, and 0 for all others.
    pub kind: u32,
    /// 1 where it is in use, else 0.
    pub in_use: u32,
}

/// Holds rows, and for each of them its values at the tags that are asked for.
#[derive(Drop)]
pub(crate) struct Table {
    pub(crate) rows: Vec<Row>,
    pub(crate) values: Texts,
}

impl Table {
    /// Has no rows.
    pub(crate) fn new(alloc: Global) -> Table
        ensures rows { result.rows.items ≡ [] }
        ensures text { result.values.text.items ≡ [] }
        ensures ends { result.values.ends.items ≡ [] }
    {
        Table {
            rows: Vec::new(alloc),
            values: Texts::new(alloc),
        }
    }
}

/// Adds these records and those below them.
#[cycle(rows)]
pub(crate) fn add_trees(
    trees: &[Tree<'_>],
    level: u32,
    tags: &[u32],
    table: &mut Table,
) -> Result<(), AllocError>
    ensures { OnOk result (Adds tags.now (rows_of level (trees_view trees.now)) table.old table.new) }
{
    for tree in trees {
        add_tree(tree, level, tags, table)?;
    }
    Ok(())
}

/// Adds this record and those below it.
#[cycle(rows)]
fn add_tree(tree: &Tree<'_>, level: u32, tags: &[u32], table: &mut Table) -> Result<(), AllocError>
    ensures { OnOk result (Adds tags.now (branch_rows level (tree_view tree.now)) table.old table.new) }
{
    add_record(tree, level, tags, table)?;
    add_trees(&tree.below, level.saturating_add(1), tags, table)
}

/// Adds this record.
fn add_record(
    tree: &Tree<'_>,
    level: u32,
    tags: &[u32],
    table: &mut Table,
) -> Result<(), AllocError>
    ensures { OnOk result (Adds tags.now
        (record { level = level; node = (tree_view tree.now).node } ∷ []) table.old table.new) }
{
    table.rows.push(row_of(tree, level))?;
    add_values(tree, tags, table)
}

/// Adds the values that a record has at these tags.
fn add_values(tree: &Tree<'_>, tags: &[u32], table: &mut Table) -> Result<(), AllocError>
    ensures { OnOk result (AddsRows [] (values_at tags.now (tree_view tree.now).node) table.old table.new) }
{
    for tag in tags {
        table.values.put(value_of(tree, *tag))?;
    }
    Ok(())
}

/// Makes the row of a record.
fn row_of(tree: &Tree<'_>, level: u32) -> Row
    ensures { result ≡ row_view (record { level = level; node = (tree_view tree.now).node }) }
{
    Row {
        at: tree.at,
        level,
        kind: kind_number(tree.kind),
        in_use: u32::from(tree.in_use),
    }
}

/// Numbers a type of records.
fn kind_number(kind: &[u8]) -> u32
    ensures { result ≡ kind_number kind.now }
{
    if kind == Level::Patient.kind() {
        1
    } else if kind == Level::Study.kind() {
        2
    } else if kind == Level::Series.kind() {
        3
    } else if kind == Level::Image.kind() {
        4
    } else {
        0
    }
}

/// Gives the value at the tag with this number, without its padding: no bytes where the record has no
/// value there, or items.
fn value_of<'t>(tree: &Tree<'t>, tag: u32) -> &'t [u8]
    ensures { result.now ≡ key_of (tag_of tag) (tree_view tree.now).node.set }
{
    value_in(&tree.set, tag_of(tag))
}

/// Makes the tag of this number, which has the group in its upper 16 bits.
fn tag_of(tag: u32) -> Tag
    ensures { result ≡ tag_of tag }
{
    Tag {
        group: (tag / 65536) as u16,
        element: (tag % 65536) as u16,
    }
}
