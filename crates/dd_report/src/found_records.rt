//! The records of a directory, with the paths at which their files are found.
ghost use Rattle.std.specs.Prelude.{◌≡◌, IfOk, OnOk, option_map, string_bytes};
ghost use Rattle.dd_walk.specs.ForestViews.{tree_view, trees_view};
ghost use Rattle.dd_report.specs.FoundRecords.{AreFound, FindsMore, IsPathOf, branch_rows, found_rows, rows_of};

use crate::file_set_listing::Listing;
use crate::findings::file_in;
use dd_elem::{Memory, is_file_id};
use dd_files::{FoundPaths, file_path};
use dd_walk::Tree;

/// A record, its level, and the path of its file where one is found.
#[derive(Drop)]
pub(crate) struct FoundRecord<'r, 't> {
    pub(crate) tree: &'r Tree<'t>,
    pub(crate) level: u64,
    pub(crate) path: Option<String>,
}

/// Finds the file of each record, depth first.
pub(crate) fn found_records<'r, 't, F: FoundPaths>(
    listing: Listing<'_>,
    trees: &'r [Tree<'t>],
    files: &mut F,
) -> Result<Vec<FoundRecord<'r, 't>>, Memory>
    ensures found { IfOk result (λ records. AreFound F.is_shown (F.held files.old) listing.entry.folder.now
        (rows_of 0 (trees_view trees.now)) (found_rows records.items)) }
    ensures kept { F.held files.new ≡ F.held files.old }
    ensures unrefused { F.refusals files.new ≡ F.refusals files.old }
{
    let mut records = Vec::new(listing.alloc);
    add_trees(listing, trees, 0, files, &mut records)?;
    Ok(records)
}

#[cycle(records)]
fn add_trees<'r, 't, F: FoundPaths>(
    listing: Listing<'_>,
    trees: &'r [Tree<'t>],
    level: u64,
    files: &mut F,
    records: &mut Vec<FoundRecord<'r, 't>>,
) -> Result<(), Memory>
    ensures found { OnOk result (FindsMore F.is_shown (F.held files.old) listing.entry.folder.now
        (rows_of level (trees_view trees.now)) (found_rows records.old.items) (found_rows records.new.items)) }
    ensures kept { F.held files.new ≡ F.held files.old }
    ensures unrefused { F.refusals files.new ≡ F.refusals files.old }
{
    for tree in trees {
        add_tree(listing, tree, level, files, records)?;
    }
    Ok(())
}

#[cycle(records)]
fn add_tree<'r, 't, F: FoundPaths>(
    listing: Listing<'_>,
    tree: &'r Tree<'t>,
    level: u64,
    files: &mut F,
    records: &mut Vec<FoundRecord<'r, 't>>,
) -> Result<(), Memory>
    ensures found { OnOk result (FindsMore F.is_shown (F.held files.old) listing.entry.folder.now
        (branch_rows level (tree_view tree.now)) (found_rows records.old.items) (found_rows records.new.items)) }
    ensures kept { F.held files.new ≡ F.held files.old }
    ensures unrefused { F.refusals files.new ≡ F.refusals files.old }
{
    let path = path_of(listing, tree, files)?;
    records.push(FoundRecord { tree, level, path })?;
    add_trees(
        listing,
        &tree.below,
        level.saturating_add(1),
        files,
        records,
    )
}

/// Finds the file of a record, unless its name is no File ID.
fn path_of<F: FoundPaths>(
    listing: Listing<'_>,
    tree: &Tree<'_>,
    files: &mut F,
) -> Result<Option<String>, Memory>
    ensures found { IfOk result (λ path. IsPathOf F.is_shown (F.held files.old) listing.entry.folder.now
        (tree_view tree.now).node (option_map (λ path. string_bytes path) path)) }
    ensures kept { F.held files.new ≡ F.held files.old }
    ensures unrefused { F.refusals files.new ≡ F.refusals files.old }
{
    let file = file_in(tree);
    if !is_file_id(file) {
        return Ok(None);
    }
    let path = file_path(listing.alloc, listing.folder, file)?;
    files.found_path(listing.folder, path.as_str())
}
