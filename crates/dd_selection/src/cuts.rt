//! The records that lie under all that is asked for.
ghost use Rattle.std.specs.Prelude.{◌≡◌, IfOk, map, option_map};
ghost use Rattle.std.specs.Option.{option_to_list};
ghost use Rattle.dd_walk.specs.ForestViews.{tree_view, trees_view};
ghost use Rattle.dd_selection.specs.Selection.{selection_view, selects_all};
ghost use Rattle.dd_selection.specs.Cuts.{cut, cut_branch};
ghost use Rattle.dd_selection.specs.SelectedRecords.{selected, stays};

use crate::selection::Selection;
use dd_elem::Memory;
use dd_walk::Tree;
use std::alloc::Global;

/// Cuts trees to the records that lie under each kind that is asked for, and those above them. A record lies under a
/// kind where it, or a record above it, has one of the values. Memory where an allocation is refused.
pub fn select<'a>(
    alloc: Global,
    selection: Selection<'_>,
    trees: Vec<Tree<'a>>,
) -> Result<Vec<Tree<'a>>, Memory>
    ensures exact { IfOk result (λ found. trees_view found.items
        ≡ selected (selection_view selection.entry) (trees_view trees.entry.items)) }
{
    cut_trees(alloc, selection, trees)
}

/// Keeps all trees where nothing is asked for.
#[cycle(cuts)]
fn cut_trees<'a>(
    alloc: Global,
    selection: Selection<'_>,
    trees: Vec<Tree<'a>>,
) -> Result<Vec<Tree<'a>>, Memory>
    ensures exact { IfOk result (λ found. trees_view found.items
        ≡ cut (selection_view selection.entry) (trees_view trees.entry.items)) }
{
    if selection.is_everything() {
        return Ok(trees);
    }
    let mut kept = Vec::new(alloc);
    for tree in trees {
        if let Some(tree) = cut_tree(alloc, selection, tree)? {
            kept.push(tree)?;
        }
    }
    Ok(kept)
}

/// Keeps a record that answers all that is asked for, or has one below it that does.
#[cycle(cuts)]
fn cut_tree<'a>(
    alloc: Global,
    selection: Selection<'_>,
    tree: Tree<'a>,
) -> Result<Option<Tree<'a>>, Memory>
    ensures exact { IfOk result (λ kept. map tree_view (option_to_list kept)
        ≡ cut_branch (selection_view selection.entry) (tree_view tree.entry)) }
{
    let left = selection.left_below(&tree);
    let Tree {
        at,
        kind,
        in_use,
        set,
        below,
    } = tree;
    let below = cut_trees(alloc, left, below)?;
    if !stays(&left, &below) {
        return Ok(None);
    }
    Ok(Some(Tree {
        at,
        kind,
        in_use,
        set,
        below,
    }))
}

/// Says whether a record stays, by what is still asked for below it, and by the records that stay there.
fn stays(left: &Selection<'_>, below: &[Tree<'_>]) -> bool
    ensures { result ≡ stays (selects_all (selection_view left.now)) (trees_view below.now) }
{
    left.is_everything() || !below.is_empty()
}
