//! The records of a directory in the order of a walk, each with what it inherits.

ghost use Rattle.std.specs.Prelude.{◌≡◌, ◌++◌, ◌∷◌, [], List, OnOk, IfOk, map};
ghost use Rattle.dd_records.specs.ElementForms.{tag};
ghost use Rattle.dd_walk.specs.ForestViews.{tree_view, trees_view};
ghost use Rattle.dd_walk.specs.Trees.{Node};
ghost use Rattle.dd_report.specs.Agreements.{branch_standings, nearest, standings_below};
ghost use Rattle.dd_calls.specs.Standings.{Inherits, seen_by, standing_view};

use crate::values::value_in;
use dd_elem::{Tag, tags};
use dd_walk::Tree;
use std::alloc::{AllocError, Global};

/// The values in a record and those above it: each as the nearest record has it that has the element, else no bytes.
#[derive(Clone, Copy)]
pub(crate) struct Inherited<'t> {
    pub(crate) patient_id: &'t [u8],
    /// Study Instance UID.
    pub(crate) study: &'t [u8],
    /// Series Instance UID.
    pub(crate) series: &'t [u8],
}

impl<'t> Inherited<'t> {
    fn at_root() -> Inherited<'t>
        ensures { Inherits result [] }
    {
        Inherited {
            patient_id: b"",
            study: b"",
            series: b"",
        }
    }

    /// Adds what this record says.
    fn under(self, tree: &Tree<'t>) -> Inherited<'t>
        ensures { (above : List Node) → Inherits self.entry above
            → Inherits result ((tree_view tree.now).node ∷ above) }
    {
        Inherited {
            patient_id: nearest(tree, tags::PATIENT_ID, self.patient_id),
            study: nearest(tree, tags::STUDY_INSTANCE_UID, self.study),
            series: nearest(tree, tags::SERIES_INSTANCE_UID, self.series),
        }
    }
}

/// Gives the value of the record where it has the element, else the value from above.
fn nearest<'t>(tree: &Tree<'t>, tag: Tag, above: &'t [u8]) -> &'t [u8]
    ensures { (nodes : List Node) → above.now ≡ nearest tag nodes
        → result.now ≡ nearest tag ((tree_view tree.now).node ∷ nodes) }
{
    if tree.set.find(tag).is_some() {
        value_in(&tree.set, tag)
    } else {
        above
    }
}

/// A record, and what it inherits.
#[derive(Clone, Copy)]
pub(crate) struct Standing<'f, 't> {
    pub(crate) tree: &'f Tree<'t>,
    pub(crate) inherited: Inherited<'t>,
}

/// Lists the records of these trees, depth first.
pub(crate) fn standings_of<'f, 't>(
    alloc: Global,
    trees: &'f [Tree<'t>],
) -> Result<Vec<Standing<'f, 't>>, AllocError>
    ensures { IfOk result (λ records. map standing_view records.items
        ≡ map seen_by (standings_below [] (trees_view trees.now))) }
{
    let mut records = Vec::new(alloc);
    add_standings(trees, Inherited::at_root(), &mut records)?;
    Ok(records)
}

#[cycle(standings)]
fn add_standings<'f, 't>(
    trees: &'f [Tree<'t>],
    above: Inherited<'t>,
    records: &mut Vec<Standing<'f, 't>>,
) -> Result<(), AllocError>
    ensures { OnOk result ((nodes : List Node) → Inherits above.entry nodes
        → map standing_view records.new.items
        ≡ map standing_view records.old.items ++ map seen_by (standings_below nodes (trees_view trees.now))) }
{
    for tree in trees {
        add_branch(tree, above, records)?;
    }
    Ok(())
}

#[cycle(standings)]
fn add_branch<'f, 't>(
    tree: &'f Tree<'t>,
    above: Inherited<'t>,
    records: &mut Vec<Standing<'f, 't>>,
) -> Result<(), AllocError>
    ensures { OnOk result ((nodes : List Node) → Inherits above.entry nodes
        → map standing_view records.new.items
        ≡ map standing_view records.old.items ++ map seen_by (branch_standings nodes (tree_view tree.now))) }
{
    let inherited = above.under(tree);
    records.push(Standing { tree, inherited })?;
    add_standings(&tree.below, inherited, records)
}
