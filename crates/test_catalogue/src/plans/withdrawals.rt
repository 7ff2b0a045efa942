//! Plans of catalogues in which instances are withdrawn: how many bytes the directories have, and the UIDs.

use crate::plans::plans::label_of;
use dd_elem::FileId;
use dd_layout::{Limits, Plan, PlanFault, lay_out};
use dd_vectors::{ask_all, catalogue_of};
use std::alloc::Global;
use std::test::Fail;

/// The most bytes of a directory, the images of the catalogue and the instances that are withdrawn, each after a `/`.
/// Then how many bytes the directory has, or why there is no plan.
const SIZES: &str = "\
4294967295 1 > 876
4294967295 1/1.2.3.4.6 > 918
918 1/1.2.3.4.6 > 918
917 1/1.2.3.4.6 > 43 TooLarge
4294967295 1/1.2.3.4.6/1.2.3.4.7 > 928
928 1/1.2.3.4.7/1.2.3.4.6 > 928
927 1/1.2.3.4.6/1.2.3.4.7 > 43 TooLarge
4294967295 1/1.2.3.4.10 > 918
4294967295 1/1.2.3.4.10/1.2.3.4.6 > 928
4294967295 1/1.2.3.4.5 > 362
4294967295 /1.2.3.4.5 > 362
362 /1.2.3.4.5 > 362
361 /1.2.3.4.5 > 43 TooLarge
42 /1.2.3.4.5 > 43 TooLarge
41 /1.2.3.4.5 > 43 TooLarge
0 /1.2.3.4.5 > 43 TooLarge
0 15/1.2.3.4.6 > 41 Conflict 1.2.3.4.5 1.2.8.4.1
4294967295 15/1.2.8.4.1 > 918
4294967295 BD/1.2.3.4.5 > 920";

/// The images of a catalogue, the withdrawn instances, and the plan's withdrawn instances.
const UIDS: &str = "\
1 > -
1/1.2.3.4.6 > 1.2.3.4.6
1/1.2.3.4.7/1.2.3.4.6/1.2.3.4.7 > 1.2.3.4.6 1.2.3.4.7
12/1.2.9/1.2.3.4.5/1.2.10 > 1.2.10 1.2.3.4.5 1.2.9
/1.2.3.4.5 > 1.2.3.4.5";

/// Lays out the catalogue that these words describe, within this many bytes.
fn planned(alloc: Global, words: &str, bytes: u32) -> Result<Result<Plan, PlanFault>, Fail> {
    let limits = Limits::new(bytes, FileId::MAX_RANK).ok_or("no limits")?;
    let catalogue = catalogue_of(alloc, words)?;
    Ok(lay_out(alloc, &catalogue, &label_of("")?, limits))
}

fn size(alloc: Global, question: &str) -> Result<String, Fail> {
    let (bytes, words) = question.split_once(' ').ok_or("no bytes")?;
    match planned(alloc, words, bytes.parse()?)? {
        Ok(plan) => {
            let size = plan.size();
            Ok(format!(in alloc; "{size}")?)
        }
        Err(fault) => Ok(format!(in alloc; "{fault}")?),
    }
}

fn uids(alloc: Global, question: &str) -> Result<String, Fail> {
    let plan = planned(alloc, question, u32::MAX)??;
    let mut text = String::new(alloc);
    for uid in plan.withdrawn() {
        let space = if text.is_empty() { "" } else { " " };
        text.push_str(format!(in alloc; "{space}{uid}")?.as_str())?;
    }
    if text.is_empty() {
        text.push('-')?;
    }
    Ok(text)
}

#[test]
fn a_plan_names_what_is_withdrawn(rt: HostRuntime) -> Result<(), Fail> {
    ask_all(rt.alloc(), SIZES, size)?;
    ask_all(rt.alloc(), UIDS, uids)
}
