//! Plans of one catalogue under another label.

use crate::plans::allocations::{require_plan, widest};
use crate::plans::plans::{label_of, planned};
use dd_layout::Limits;
use dd_vectors::ask_all;
use std::alloc::Global;
use std::test::Fail;

/// The most bytes of a directory, the most records below one parent, the images of the catalogue, and two IDs of the
/// file-set. The first plan has the one, and another label the other. Then how many bytes the directory has under that,
/// or why there is no plan.
const LABELS: &str = "\
4294967295 999999 1 / > 876
4294967295 999999 1 /DISC1 > 882
882 1 1 /DISC1 > 882
881 1 1 /DISC1 > 43 TooLarge
876 1 1 DISC1/ > 876
875 1 1 DISC1/ > 43 TooLarge
2038 2 1234 /DISC1 > 2038
2037 2 1234 /DISC1 > 43 TooLarge
2032 2 1234 DISC1/ > 2032
2031 2 1234 DISC1/ > 43 TooLarge
2032 1 1234 DISC1/ > 42 TooMany Patient
0 1 123 DISC1/ > 42 TooMany Series
326 0  /DISC1 > 326
325 0  /DISC1 > 43 TooLarge";

/// The size of the plan under the other label, or why there is no plan.
fn size_under(alloc: Global, question: &str) -> Result<String, Fail> {
    let mut words = question.split(' ');
    let bytes = words.next().ok_or("no bytes")?.parse()?;
    let per_level = words.next().ok_or("no count")?.parse()?;
    let letters = words.next().ok_or("no images")?;
    let ids = words.next().ok_or("no IDs")?;
    let (before, after) = ids.split_once('/').ok_or("one ID")?;
    let limits = Limits::new(bytes, per_level).ok_or("no limits")?;
    let plan = planned(alloc, letters, before, widest()?)??;
    match plan.under(&label_of(after)?, limits) {
        Ok(plan) => {
            let size = plan.size();
            Ok(format!(in alloc; "{size}")?)
        }
        Err(fault) => Ok(format!(in alloc; "{fault}")?),
    }
}

#[test]
fn a_plan_under_another_label_keeps_to_its_limits(rt: HostRuntime) -> Result<(), Fail> {
    ask_all(rt.alloc(), LABELS, size_under)?;
    let plan = planned(rt.alloc(), "1234", "DISC1", widest()?)??;
    assert!(rt; *plan.label() == label_of("DISC1")?);
    let label = label_of("")?;
    let plan = plan.under(&label, widest()?)?;
    require_plan(rt.alloc(), "1234", &plan)?;
    assert!(rt; *plan.label() == label);
    Ok(())
}
