//! How many pairs of instances a merge compares.

use dd_vectors::{ask_all, catalogue_of};
use std::alloc::Global;
use std::test::Fail;

/// Two catalogues, and how many instances of either are at most the greatest of each. Then how many instances are left
/// of both. What stands after a `/` is withdrawn.
const COUNTS: &str = "\
43+212 > 2, 4 left
212+43 > 2, 4 left
12+12 > 2, 2 left
1+4 > 1, 2 left
14+2 > 2, 3 left
1234+1234 > 4, 4 left
+12 > 0, 2 left
12+ > 0, 2 left
+ > 0, 0 left
1234+/1.2.3.4.5 > 1, 3 left
1234+/1.2.3.4.6/1.2.9.1.1 > 4, 2 left
1234+/1.1/1.2.3.4.6/1.3 > 5, 3 left";

fn count(alloc: Global, question: &str) -> Result<String, Fail> {
    let (left, right) = question.split_once('+').ok_or("one catalogue")?;
    let mut catalogue = catalogue_of(alloc, left)?;
    let count = catalogue.merge_counted(&catalogue_of(alloc, right)?)?;
    let size = catalogue.len();
    Ok(format!(in alloc; "{count}, {size} left")?)
}

#[test]
fn a_merge_counts_what_it_compares(rt: HostRuntime) -> Result<(), Fail> {
    ask_all(rt.alloc(), COUNTS, count)
}
