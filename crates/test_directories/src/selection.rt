//! Directories, cut to the records that are asked for.

use crate::publishing::published;
use crate::walks::{directory, shown};
use dd_selection::{Selection, select};
use dd_vectors::{ask_all, refuse_allocation, refuse_each, require, was_refused};
use dd_walk::read_directory;
use std::alloc::{AllocError, Global};
use std::test::Fail;

/// A directory, and the patients (P), studies (T), series (E) and instances (I) that are asked for. Then its File-set
/// ID, the records that are left, and how many items are not reached.
const LEFT: &str = "\
1234 > (320 PATIENT(404 STUDY(530 SERIES(622 IMAGE)(876 IMAGE))(1130 SERIES(1222 IMAGE))))\
(1476 PATIENT(1560 STUDY(1686 SERIES(1778 IMAGE)))) 0
1234 P:P2 > (1476 PATIENT(1560 STUDY(1686 SERIES(1778 IMAGE)))) 0
1234 P:P2__ > (1476 PATIENT(1560 STUDY(1686 SERIES(1778 IMAGE)))) 0
1234 P:P > 0
1234 P: > 0
1234 P:P2 P:P1 > (320 PATIENT(404 STUDY(530 SERIES(622 IMAGE)(876 IMAGE))(1130 SERIES(1222 IMAGE))))\
(1476 PATIENT(1560 STUDY(1686 SERIES(1778 IMAGE)))) 0
1234 T:1.2.3 > (320 PATIENT(404 STUDY(530 SERIES(622 IMAGE)(876 IMAGE))(1130 SERIES(1222 IMAGE)))) 0
1234 E:1.2.3.5 > (320 PATIENT(404 STUDY(1130 SERIES(1222 IMAGE)))) 0
1234 I:1.2.3.4.6 > (320 PATIENT(404 STUDY(530 SERIES(876 IMAGE)))) 0
1234 I:1.2.3.4.6 I:1.2.9.1.1 > (320 PATIENT(404 STUDY(530 SERIES(876 IMAGE))))\
(1476 PATIENT(1560 STUDY(1686 SERIES(1778 IMAGE)))) 0
1234 P:P1 E:1.2.3.5 E:1.2.9.1 > (320 PATIENT(404 STUDY(1130 SERIES(1222 IMAGE)))) 0
1234 P:P1 E:1.2.9.1 > 0
1234 E:1.2.3.4 I:1.2.3.5.1 > 0
1234 P:P1 T:1.2.3 E:1.2.3.4 I:1.2.3.4.5 > (320 PATIENT(404 STUDY(530 SERIES(622 IMAGE)))) 0
1234 T:P1 E:1.2.3 > 0
v3 I:1.2.3.4.5 > (320 PATIENT(412 STUDY(546 SERIES(646 IMAGE inactive)))) 0
v3 E:1.2.3.4 > (320 PATIENT(412 STUDY(546 SERIES(646 IMAGE inactive)(818 SR DOCUMENT)))) 0
v2 P:P1 > 0";

/// Gives the values after this prefix; `_` stands for a space.
fn values(alloc: Global, words: &str, prefix: &str) -> Result<Vec<String>, AllocError> {
    let mut values = Vec::new(alloc);
    for word in words.split(' ') {
        if let Some(value) = word.strip_prefix(prefix) {
            values.push(value.replace(alloc, "_", " ")?)?;
        }
    }
    Ok(values)
}

fn left(alloc: Global, question: &str) -> Result<String, Fail> {
    let (name, words) = question.split_once(' ').unwrap_or((question, ""));
    let bytes = directory(alloc, name)?;
    let (patients, studies) = (values(alloc, words, "P:")?, values(alloc, words, "T:")?);
    let (series, instances) = (values(alloc, words, "E:")?, values(alloc, words, "I:")?);
    let selection = Selection {
        patients: &patients,
        studies: &studies,
        series: &series,
        instances: &instances,
    };
    let mut forest = read_directory(alloc, &bytes)?;
    forest.trees = select(alloc, selection, forest.trees)?;
    shown(alloc, &forest)
}

#[test]
fn records_that_lie_under_all_that_is_asked_for(rt: HostRuntime) -> Result<(), Fail> {
    ask_all(rt.alloc(), LEFT, left)
}

/// One image of four, and the records that are left of it.
const ONE: &str = "(320 PATIENT(404 STUDY(530 SERIES(876 IMAGE)))) 0";

fn select_refused(alloc: Global, chosen: u32) -> Result<bool, Fail> {
    let bytes = published(alloc, "1234")?;
    let instances = values(alloc, "I:1.2.3.4.6", "I:")?;
    let selection = Selection {
        patients: &[],
        studies: &[],
        series: &[],
        instances: &instances,
    };
    let mut forest = read_directory(alloc, &bytes)?;
    refuse_allocation(alloc, chosen)?;
    let answer = select(alloc, selection, forest.trees);
    let refused = was_refused(alloc, answer.is_err())?;
    forest.trees = match answer {
        Ok(trees) => trees,
        Err(_) => select(alloc, selection, read_directory(alloc, &bytes)?.trees)?,
    };
    require(shown(alloc, &forest)?.as_str() == ONE, "one image is left")?;
    Ok(refused)
}

#[test]
fn allocations_of_select(rt: HostRuntime) -> Result<(), Fail> {
    refuse_each(rt.alloc(), select_refused)
}
