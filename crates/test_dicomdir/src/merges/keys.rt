//! The keys that images have after a merge of catalogues, and after one of their directories.

use crate::merges::directories::{directories, label, slices, widest};
use dd_layout::lay_out;
use dd_records::Label;
use dd_vectors::{ask_all, catalogue_of, in_words};
use dd_version::Version;
use dicomdir::{Choice, merge_engine};
use std::alloc::Global;
use std::test::Fail;

/// Images of two catalogues; and each image in their join: the first byte of its digest, the description of its study,
/// and its instance. Study descriptions agree only after the join, so that an image that is withdrawn gives its study
/// nothing.
const CATALOGUES: &str = "\
xy z > 2 'B 1.2.3.4.5, 1 'B 1.2.3.4.6
z xy > 2 'B 1.2.3.4.5, 1 'B 1.2.3.4.6
1 C > 170 'B 1.2.3.4.5, 170 'B 1.2.3.4.6
BD /1.2.3.4.5 > 170 'A 1.2.3.4.6
/1.2.3.4.5 BD > 170 'A 1.2.3.4.6";

/// Directories, and each image of their merge, likewise. In a directory each study has one description, which stays
/// where the image that gave it is withdrawn by another.
const DIRECTORIES: &str = "\
xy z > 2 'Z 1.2.3.4.5, 1 'Z 1.2.3.4.6
z xy > 2 'Z 1.2.3.4.5, 1 'Z 1.2.3.4.6
z > 2 'B 1.2.3.4.5
AC > 170 'B 1.2.3.4.5, 170 'B 1.2.3.4.6
1 C > 170 'B 1.2.3.4.5, 170 'B 1.2.3.4.6
BD /1.2.3.4.5 > 170 'B 1.2.3.4.6
/1.2.3.4.5 BD > 170 'B 1.2.3.4.6
BD/1.2.3.4.5 1 > 170 'A 1.2.3.4.6";

fn all_told(alloc: Global, versions: &[Version]) -> Result<String, Fail> {
    let mut text = String::new(alloc);
    for version in versions {
        if !text.is_empty() {
            text.push_str(", ")?;
        }
        text.push_str(in_words(alloc, version)?.as_str())?;
    }
    Ok(text)
}

fn joined(alloc: Global, question: &str) -> Result<String, Fail> {
    let (one, other) = question.split_once(' ').ok_or("no other")?;
    let mut catalogue = catalogue_of(alloc, one)?;
    catalogue.merge(&catalogue_of(alloc, other)?)?;
    let plan = lay_out(alloc, &catalogue, &label()?, widest()?)?;
    all_told(alloc, plan.versions())
}

fn merged(alloc: Global, question: &str) -> Result<String, Fail> {
    let sets = directories(alloc, question)?;
    let sets = slices(alloc, &sets)?;
    let Label { id, uid } = label()?;
    let uid = Some(uid);
    let merged = merge_engine(alloc, &sets, &Choice { id, uid }, widest()?)?;
    all_told(alloc, merged.plan.versions())
}

#[test]
fn studies_agree_after_the_join(rt: HostRuntime) -> Result<(), Fail> {
    ask_all(rt.alloc(), CATALOGUES, joined)?;
    ask_all(rt.alloc(), DIRECTORIES, merged)
}
