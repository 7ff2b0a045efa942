//! Joins of versions, of catalogues and of histories.

use dd_catalogue::{
    Catalogue, History, best_is_best, best_is_one, best_of_bests, build, build_order_is_free,
    equal_is_same, gather, gather_order_is_free, join_is_lawful, join_order_is_free,
};
use dd_vectors::{ask_all, claim_all, images, taken, text_of};
use dd_version::Version;
use std::alloc::Global;
use std::test::Fail;

/// Between `+` the letters that are taken together, and then joined in turn. Each gives the four images.
const FOUR: &str = "1234 4213 43+212 212+43 +43+212+43 43+212+43+212 212++43 3+1+4+2";

/// Versions that are joined, and the description that the greater one has.
const DESCRIBED: &str = "\
AB > 'B
BA > 'B
ABA > 'B
A > 'A";

/// The catalogue of each group.
pub(crate) fn catalogues(alloc: Global, groups: &str) -> Result<Vec<Catalogue>, Fail> {
    let mut catalogues = Vec::new(alloc);
    for letters in groups.split('+') {
        catalogues.push(taken(alloc, letters)?)?;
    }
    Ok(catalogues)
}

/// A batch of each group, or an empty merge where it has no letters.
pub(crate) fn batches(alloc: Global, groups: &str) -> Result<Vec<History>, Fail> {
    let mut parts = Vec::new(alloc);
    for letters in groups.split('+') {
        parts.push(if letters.is_empty() {
            History::Merge(Vec::new(alloc))
        } else {
            History::Batch(images(alloc, letters)?)
        })?;
    }
    Ok(parts)
}

/// Does the catalogue, and does its copy, hold the four images?
fn holds_four(alloc: Global, catalogue: &Catalogue) -> Result<bool, Fail> {
    let four = taken(alloc, "1234")?;
    Ok(*catalogue == four && catalogue.copy()? == four)
}

/// Are the four images merged, joined and built of these groups?
fn are_four(alloc: Global, groups: &str) -> Result<bool, Fail> {
    let all = catalogues(alloc, groups)?;
    let mut merged = Catalogue::new(alloc);
    for one in &all {
        merged.merge(one)?;
    }
    let mut gathered = Catalogue::new(alloc);
    gather(&mut gathered, &all)?;
    let built = build(alloc, &History::Merge(batches(alloc, groups)?))?;
    Ok(holds_four(alloc, &merged)? && gathered == merged && built == merged)
}

#[test]
fn joins_have_no_order(rt: HostRuntime) -> Result<(), Fail> {
    claim_all(rt.alloc(), FOUR, ' ', are_four)
}

/// The description of the first version, joined with the others.
fn described(alloc: Global, question: &str) -> Result<String, Fail> {
    let mut versions = images(alloc, question)?;
    let (first, rest) = versions.split_first_mut().ok_or("there is none")?;
    gather(first, rest)?;
    Ok(text_of(alloc, first.parts().study.description.as_bytes())?)
}

#[test]
fn the_join_of_versions_is_the_greater_one(rt: HostRuntime) -> Result<(), Fail> {
    ask_all(rt.alloc(), DESCRIBED, described)
}

/// The laws are proved; they hold of the types that are joined.
#[test]
fn laws_of_joining() {
    join_is_lawful::<Version>();
    join_is_lawful::<Catalogue>();
    join_order_is_free::<Version>();
    join_order_is_free::<Catalogue>();
    gather_order_is_free::<Catalogue>();
    build_order_is_free();
    best_is_best();
    best_is_one();
    best_of_bests();
    equal_is_same();
}
