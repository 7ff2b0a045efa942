//! Conflicts between the versions of a catalogue, and the keys on which they agree in harmony.

use dd_catalogue::{Catalogue, Harmony, HarmonyChanges, Kept, Withdrawals};
use dd_elem::Uid;
use dd_vectors::{ask_all, images, taken, text_of};
use dd_version::Parts;
use std::alloc::Global;
use std::test::Fail;

/// Catalogues, and the two instances that conflict: one series in two studies, one study of two patients.
const CONFLICTS: &str = "\
1234 > none
15 > 1.2.3.4.5 1.2.8.4.1
51 > 1.2.3.4.5 1.2.8.4.1
6251 > 1.2.3.4.5 1.2.3.4.7
16 > 1.2.3.4.5 1.2.3.4.7";

/// Catalogues, and of each instance the time and the description of its study in harmony. The keys of a
/// study are taken together from the version with the greatest.
const HARMONIES: &str = "\
12 > 1.2.3.4.5 101500 ', 1.2.3.4.6 101500 '
AC > 1.2.3.4.5 101500 'B, 1.2.3.4.6 101500 'B
ZL > 1.2.3.4.5 101600 'A, 1.2.3.4.6 101600 'A
Z4 > 1.2.3.4.5 101500 'Z, 1.2.9.1.1 101500 '";

fn conflict(alloc: Global, question: &str) -> Result<String, Fail> {
    let catalogue = taken(alloc, question)?;
    match catalogue.conflict()? {
        Some((first, second)) => Ok(format!(in alloc; "{first} {second}")?),
        None => Ok(String::from_str(alloc, "none")?),
    }
}

/// Puts the instance, and the time and the description of its study, after the text.
pub(crate) fn push_study(alloc: Global, text: &mut String, parts: &Parts) -> Result<(), Fail> {
    if !text.is_empty() {
        text.push_str(", ")?;
    }
    text.push_str(str::from_utf8(parts.instance.as_bytes())?)?;
    text.push(' ')?;
    text.push_str(str::from_utf8(parts.study.time.as_bytes())?)?;
    text.push(' ')?;
    text.push_str(text_of(alloc, parts.study.description.as_bytes())?.as_str())?;
    Ok(())
}

/// The studies of all instances.
pub(crate) fn studies(alloc: Global, catalogue: &Catalogue) -> Result<String, Fail> {
    let mut text = String::new(alloc);
    for version in catalogue.versions() {
        push_study(alloc, &mut text, version.parts())?;
    }
    Ok(text)
}

fn harmony(alloc: Global, question: &str) -> Result<String, Fail> {
    let catalogue = taken(alloc, question)?;
    let harmonised = catalogue.harmonise()?;
    studies(alloc, &harmonised)
}

/// Makes the catalogue of the list itself, or finds what conflicts in it.
fn of_list(alloc: Global, question: &str, withdrawn: Withdrawals) -> Result<Harmony, Fail> {
    let versions = images(alloc, question)?;
    let found = Kept::of(alloc, &versions, &withdrawn)?.changes_or_conflict(alloc)?;
    Ok(match found {
        HarmonyChanges::Found(changes) => {
            Harmony::Found(Catalogue::from_list(versions, withdrawn, changes))
        }
        HarmonyChanges::Conflict(one, other) => Harmony::Conflict(one, other),
    })
}

/// The studies of all instances in harmony, or the two that conflict.
fn in_words(alloc: Global, answer: &Harmony) -> Result<String, Fail> {
    match answer {
        Harmony::Found(harmony) => studies(alloc, harmony),
        Harmony::Conflict(first, second) => Ok(format!(in alloc; "{first} {second}")?),
    }
}

fn list_told(alloc: Global, question: &str) -> Result<String, Fail> {
    in_words(alloc, &of_list(alloc, question, Withdrawals::new(alloc))?)
}

#[test]
fn a_list_becomes_its_catalogue_in_harmony(rt: HostRuntime) -> Result<(), Fail> {
    ask_all(rt.alloc(), HARMONIES, list_told)?;
    ask_all(rt.alloc(), CONFLICTS_ALONE, list_told)?;
    let mut uids = Vec::new(rt.alloc());
    uids.push(Uid::new(b"1.2.3.4.5")?)?;
    let list = of_list(rt.alloc(), "2A1CA2", Withdrawals::from_list(uids))?;
    let Harmony::Found(left) = list else {
        return Err("two versions conflict".into());
    };
    assert_eq!(rt; studies(rt.alloc(), &left)?.as_str(), "1.2.3.4.6 101500 'B");
    assert_eq!(rt; left.withdrawn().len(), 1);
    Ok(())
}

fn harmony_or_conflict(alloc: Global, question: &str) -> Result<String, Fail> {
    in_words(alloc, &taken(alloc, question)?.harmonise_or_conflict()?)
}

/// Catalogues with two instances that conflict, and these.
const CONFLICTS_ALONE: &str = "\
15 > 1.2.3.4.5 1.2.8.4.1
6251 > 1.2.3.4.5 1.2.3.4.7";

#[test]
fn harmonised_versions_agree_or_two_conflict(rt: HostRuntime) -> Result<(), Fail> {
    ask_all(rt.alloc(), CONFLICTS, conflict)?;
    ask_all(rt.alloc(), HARMONIES, harmony)?;
    ask_all(rt.alloc(), HARMONIES, harmony_or_conflict)?;
    ask_all(rt.alloc(), CONFLICTS_ALONE, harmony_or_conflict)
}
