//! What a catalogue takes, hands back and keeps.

use dd_catalogue::{Catalogue, Refused, Took};
use dd_elem::Uid;
use dd_vectors::{ask_all, image, in_words, taken};
use dd_version::Version;
use std::alloc::Global;
use std::test::Fail;

/// What becomes of each version that is taken in turn, with the one that is handed back, and what the
/// catalogue holds in the end.
const TAKES: &str = "\
43 > New; New; holds 170 ' 1.2.3.5.1, 170 ' 1.2.9.1.1
212 > New; New; Kept 170 ' 1.2.3.4.6; holds 170 ' 1.2.3.4.5, 170 ' 1.2.3.4.6
ab > New; Replaced 1 ' 1.2.3.4.5; holds 2 ' 1.2.3.4.5
ba > New; Kept 1 ' 1.2.3.4.5; holds 2 ' 1.2.3.4.5
AB > New; Replaced 170 'A 1.2.3.4.5; holds 170 'B 1.2.3.4.5
BA > New; Kept 170 'A 1.2.3.4.5; holds 170 'B 1.2.3.4.5";

/// Instances, and whether the catalogue of the first two images has a version of them.
const GOT: &str = "\
1.2.3.4.5 > 170 ' 1.2.3.4.5
1.2.3.4.6 > 170 ' 1.2.3.4.6
1.2.3.4.7 > none
1.2.3.4 > none";

/// Takes a version, and says what became of it.
fn take(alloc: Global, catalogue: &mut Catalogue, version: Version) -> Result<String, Fail> {
    match catalogue.take(version) {
        Ok(Took::New) => Ok(String::from_str(alloc, "New")?),
        Ok(Took::Replaced(old)) => {
            let old = in_words(alloc, &old)?;
            Ok(format!(in alloc; "Replaced {old}")?)
        }
        Ok(Took::Kept(given)) => {
            let given = in_words(alloc, &given)?;
            Ok(format!(in alloc; "Kept {given}")?)
        }
        Ok(Took::Withdrawn(_)) => Err("it is withdrawn".into()),
        Err(_) => Err("no memory".into()),
    }
}

/// Puts what the catalogue holds after the text.
fn push_held(alloc: Global, text: &mut String, catalogue: &Catalogue) -> Result<(), Fail> {
    text.push_str("holds")?;
    for (place, version) in catalogue.versions().iter().enumerate() {
        text.push_str(if place == 0 { " " } else { ", " })?;
        text.push_str(in_words(alloc, version)?.as_str())?;
    }
    Ok(())
}

fn takes(alloc: Global, question: &str) -> Result<String, Fail> {
    let mut catalogue = Catalogue::new(alloc);
    let mut text = String::new(alloc);
    for letter in question.chars() {
        text.push_str(take(alloc, &mut catalogue, image(alloc, letter)?)?.as_str())?;
        text.push_str("; ")?;
    }
    push_held(alloc, &mut text, &catalogue)?;
    Ok(text)
}

fn got(alloc: Global, question: &str) -> Result<String, Fail> {
    let catalogue = taken(alloc, "12")?;
    match catalogue.get(&Uid::new(question.as_bytes())?) {
        Some(version) => in_words(alloc, version),
        None => Ok(String::from_str(alloc, "none")?),
    }
}

#[test]
fn the_greatest_version_of_each_instance_stays(rt: HostRuntime) -> Result<(), Fail> {
    ask_all(rt.alloc(), TAKES, takes)?;
    ask_all(rt.alloc(), GOT, got)
}

#[test]
fn a_refusal_in_words(rt: HostRuntime) -> Result<(), Fail> {
    let back = image(rt.alloc(), '1')?;
    let refused = Refused { back };
    assert_eq!(rt; format!(in rt.alloc(); "{refused}")?.as_str(), "91 Memory");
    Ok(())
}
