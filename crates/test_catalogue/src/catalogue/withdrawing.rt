//! What is withdrawn, and what it takes out.

use dd_catalogue::{
    Catalogue, Took, Withdrew, held_is_apart, held_of_held, kept_is_best_of_left, kept_of_all,
    kept_of_kept, kept_order_is_free, withdrawn_decides,
};
use dd_elem::Uid;
use dd_vectors::{ask_all, catalogue_of, claim_all, image, in_words, taken};
use std::alloc::Global;
use std::test::Fail;

/// Withdraws the instance, and says what became of it.
fn withdraw(alloc: Global, catalogue: &mut Catalogue, uid: &str) -> Result<String, Fail> {
    match catalogue.withdraw(Uid::new(uid.as_bytes())?) {
        Ok(Withdrew::New(None)) => Ok(String::from_str(alloc, "New none")?),
        Ok(Withdrew::New(Some(version))) => {
            let version = in_words(alloc, &version)?;
            Ok(format!(in alloc; "New {version}")?)
        }
        Ok(Withdrew::Already) => Ok(String::from_str(alloc, "Already")?),
        Err(_) => Err("no memory".into()),
    }
}

/// Takes a version whose instance is withdrawn.
fn take(alloc: Global, catalogue: &mut Catalogue, letter: &str) -> Result<String, Fail> {
    let letter = letter.chars().next().ok_or("no letter")?;
    match catalogue.take(image(alloc, letter)?) {
        Ok(Took::Withdrawn(given)) => {
            let given = in_words(alloc, &given)?;
            Ok(format!(in alloc; "Withdrawn {given}")?)
        }
        _ => Err("it is not withdrawn".into()),
    }
}

/// Calls on a catalogue, and what each answers: `/` withdraws an instance, and a letter is taken. Then how many
/// versions and how many withdrawn instances the catalogue has.
const CALLS: &str = "\
1 /1.2.3.4.6 > New none, 1 1
1 /1.2.3.4.5 /1.2.3.4.5 1 > New 170 ' 1.2.3.4.5, Already, Withdrawn 170 ' 1.2.3.4.5, 0 1";

/// Makes the catalogue of the letter before the calls, and then these.
fn called(alloc: Global, question: &str) -> Result<String, Fail> {
    let (letter, calls) = question.split_once(' ').ok_or("no calls")?;
    let mut catalogue = taken(alloc, letter)?;
    let mut text = String::new(alloc);
    for call in calls.split(' ') {
        let answer = match call.strip_prefix('/') {
            Some(uid) => withdraw(alloc, &mut catalogue, uid)?,
            None => take(alloc, &mut catalogue, call)?,
        };
        text.push_str(answer.as_str())?;
        text.push_str(", ")?;
    }
    let (held, gone) = (catalogue.len(), catalogue.withdrawn().len());
    Ok(format!(in alloc; "{text}{held} {gone}")?)
}

/// Two catalogues, and what their merge is equal to. What stands after a `/` is withdrawn.
const MERGES: &str = "\
1+/1.2.3.4.5=1/1.2.3.4.5
/1.2.3.4.5+1=1/1.2.3.4.5
/1.2.3.4.5+=1/1.2.3.4.5
12+/1.2.3.4.5=2/1.2.3.4.5";

fn is_equal(alloc: Global, case: &str) -> Result<bool, Fail> {
    let (sides, whole) = case.split_once('=').ok_or("no whole")?;
    let (left, right) = sides.split_once('+').ok_or("one catalogue")?;
    let mut merged = catalogue_of(alloc, left)?;
    merged.merge(&catalogue_of(alloc, right)?)?;
    Ok(merged == catalogue_of(alloc, whole)? && merged != Catalogue::new(alloc))
}

#[test]
fn what_is_withdrawn_is_not_taken(rt: HostRuntime) -> Result<(), Fail> {
    ask_all(rt.alloc(), CALLS, called)?;
    claim_all(rt.alloc(), MERGES, '\n', is_equal)
}

/// The laws are proved.
#[test]
fn laws_of_withdrawing() {
    withdrawn_decides();
    kept_is_best_of_left();
    kept_of_all();
    kept_of_kept();
    kept_order_is_free();
    held_is_apart();
    held_of_held();
}
