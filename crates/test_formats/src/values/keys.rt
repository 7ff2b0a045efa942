//! Padding, keys, and the order of keys and UIDs.

use dd_elem::{Key, KeyRefused, Ordered, Uid, clean};
use dd_vectors::{ask_all, bytes_of, text_of};
use std::alloc::Global;
use std::cmp::Ordering;
use std::test::Fail;

/// Values, and what is left of them without padding. Two are of 22 and 23 bytes.
const CLEAN: &str = "\
'AB_~_ > 'AB
'_A > '_A
'__ > '
'1.2.3~ > '1.2.3
' > '
'DOE^JOHN > 'DOE^JOHN
'_A_~ > '_A
'ABCDEFGHIJKLMNOPQRSTUV_ > 'ABCDEFGHIJKLMNOPQRSTUV
'ABCDEFGHIJKLMNOPQRSTUVW_ > 'ABCDEFGHIJKLMNOPQRSTUVW";

/// Keys, each smaller than the next.
const KEYS: &str = "' '1 '10 '9 'A 'AB 'ABCDEFGHIJKLMNOPQRSTUV 'ABCDEFGHIJKLMNOPQRSTUVW 'B 'a";

/// UIDs, each smaller than the next.
const UIDS: &str = "1.10 1.2 1.2.3 1.2.840.10008.1.2 2.25.0";

fn cleaned(alloc: Global, question: &str) -> Result<String, Fail> {
    let bytes = bytes_of(alloc, question)?;
    Ok(text_of(alloc, clean(&bytes))?)
}

/// The key of the bytes that a word names.
fn key_of(alloc: Global, word: &str) -> Result<Key, Fail> {
    Ok(Key::copy_of(alloc, &bytes_of(alloc, word)?)?)
}

/// What the key of these bytes holds, or an error where its copy is another key.
fn kept(alloc: Global, question: &str) -> Result<String, Fail> {
    let key = key_of(alloc, question)?;
    if key.copy()? != key {
        return Err("the copy is another key".into());
    }
    Ok(text_of(alloc, key.as_bytes())?)
}

#[test]
fn values_and_keys_have_no_padding(rt: HostRuntime) -> Result<(), Fail> {
    ask_all(rt.alloc(), CLEAN, cleaned)?;
    ask_all(rt.alloc(), CLEAN, kept)
}

#[test]
fn keys_have_1024_bytes(rt: HostRuntime) -> Result<(), Fail> {
    let mut padded = [b'A'; 1026];
    padded[1024] = b' ';
    padded[1025] = b' ';
    let key = Key::copy_of(rt.alloc(), &padded)?;
    assert_eq!(rt; key.as_bytes(), [b'A'; 1024].as_slice());
    let refused = Key::copy_of(rt.alloc(), &[b'A'; 1025]).err();
    assert_eq!(rt; refused, Some(KeyRefused::TooLong));
    Ok(())
}

/// Compares two keys, and then the second with the first.
fn order_of_keys(alloc: Global, left: &str, right: &str) -> Result<(Ordering, Ordering), Fail> {
    let left = key_of(alloc, left)?;
    let right = key_of(alloc, right)?;
    Ok((left.compare(&right), right.compare(&left)))
}

#[test]
fn keys_stand_in_dictionary_order(rt: HostRuntime) -> Result<(), Fail> {
    for (left, right) in KEYS.split(' ').zip(KEYS.split(' ').skip(1)) {
        let found = order_of_keys(rt.alloc(), left, right)?;
        assert_eq!(rt; found, (Ordering::Less, Ordering::Greater), "of {left}");
    }
    Ok(())
}

/// Compares two UIDs, and then the second with the first.
fn order_of_uids(left: &str, right: &str) -> Result<(Ordering, Ordering), Fail> {
    let left = Uid::new(left.as_bytes())?;
    let right = Uid::new(right.as_bytes())?;
    Ok((left.compare(&right), right.compare(&left)))
}

#[test]
fn uids_stand_in_dictionary_order(rt: HostRuntime) -> Result<(), Fail> {
    for (left, right) in UIDS.split(' ').zip(UIDS.split(' ').skip(1)) {
        let found = order_of_uids(left, right)?;
        assert_eq!(rt; found, (Ordering::Less, Ordering::Greater), "of {left}");
    }
    Ok(())
}
