use crate::sets::allocations::is_memory;
use dd_elem::{Key, KeyRefused};
use dd_vectors::{refuse_in_turn, require};
use std::test::Fail;

/// A value that leaves 23 bytes without its padding.
const PADDED: &[u8] = b"ABCDEFGHIJKLMNOPQRSTUVW ";

/// These 23 bytes.
const CLEAN: &[u8] = b"ABCDEFGHIJKLMNOPQRSTUVW";

#[test]
fn allocations_of_copy_of(rt: HostRuntime) -> Result<(), Fail> {
    let alloc = rt.alloc();
    let key = refuse_in_turn(
        alloc,
        || Key::copy_of(alloc, PADDED),
        |fault| matches!(fault, KeyRefused::Memory),
    )?;
    require(key.as_bytes() == CLEAN, "the padding alone is gone")
}

/// Copies a key of more than 22 bytes, which its copies share.
#[test]
fn no_allocations_of_copy(rt: HostRuntime) -> Result<(), Fail> {
    let key = Key::copy_of(rt.alloc(), CLEAN)?;
    let copy = refuse_in_turn(rt.alloc(), || key.copy(), is_memory)?;
    require(key.as_bytes() == CLEAN, "the key is the same")?;
    require(copy == key, "the copy is equal")
}
