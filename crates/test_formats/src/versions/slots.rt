use dd_slots::{Lanes, Slot, digest_slots};
use dd_vectors::{ask_all, require};
use std::alloc::Global;
use std::test::Fail;

/// How many zeros a slot takes, and their SHA-256.
const ZEROS: &str = "\
0 > e3b0c44298fc1c149afbf4c8996fb92427ae41e4649b934ca495991b7852b855
65537 > 3266304f31be278d06c3bd3eb9aa3e00c59bedec0a890de466568b0b90b0e01f";

/// How many zeros each of four slots takes, and the SHA-256 of each.
const FOUR: &str = "\
0 1 65537 2 > \
e3b0c44298fc1c149afbf4c8996fb92427ae41e4649b934ca495991b7852b855 \
6e340b9cffb37a989ca544e6bb780a2c78901d3fb33738768511a30617afa01d \
3266304f31be278d06c3bd3eb9aa3e00c59bedec0a890de466568b0b90b0e01f \
96a296d224f285c67bee93c30f8a309157f0daa35dc5b87e410b78630a09cfc7";

fn slot_of_zeros(alloc: Global, size: &str) -> Result<Slot, Fail> {
    let size: usize = size.parse()?;
    let zeros = [0; 4096];
    let mut slot = Slot::new(alloc);
    for _ in 0..size / 4096 {
        slot.take(&zeros);
    }
    slot.take(&zeros[..size % 4096]);
    Ok(slot)
}

fn zeros(alloc: Global, question: &str) -> Result<String, Fail> {
    let slot = slot_of_zeros(alloc, question)?;
    Ok(hex::encode(alloc, slot.digest())?)
}

#[test]
fn a_slot_keeps_8_mib(rt: HostRuntime) -> Result<(), Fail> {
    let slot = slot_of_zeros(rt.alloc(), "8388608")?;
    let bytes = slot.bytes().ok_or("the slot hashes")?;
    require(bytes.len() == 8_388_608, "the slot has all bytes")
}

fn slots_of_zeros(alloc: Global, sizes: &str) -> Result<Vec<Slot>, Fail> {
    let mut slots = Vec::new(alloc);
    for size in sizes.split(' ') {
        slots.push(slot_of_zeros(alloc, size)?)?;
    }
    Ok(slots)
}

fn in_hex(alloc: Global, digests: &[[u8; 32]]) -> Result<String, Fail> {
    let mut text = String::new(alloc);
    for digest in digests {
        let space = if text.is_empty() { "" } else { " " };
        let digits = hex::encode(alloc, *digest)?;
        write!(text, "{space}{digits}")?;
    }
    Ok(text)
}

/// The digests of slots in this order and in the other, in each way to digest.
fn four(alloc: Global, question: &str) -> Result<String, Fail> {
    let slots = slots_of_zeros(alloc, question)?;
    let [a, b, c, d] = slots.as_slice() else {
        return Err("not four slots".into());
    };
    let (front, back) = digest_slots(Lanes::Four, (a, b, c, d), (d, c, b, a));
    let is_turned = back == (front.3, front.2, front.1, front.0);
    let eight = digest_slots(Lanes::Eight, (a, b, c, d), (d, c, b, a));
    require(
        is_turned && eight == (front, back),
        "the order or the way gives other digests",
    )?;
    in_hex(alloc, &[front.0, front.1, front.2, front.3])
}

#[test]
fn slots_have_the_digests_of_their_bytes(rt: HostRuntime) -> Result<(), Fail> {
    require(Lanes::Four.count() == 4, "not four")?;
    require(Lanes::Eight.count() == 8, "not eight")?;
    ask_all(rt.alloc(), ZEROS, zeros)?;
    ask_all(rt.alloc(), FOUR, four)
}

#[test]
fn a_slot_that_hashes_leaves_others_their_digests(rt: HostRuntime) -> Result<(), Fail> {
    let (long, short) = (
        slot_of_zeros(rt.alloc(), "8388609")?,
        slot_of_zeros(rt.alloc(), "1")?,
    );
    require(long.bytes().is_none(), "the slot keeps its bytes")?;
    let (one, other) = (long.digest(), short.digest());
    for lanes in [Lanes::Four, Lanes::Eight] {
        let found = digest_slots(
            lanes,
            (&short, &short, &short, &short),
            (&short, &long, &short, &short),
        );
        require(
            found == ((other, other, other, other), (other, one, other, other)),
            "a digest is another",
        )?;
    }
    Ok(())
}
