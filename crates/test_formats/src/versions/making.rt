use dd_elem::{Key, Ordered, Uid};
use dd_keys::{Parts, Version, version_of};
use dd_vectors::{ask_all, bytes_of, cut, fitting, parts_of, shown, v1};
use std::alloc::Global;
use std::cmp::Ordering;
use std::test::Fail;

/// V1 with other values, and what does not fit: each key empty that has to be there, another class, and other transfer
/// syntaxes. Then the least tag where two do not fit; then parts that fit.
const MISFITS: &str = "\
0008,0020 ' > (0008,0020) does not fit
0008,0030 ' > (0008,0030) does not fit
0008,0060 ' > (0008,0060) does not fit
0010,0020 ' > (0010,0020) does not fit
0020,0010 ' > (0020,0010) does not fit
0020,0011 ' > (0020,0011) does not fit
0020,0013 ' > (0020,0013) does not fit
0008,0016 '1.2.840.10008.5.1.4.1.1.88.11 > (0008,0016) does not fit
0002,0010 '1.2.840.10008.1.2.2 > (0002,0010) does not fit
0002,0010 '1.2.840.10008.1.2.4.52 > (0002,0010) does not fit
0020,0013 '; 0008,0030 ' > (0008,0030) does not fit
0020,0010 '; 0010,0020 ' > (0010,0020) does not fit
0008,0020 '; 0008,0016 '1.2.3 > (0008,0016) does not fit
0008,0020 '; 0002,0010 '1.2.3 > (0002,0010) does not fit
0010,0010 ' > fits
0010,0020 'P2 > fits
0002,0010 '1.2.840.10008.1.2 > fits
0002,0010 '1.2.840.10008.1.2.4.90 > fits
0002,0010 '1.2.840.10008.1.2.5 > fits";

/// Versions, each smaller than the next: the byte that the digest repeats, and what is not as in V1. Each next one has
/// a greater part that is compared earlier.
const RISING: &str = "\
01 0002,0010 '1.2.840.10008.1.2; 0008,0018 '1.2.3.4.6
01 0008,0018 '1.2.3.4.5
01 0008,0018 '1.2.3.4.6
01 0008,0016 '1.2.840.10008.5.1.4.1.1.4
01 0020,0013 '2
01 0020,0011 '2
01 0008,0060 'MR
01 0020,000E '1.2.3.5
01 0020,0010 '2
01 0008,1030 'Z
01 0008,0050 'A
01 0008,0030 '101600; 0008,1030 'A
01 0008,0020 '20240116
01 0020,000D '1.2.4
01 0010,0010 'ROE^JANE
01 0010,0020 'P10
02 0008,0018 '1.2.3.4.5";

fn key_at<'a>(parts: &'a mut Parts, tag: &str) -> Option<&'a mut Key> {
    match tag {
        "0008,0020" => Some(&mut parts.study.date),
        "0008,0030" => Some(&mut parts.study.time),
        "0008,0050" => Some(&mut parts.study.accession),
        "0008,0060" => Some(&mut parts.series.modality),
        "0008,1030" => Some(&mut parts.study.description),
        "0010,0010" => Some(&mut parts.patient.name),
        "0010,0020" => Some(&mut parts.patient.id),
        "0020,0010" => Some(&mut parts.study.id),
        "0020,0011" => Some(&mut parts.series.number),
        "0020,0013" => Some(&mut parts.number),
        _ => None,
    }
}

fn uid_at<'a>(parts: &'a mut Parts, tag: &str) -> Option<&'a mut Uid> {
    match tag {
        "0002,0010" => Some(&mut parts.transfer),
        "0008,0016" => Some(&mut parts.class),
        "0008,0018" => Some(&mut parts.instance),
        "0020,000D" => Some(&mut parts.study.uid),
        "0020,000E" => Some(&mut parts.series.uid),
        _ => None,
    }
}

fn put(alloc: Global, parts: &mut Parts, tag: &str, value: &[u8]) -> Result<(), Fail> {
    if let Some(uid) = uid_at(parts, tag) {
        *uid = Uid::new(value)?;
        return Ok(());
    }
    let key = key_at(parts, tag).ok_or("no part has this tag")?;
    *key = Key::copy_of(alloc, value)?;
    Ok(())
}

/// Gives the parts of V1 with these changes, `gggg,eeee VALUE` each, separated by `; `.
fn parts_with(alloc: Global, changes: &str) -> Result<Parts, Fail> {
    let mut parts = parts_of(&version_of(alloc, &v1(alloc)?)?)?;
    for change in changes.split("; ") {
        let (tag, value) = cut(change, " ")?;
        put(alloc, &mut parts, tag, &bytes_of(alloc, value)?)?;
    }
    Ok(parts)
}

fn misfit(alloc: Global, question: &str) -> Result<String, Fail> {
    match Version::of(parts_with(alloc, question)?) {
        Ok(_) => shown(alloc, "fits"),
        Err(misfit) => shown(alloc, misfit),
    }
}

#[test]
fn the_least_tag_that_does_not_fit(rt: HostRuntime) -> Result<(), Fail> {
    ask_all(rt.alloc(), MISFITS, misfit)
}

fn version(alloc: Global, line: &str) -> Result<Version, Fail> {
    let (digest, changes) = cut(line, " ")?;
    let mut parts = parts_with(alloc, changes)?;
    parts.digest = [digest.parse()?; 32];
    fitting(parts)
}

/// Compares the two, in both orders.
fn order(alloc: Global, left: &str, right: &str) -> Result<(Ordering, Ordering), Fail> {
    let left = version(alloc, left)?;
    let right = version(alloc, right)?;
    Ok((left.compare(&right), right.compare(&left)))
}

#[test]
fn versions_stand_in_the_order_of_their_parts(rt: HostRuntime) -> Result<(), Fail> {
    for (left, right) in RISING.split('\n').zip(RISING.split('\n').skip(1)) {
        let found = order(rt.alloc(), left, right)?;
        assert_eq!(rt; found, (Ordering::Less, Ordering::Greater), "of {left}");
    }
    Ok(())
}
