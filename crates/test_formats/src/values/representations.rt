//! Value representations.

use dd_elem::Vr;
use std::alloc::Global;
use std::test::Fail;

/// The 13 representations with a long header, and the 21 others (PS3.5 section 7.1.2).
const LONG: &str = "OB OD OF OL OV OW SQ SV UC UN UR UT UV";

const SHORT: &str = "AE AS AT CS DA DS DT FD FL IS LO LT PN SH SL SS ST TM UI UL US";

/// Do these letters name the representation with this name and these letters?
fn is_named(alloc: Global, name: &str, is_long: bool) -> Result<bool, Fail> {
    let letters: [u8; 2] = name.as_bytes().try_into()?;
    let vr = Vr::from_letters(letters).ok_or("the letters name none")?;
    let has_name = format!(in alloc; "{vr:?}")?.as_str() == name;
    Ok(has_name && vr.letters() == letters && vr.is_long() == is_long)
}

#[test]
fn letters_name_34_representations_and_others_none(rt: HostRuntime) -> Result<(), Fail> {
    for (names, is_long) in [(LONG, true), (SHORT, false)] {
        for name in names.split(' ') {
            assert!(rt; is_named(rt.alloc(), name, is_long)?, "of {name}");
        }
    }
    for letters in [*b"ZZ", *b"lo", *b"OX", *b"  ", [0, 0]] {
        assert_eq!(rt; Vr::from_letters(letters), None);
    }
    Ok(())
}
