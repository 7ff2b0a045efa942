use crate::sets::outlines::outline;
use crate::sets::spellings::{IMAGES, PATIENT_ID, set_of, spelled};
use dd_elem::Tag;
use dd_set::{DataSet, Element, Syntax, Value};
use dd_vectors::{ask_all, shown, tag_of, text_of};
use std::alloc::Global;
use std::test::Fail;

/// Data sets, and what they hold: one element in both syntaxes, none, and a sequence of both forms of length. Then one
/// of unknown value representation, whose items are in Implicit VR, one in Implicit VR, and two items after another
/// element.
const SETS: &str = "\
explicit 10002000 4c4f 0200 5031 > (0010,0020) LO 'P1
implicit 10002000 02000000 5031 > (0010,0020) - 'P1
explicit ' > 
implicit ' > 
explicit 08004011 5351 0000 12000000 feff00e0 0a000000 10002000 4c4f 0200 5031 > \
(0008,1140) SQ Defined Defined [(0010,0020) LO 'P1]
explicit 08004011 5351 0000 ffffffff feff00e0 ffffffff 10002000 4c4f 0200 5031 \
feff0de0 00000000 feffdde0 00000000 > \
(0008,1140) SQ Undefined Undefined [(0010,0020) LO 'P1]
explicit 09000110 554e 0000 ffffffff feff00e0 ffffffff 10002000 02000000 5031 \
feff0de0 00000000 feffdde0 00000000 > \
(0009,1001) UN Undefined Undefined [(0010,0020) - 'P1]
implicit 08004011 ffffffff feff00e0 0a000000 10002000 02000000 5031 feffdde0 00000000 > \
(0008,1140) - Undefined Defined [(0010,0020) - 'P1]
explicit 08006000 4353 0200 4354 08004011 5351 0000 1a000000 feff00e0 00000000 \
feff00e0 0a000000 10002000 4c4f 0200 5031 > \
(0008,0060) CS 'CT; (0008,1140) SQ Defined Defined [] Defined [(0010,0020) LO 'P1]";

/// Data sets in an encapsulated syntax. First pixel data in fragments: two, none at all, an empty offset table alone
/// and one that is not empty. Then two in an item of each form of length, and two before another element. Last pixel
/// data that is bytes, items in Implicit VR, and one other element.
const ENCAPSULATED_SETS: &str = "\
encapsulated e07f1000 4f42 0000 ffffffff feff00e0 00000000 feff00e0 04000000 ff4fff51 feffdde0 00000000 > \
(7FE0,0010) OB Fragments [] [ff4fff51]
encapsulated e07f1000 4f42 0000 ffffffff feffdde0 00000000 > (7FE0,0010) OB Fragments
encapsulated e07f1000 4f42 0000 ffffffff feff00e0 00000000 feffdde0 00000000 > \
(7FE0,0010) OB Fragments []
encapsulated e07f1000 4f42 0000 ffffffff feff00e0 04000000 00000000 feffdde0 00000000 > \
(7FE0,0010) OB Fragments [00000000]
encapsulated 08004011 5351 0000 ffffffff feff00e0 ffffffff e07f1000 4f42 0000 ffffffff \
feff00e0 00000000 feff00e0 04000000 ff4fff51 feffdde0 00000000 feff0de0 00000000 feffdde0 00000000 > \
(0008,1140) SQ Undefined Undefined [(7FE0,0010) OB Fragments [] [ff4fff51]]
encapsulated 08004011 5351 0000 30000000 feff00e0 28000000 e07f1000 4f42 0000 ffffffff \
feff00e0 00000000 feff00e0 04000000 ff4fff51 feffdde0 00000000 > \
(0008,1140) SQ Defined Defined [(7FE0,0010) OB Fragments [] [ff4fff51]]
encapsulated e07f1000 4f42 0000 ffffffff feff00e0 00000000 feff00e0 04000000 ff4fff51 feffdde0 00000000 \
fcfffcff 4f42 0000 02000000 5031 > \
(7FE0,0010) OB Fragments [] [ff4fff51]; (FFFC,FFFC) OB 'P1
encapsulated e07f1000 4f42 0000 02000000 5031 > (7FE0,0010) OB 'P1
encapsulated 09000110 554e 0000 ffffffff feff00e0 ffffffff 10002000 02000000 5031 \
feff0de0 00000000 feffdde0 00000000 > \
(0009,1001) UN Undefined Undefined [(0010,0020) - 'P1]
encapsulated 10002000 4c4f 0200 5031 > (0010,0020) LO 'P1";

/// The sets of the first table, and their sizes in Explicit, in Implicit VR and in an encapsulated syntax. Then where
/// the items of the last element start in the spelling that was read.
const SIZES: &str = "\
explicit 10002000 4c4f 0200 5031 > Some(10) None Some(10), None
implicit 10002000 02000000 5031 > None Some(10) None, None
explicit ' > Some(0) Some(0) Some(0), None
explicit 08004011 5351 0000 12000000 feff00e0 0a000000 10002000 4c4f 0200 5031 > \
Some(30) None Some(30), Some([12])
explicit 08004011 5351 0000 ffffffff feff00e0 ffffffff 10002000 4c4f 0200 5031 \
feff0de0 00000000 feffdde0 00000000 > Some(46) None Some(46), Some([12])
explicit 09000110 554e 0000 ffffffff feff00e0 ffffffff 10002000 02000000 5031 \
feff0de0 00000000 feffdde0 00000000 > Some(46) None Some(46), Some([12])
implicit 08004011 ffffffff feff00e0 0a000000 10002000 02000000 5031 feffdde0 00000000 > \
None Some(34) None, Some([8])
explicit 08006000 4353 0200 4354 08004011 5351 0000 1a000000 feff00e0 00000000 \
feff00e0 0a000000 10002000 4c4f 0200 5031 > Some(48) None Some(48), Some([22, 30])";

/// The sets in an encapsulated syntax, and fragments before a sequence.
const ENCAPSULATED_SIZES: &str = "\
encapsulated e07f1000 4f42 0000 ffffffff feff00e0 00000000 feff00e0 04000000 ff4fff51 feffdde0 00000000 > \
None None Some(40), None
encapsulated e07f1000 4f42 0000 ffffffff feffdde0 00000000 > None None Some(20), None
encapsulated e07f1000 4f42 0000 ffffffff feff00e0 00000000 feffdde0 00000000 > \
None None Some(28), None
encapsulated e07f1000 4f42 0000 ffffffff feff00e0 04000000 00000000 feffdde0 00000000 > \
None None Some(32), None
encapsulated 08004011 5351 0000 ffffffff feff00e0 ffffffff e07f1000 4f42 0000 ffffffff \
feff00e0 00000000 feff00e0 04000000 ff4fff51 feffdde0 00000000 feff0de0 00000000 feffdde0 00000000 > \
None None Some(76), Some([12])
encapsulated 08004011 5351 0000 30000000 feff00e0 28000000 e07f1000 4f42 0000 ffffffff \
feff00e0 00000000 feff00e0 04000000 ff4fff51 feffdde0 00000000 > \
None None Some(60), Some([12])
encapsulated e07f1000 4f42 0000 ffffffff feff00e0 00000000 feff00e0 04000000 ff4fff51 feffdde0 00000000 \
fafffaff 5351 0000 12000000 feff00e0 0a000000 10002000 4c4f 0200 5031 > \
None None Some(70), Some([52])
encapsulated e07f1000 4f42 0000 02000000 5031 > Some(14) None Some(14), None
encapsulated 09000110 554e 0000 ffffffff feff00e0 ffffffff 10002000 02000000 5031 \
feff0de0 00000000 feffdde0 00000000 > Some(46) None Some(46), Some([12])
encapsulated 10002000 4c4f 0200 5031 > Some(10) None Some(10), None";

/// Tags, and their elements in a set of a modality and a Patient ID.
const FOUND: &str = "\
0010,0020 > LO 'P1
0008,0060 > CS 'CT
0008,0061 > none";

fn held(alloc: Global, question: &str) -> Result<String, Fail> {
    let (syntax, bytes) = spelled(alloc, question)?;
    let set = set_of(alloc, syntax, &bytes)?;
    outline(alloc, &set)
}

#[test]
fn sets_hold_what_their_bytes_spell(rt: HostRuntime) -> Result<(), Fail> {
    ask_all(rt.alloc(), SETS, held)?;
    ask_all(rt.alloc(), ENCAPSULATED_SETS, held)
}

fn last_starts(alloc: Global, syntax: Syntax, set: &DataSet<'_>) -> Result<Option<Vec<u64>>, Fail> {
    match set.elements.last() {
        None => Ok(None),
        Some(last) => Ok(set.item_starts(alloc, syntax, last.tag)?),
    }
}

fn measured(alloc: Global, question: &str) -> Result<String, Fail> {
    let (syntax, bytes) = spelled(alloc, question)?;
    let set = set_of(alloc, syntax, &bytes)?;
    let explicit = set.size(Syntax::Explicit);
    let implicit = set.size(Syntax::Implicit);
    let encapsulated = set.size(Syntax::Encapsulated);
    let starts = last_starts(alloc, syntax, &set)?;
    shown(
        alloc,
        format_args!("{explicit:?} {implicit:?} {encapsulated:?}, {starts:?}"),
    )
}

#[test]
fn sets_have_the_size_of_their_bytes(rt: HostRuntime) -> Result<(), Fail> {
    ask_all(rt.alloc(), SIZES, measured)?;
    ask_all(rt.alloc(), ENCAPSULATED_SIZES, measured)
}

fn has_no_items(alloc: Global, syntax: Syntax, line: &str, tag: Tag) -> Result<bool, Fail> {
    let (spelling, bytes) = spelled(alloc, line)?;
    let set = set_of(alloc, spelling, &bytes)?;
    Ok(set.item_starts(alloc, syntax, tag)?.is_none())
}

/// Bytes hold no items, an absent element holds none, and nothing starts in bytes that are no spelling.
#[test]
fn where_no_items_start(rt: HostRuntime) -> Result<(), Fail> {
    let one = "explicit 10002000 4c4f 0200 5031";
    let empty = "explicit 08004011 5351 0000 00000000";
    assert!(rt; has_no_items(rt.alloc(), Syntax::Explicit, one, PATIENT_ID)?);
    assert!(rt; has_no_items(rt.alloc(), Syntax::Explicit, empty, PATIENT_ID)?);
    assert!(rt; has_no_items(rt.alloc(), Syntax::Implicit, empty, IMAGES)?);
    Ok(())
}

fn in_words(alloc: Global, element: Option<&Element<'_>>) -> Result<String, Fail> {
    let Some(element) = element else {
        return shown(alloc, "none");
    };
    let (Some(vr), Value::Bytes(bytes)) = (element.vr, &element.value) else {
        return Err("no bytes in Explicit VR".into());
    };
    let value = text_of(alloc, bytes)?;
    shown(alloc, format_args!("{vr:?} {value}"))
}

fn found(alloc: Global, question: &str) -> Result<String, Fail> {
    let line = "explicit 08006000 4353 0200 4354 10002000 4c4f 0200 5031";
    let (syntax, bytes) = spelled(alloc, line)?;
    let set = set_of(alloc, syntax, &bytes)?;
    let element = set.find(tag_of(question)?);
    in_words(alloc, element)
}

#[test]
fn elements_are_found_by_their_tags(rt: HostRuntime) -> Result<(), Fail> {
    ask_all(rt.alloc(), FOUND, found)
}
