use crate::files::vectors::file_named;
use dd_elem::Uid;
use dd_part10::{DicomFile, Meta, parse_file};
use dd_set::{Element, Value};
use dd_vectors::{SOURCE_ROWS, ask_all, shown, text_of, v1};
use std::alloc::Global;
use std::test::Fail;

/// Files: their size and the offset of their data set, the class, the instance and the transfer syntax of group 0002,
/// and how many elements the data set has.
const FILES: &str = "\
v1 > 454 276 1.2.840.10008.5.1.4.1.1.2 1.2.3.4.5 1.2.840.10008.1.2.1 12
v1 implicit > 496 274 1.2.840.10008.5.1.4.1.1.2 1.2.3.4.5 1.2.840.10008.1.2 13
v1 encapsulated > 496 278 1.2.840.10008.5.1.4.1.1.2 1.2.3.4.5 1.2.840.10008.1.2.4.90 13
v2 > 320 266 1.2.840.10008.1.3.10 2.25.0 1.2.840.10008.1.2.1 5";

/// Transfer syntaxes that are read: the two that are not compressed, RLE, three of JPEG, two of JPEG-LS and two of JPEG
/// 2000. Those that are not: big endian, deflated, two more of JPEG and one of JPEG 2000, MPEG2, a part of a UID and a
/// UID with more after it.
const SYNTAXES: &str = "\
1.2.840.10008.1.2.1 > Some(Explicit)
1.2.840.10008.1.2 > Some(Implicit)
1.2.840.10008.1.2.5 > Some(Encapsulated)
1.2.840.10008.1.2.4.50 > Some(Encapsulated)
1.2.840.10008.1.2.4.51 > Some(Encapsulated)
1.2.840.10008.1.2.4.70 > Some(Encapsulated)
1.2.840.10008.1.2.4.80 > Some(Encapsulated)
1.2.840.10008.1.2.4.81 > Some(Encapsulated)
1.2.840.10008.1.2.4.90 > Some(Encapsulated)
1.2.840.10008.1.2.4.91 > Some(Encapsulated)
1.2.840.10008.1.2.2 > None
1.2.840.10008.1.2.1.99 > None
1.2.840.10008.1.2.4.52 > None
1.2.840.10008.1.2.4.57 > None
1.2.840.10008.1.2.4.92 > None
1.2.840.10008.1.2.4.100 > None
1.2.840.10008.1.2.4 > None
1.2.840.10008.1.2.5.1 > None";

pub(crate) fn in_words(alloc: Global, size: usize, file: &DicomFile<'_>) -> Result<String, Fail> {
    let (place, count) = (file.set_at, file.set.elements.len());
    let (class, instance) = (file.meta.class, file.meta.instance);
    let transfer = file.meta.transfer;
    shown(
        alloc,
        format_args!("{size} {place} {class} {instance} {transfer} {count}"),
    )
}

fn described(alloc: Global, question: &str) -> Result<String, Fail> {
    let bytes = file_named(alloc, question)?;
    let file = parse_file(alloc, &bytes)?;
    in_words(alloc, bytes.len(), &file)
}

#[test]
fn files_have_a_head_and_a_set(rt: HostRuntime) -> Result<(), Fail> {
    ask_all(rt.alloc(), FILES, described)
}

/// Gives an element as a row of V1 has it, without its offset.
fn row_of(alloc: Global, element: &Element<'_>) -> Result<String, Fail> {
    let (Some(vr), Value::Bytes(bytes)) = (element.vr, &element.value) else {
        return Err("no bytes in Explicit VR".into());
    };
    let (group, number) = (element.tag.group, element.tag.element);
    let value = text_of(alloc, bytes)?;
    shown(
        alloc,
        format_args!("{group:04X},{number:04X} {vr:?} {value}"),
    )
}

#[test]
fn v1_has_its_elements(rt: HostRuntime) -> Result<(), Fail> {
    let bytes = v1(rt.alloc())?;
    let file = parse_file(rt.alloc(), &bytes)?;
    let [_, front, back] = SOURCE_ROWS;
    let rows = front.split('\n').chain(back.split('\n'));
    for (element, row) in file.set.elements.iter().zip(rows) {
        assert!(rt;
            row.ends_with(row_of(rt.alloc(), element)?.as_str()),
            "of {row}"
        );
    }
    Ok(())
}

fn syntax(alloc: Global, question: &str) -> Result<String, Fail> {
    let meta = Meta {
        class: Uid::new(b"1.2.840.10008.5.1.4.1.1.2")?,
        instance: Uid::new(b"1.2.3.4.5")?,
        transfer: Uid::new(question.as_bytes())?,
    };
    let found = meta.syntax();
    shown(alloc, format_args!("{found:?}"))
}

#[test]
fn transfer_syntaxes_that_are_read(rt: HostRuntime) -> Result<(), Fail> {
    ask_all(rt.alloc(), SYNTAXES, syntax)
}
