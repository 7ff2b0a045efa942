use crate::files::vectors::{file_named, meta_of};
use crate::files::{reading, streaming};
use crate::sets::allocations::is_at_end;
use crate::sets::spellings::PATIENT_ID;
use dd_part10::{DicomFile, Scanned, StreamFault, parse_file, read_file, write_head};
use dd_set::WriteFault;
use dd_vectors::{
    ByteSource, Sink, answered, question, refuse_allocation, refuse_each, require, was_refused,
};
use std::alloc::Global;
use std::test::Fail;

/// Files, and what is read of them.
const FILES: &str = "\
v1 > 454 276 1.2.840.10008.5.1.4.1.1.2 1.2.3.4.5 1.2.840.10008.1.2.1 12
v1 encapsulated > 496 278 1.2.840.10008.5.1.4.1.1.2 1.2.3.4.5 1.2.840.10008.1.2.4.90 13";

fn require_file(alloc: Global, case: &str, size: usize, file: &DicomFile<'_>) -> Result<(), Fail> {
    let answer = reading::in_words(alloc, size, file)?;
    require(
        answered(alloc, case, &answer)?.as_str() == case,
        "the file is that of the case",
    )
}

fn parse_file_refused(alloc: Global, case: &str, chosen: u32) -> Result<bool, Fail> {
    let bytes = file_named(alloc, question(case))?;
    refuse_allocation(alloc, chosen)?;
    let answer = parse_file(alloc, &bytes);
    let wants_memory = matches!(&answer, Err(fault) if fault.is_want_of_memory());
    let refused = was_refused(alloc, wants_memory)?;
    match &answer {
        Ok(file) => require_file(alloc, case, bytes.len(), file)?,
        Err(_) => require_file(alloc, case, bytes.len(), &parse_file(alloc, &bytes)?)?,
    }
    Ok(refused)
}

#[test]
fn allocations_of_parse_file(rt: HostRuntime) -> Result<(), Fail> {
    for case in FILES.split('\n') {
        refuse_each(
            rt.alloc(),
            |alloc, chosen| parse_file_refused(alloc, case, chosen),
        )?;
    }
    Ok(())
}

fn wants_memory(answer: &Result<Scanned, StreamFault>) -> bool {
    matches!(answer, Err(StreamFault::File(fault)) if fault.is_want_of_memory())
}

/// Reads the Patient ID of a file from a reader, which is at its end afterwards, also where an allocation was refused.
fn read_file_refused(alloc: Global, name: &str, chosen: u32) -> Result<bool, Fail> {
    let bytes = file_named(alloc, name)?;
    let meta = meta_of(alloc, &bytes)?;
    let mut reader = ByteSource::new(&bytes, 44, None);
    refuse_allocation(alloc, chosen)?;
    let answer = read_file(alloc, &mut reader, &[PATIENT_ID], 4096);
    let refused = was_refused(alloc, wants_memory(&answer))?;
    require(is_at_end(&mut reader), "the reader is at its end")?;
    let answer = if refused {
        let mut again = ByteSource::new(&bytes, 44, None);
        read_file(alloc, &mut again, &[PATIENT_ID], 4096)
    } else {
        answer
    };
    require(
        streaming::in_words(alloc, answer, &meta)?.as_str() == "as parsed; (0010,0020) 'P1 2",
        "the file is read as it was parsed",
    )?;
    Ok(refused)
}

#[test]
fn allocations_of_read_file(rt: HostRuntime) -> Result<(), Fail> {
    for name in ["v1 encapsulated", "1026 864"] {
        refuse_each(
            rt.alloc(),
            |alloc, chosen| read_file_refused(alloc, name, chosen),
        )?;
    }
    Ok(())
}

/// Writes the head of V1, of 276 bytes, to a writer without room. A refused allocation is a write that fails: the
/// writer then holds a front of the head, and what is written again comes after it.
fn write_head_refused(alloc: Global, chosen: u32) -> Result<bool, Fail> {
    let bytes = file_named(alloc, "v1")?;
    let meta = meta_of(alloc, &bytes)?;
    let head = bytes.get(..276).ok_or("fewer bytes")?;
    let mut sink = Sink::new(alloc, None);
    refuse_allocation(alloc, chosen)?;
    let answer = write_head(&meta, &mut sink);
    let wants_memory = matches!(answer, Err(WriteFault::Write(_)));
    let refused = was_refused(alloc, wants_memory)?;
    if refused {
        require(head.starts_with(sink.bytes()), "the writer holds a front")?;
        require(
            write_head(&meta, &mut sink) == Ok(276),
            "the head is written",
        )?;
    }
    require(sink.bytes().ends_with(head), "the writer holds the head")?;
    Ok(refused)
}

#[test]
fn allocations_of_write_head(rt: HostRuntime) -> Result<(), Fail> {
    refuse_each(rt.alloc(), write_head_refused)
}
