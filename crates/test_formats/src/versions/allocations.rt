use crate::sets::allocations::{is_at_end, is_memory};
use crate::versions::ingesting::text_of_version;
use crate::versions::reading::file_of;
use dd_keys::{KeyFault, Version, ingest, version_of};
use dd_part10::FileFault;
use dd_set::SetFault;
use dd_vectors::{
    ByteSource, answered, question, refuse_allocation, refuse_each, refuse_in_turn, require,
    was_refused,
};
use std::alloc::Global;
use std::test::Fail;

/// V1 with four keys of more than 22 bytes, one of them with padding: the SHA-256 of the file of 542 bytes, and the
/// keys.
const LONG_KEYS: &str = "\
0010,0010 PN 'A_NAME_THAT_WANTS_MEMORY; 0020,0010 SH 'A_STUDY_THAT_WANTS_MEMORY_; \
0020,0011 IS 'A_SERIES_THAT_WANTS_MEMORY; 0020,0013 IS 'A_NUMBER_THAT_WANTS_MEMORY > \
15cd85480b8790733aa12c28ea6dbbf0b0c311643585c0ec0c8b69b770d12d32 \
'P1 'A_NAME_THAT_WANTS_MEMORY ' '1.2.3 '20240115 '101500 ' ' 'A_STUDY_THAT_WANTS_MEMORY ' \
'1.2.3.4 'CT 'A_SERIES_THAT_WANTS_MEMORY 'A_NUMBER_THAT_WANTS_MEMORY \
'1.2.840.10008.5.1.4.1.1.2 '1.2.840.10008.1.2.1 '1.2.3.4.5";

/// V1 with pixel data in fragments, whose keys are short.
const ENCAPSULATED: &str = "\
v1 encapsulated > \
756287360dde40dc344fec2c491cc6e36d76ca14ce56951a42db23f73c75c1fa \
'P1 'DOE^JOHN ' '1.2.3 '20240115 '101500 ' ' '1 ' '1.2.3.4 'CT '1 '1 \
'1.2.840.10008.5.1.4.1.1.2 '1.2.840.10008.1.2.4.90 '1.2.3.4.5";

fn require_version(alloc: Global, case: &str, version: &Version) -> Result<(), Fail> {
    let answer = text_of_version(alloc, version)?;
    require(
        answered(alloc, case, &answer)?.as_str() == case,
        "the version is that of the case",
    )
}

fn says_memory(fault: &KeyFault) -> bool {
    matches!(
        fault,
        KeyFault::Memory
            | KeyFault::File(FileFault::Meta(SetFault::Memory))
            | KeyFault::File(FileFault::Set(SetFault::Memory))
    )
}

fn version_of_refused(alloc: Global, case: &str) -> Result<(), Fail> {
    let bytes = file_of(alloc, question(case))?;
    let version = refuse_in_turn(alloc, || version_of(alloc, &bytes), says_memory)?;
    require_version(alloc, case, &version)
}

#[test]
fn allocations_of_version_of(rt: HostRuntime) -> Result<(), Fail> {
    version_of_refused(rt.alloc(), LONG_KEYS)?;
    version_of_refused(rt.alloc(), ENCAPSULATED)
}

/// Reads a version from a reader, which is at its end afterwards, also where an allocation was refused.
fn ingest_refused(alloc: Global, case: &str, chosen: u32) -> Result<bool, Fail> {
    let bytes = file_of(alloc, question(case))?;
    let mut reader = ByteSource::new(&bytes, 7, None);
    refuse_allocation(alloc, chosen)?;
    let answer = ingest(alloc, &mut reader, 1000);
    let wants_memory = matches!(&answer, Err(fault) if says_memory(fault));
    let refused = was_refused(alloc, wants_memory)?;
    require(is_at_end(&mut reader), "the reader is at its end")?;
    let version = match answer {
        Ok(version) => version,
        Err(_) => ingest(alloc, &mut ByteSource::new(&bytes, 7, None), 1000)?,
    };
    require_version(alloc, case, &version)?;
    Ok(refused)
}

#[test]
fn allocations_of_ingest(rt: HostRuntime) -> Result<(), Fail> {
    for case in [LONG_KEYS, ENCAPSULATED] {
        refuse_each(
            rt.alloc(),
            |alloc, chosen| ingest_refused(alloc, case, chosen),
        )?;
    }
    Ok(())
}

/// Copies a version, which shares its long keys.
#[test]
fn no_allocations_of_copy_of_version(rt: HostRuntime) -> Result<(), Fail> {
    let alloc = rt.alloc();
    let version = version_of(alloc, &file_of(alloc, question(LONG_KEYS))?)?;
    let copy = refuse_in_turn(alloc, || version.copy(), is_memory)?;
    require_version(alloc, LONG_KEYS, &copy)
}
