use crate::program::copies::{DIGEST, digest_words};
use crate::program::filings::filing_refused;
use crate::program::lines::said;
use dd_vectors::{
    ByteSource, Sink, answered, question, refuse_allocation, refuse_each, require, v1, was_refused,
    words_of,
};
use dicomdir::{Asked, CopyFault, LineFault, copy_image, read_words};
use std::alloc::Global;
use std::test::Fail;

/// Copies V1 to a writer without room. An allocation that is refused is a write that fails: the writer holds a front
/// of V1 then, and what is copied again comes after it.
fn copy_image_refused(alloc: Global, chosen: u32) -> Result<bool, Fail> {
    let image = v1(alloc)?;
    let mut source = ByteSource::new(&image, 100, None);
    let mut sink = Sink::new(alloc, None);
    refuse_allocation(alloc, chosen)?;
    let answer = copy_image(&mut source, &mut sink, 454);
    let refused = was_refused(alloc, matches!(answer, Err(CopyFault::Unsent)))?;
    let digest = match answer {
        Ok(digest) => digest,
        Err(_) => {
            require(image.starts_with(sink.bytes()), "the writer holds a front")?;
            copy_image(&mut ByteSource::new(&image, 100, None), &mut sink, 454)?
        }
    };
    require(
        digest_words(alloc, &digest, DIGEST)?.as_str() == "digest",
        "the digest is that of V1",
    )?;
    require(sink.bytes().ends_with(&image), "the writer holds V1")?;
    Ok(refused)
}

#[test]
fn allocations_of_copy_image(rt: HostRuntime) -> Result<(), Fail> {
    refuse_each(rt.alloc(), copy_image_refused)
}

#[test]
fn allocations_of_file_image(rt: HostRuntime) -> Result<(), Fail> {
    refuse_each(rt.alloc(), filing_refused)
}

/// An index, a merge and a withdrawal, and what their lines ask for.
const LINES: &str = "\
dicomdir index --id DISC1 --uid 2.25.1 --max-bytes 1000 set image.dcm > Index DISC1 2.25.1 1000 set image.dcm
dicomdir merge --id DISC1 set b a b --uid 2.25.1 > Merge DISC1 2.25.1 4294967295 set b a b
dicomdir withdraw --id DISC1 set a 1.2 1.3 > Withdraw DISC1 - 4294967295 set a without 1.2 1.3";

/// Fails where the answer is not the case's.
fn require_said(alloc: Global, case: &str, answer: &Result<Asked, LineFault>) -> Result<(), Fail> {
    let said = said(alloc, answer)?;
    require(
        answered(alloc, case, &said)?.as_str() == case,
        "the line is read as the case says",
    )
}

fn read_words_refused(alloc: Global, case: &str, chosen: u32) -> Result<bool, Fail> {
    let words = words_of(alloc, question(case))?;
    refuse_allocation(alloc, chosen)?;
    let answer = read_words(alloc, words.as_slice());
    let refused = was_refused(alloc, matches!(&answer, Err(LineFault::Memory)))?;
    let answer = if refused {
        read_words(alloc, words.as_slice())
    } else {
        answer
    };
    require_said(alloc, case, &answer)?;
    Ok(refused)
}

#[test]
fn allocations_of_read_words(rt: HostRuntime) -> Result<(), Fail> {
    for case in LINES.split('\n') {
        refuse_each(
            rt.alloc(),
            |alloc, chosen| read_words_refused(alloc, case, chosen),
        )?;
    }
    Ok(())
}
