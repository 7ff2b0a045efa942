//! Images that are copied as files of planned versions.

use crate::program::copies::sent_of;
use dd_elem::SetId;
use dd_layout::{Limits, Plan};
use dd_vectors::{
    ByteSource, Sink, ask_all, failing, first_directory, put_words, refuse_allocation, require, v1,
    was_refused,
};
use dicomdir::{Choice, Filed, Wanted, file_image, merge_engine};
use std::alloc::Global;
use std::test::Fail;

/// Images, V1 or a text: the most bytes of a read, after how many the reader and the writer fail, and the limit. Then
/// how the directory that plans the image differs from V1's, the outcome, and how many bytes were sent. The name of a
/// patient is not compared.
const FILINGS: &str = "\
v1 1000 - - 454 - > AsPlanned 454
v1 1 - - 454 - > AsPlanned 454
v1 100 - - 1000 386,'ROE^JANE > AsPlanned 454
v1 100 - - 454 402,'P2 > Mislabelled 454
v1 100 - - 454 874,'2 > Mislabelled 454
v1 100 - - 454 772,'6 > Mislabelled 454
v1 100 - - 454 834,00 > OtherVersion 454
v1 100 - - 454 402,'P2,834,00 > OtherVersion 454
text 1000 - - 454 - > Mislabelled 8
v1 100 - - 453 - > 97 Changed 454
v1 100 200 - 454 - > 93 Unread 200
v1 100 - 150 454 - > 96 Unsent 150";

fn image(alloc: Global, name: &str) -> Result<Vec<u8>, Fail> {
    match name {
        "v1" => v1(alloc),
        _ => Ok(b"no image".to_vec(alloc)?),
    }
}

fn directory(alloc: Global, changes: &str) -> Result<Vec<u8>, Fail> {
    let mut bytes = first_directory(alloc)?;
    if changes != "-" {
        put_words(alloc, &mut bytes, changes)?;
    }
    Ok(bytes)
}

fn choice() -> Result<Choice, Fail> {
    Ok(Choice {
        id: SetId::new(b"")?,
        uid: None,
    })
}

fn limits() -> Result<Limits, Fail> {
    Ok(Limits::new(u32::MAX, 1).ok_or("no limits")?)
}

// The first version of the plan, whose keys in harmony are not compared.
fn wanted_of(plan: &Plan) -> Result<Wanted<'_>, Fail> {
    let planned = plan.versions().first().ok_or("no version")?;
    Ok(Wanted {
        planned,
        said: None,
    })
}

fn filed(alloc: Global, question: &str) -> Result<String, Fail> {
    let (name, rest) = question.split_once(' ').ok_or("no image")?;
    let (piece, rest) = rest.split_once(' ').ok_or("no piece")?;
    let (reader, rest) = rest.split_once(' ').ok_or("no reader")?;
    let (writer, rest) = rest.split_once(' ').ok_or("no writer")?;
    let (limit, changes) = rest.split_once(' ').ok_or("no limit")?;
    let directory = directory(alloc, changes)?;
    let sets = [directory.as_slice()];
    let merged = merge_engine(alloc, &sets, &choice()?, limits()?)?;
    let wanted = wanted_of(&merged.plan)?;
    let image = image(alloc, name)?;
    let mut source = ByteSource::new(&image, piece.parse()?, failing(reader)?);
    let mut sink = Sink::new(alloc, failing(writer)?);
    let said = match file_image(alloc, &mut source, &mut sink, &wanted, limit.parse()?) {
        Ok(filed) => format!(in alloc; "{filed:?}")?,
        Err(fault) => format!(in alloc; "{fault}")?,
    };
    let sent = sent_of(&image, sink.bytes())?;
    Ok(format!(in alloc; "{said} {sent}")?)
}

#[test]
fn images_are_filed_or_refused(rt: HostRuntime) -> Result<(), Fail> {
    ask_all(rt.alloc(), FILINGS, filed)
}

/// Files V1 to a writer without room. A refused allocation is a write that fails, or a fault once V1 was sent. What is
/// filed again comes after it.
pub(crate) fn filing_refused(alloc: Global, chosen: u32) -> Result<bool, Fail> {
    let directory = first_directory(alloc)?;
    let sets = [directory.as_slice()];
    let merged = merge_engine(alloc, &sets, &choice()?, limits()?)?;
    let wanted = wanted_of(&merged.plan)?;
    let image = v1(alloc)?;
    let mut source = ByteSource::new(&image, 100, None);
    let mut sink = Sink::new(alloc, None);
    refuse_allocation(alloc, chosen)?;
    let answer = file_image(alloc, &mut source, &mut sink, &wanted, 454);
    let refused = was_refused(alloc, answer.is_err())?;
    require(image.starts_with(sink.bytes()), "the writer holds a front")?;
    let filed = match answer {
        Ok(filed) => filed,
        Err(_) => {
            let mut source = ByteSource::new(&image, 100, None);
            file_image(alloc, &mut source, &mut sink, &wanted, 454)?
        }
    };
    require(filed == Filed::AsPlanned, "V1 is filed as planned")?;
    require(sink.bytes().ends_with(&image), "the writer holds V1")?;
    Ok(refused)
}
