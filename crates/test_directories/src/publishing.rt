use crate::sending::first_catalogue;
use dd_catalogue::History;
use dd_dir::publish;
use dd_elem::{FileId, SetId, Uid};
use dd_layout::Limits;
use dd_records::Label;
use dd_vectors::{catalogue_of, first_directory, images, v2};
use std::alloc::Global;
use std::test::Fail;

pub(crate) fn label_of(id: &str) -> Result<Label, Fail> {
    Ok(Label {
        id: SetId::new(id.as_bytes())?,
        uid: Uid::new(b"2.25.0")?,
    })
}

/// The empty text stands for the widest limits.
pub(crate) fn limits_of(bytes: &str) -> Result<Limits, Fail> {
    let bytes = if bytes.is_empty() {
        u32::MAX
    } else {
        bytes.parse()?
    };
    Ok(Limits::new(bytes, FileId::MAX_RANK).ok_or("no limits")?)
}

/// Makes the directory of the images with these letters and of the withdrawn instances, each after a `/`.
pub(crate) fn named(alloc: Global, id: &str, letters: &str) -> Result<Vec<u8>, Fail> {
    let catalogue = catalogue_of(alloc, letters)?;
    Ok(publish(alloc, &catalogue, &label_of(id)?, limits_of("")?)?)
}

pub(crate) fn published(alloc: Global, letters: &str) -> Result<Vec<u8>, Fail> {
    named(alloc, "", letters)
}

#[test]
fn the_directories_of_nothing_and_of_one_image(rt: HostRuntime) -> Result<(), Fail> {
    assert!(rt; published(rt.alloc(), "")? == v2(rt.alloc())?);
    let catalogue = first_catalogue(rt.alloc())?;
    let first = publish(rt.alloc(), &catalogue, &label_of("")?, limits_of("")?)?;
    assert!(rt; first == first_directory(rt.alloc())?);
    Ok(())
}

/// Merges the batches with these letters.
pub(crate) fn history(alloc: Global, groups: &str) -> Result<History, Fail> {
    let mut parts = Vec::new(alloc);
    for letters in groups.split('+') {
        parts.push(History::Batch(images(alloc, letters)?))?;
    }
    Ok(History::Merge(parts))
}
