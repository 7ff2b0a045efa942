//! What a directory that is written here says of the images that it lists.

ghost use Rattle.std.specs.Prelude.{◌≡◌, ◌≢◌, ◌⊎◌, [], map, option_map, All, IfOk, OnErr};
ghost use Rattle.dd_catalogue.specs.Contents.{held_of};
ghost use Rattle.dd_walk.specs.ForestViews.{walk_view};
ghost use Rattle.dd_dir.specs.OwnVersions.{AnswersWalk, ListsSome, NamesSome, Tells};
ghost use Rattle.dd_dir.specs.OwnVersions.{file_of, place_of, place_view, version_of};
ghost use Rattle.dd_dir.specs.OwnViews.{AnswersRecords, IsListed, listed_view};
ghost use Rattle.dd_dir.specs.Withdrawn.{AreRisingUids};
ghost use Rattle.dd_walk.specs.WithdrawnPieces.{pieces_in, withdrawn_of};

use crate::listed_images::{Above, Listed, list};
use crate::own_fault::OwnFault;
use crate::own_keys::{digest, uid, version_of};
use crate::record_keys::row_value;
use crate::withdrawn::{check_withdrawn, withdrawn_uids};
use dd_catalogue::Catalogue;
use dd_elem::{Memory, Uid};
use dd_records::table::{FILE, INSTANCE};
use dd_version::Version;
use dd_walk::Forest;
use std::alloc::Global;

/// Where the file of an image is, in a file-set.
#[derive(Clone, Copy, Debug, PartialEq, Eq)]
pub struct Place<'a> {
    /// Its SOP Instance UID.
    pub uid: Uid,
    /// The SHA-256 of the file.
    pub digest: [u8; 32],
    /// Its File ID, without padding.
    pub file: &'a [u8],
}

/// Holds what a directory that is written here says of the images that it lists, in the order of their records, depth
/// first, and which instances it withdraws.
#[derive(Debug)]
pub struct Own<'a> {
    /// The version of each.
    pub versions: Vec<Version>,
    /// The File ID of the file of each, without padding.
    pub files: Vec<&'a [u8]>,
    /// The SOP Instance UIDs that are withdrawn, rising.
    pub withdrawn: Vec<Uid>,
}

// By hand, so that dropping it is one call.
impl Drop for Own<'_> {
    fn drop(self) {
        let Own {
            versions: _versions,
            files: _files,
            withdrawn: _withdrawn,
        } = self;
    }
}

/// Reads what a directory that this crate wrote lists and withdraws, in one pass over its records. Refused as
/// `catalogue_of` refuses.
pub fn own_of<'a>(alloc: Global, forest: &Forest<'a>) -> Result<Own<'a>, OwnFault>
    ensures { AnswersWalk (walk_view forest.now) (NamesSome (walk_view forest.now))
        (Tells (withdrawn_of (walk_view forest.now))) result }
{
    let named = forest.withdrawn;
    check_withdrawn(named)?;
    let images = images_of(alloc, forest)?;
    Ok(own_of_images(alloc, named, &images)?)
}

/// Makes the catalogue of a directory that this crate wrote. It has the best of the versions of the listed images that
/// are not withdrawn, and the withdrawn UIDs. Refused by the first check that fails: BadWithdrawal, or a check of a
/// record, depth first. For one record ForeignRecord comes before NoDigest; RecordKey is last, at the first element in
/// the order of tags that is not what it must be. Memory where an allocation was refused, which requires an image
/// before the first record that fails, or a withdrawn UID.
pub fn catalogue_of(alloc: Global, forest: &Forest<'_>) -> Result<Catalogue, OwnFault>
    ensures { AnswersWalk (walk_view forest.now) (NamesSome (walk_view forest.now))
        (λ images catalogue. catalogue ≡ held_of (record {
          versions = map version_of images;
          withdrawn = withdrawn_of (walk_view forest.now);
        })) result }
{
    check_withdrawn(forest.withdrawn)?;
    let images = images_of(alloc, forest)?;
    let versions = versions(alloc, &images)?;
    let withdrawn = withdrawn_uids(alloc, forest.withdrawn)?;
    Ok(Catalogue::from_parts(alloc, &versions, withdrawn)?)
}

/// Lists where the files of the images are, in the order of their records, depth first. Refused as `catalogue_of`
/// refuses, but Memory requires an image before the first record that fails.
pub fn places_of<'a>(alloc: Global, forest: &Forest<'a>) -> Result<Vec<Place<'a>>, OwnFault>
    ensures { AnswersWalk (walk_view forest.now) (ListsSome (walk_view forest.now))
        (λ images places. map place_view places.items ≡ map place_of images) result }
{
    check_withdrawn(forest.withdrawn)?;
    let images = images_of(alloc, forest)?;
    Ok(places(alloc, &images)?)
}

fn images_of<'f, 'a>(alloc: Global, forest: &'f Forest<'a>) -> Result<Vec<Listed<'f, 'a>>, OwnFault>
    ensures { AnswersRecords (walk_view forest.now) (λ images found. map listed_view found.items
        ≡ images) result }
{
    let mut images = Vec::new(alloc);
    list(&forest.trees, Above::Root, &mut images)?;
    Ok(images)
}

fn own_of_images<'a>(
    alloc: Global,
    named: Option<&'a [u8]>,
    images: &[Listed<'_, 'a>],
) -> Result<Own<'a>, Memory>
    requires listed { All (λ image. IsListed (listed_view image)) images.now }
    requires named { AreRisingUids (pieces_in (option_map (λ value. value.now) named)) }
    ensures all { IfOk result (λ own.
        Tells (pieces_in (option_map (λ value. value.now) named.entry))
        (map listed_view images.now) own) }
    ensures some { OnErr result ((images.now ≢ [])
        ⊎ (pieces_in (option_map (λ value. value.now) named.entry) ≢ [])) }
{
    let versions = versions(alloc, images)?;
    let files = files(alloc, images)?;
    let withdrawn = withdrawn_uids(alloc, named)?;
    Ok(Own {
        versions,
        files,
        withdrawn,
    })
}

fn versions(alloc: Global, images: &[Listed<'_, '_>]) -> Result<Vec<Version>, Memory>
    requires { All (λ image. IsListed (listed_view image)) images.now }
    ensures all { IfOk result (λ versions. versions.items
        ≡ map version_of (map listed_view images.now)) }
    ensures some { OnErr result (images.now ≢ []) }
{
    let mut versions = Vec::with_capacity(alloc, images.len())?;
    for image in images {
        let version = version_of(alloc, image, versions.last())?;
        versions.push(version)?;
    }
    Ok(versions)
}

fn files<'a>(alloc: Global, images: &[Listed<'_, 'a>]) -> Result<Vec<&'a [u8]>, Memory>
    ensures all { IfOk result (λ files. map (λ file. file.now) files.items
        ≡ map file_of (map listed_view images.now)) }
    ensures some { OnErr result (images.now ≢ []) }
{
    let mut files = Vec::with_capacity(alloc, images.len())?;
    for image in images {
        files.push(row_value(&FILE, image.own))?;
    }
    Ok(files)
}

fn places<'a>(alloc: Global, images: &[Listed<'_, 'a>]) -> Result<Vec<Place<'a>>, Memory>
    requires { All (λ image. IsListed (listed_view image)) images.now }
    ensures all { IfOk result (λ places. map place_view places.items
        ≡ map place_of (map listed_view images.now)) }
    ensures some { OnErr result (images.now ≢ []) }
{
    if images.is_empty() {
        return Ok(Vec::new(alloc));
    }
    let mut places = Vec::with_capacity(alloc, images.len())?;
    places.extend(images.iter().map(|image| place_of(image)))?;
    Ok(places)
}

fn place_of<'a>(image: &Listed<'_, 'a>) -> Place<'a>
    requires { IsListed (listed_view image.now) }
    ensures { place_view result ≡ place_of (listed_view image.now) }
{
    Place {
        uid: uid(row_value(&INSTANCE, image.own)),
        digest: digest(image.own),
        file: row_value(&FILE, image.own),
    }
}
