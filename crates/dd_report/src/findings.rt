//! Judges the file that a record names.
ghost use Rattle.std.specs.Prelude.{◌≡◌, ℕ, List, IfSome, None, Some};
ghost use Rattle.std.specs.Option.{option_or};
ghost use Rattle.dd_elem.specs.FileIdForm.{IsFileId};
ghost use Rattle.dd_walk.specs.ForestViews.{tree_view};
ghost use Rattle.dd_walk.specs.Saying.{key_of};
ghost use Rattle.dd_slots.specs.Slots.{IsSlotOf};
ghost use Rattle.dd_report.specs.Batches.{KeepsBytes, KeepsPending, judged};
ghost use Rattle.dd_report.specs.Checking.{most_read};
ghost use Rattle.dd_report.specs.Finding.{FindsBy, FindsIn, HasFileId, IsUnread, NamesFile, by_digest, compared};
ghost use Rattle.dd_report.specs.Finding.{file_in, without_digest};

use crate::batch::Batch;
use dd_elem::{Read, Tag, is_file_id};
use dd_files::digest_of;
use dd_keys::value_at;
use dd_part10::FileFault;
use dd_records::table::FILE;
use dd_slots::Slot;
use dd_walk::{Tree, digest_in};

/// Says what is wrong with the file that a record names.
#[derive(Clone, Copy, Debug, PartialEq, Eq)]
pub enum Finding {
    /// The name is no File ID (PS3.10 section 8.2).
    BadId,
    /// There is no such file, or it could not be opened.
    Missing,
    /// A read of it failed, or it is too long.
    Unreadable,
    /// It has another SHA-256 than the record says.
    Differs {
        /// The digest in the record.
        recorded: [u8; 32],
        /// The digest of the file.
        found: [u8; 32],
    },
    /// The value at this tag of the file is not the one that the records say.
    Mislabelled(Tag),
    /// It is no DICOM file, for this reason.
    NoFile(FileFault),
    /// The record has no digest to compare with the file's.
    NoDigest,
}

/// Says what is found of a file, before its digest is computed.
#[derive(Clone, Copy)]
pub(crate) enum Judgement {
    /// This is found, or nothing.
    Known(Option<Finding>),
    /// Its bytes, which a slot keeps, wait for their digest.
    Pending(Expected),
}

/// The digest that a record has of its file, and what is found where the file has it.
#[derive(Clone, Copy)]
pub(crate) struct Expected {
    pub(crate) recorded: [u8; 32],
    pub(crate) otherwise: Option<Finding>,
}

/// Judges the file that a record names. Finds nothing where the record is not in use or names no file. `file`
/// reads it, where it could be opened; it may have `limit` bytes.
///
/// It is read once, to its end, to a failure or to `limit` bytes and one more, whether the record has a digest or not.
/// Where its name is no File ID it is not read. Allocates nothing.
pub fn finding_of<R: Read>(tree: &Tree<'_>, file: Option<&mut R>, limit: u64) -> Option<Finding>
    ensures unnamed { ¬ NamesFile (tree_view tree.now).node → result ≡ None }
    ensures misnamed { NamesFile (tree_view tree.now).node
        → ¬ IsFileId (file_in (tree_view tree.now).node)
        → result ≡ Some Finding.BadId }
    ensures named { NamesFile (tree_view tree.now).node
        → IsFileId (file_in (tree_view tree.now).node)
        → FindsIn R.Read limit (tree_view tree.now).node result
        file.entry file.exit }

    ensures unread { ¬ HasFileId (tree_view tree.now).node → IsUnread file.entry file.exit }
{
    let Some(reader) = file else {
        return finding_unopened(tree);
    };
    if id_of(tree).is_none() {
        return finding_misnamed(tree);
    }
    finding_by(tree, reader, limit)
}

/// Gives the File ID without its padding: no bytes where the record has none.
pub(crate) fn file_in<'t>(tree: &Tree<'t>) -> &'t [u8]
    ensures { result.now ≡ file_in (tree_view tree.now).node }
{
    value_in(tree, FILE.tag)
}

/// Gives the value without its padding: no bytes where the record has no value there, or items.
pub(crate) fn value_in<'t>(tree: &Tree<'t>, tag: Tag) -> &'t [u8]
    ensures { result.now ≡ key_of tag (tree_view tree.now).node.set }
{
    match value_at(&tree.set, tag) {
        Some(value) => value,
        None => &[],
    }
}

/// Gives the File ID where the record is in use and the name is a File ID.
pub(crate) fn id_of<'t>(tree: &Tree<'t>) -> Option<&'t [u8]>
    ensures some { IfSome result (λ id. HasFileId (tree_view tree.now).node
        × (id.now ≡ file_in (tree_view tree.now).node)) }
    ensures none { result ≡ None → ¬ HasFileId (tree_view tree.now).node }
{
    let id = file_in(tree);
    if tree.in_use && is_file_id(id) {
        Some(id)
    } else {
        None
    }
}

pub(crate) fn finding_unopened(tree: &Tree<'_>) -> Option<Finding>
    ensures missing { HasFileId (tree_view tree.now).node → result ≡ Some Finding.Missing }
    ensures bad { NamesFile (tree_view tree.now).node
        → ¬ IsFileId (file_in (tree_view tree.now).node)
        → result ≡ Some Finding.BadId }
    ensures unnamed { ¬ NamesFile (tree_view tree.now).node → result ≡ None }
{
    match id_of(tree) {
        Some(_) => Some(Finding::Missing),
        None => finding_misnamed(tree),
    }
}

/// Gives `BadId` where the record is in use and the name is no File ID.
fn finding_misnamed(tree: &Tree<'_>) -> Option<Finding>
    ensures bad { NamesFile (tree_view tree.now).node
        → ¬ IsFileId (file_in (tree_view tree.now).node)
        → result ≡ Some Finding.BadId }
    ensures unnamed { ¬ NamesFile (tree_view tree.now).node → result ≡ None }
{
    let id = file_in(tree);
    if !tree.in_use || id.is_empty() || is_file_id(id) {
        return None;
    }
    Some(Finding::BadId)
}

pub(crate) fn finding_by<R: Read>(tree: &Tree<'_>, reader: &mut R, limit: u64) -> Option<Finding>
    ensures { FindsBy R.Read limit (by_digest (tree_view tree.now).node) result
        reader.old reader.new }
{
    match digest_of(reader, limit) {
        None => Some(Finding::Unreadable),
        Some(found) => digest_finding(digest_in(&tree.set), found),
    }
}

pub(crate) fn digest_finding(recorded: Option<[u8; 32]>, found: [u8; 32]) -> Option<Finding>
    ensures { result ≡ compared recorded found }
{
    match recorded {
        Some(recorded) if recorded != found => Some(Finding::Differs { recorded, found }),
        _ => None,
    }
}

/// Gives `NoDigest` where a strict check asks for a digest and the record has none.
pub(crate) fn without_digest(tree: &Tree<'_>, strict: bool) -> Option<Finding>
    ensures { result ≡ without_digest strict (tree_view tree.now).node }
{
    if strict && digest_in(&tree.set).is_none() {
        Some(Finding::NoDigest)
    } else {
        None
    }
}

/// Judges by digest alone a file that is read into the next slot of the batch.
pub(crate) fn judge_by_digest<R: Read>(
    tree: &Tree<'_>,
    strict: bool,
    reader: &mut R,
    batch: &mut Batch<'_>,
) -> Judgement
    ensures found { FindsBy R.Read most_read
        (λ (given : List ℕ). option_or (by_digest (tree_view tree.now).node given)
        (without_digest strict (tree_view tree.now).node))
        (judged result batch.new.next.slot) reader.old reader.new }
    ensures bytes { KeepsBytes result batch.new.next.slot }
    ensures pending { KeepsPending batch.old batch.new }
{
    if batch.fill(reader) {
        judge_whole(tree, strict, &batch.next.slot, None)
    } else {
        Judgement::Known(Some(Finding::Unreadable))
    }
}

/// Judges a file that was read whole. It waits for its digest where its record has one and the slot keeps all bytes.
/// `otherwise` is found where the digests do not differ.
pub(crate) fn judge_whole(
    tree: &Tree<'_>,
    strict: bool,
    slot: &Slot,
    otherwise: Option<Finding>,
) -> Judgement
    ensures found { (given : List ℕ) → IsSlotOf slot.now given
        → judged result slot.now
        ≡ option_or (option_or (by_digest (tree_view tree.now).node given) otherwise)
        (without_digest strict (tree_view tree.now).node) }
    ensures bytes { KeepsBytes result slot.now }
{
    let Some(recorded) = digest_in(&tree.set) else {
        return Judgement::Known(otherwise.or(without_digest(tree, strict)));
    };
    match slot.bytes() {
        Some(_) => Judgement::Pending(Expected {
            recorded,
            otherwise,
        }),
        None => Judgement::Known(digest_finding(Some(recorded), slot.digest()).or(otherwise)),
    }
}
