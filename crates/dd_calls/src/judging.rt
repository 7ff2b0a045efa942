//! Judges a file by its record, as a check does.

ghost use Rattle.std.specs.Prelude.{◌≡◌, ◌==◌, IfOk, None, Some, if◌then◌else◌, length, option_map};
ghost use Rattle.dd_walk.specs.ForestViews.{tree_view};
ghost use Rattle.dd_part10.specs.Reading.{file_in};
ghost use Rattle.dd_report.specs.Agreements.{Standing as Record, found_in, is_image};
ghost use Rattle.dd_report.specs.Finding.{compared, without_digest};
ghost use Rattle.dd_walk.specs.Saying.{digest_in};
ghost use Rattle.dd_calls.specs.Findings.{finding_row, found_by_digest, found_by_head, found_by_keys, found_given};
ghost use Rattle.dd_calls.specs.Findings.{unless_misnamed};
ghost use Rattle.dd_calls.specs.Standings.{seen_by, standing_view};

use crate::agreements::mislabelled;
use crate::finding_row::FindingRow;
use crate::standing::Standing;
use crate::values::value_in;
use dd_elem::{Memory, is_file_id};
use dd_records::Level;
use dd_records::table::FILE;
use dd_report::{Comparison, Finding};
use dd_walk::{Tree, digest_in};
use sha2::{Digest, Sha256};
use std::alloc::Global;

/// Judges the file that a record names, of which `bytes` are given in this form. None where it is given in no such
/// form, and Memory where an allocation is refused.
pub(crate) fn judge(
    alloc: Global,
    standing: &Standing<'_, '_>,
    form: u32,
    bytes: &[u8],
    comparison: Comparison,
) -> Result<Option<FindingRow>, Memory>
    ensures { IfOk result (λ row. (entry : Record) → standing_view standing.now ≡ seen_by entry
        → row ≡ option_map finding_row (option_map (unless_misnamed entry.node)
        (found_given comparison entry form bytes.now))) }
{
    let tree = standing.tree;
    match form {
        0 => Ok(Some(row_of(tree, Some(Finding::Missing)))),
        1 => Ok(Some(row_of(tree, Some(Finding::Unreadable)))),
        2 => {
            let found = judge_whole(alloc, standing, bytes, comparison)?;
            Ok(Some(row_of(tree, found)))
        }
        3 => Ok(judge_digest(tree, bytes, comparison)),
        4 => {
            let Some((digest, head)) = bytes.split_first_chunk::<32>() else {
                return Ok(None);
            };
            let found = found_by_keys(alloc, standing, *digest, head, comparison)?;
            Ok(Some(row_of(tree, found)))
        }
        _ => Ok(None),
    }
}

fn judge_whole(
    alloc: Global,
    standing: &Standing<'_, '_>,
    bytes: &[u8],
    comparison: Comparison,
) -> Result<Option<Finding>, Memory>
    ensures { IfOk result (λ finding. (entry : Record) → standing_view standing.now ≡ seen_by entry
        → finding ≡ found_in comparison entry bytes.now) }
{
    found_by_keys(alloc, standing, Sha256::digest(bytes), bytes, comparison)
}

/// Compares the digest, and where that does not differ what the file `said` says of itself.
fn found_by_keys(
    alloc: Global,
    standing: &Standing<'_, '_>,
    digest: [u8; 32],
    said: &[u8],
    comparison: Comparison,
) -> Result<Option<Finding>, Memory>
    ensures { IfOk result (λ finding. (entry : Record) → standing_view standing.now ≡ seen_by entry
        → finding ≡ found_by_keys comparison entry digest (file_in said.now)) }
{
    let tree = standing.tree;
    let differs = compared(tree, digest);
    let found = if differs.is_none() && comparison.keys && is_image(tree) {
        mislabelled(alloc, standing, said)?
    } else {
        differs
    };
    Ok(found.or(without_digest(tree, comparison.strict)))
}

/// Gives None where the digest has not 32 bytes.
fn judge_digest(tree: &Tree<'_>, digest: &[u8], comparison: Comparison) -> Option<FindingRow>
    ensures { result ≡ (if length digest.now == 32
        then Some (finding_row (unless_misnamed (tree_view tree.now).node
        (found_by_digest comparison (tree_view tree.now).node digest.now))) else None) }
{
    let digest = <[u8; 32]>::try_from(digest).ok()?;
    Some(row_of(tree, found_by_digest(tree, digest, comparison)))
}

fn found_by_digest(tree: &Tree<'_>, digest: [u8; 32], comparison: Comparison) -> Option<Finding>
    ensures { result ≡ found_by_digest comparison (tree_view tree.now).node digest }
{
    match compared(tree, digest) {
        None => without_digest(tree, comparison.strict),
        differs => differs,
    }
}

/// Makes the row of what is found, unless the record is not in use, names no file, or names it by no File ID.
fn row_of(tree: &Tree<'_>, found: Option<Finding>) -> FindingRow
    ensures { result ≡ finding_row (unless_misnamed (tree_view tree.now).node found) }
{
    FindingRow::of(unless_misnamed(tree, found))
}

fn compared(tree: &Tree<'_>, found: [u8; 32]) -> Option<Finding>
    ensures { result ≡ compared (digest_in (tree_view tree.now).node.set) found }
{
    match digest_in(&tree.set) {
        Some(recorded) if recorded != found => Some(Finding::Differs { recorded, found }),
        _ => None,
    }
}

fn without_digest(tree: &Tree<'_>, strict: bool) -> Option<Finding>
    ensures { result ≡ without_digest strict (tree_view tree.now).node }
{
    if strict && digest_in(&tree.set).is_none() {
        Some(Finding::NoDigest)
    } else {
        None
    }
}

fn is_image(tree: &Tree<'_>) -> bool
    ensures { result ≡ is_image (tree_view tree.now).node }
{
    tree.kind == Level::Image.kind()
}

/// Gives what is found, unless the record is not in use, names no file, or names it by no File ID.
fn unless_misnamed(tree: &Tree<'_>, found: Option<Finding>) -> Option<Finding>
    ensures { result ≡ unless_misnamed (tree_view tree.now).node found }
{
    let id = value_in(&tree.set, FILE.tag);
    if !tree.in_use || id.is_empty() {
        return None;
    }
    if is_file_id(id) {
        found
    } else {
        Some(Finding::BadId)
    }
}
