//! The checks of a record of a directory that is written here.

ghost use Rattle.std.specs.Prelude.{◌≡◌, option_map};
ghost use Rattle.dd_set.specs.Views.{set_view};
ghost use Rattle.dd_walk.specs.ForestViews.{tree_view};
ghost use Rattle.dd_dir.specs.Own.{fault_at, is_bad, is_key, is_own, is_sound, key_fault, lacks_digest, suits};

use crate::own_fault::OwnFault;
use dd_elem::{Key, Uid, is_file_id};
use dd_records::{Field, Level, Row, rows};
use dd_set::{DataSet, value_at};
use dd_version::{is_image_class, is_known_syntax};
use dd_walk::{Tree, digest_in};

/// Gives the first check that a record of this level fails. Any record below an image is a ForeignRecord.
pub(crate) fn fault_at(level: Option<Level>, tree: &Tree<'_>) -> Option<OwnFault>
    ensures { result ≡ fault_at level (tree_view tree.now).node }
{
    let Some(level) = level else {
        return Some(OwnFault::ForeignRecord(tree.at));
    };
    if !is_own(level, tree) {
        return Some(OwnFault::ForeignRecord(tree.at));
    }
    if lacks_digest(level, &tree.set) {
        return Some(OwnFault::NoDigest(tree.at));
    }
    key_fault(tree.at, level, &tree.set)
}

fn is_own(level: Level, tree: &Tree<'_>) -> bool
    ensures { result ≡ is_own level (tree_view tree.now).node }
{
    tree.in_use && tree.kind == level.kind()
}

fn lacks_digest(level: Level, set: &DataSet<'_>) -> bool
    ensures { result ≡ lacks_digest level (set_view set.now) }
{
    match level {
        Level::Image => digest_in(set).is_none(),
        Level::Patient | Level::Study | Level::Series => false,
    }
}

/// Finds the first element in the table of this level that is not what it must be.
fn key_fault(at: u32, level: Level, set: &DataSet<'_>) -> Option<OwnFault>
    ensures { result ≡ key_fault at level (set_view set.now) }
{
    rows(level)
        .iter()
        .find(|row| is_bad(set, row))
        .map(|row| OwnFault::RecordKey(at, row.tag))
}

fn is_bad(set: &DataSet<'_>, row: &Row) -> bool
    ensures { result ≡ is_bad (set_view set.now) row.now }
{
    is_key(row.field) && !is_sound(row.field, value_at(set, row.tag))
}

fn is_key(field: Field) -> bool
    ensures { result ≡ is_key field }
{
    !matches!(
        field,
        Field::Next | Field::InUse | Field::Lower | Field::Kind | Field::Creator | Field::Digest
    )
}

/// Says whether the value suits the field: None, of a sequence or of fragments, suits none.
fn is_sound(field: Field, value: Option<&[u8]>) -> bool
    ensures { result ≡ is_sound field (option_map (λ bytes. bytes.now) value.entry) }
{
    match value {
        None => false,
        Some(bytes) => bytes.len() <= Key::MAX_LEN && suits(field, bytes),
    }
}

fn suits(field: Field, bytes: &[u8]) -> bool
    ensures { result ≡ suits field bytes.now }
{
    match field {
        Field::File => is_file_id(bytes),
        Field::Class => is_class(bytes),
        Field::Transfer => is_transfer(bytes),
        Field::Instance | Field::StudyUid | Field::SeriesUid => Uid::new(bytes).is_ok(),
        Field::PatientId
        | Field::StudyDate
        | Field::StudyTime
        | Field::StudyId
        | Field::Modality
        | Field::SeriesNumber
        | Field::Number => !bytes.is_empty(),
        Field::Next
        | Field::InUse
        | Field::Lower
        | Field::Kind
        | Field::Charset
        | Field::PatientName
        | Field::Accession
        | Field::Description
        | Field::Creator
        | Field::Digest => true,
    }
}

fn is_class(bytes: &[u8]) -> bool
    ensures { result ≡ suits Field.Class bytes.now }
{
    match Uid::new(bytes) {
        Ok(class) => is_image_class(&class),
        Err(_) => false,
    }
}

fn is_transfer(bytes: &[u8]) -> bool
    ensures { result ≡ suits Field.Transfer bytes.now }
{
    match Uid::new(bytes) {
        Ok(transfer) => is_known_syntax(&transfer),
        Err(_) => false,
    }
}
