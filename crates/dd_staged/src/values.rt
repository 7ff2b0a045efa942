//! Values of the elements of an item, by their tags.

ghost use Rattle.std.specs.Prelude.{◌≡◌, ◌≢◌, IfOk, IfErr};
ghost use Rattle.dd_elem.specs.Key.{IsKey};
ghost use Rattle.dd_elem.specs.Uid.{IsUid};
ghost use Rattle.dd_set.specs.Views.{set_view};
ghost use Rattle.dd_staged.specs.Values.{key_at, name_in, raw_at, sized};

use dd_elem::{Key, KeyRefused, Tag, Uid};
use dd_set::{DataSet, Value, value_at};
use std::alloc::Global;

/// Why an item gives no source.
#[derive(Clone, Copy, Debug, PartialEq, Eq)]
pub(crate) enum ItemFault {
    /// It is no item of a source.
    Bad,
    /// An allocation was refused.
    Memory,
}

/// Gives the bytes of the value as they are, and none where there is no such element.
pub(crate) fn raw_at<'a>(set: &DataSet<'a>, tag: Tag) -> &'a [u8]
    ensures { result.now ≡ raw_at tag (set_view set.now) }
{
    let Some(element) = set.find(tag) else {
        return &[];
    };
    match element.value {
        Value::Bytes(bytes) => bytes,
        Value::Items { .. } | Value::Fragments(_) => &[],
    }
}

/// Gives the value without its padding, and no bytes where there is no such element.
fn clean_at<'a>(set: &DataSet<'a>, tag: Tag) -> &'a [u8]
    ensures { result.now ≡ key_at tag (set_view set.now) }
{
    value_at(set, tag).unwrap_or(&[])
}

#[tactic(auto, using(crate::proofs::Back::key_is_clean))]
pub(crate) fn key_at(alloc: Global, set: &DataSet<'_>, tag: Tag) -> Result<Key, ItemFault>
    ensures value { IfOk result (λ key. key ≡ key_at tag (set_view set.now)) }
    ensures valid { IfOk result (λ key. IsKey key) }
    ensures bad { result ≡ Err ItemFault.Bad → ¬ IsKey (key_at tag (set_view set.now)) }
{
    match Key::copy_of(alloc, clean_at(set, tag)) {
        Ok(key) => {
            key.as_bytes();
            Ok(key)
        }
        Err(KeyRefused::TooLong) => Err(ItemFault::Bad),
        Err(KeyRefused::Memory) => Err(ItemFault::Memory),
    }
}

pub(crate) fn uid_at(set: &DataSet<'_>, tag: Tag) -> Result<Uid, ItemFault>
    ensures value { IfOk result (λ uid. (uid ≡ key_at tag (set_view set.now)) × IsUid uid) }
    ensures bad { IfErr result (λ fault. (fault ≡ ItemFault.Bad) × ¬ IsUid (key_at tag (set_view set.now))) }
{
    match Uid::new(clean_at(set, tag)) {
        Ok(uid) => Ok(uid),
        Err(_) => Err(ItemFault::Bad),
    }
}

/// Gives these bytes, or zeros where there are not as many.
pub(crate) fn four(bytes: &[u8]) -> [u8; 4]
    ensures { result ≡ sized 4 bytes.now }
{
    match <[u8; 4]>::try_from(bytes) {
        Ok(bytes) => bytes,
        Err(_) => [0; 4],
    }
}

pub(crate) fn eight(bytes: &[u8]) -> [u8; 8]
    ensures { result ≡ sized 8 bytes.now }
{
    match <[u8; 8]>::try_from(bytes) {
        Ok(bytes) => bytes,
        Err(_) => [0; 8],
    }
}

/// Gives the name without its end, which the last byte counts.
pub(crate) fn name_in(value: &[u8]) -> &[u8]
    ensures { result.now ≡ name_in value.now }
{
    let Some(last) = value.last() else {
        return value;
    };
    &value[..value.len().saturating_sub(usize::from(*last))]
}
