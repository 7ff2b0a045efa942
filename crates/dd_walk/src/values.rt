//! Values of elements, by their tags.

ghost use Rattle.std.specs.Prelude.{◌≡◌, option_and_then, option_map};
ghost use Rattle.dd_elem.specs.Clean.{clean_of};
ghost use Rattle.dd_set.specs.Views.{set_view};
ghost use Rattle.dd_walk.specs.Saying.{digest_in, value_of, number_of, flag_of, text_of};

use dd_elem::{Tag, clean};
use dd_records::table::{CREATOR, DIGEST};
use dd_records::{FLAG_IN_USE, PRIVATE_CREATOR};
use dd_set::{DataSet, Value, value_at};

fn value_of<'a>(set: &DataSet<'a>, tag: Tag) -> Option<&'a [u8]>
    ensures { option_map (λ value. value.now) result ≡ value_of tag (set_view set.now) }
{
    match set.find(tag)?.value {
        Value::Bytes(value) => Some(value),
        Value::Items { .. } | Value::Fragments(_) => None,
    }
}

/// Gives the number, where the element holds 4 bytes.
pub(crate) fn number_at(set: &DataSet<'_>, tag: Tag) -> Option<u32>
    ensures { result ≡ option_and_then number_of (value_of tag (set_view set.now)) }
{
    number_of(value_of(set, tag)?)
}

fn number_of(value: &[u8]) -> Option<u32>
    ensures { result ≡ number_of value.now }
{
    let bytes = <[u8; 4]>::try_from(value).ok()?;
    Some(u32::from_le_bytes(bytes))
}

/// Says whether an element of 2 bytes holds FFFFH.
pub(crate) fn flag_at(set: &DataSet<'_>, tag: Tag) -> Option<bool>
    ensures { result ≡ option_and_then flag_of (value_of tag (set_view set.now)) }
{
    flag_of(value_of(set, tag)?)
}

fn flag_of(value: &[u8]) -> Option<bool>
    ensures { result ≡ flag_of value.now }
{
    let bytes = <[u8; 2]>::try_from(value).ok()?;
    Some(u16::from_le_bytes(bytes) == FLAG_IN_USE)
}

/// Gives the value without its padding, where the element holds bytes.
pub(crate) fn clean_at<'a>(set: &DataSet<'a>, tag: Tag) -> Option<&'a [u8]>
    ensures { option_map (λ value. value.now) result
        ≡ option_map clean_of (value_of tag (set_view set.now)) }
{
    Some(clean(value_of(set, tag)?))
}

/// Gives the text without its padding, where something is left.
pub(crate) fn text_at<'a>(set: &DataSet<'a>, tag: Tag) -> Option<&'a [u8]>
    ensures { option_map (λ text. text.now) result
        ≡ option_and_then text_of (value_of tag (set_view set.now)) }
{
    text_of(value_of(set, tag)?)
}

fn text_of(value: &[u8]) -> Option<&[u8]>
    ensures { option_map (λ text. text.now) result ≡ text_of value.now }
{
    let text = clean(value);
    if text.is_empty() { None } else { Some(text) }
}

/// Gives the SHA-256 of the file of an IMAGE record. None where it does not stand in the block of private elements of
/// its creator (PS3.5 section 7.8.1), is a sequence, or has not 32 bytes.
pub fn digest_in(set: &DataSet<'_>) -> Option<[u8; 32]>
    ensures { result ≡ digest_in (set_view set.now) }
{
    if value_at(set, CREATOR.tag)? != PRIVATE_CREATOR {
        return None;
    }
    <[u8; 32]>::try_from(value_of(set, DIGEST.tag)?).ok()
}
