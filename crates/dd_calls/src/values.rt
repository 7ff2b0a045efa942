//! The values of elements, as they are compared and given.

ghost use Rattle.std.specs.Prelude.{◌≡◌};
ghost use Rattle.dd_set.specs.Views.{set_view};
ghost use Rattle.dd_walk.specs.Saying.{key_of};

use dd_elem::Tag;
use dd_keys::value_at;
use dd_set::DataSet;

/// Gives the value without its padding: no bytes where the set has no value there, or items.
pub(crate) fn value_in<'a>(set: &DataSet<'a>, tag: Tag) -> &'a [u8]
    ensures { result.now ≡ key_of tag (set_view set.now) }
{
    match value_at(set, tag) {
        Some(value) => value,
        None => &[],
    }
}
