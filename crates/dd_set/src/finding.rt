//! Elements by their tags.

ghost use Rattle.std.specs.Prelude.{◌≡◌, option_map};
ghost use Rattle.std.specs.Option.{option_copied};
ghost use Rattle.dd_set.specs.Find.{find_in, value_at};
ghost use Rattle.dd_set.specs.Views.{set_view, element_view};

use crate::set::{DataSet, Element, Value};
use dd_elem::{Tag, clean};

impl<'a> DataSet<'a> {
    /// Finds the first element with this tag.
    pub fn find(&self, tag: Tag) -> Option<&Element<'a>>
        ensures { option_map element_view (option_copied result) ≡ find_in tag (set_view self.now) }
    {
        self.elements.iter().find(|element| element.tag == tag)
    }
}

/// Gives the value of the first element with this tag, without its padding. It gives no bytes where there is no such
/// element, and None for a sequence or fragments.
pub fn value_at<'a>(set: &DataSet<'a>, tag: Tag) -> Option<&'a [u8]>
    ensures { option_copied result ≡ value_at tag (set_view set.now) }
{
    let Some(element) = set.find(tag) else {
        return Some(&[]);
    };
    let Value::Bytes(bytes) = element.value else {
        return None;
    };
    Some(clean(bytes))
}
