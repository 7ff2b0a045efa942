ghost use Rattle.std.specs.Prelude.{◌≡◌, find};
ghost use Rattle.std.specs.Option.{option_copied};
ghost use Rattle.dd_grammar.specs.Lists.{same_tag};

use dd_elem::Tag;

/// What was found in a data set.
#[derive(Debug, Drop, PartialEq)]
pub struct Scan {
    /// The tag of its first element, or None where the set is empty.
    pub first: Option<Tag>,
    /// The wanted elements, in the order of tags.
    pub found: Vec<Found>,
}

/// A wanted element.
#[derive(Debug, PartialEq)]
pub struct Found {
    pub tag: Tag,
    pub value: FoundValue,
}

// By hand, so that a drop is one call.
impl Drop for Found {
    fn drop(self) {
        let Found {
            tag: _,
            value: _value,
        } = self;
    }
}

/// What is kept of the value of a wanted element.
#[derive(Debug, Drop, PartialEq)]
pub enum FoundValue {
    /// The element is a sequence.
    Items,
    /// The element is pixel data in fragments.
    Fragments,
    /// The value is bytes: this is what they are without padding (PS3.5 section 6.2).
    Bytes {
        /// The first 1,024 of them.
        front: Vec<u8>,
        /// How many they are.
        length: u64,
    },
}

pub(crate) fn find_in(found: &[Found], tag: Tag) -> Option<&Found>
    ensures { option_copied result ≡ find (λ found. same_tag found.tag tag) found.now }
{
    found.iter().find(|found| found.tag == tag)
}
