ghost use Rattle.std.specs.Prelude.{◌≡◌, Some};
ghost use Rattle.dd_scan.specs.Scan.{summary_of_value};
ghost use Rattle.dd_scan.specs.Summaries.{summary_view, summary_in};

use crate::found::{Found, FoundValue, find_in};
use dd_elem::{Key, Tag};

/// The summary of a value of bytes.
#[derive(Clone, Copy)]
pub struct Summary<'a> {
    /// The first 1,024 of its bytes.
    pub front: &'a [u8],
    /// How many bytes it has.
    pub length: u64,
}

impl<'a> Summary<'a> {
    /// Makes the summary of a value of these bytes.
    pub fn of(value: &'a [u8]) -> Summary<'a>
        ensures { summary_view (Some result) ≡ summary_of_value (Some value.now) }
    {
        Summary {
            front: &value[..Key::MAX_LEN.min(value.len())],
            length: value.len() as u64,
        }
    }

    /// Gives the summary of the first of these elements with this tag, or of no bytes where none has it. None where
    /// its value is a sequence or fragments.
    pub fn find(found: &'a [Found], tag: Tag) -> Option<Summary<'a>>
        ensures { summary_view result ≡ summary_in tag found.now }
    {
        let Some(found) = find_in(found, tag) else {
            return Some(Summary::of(b""));
        };
        match &found.value {
            FoundValue::Items | FoundValue::Fragments => None,
            FoundValue::Bytes { front, length } => Some(Summary {
                front: front.as_slice(),
                length: *length,
            }),
        }
    }
}
