//! The links of a record.

ghost use Rattle.std.specs.Prelude.{◌≡◌, option_map};
ghost use Rattle.dd_set.specs.Views.{set_view};
ghost use Rattle.dd_walk.specs.Saying.{links_in};
ghost use Rattle.dd_walk.specs.ReadAnswers.{links_view};

use crate::values::{flag_at, number_at, text_at};
use dd_records::table::{IN_USE, KIND, LOWER, NEXT};
use dd_set::DataSet;

/// What each record begins with.
#[derive(Clone, Copy, Debug)]
pub(crate) struct Links<'a> {
    /// The offset of the next record of its level, or 0.
    pub(crate) next: u32,
    /// The offset of the first record below it, or 0.
    pub(crate) lower: u32,
    pub(crate) in_use: bool,
    /// Its type without padding.
    pub(crate) kind: &'a [u8],
}

/// Reads the links, where all four are there and have their form (PS3.3 section F.3.2.2).
#[tactic(auto, unfolding(crate::specs::Saying::links_in))]
pub(crate) fn links_in<'a>(set: &DataSet<'a>) -> Option<Links<'a>>
    ensures { option_map links_view result ≡ links_in (set_view set.now) }
{
    let next = number_at(set, NEXT.tag)?;
    let in_use = flag_at(set, IN_USE.tag)?;
    let lower = number_at(set, LOWER.tag)?;
    let kind = text_at(set, KIND.tag)?;
    Some(Links {
        next,
        lower,
        in_use,
        kind,
    })
}
