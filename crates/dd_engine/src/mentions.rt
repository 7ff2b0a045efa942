//! Finds the first mention of a UID among many.

ghost use Rattle.std.specs.Prelude.{◌≡◌, IfOk, map};
ghost use Rattle.std.specs.List.{zip};
ghost use Rattle.std.specs.List.Sorted.{IsSorted, IsStable};
ghost use Rattle.dd_engine.specs.Mentions.{first_number, mention_cmp, mention_view};

use dd_elem::{Memory, Ordered, Uid};
use std::alloc::Global;

#[derive(Clone, Copy)]
pub(crate) struct Mention<'a> {
    pub(crate) uid: &'a Uid,
    pub(crate) number: Option<usize>,
}

pub(crate) fn mentions_of<'a>(
    alloc: Global,
    uids: &'a [Uid],
    numbers: &[Option<usize>],
) -> Result<Vec<Mention<'a>>, Memory>
    ensures { IfOk result (λ mentions. map (λ mention. mention_view mention) mentions.items
        ≡ zip numbers.now uids.now) }
{
    let mut mentions = Vec::with_capacity(alloc, uids.len())?;
    for (number, uid) in numbers.iter().zip(uids) {
        mentions.push(Mention {
            uid,
            number: *number,
        })?;
    }
    Ok(mentions)
}

pub(crate) fn in_order<'a>(mut mentions: Vec<Mention<'a>>) -> Result<Vec<Mention<'a>>, Memory>
    ensures order { IfOk result (λ ordered. IsSorted mention_cmp ordered.items) }
    ensures stable { IfOk result (λ ordered.
        IsStable mention_cmp mentions.entry.items ordered.items) }
{
    mentions.sort_by(|one: &Mention<'_>, other: &Mention<'_>| one.uid.compare(other.uid))?;
    Ok(mentions)
}

/// Gives the number of the first of these mentions with this UID. None if there is no such mention, or it has no
/// number.
pub(crate) fn first_number(mentions: &[Mention<'_>], uid: &Uid) -> Option<usize>
    requires { IsSorted mention_cmp mentions.now }
    ensures { result ≡ first_number (map (λ mention. mention_view mention) mentions.now) uid.now }
{
    let first = mentions.partition_point(|mention: &Mention<'_>| mention.uid.compare(uid).is_lt());
    let mention = mentions.get(first)?;
    if mention.uid.compare(uid).is_eq() {
        mention.number
    } else {
        None
    }
}
