ghost use Rattle.std.specs.Prelude.{◌≡◌, ◌≤◌, None};
ghost use Rattle.dd_stream.specs.Feeds.{Scans};
ghost use Rattle.dd_encoding.specs.Spelling.{max_levels};
ghost use Rattle.dd_grammar.specs.Checks.{header_view};
ghost use Rattle.dd_grammar.specs.Reading.{item_reader, sequence_with, content_at};
ghost use Rattle.dd_scan.specs.Scan.{ScanGives, is_wanted, found_summary, summary_of, summary_of_sort};
ghost use Rattle.dd_scan.specs.Skips.{Advances, GivesSummary};

use crate::cleaning::take_cleaned;
use crate::cursor::Cursor;
use crate::found::{Found, FoundValue, Scan};
use crate::skipping::skip_content;
use dd_elem::Tag;
use dd_encoding::{Length, Syntax};
use dd_grammar::{Header, MAX_LEVELS, SetFault, Sort, low_after, sort_of};
use dd_stream::Feed;
use std::alloc::Global;

/// Takes a data set from a feed, to its end, with every check of `parse` in its order. Keeps its first tag and the
/// wanted elements of the set itself. Needs memory only after a wanted element that was read whole.
pub fn take_set<F: Feed>(
    alloc: Global,
    feed: &mut F,
    syntax: Syntax,
    wanted: &[Tag],
) -> Result<Scan, SetFault>
    ensures found { Scans F.moves F.tells feed.old feed.new
        (λ bytes rest. ScanGives syntax wanted.now result bytes) }
    ensures fewer { F.most feed.new ≤ F.most feed.old }
{
    let mut at = Cursor { feed, left: None };
    take_elements(alloc, &mut at, syntax, wanted)
}

fn take_elements<F: Feed>(
    alloc: Global,
    at: &mut Cursor<'_, F>,
    syntax: Syntax,
    wanted: &[Tag],
) -> Result<Scan, SetFault>
    requires { at.old.left ≡ None }
    ensures same { at.new.feed.ghost_name ≡ at.old.feed.ghost_name }
    ensures found { Scans F.moves F.tells at.old.feed.now at.new.feed.now
        (λ bytes rest. ScanGives syntax wanted.now result bytes) }
    ensures fewer { F.most at.new.feed.now ≤ F.most at.old.feed.now }
{
    let mut scan = Scan {
        first: None,
        found: Vec::new(alloc),
    };
    let mut low = 0;
    'elements: loop {
        let Some(header) = at.front(syntax, Length::Defined, low)? else {
            return Ok(scan);
        };
        let tag = header.tag;
        low = low_after(tag);
        scan.first = Some(scan.first.unwrap_or(tag));
        if is_wanted(wanted, tag) {
            let value = take_wanted(alloc, at, syntax, header)?;
            scan.found.push(Found { tag, value })?;
        } else {
            skip_content(at, MAX_LEVELS, syntax, header)?;
        }
    }
}

fn is_wanted(wanted: &[Tag], tag: Tag) -> bool
    ensures { result ≡ is_wanted wanted.now tag }
{
    wanted.iter().any(|other| *other == tag)
}

fn take_wanted<F: Feed>(
    alloc: Global,
    at: &mut Cursor<'_, F>,
    syntax: Syntax,
    header: Header,
) -> Result<FoundValue, SetFault>
    ensures same { at.new.feed.ghost_name ≡ at.old.feed.ghost_name }
    ensures found { Advances F.Feed at.old at.new
        (λ start end. GivesSummary found_summary summary_of result
        (content_at (sequence_with (item_reader max_levels)) syntax
        (header_view header) start) end) }
    ensures fewer { F.most at.new.feed.now ≤ F.most at.old.feed.now }
{
    let sort = sort_of(syntax, header, at.left)?;
    if let Sort::Bytes(n) = sort {
        return take_cleaned(alloc, at, n);
    }
    let value = found_of_sort(sort);
    skip_content(at, MAX_LEVELS, syntax, header)?;
    Ok(value)
}

fn found_of_sort(sort: Sort) -> FoundValue
    ensures { found_summary result ≡ summary_of_sort sort }
{
    match sort {
        Sort::Bytes(_) | Sort::Open(_) | Sort::Closed(_, _) => FoundValue::Items,
        Sort::Fragments => FoundValue::Fragments,
    }
}
