//! Skips values, items and sets of a feed, with all checks of the grammar.

ghost use Rattle.std.specs.Prelude.{◌≡◌, ◌≢◌, ◌≤◌, ◌<◌, Err, IfOk, IsTrue};
ghost use Rattle.dd_grammar.specs.declared.fault.SetFault.TheVariants.{Memory};
ghost use Rattle.dd_grammar.specs.Checks.{header_view};
ghost use Rattle.dd_grammar.specs.Reading.{item_reader, sequence_with, set_with, content_at, fragment_at};
ghost use Rattle.dd_grammar.specs.Reading.{fragments_here};
ghost use Rattle.dd_scan.specs.Skips.{Advances, Skips, SkipsSome};

use crate::cursor::Cursor;
use dd_encoding::{Length, Syntax};
use dd_grammar::{
    Header, Reach, SetFault, Sort, fragment_length, left_after, low_after, reach_of, sort_of,
};
use dd_stream::Feed;

/// Skips the value after a header.
#[cycle(skipping)]
pub fn skip_content<F: Feed>(
    at: &mut Cursor<'_, F>,
    levels: u32,
    syntax: Syntax,
    header: Header,
) -> Result<(), SetFault>
    ensures same { at.new.feed.ghost_name ≡ at.old.feed.ghost_name }
    ensures found { Advances F.Feed at.old at.new
        (λ start end. Skips result (content_at (sequence_with (item_reader levels)) syntax
        (header_view header) start) end) }
    ensures fewer { F.most at.new.feed.now ≤ F.most at.old.feed.now }
    ensures memory { result ≢ Err Memory }
{
    match sort_of(syntax, header, at.left)? {
        Sort::Bytes(n) => at.pass(n),
        Sort::Open(inner) => skip_items(at, levels, inner, Length::Undefined),
        Sort::Closed(inner, n) => {
            let n = u64::from(n);
            let after = left_after(at.left, n);
            at.left = Some(n);
            skip_items(at, levels, inner, Length::Defined)?;
            at.left = after;
            Ok(())
        }
        Sort::Fragments => skip_fragments(at),
    }
}

fn skip_fragments<F: Feed>(at: &mut Cursor<'_, F>) -> Result<(), SetFault>
    ensures same { at.new.feed.ghost_name ≡ at.old.feed.ghost_name }
    ensures found { Advances F.Feed at.old at.new
        (λ start end. Skips result (fragments_here start) end) }
    ensures fewer { F.most at.new.feed.now ≤ F.most at.old.feed.now }
    ensures memory { result ≢ Err Memory }
{
    'fragments: loop {
        let more = skip_fragment(at)?;
        if !more {
            return Ok(());
        }
    }
}

/// Skips the next fragment, and says whether there was one.
fn skip_fragment<F: Feed>(at: &mut Cursor<'_, F>) -> Result<bool, SetFault>
    ensures same { at.new.feed.ghost_name ≡ at.old.feed.ghost_name }
    ensures found { Advances F.Feed at.old at.new
        (λ start end. SkipsSome result (fragment_at start) end) }
    ensures fewer { F.most at.new.feed.now ≤ F.most at.old.feed.now }
    ensures some { IfOk result
        (λ more. IsTrue more → F.most at.new.feed.now < F.most at.old.feed.now) }
    ensures memory { result ≢ Err Memory }
{
    let Some(n) = at.item_front(Length::Undefined)? else {
        return Ok(false);
    };
    let length = fragment_length(n)?;
    at.pass(length)?;
    Ok(true)
}

#[cycle(skipping)]
fn skip_set<F: Feed>(
    at: &mut Cursor<'_, F>,
    levels: u32,
    syntax: Syntax,
    form: Length,
) -> Result<(), SetFault>
    ensures same { at.new.feed.ghost_name ≡ at.old.feed.ghost_name }
    ensures found { Advances F.Feed at.old at.new
        (λ start end. Skips result (set_with (item_reader levels) syntax form start) end) }
    ensures fewer { F.most at.new.feed.now ≤ F.most at.old.feed.now }
    ensures memory { result ≢ Err Memory }
{
    let mut low = 0;
    'elements: loop {
        let Some(header) = at.front(syntax, form, low)? else {
            return Ok(());
        };
        low = low_after(header.tag);
        skip_content(at, levels, syntax, header)?;
    }
}

#[cycle(skipping)]
fn skip_items<F: Feed>(
    at: &mut Cursor<'_, F>,
    levels: u32,
    syntax: Syntax,
    form: Length,
) -> Result<(), SetFault>
    ensures same { at.new.feed.ghost_name ≡ at.old.feed.ghost_name }
    ensures found { Advances F.Feed at.old at.new
        (λ start end. Skips result (sequence_with (item_reader levels) syntax form start) end) }
    ensures fewer { F.most at.new.feed.now ≤ F.most at.old.feed.now }
    ensures memory { result ≢ Err Memory }
{
    'items: loop {
        let Some(n) = at.item_front(form)? else {
            return Ok(());
        };
        skip_part(at, levels, syntax, n)?;
    }
}

/// Skips an item after its header, where `levels` levels may still nest.
#[cycle(skipping)]
fn skip_part<F: Feed>(
    at: &mut Cursor<'_, F>,
    levels: u32,
    syntax: Syntax,
    n: u32,
) -> Result<(), SetFault>
    ensures same { at.new.feed.ghost_name ≡ at.old.feed.ghost_name }
    ensures found { Advances F.Feed at.old at.new
        (λ start end. Skips result (item_reader levels syntax n start) end) }
    ensures fewer { F.most at.new.feed.now ≤ F.most at.old.feed.now }
    ensures memory { result ≢ Err Memory }
{
    if levels == 0 {
        return Err(SetFault::TooDeep);
    }
    let inner = levels - 1;
    match reach_of(n, at.left)? {
        Reach::Open => skip_set(at, inner, syntax, Length::Undefined),
        Reach::Closed(n) => {
            let n = u64::from(n);
            let after = left_after(at.left, n);
            at.left = Some(n);
            skip_set(at, inner, syntax, Length::Defined)?;
            at.left = after;
            Ok(())
        }
    }
}
