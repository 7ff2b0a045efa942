ghost use Rattle.std.specs.Prelude.{◌≡◌, ◌≢◌, ◌==◌, ℕ, List, length, unwrap_or, None, Err};
ghost use Rattle.dd_grammar.specs.declared.fault.SetFault.TheVariants.{Memory};
ghost use Rattle.dd_grammar.specs.Checks.{header_view, opened, sorted, reached};
ghost use Rattle.dd_grammar.specs.Reading.{opening_at, tagged_at, item_opening, At, SequenceReader, SetReader};
ghost use Rattle.dd_grammar.specs.Reading.{leaves_fewer, left_after, is_over, content_at, part_at, fragment_length};

use crate::fault::SetFault;
use crate::header_bytes::{
    ends_sequence, ends_set, is_item, letters_in, long_in, short_in, tag_in,
};
use crate::syntax_rules::{UNDEFINED_LENGTH, encapsulates, is_pixel_data, item_syntax, names_vr};
use dd_elem::{Tag, Vr};
use dd_encoding::{DELIMITER_GROUP, HEADER_SIZE, Length, Syntax};

/// What a header gives after its tag (PS3.5 section 7.1.2).
#[derive(Clone, Copy)]
pub struct Shape {
    /// Where the syntax names it.
    pub vr: Option<Vr>,
    /// In bytes, or FFFFFFFFH where it is undefined.
    pub length: u32,
}

#[derive(Clone, Copy)]
pub struct Header {
    pub tag: Tag,
    pub shape: Shape,
}

/// What the first eight bytes of a header say.
#[derive(Clone, Copy)]
pub enum Opening {
    /// The set ends here.
    End,
    Whole(Header),
    /// The length is in the next four bytes.
    Long(Tag, Vr),
}

/// What follows a header.
#[derive(Clone, Copy)]
pub enum Sort {
    /// A value of this length in bytes.
    Bytes(u32),
    /// Items in this syntax, up to a delimiter.
    Open(Syntax),
    /// Items in this syntax, over this length in bytes.
    Closed(Syntax, u32),
    /// Fragments, up to a delimiter.
    Fragments,
}

/// How far the set of an item reaches.
#[derive(Clone, Copy)]
pub enum Reach {
    /// Up to a delimiter.
    Open,
    /// Over this length in bytes.
    Closed(u32),
}

/// Says whether the nearest enclosing length leaves fewer than n bytes. `left` equals None where no length encloses.
pub fn leaves_fewer(left: Option<u64>, n: u64) -> bool
    ensures { result ≡ leaves_fewer left n }
{
    match left {
        None => false,
        Some(left) => left < n,
    }
}

/// Gives what the nearest enclosing length leaves after n bytes more: 0 where it leaves fewer.
pub fn left_after(left: Option<u64>, n: u64) -> Option<u64>
    ensures { result ≡ left_after left n }
{
    match left {
        None => None,
        Some(left) => Some(left.saturating_sub(n)),
    }
}

/// Says whether a set or a sequence of this form ends here by its length. None where it ends with the bytes.
pub fn ends_here(form: Length, left: Option<u64>) -> Option<bool>
    ensures exact { (bytes : List ℕ) → is_over form (record { left = left; bytes = bytes })
        ≡ unwrap_or result (length bytes == 0) }
    ensures none { result ≡ None → (form ≡ Length.Defined) × (left ≡ None) }
{
    match (form, left) {
        (Length::Undefined, _) => Some(false),
        (Length::Defined, Some(left)) => Some(left == 0),
        (Length::Defined, None) => None,
    }
}

/// Checks the first eight bytes of a header in a set of this form (PS3.5 sections 7.1 and 7.5). Refused by the first
/// of 8 BadDelimiter, 7 UnexpectedTag, 2 Order where the number of the tag is below `low`, 3 BadVr and 4 Reserved.
#[tactic(auto, unfolding(crate::specs::Reading::opening_at, crate::specs::Reading::header_at))]
pub fn element_opening(
    syntax: Syntax,
    form: Length,
    low: u64,
    head: &[u8; HEADER_SIZE],
) -> Result<Opening, SetFault>
    ensures exact { (at : At) → opening_at syntax form low head.now at ≡ opened result at }
    ensures memory { result ≢ Err Memory }
{
    if ends_set(form, head) {
        if long_in(head) != 0 {
            return Err(SetFault::BadDelimiter);
        }
        return Ok(Opening::End);
    }
    let tag = tag_in(head);
    if tag.group == DELIMITER_GROUP {
        return Err(SetFault::UnexpectedTag);
    }
    if u64::from(tag.number()) < low {
        return Err(SetFault::Order);
    }
    shape_opening(syntax, tag, head)
}

#[tactic(auto, unfolding(crate::specs::Reading::shape_at))]
fn shape_opening(syntax: Syntax, tag: Tag, head: &[u8; HEADER_SIZE]) -> Result<Opening, SetFault>
    ensures exact { (at : At) → tagged_at syntax tag head.now at ≡ opened result at }
    ensures memory { result ≢ Err Memory }
{
    if !names_vr(syntax) {
        let (vr, length) = (None, long_in(head));
        let shape = Shape { vr, length };
        return Ok(Opening::Whole(Header { tag, shape }));
    }
    let Some(vr) = Vr::from_letters(letters_in(head)) else {
        return Err(SetFault::BadVr);
    };
    if vr.is_long() {
        if short_in(head) != 0 {
            return Err(SetFault::Reserved);
        }
        return Ok(Opening::Long(tag, vr));
    }
    let (vr, length) = (Some(vr), u32::from(short_in(head)));
    let shape = Shape { vr, length };
    Ok(Opening::Whole(Header { tag, shape }))
}

/// Gives the length of the item that these eight bytes begin, or None where they end a sequence of this form (PS3.5
/// section 7.5). 8 BadDelimiter, or 7 UnexpectedTag where they do neither.
#[tactic(auto, unfolding(crate::specs::Reading::item_opening))]
pub fn item_opening(form: Length, head: &[u8; HEADER_SIZE]) -> Result<Option<u32>, SetFault>
    ensures exact { result ≡ item_opening form head.now }
    ensures memory { result ≢ Err Memory }
{
    if ends_sequence(form, head) {
        if long_in(head) != 0 {
            return Err(SetFault::BadDelimiter);
        }
        return Ok(None);
    }
    if !is_item(head) {
        return Err(SetFault::UnexpectedTag);
    }
    Ok(Some(long_in(head)))
}

/// Gives what follows a header (PS3.5 sections 6.2.2 and 7.5, annex A.4). 6 UndefinedLength, 5 OddLength, or 9
/// Overrun where the length is more than `left`.
#[tactic(auto, unfolding(crate::specs::Reading::content_at))]
pub fn sort_of(syntax: Syntax, header: Header, left: Option<u64>) -> Result<Sort, SetFault>
    ensures exact { (sequence : SequenceReader) (bytes : List ℕ)
        → let at : At = record { left = left; bytes = bytes }
        in content_at sequence syntax (header_view header) at ≡ sorted sequence result at }
    ensures memory { result ≢ Err Memory }
{
    let shape = header.shape;
    if shape.length == UNDEFINED_LENGTH {
        if encapsulates(syntax, shape.vr) && is_pixel_data(header.tag) {
            return Ok(Sort::Fragments);
        }
        return match item_syntax(syntax, shape.vr, Length::Undefined) {
            Some(inner) => Ok(Sort::Open(inner)),
            None => Err(SetFault::UndefinedLength),
        };
    }
    if shape.length % 2 == 1 {
        return Err(SetFault::OddLength);
    }
    if leaves_fewer(left, u64::from(shape.length)) {
        return Err(SetFault::Overrun);
    }
    match item_syntax(syntax, shape.vr, Length::Defined) {
        Some(inner) => Ok(Sort::Closed(inner, shape.length)),
        None => Ok(Sort::Bytes(shape.length)),
    }
}

/// Checks the length of a fragment: 6 UndefinedLength, or 5 OddLength (PS3.5 annex A.4).
#[tactic(auto, unfolding(crate::specs::Reading::fragment_length))]
pub fn fragment_length(n: u32) -> Result<u32, SetFault>
    ensures exact { result ≡ fragment_length n }
    ensures memory { result ≢ Err Memory }
{
    if n == UNDEFINED_LENGTH {
        return Err(SetFault::UndefinedLength);
    }
    if n % 2 == 1 {
        return Err(SetFault::OddLength);
    }
    Ok(n)
}

/// Gives how far the set of an item of this length reaches (PS3.5 section 7.5). 5 OddLength, or 9 Overrun where it is
/// more than `left`.
#[tactic(auto, unfolding(crate::specs::Reading::part_at))]
pub fn reach_of(n: u32, left: Option<u64>) -> Result<Reach, SetFault>
    ensures exact { (set : SetReader) (syntax : Syntax) (bytes : List ℕ)
        → let at : At = record { left = left; bytes = bytes }
        in part_at set syntax n at ≡ reached set syntax result at }
    ensures memory { result ≢ Err Memory }
{
    if n == UNDEFINED_LENGTH {
        return Ok(Reach::Open);
    }
    if n % 2 == 1 {
        return Err(SetFault::OddLength);
    }
    if leaves_fewer(left, u64::from(n)) {
        return Err(SetFault::Overrun);
    }
    Ok(Reach::Closed(n))
}
