//! What stands before a value that is written, and which values may stand there.

ghost use Rattle.std.specs.Prelude.{◌≡◌, ◌≤◌, ◌↔◌, ℕ, length, IsTrue, Some, None, true, false};
ghost use Rattle.dd_encoding.specs.Spelling.{item_syntax, length_limit, HoldsBytes, shape_text};
ghost use Rattle.dd_encoding.specs.declared.syntax.Length.{Length};
ghost use Rattle.dd_encoding.specs.declared.syntax.Syntax.{Syntax};

use dd_elem::Vr;
use dd_encoding::{HEADER_SIZE, LONG_HEADER_SIZE, Syntax, TAG_SIZE};
use dd_grammar::{UNDEFINED_LENGTH, names_vr};

/// Counts the bytes of a plain header, which an item or a delimiter has.
pub const PLAIN_SIZE: u64 = HEADER_SIZE as u64;

/// Says whether bytes may stand under this value representation.
pub fn holds_bytes(syntax: Syntax, vr: Option<Vr>) -> bool
    ensures { IsTrue result ↔ HoldsBytes syntax vr }
{
    match (names_vr(syntax), vr) {
        (true, Some(vr)) => vr != Vr::SQ,
        (true, None) => false,
        (false, vr) => vr.is_none(),
    }
}

/// Gives the syntax of the items of a sequence that may stand under this value representation (PS3.5 sections 6.2.2
/// and 7.5.1).
pub fn inner_syntax(syntax: Syntax, vr: Option<Vr>) -> Syntax
    ensures { (form : Length) (inner : Syntax) → item_syntax syntax vr form ≡ Some inner
        → result ≡ inner }
{
    match vr {
        Some(Vr::SQ) => syntax,
        _ => Syntax::Implicit,
    }
}

/// Gives the limit below which defined lengths have room in a header of this value representation.
pub fn length_limit(vr: Option<Vr>) -> u64
    ensures { result ≡ length_limit vr }
{
    match vr {
        Some(vr) if !vr.is_long() => 0x1_0000,
        _ => u64::from(UNDEFINED_LENGTH),
    }
}

/// Counts the bytes of a header of this value representation after the tag.
pub fn shape_size(vr: Option<Vr>) -> u64
    ensures exact { (n : ℕ) → result ≡ length (shape_text vr n) }
    ensures few { result ≤ 8 }
{
    match vr {
        Some(vr) if vr.is_long() => (LONG_HEADER_SIZE - TAG_SIZE) as u64,
        _ => (HEADER_SIZE - TAG_SIZE) as u64,
    }
}
