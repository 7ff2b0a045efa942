ghost use Rattle.std.specs.Prelude.{◌≡◌, ◌+◌, Some, None, true, false};
ghost use Rattle.dd_elem.specs.Tag.{number_of};
ghost use Rattle.dd_encoding.specs.Spelling.{names_vr, item_syntax, encapsulates, is_pixel_data};

use dd_elem::{Tag, Vr};
use dd_encoding::{Length, Syntax};

/// Stands in place of a length (PS3.5 section 7.1.2).
pub const UNDEFINED_LENGTH: u32 = 0xffff_ffff;

/// How many items may stand within each other, the outermost counted.
pub const MAX_LEVELS: u32 = 32;

/// Its value may be fragments (PS3.5 annex A.4).
pub const PIXEL_DATA: Tag = Tag {
    group: 0x7fe0,
    element: 0x0010,
};

/// Gives the least number that a tag may have after this one (PS3.5 section 7.1).
pub fn low_after(tag: Tag) -> u64
    ensures { result ≡ number_of tag + 1 }
{
    u64::from(tag.number()) + 1
}

/// Says whether a header in this syntax names a value representation.
pub fn names_vr(syntax: Syntax) -> bool
    ensures { result ≡ names_vr syntax }
{
    match syntax {
        Syntax::Explicit => true,
        Syntax::Implicit => false,
        Syntax::Encapsulated => true,
    }
}

/// Gives the syntax of the items of a sequence of this form and value representation, or None where it may not stand
/// there (PS3.5 sections 6.2.2 and 7.5.1).
pub fn item_syntax(syntax: Syntax, vr: Option<Vr>, form: Length) -> Option<Syntax>
    ensures { result ≡ item_syntax syntax vr form }
{
    match (names_vr(syntax), vr, form) {
        (true, Some(Vr::SQ), _) => Some(syntax),
        (true, Some(Vr::UN), Length::Undefined) => Some(Syntax::Implicit),
        (true, _, _) => None,
        (false, None, Length::Undefined) => Some(Syntax::Implicit),
        (false, _, _) => None,
    }
}

/// Says whether pixel data of this value representation may be fragments.
pub fn encapsulates(syntax: Syntax, vr: Option<Vr>) -> bool
    ensures { result ≡ encapsulates syntax vr }
{
    match (syntax, vr) {
        (Syntax::Explicit, _) => false,
        (Syntax::Implicit, _) => false,
        (Syntax::Encapsulated, Some(Vr::OB)) => true,
        (Syntax::Encapsulated, _) => false,
    }
}

pub fn is_pixel_data(tag: Tag) -> bool
    ensures { result ≡ is_pixel_data tag }
{
    tag == PIXEL_DATA
}
