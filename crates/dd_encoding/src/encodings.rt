//! The encodings of the known transfer syntaxes (PS3.5 section 10 and annex A).

ghost use Rattle.std.specs.Prelude.{◌≡◌};
ghost use Rattle.dd_encoding.specs.Syntaxes.{syntax_of};

use crate::syntax::Syntax;
use dd_version::{EXPLICIT, IMPLICIT, is_encapsulated};

#[tactic(auto, unfolding(crate::specs::Syntaxes::syntax_of))]
pub(crate) fn syntax_of(uid: &[u8]) -> Option<Syntax>
    ensures { result ≡ syntax_of uid.now }
{
    if uid == IMPLICIT {
        Some(Syntax::Implicit)
    } else if uid == EXPLICIT {
        Some(Syntax::Explicit)
    } else if is_encapsulated(uid) {
        Some(Syntax::Encapsulated)
    } else {
        None
    }
}
