ghost use Rattle.std.specs.Prelude.{Some};

use crate::uid::Uid;
use std::{fmt, str};

/// Prints the characters, and fails only where the formatter does.
impl fmt::Display for Uid {
    ghost output = { λ uid. Some uid };

    #[tactic(auto, using(crate::proofs::UidText::IsUtf8_from_IsUid))]
    fn fmt<W: fmt::Write>(&self, f: &mut fmt::Formatter<W>) -> fmt::Result {
        match str::from_utf8(self.as_bytes()) {
            Ok(text) => f.write_str(text),
            Err(_) => unreachable!(),
        }
    }
}
