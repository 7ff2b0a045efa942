ghost use Rattle.std.specs.Prelude.{◌≡◌, ◌++◌, ℕ, List, map};
ghost use Rattle.dd_spelling.specs.Spellings.{in_small_letters, shown, spelled};

/// How a system shows a recorded name.
#[derive(Clone, Copy)]
pub struct Spelling {
    /// Its letters are small.
    pub is_small: bool,
    /// What follows the letters.
    pub ending: &'static str,
}

/// Lists the spellings in which systems show a name of a disc (ISO 9660), in the order of the look-up. A recorded name
/// has no dot and no version number, and its letters are capital ones (PS3.10 section 8.2 and PS3.12).
pub fn spellings() -> [Spelling; 8]
    ensures { (name : List ℕ) → map (λ spelling. spelled spelling name) result ≡ shown name }
{
    [
        capital(""),
        small(""),
        capital(".;1"),
        capital(";1"),
        capital("."),
        small(".;1"),
        small(";1"),
        small("."),
    ]
}

fn capital(ending: &'static str) -> Spelling
    ensures { (name : List ℕ) → spelled result name ≡ name ++ ending.now }
{
    Spelling {
        is_small: false,
        ending,
    }
}

fn small(ending: &'static str) -> Spelling
    ensures { (name : List ℕ) → spelled result name ≡ in_small_letters name ++ ending.now }
{
    Spelling {
        is_small: true,
        ending,
    }
}
