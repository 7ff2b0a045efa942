ghost use Rattle.std.specs.Prelude.{◌≡◌, take};

use dd_spelling::Spelling;

/// Says in which spellings a name is looked for.
#[derive(Clone, Copy, PartialEq, Eq)]
pub(crate) enum Search {
    /// As it is recorded.
    Exact,
    /// In any in which systems show it.
    Shown,
}

/// Takes the spellings that are tried. The first of all is the name as recorded.
pub(crate) fn tried(search: Search, all: &[Spelling; 8]) -> &[Spelling]
    ensures exact { search ≡ Search.Exact → result.now ≡ take 1 all.now }
    ensures shown { search ≡ Search.Shown → result.now ≡ all.now }
{
    match search {
        Search::Exact => &all[..1],
        Search::Shown => all.as_slice(),
    }
}
