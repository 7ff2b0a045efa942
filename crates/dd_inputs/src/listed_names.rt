ghost use Rattle.std.specs.Prelude.{◌≡◌, ◌≢◌, ◌<◌, ◌≤◌, ◌+◌, ◌++◌, ℕ, List, [], ◌∷◌, None, Err, length, map};
ghost use Rattle.std.specs.Prelude.{IfOk, IfSome, IsOk, false, string_bytes, true};
ghost use Rattle.dd_inputs.specs.ListedNames.{AreNames, FailsAt, HavePaths, IsListOf, IsListed, IsName, parts};
ghost use Rattle.dd_inputs.specs.ListedNames.{shown_name};
ghost use Rattle.dd_inputs.specs.declared.listed_names.NamesFault.TheVariants as faults;

use dd_elem::Memory;
use std::alloc::Global;
use std::str;

/// The paths of a line and, after them, the names of its list.
#[derive(Drop)]
pub struct AllSources {
    /// The path of each source.
    pub paths: Vec<String>,
    /// The numbers of the names that are not UTF-8, in rising order. Each stands there as lines show it, and is no
    /// path.
    pub bad_names: Vec<usize>,
}

#[derive(Debug, Drop)]
pub(crate) enum NamesFault {
    /// An allocation was refused.
    Memory,
    /// The name of this number, counted from 1, is empty or not UTF-8.
    BadName(usize),
}

impl From<Memory> for NamesFault {
    ghost from_gives = { λ _ fault. fault ≡ faults.Memory };

    fn from(_refused: Memory) -> NamesFault {
        NamesFault::Memory
    }
}

/// Adds the names of a list. A zero byte ends each name, but the last one may end with the list. A list without names
/// is BadName 1. So is a name that is empty or, unless the run keeps going, not UTF-8.
pub(crate) fn add_names(
    alloc: Global,
    list: &[u8],
    keep_going: bool,
    all: &mut AllSources,
) -> Result<(), NamesFault>
    ensures paths { IsOk result → (given : List (List ℕ))
        → HavePaths given (map (λ path. string_bytes path) all.old.paths.items)
        all.old.bad_names.items
        → HavePaths (given ++ parts list.now)
        (map (λ path. string_bytes path) all.new.paths.items) all.new.bad_names.items }
    ensures good { IsOk result → AreNames keep_going (parts list.now) }
    ensures bad { (number : ℕ) → result ≡ Err (NamesFault.BadName number)
        → FailsAt keep_going (parts list.now) number }
    ensures listed { IsListOf (parts list.now) list.now }
    ensures least { IsOk result → length all.old.paths.items ≤ length all.new.paths.items }
    ensures none { IsOk result → keep_going ≡ false
        → all.new.bad_names.items ≡ all.old.bad_names.items }
{
    if list.is_empty() {
        return Err(NamesFault::BadName(1));
    }
    let first = all.paths.len();
    let mut rest = list;
    while !rest.is_empty() {
        let (part, later) = cut_first(rest);
        if !add_name(alloc, part, keep_going, all)? {
            return Err(NamesFault::BadName(all.paths.len() - first + 1));
        }
        rest = later;
    }
    Ok(())
}

/// Answers false where the part is no name that the run takes.
fn add_name(
    alloc: Global,
    part: &[u8],
    keep_going: bool,
    all: &mut AllSources,
) -> Result<bool, Memory>
    ensures paths { IfOk result (λ is_listed. is_listed ≡ true → (given : List (List ℕ))
        → HavePaths given (map (λ path. string_bytes path) all.old.paths.items)
        all.old.bad_names.items
        → HavePaths (given ++ part.now ∷ [])
        (map (λ path. string_bytes path) all.new.paths.items) all.new.bad_names.items) }
    ensures count { IfOk result (λ is_listed. is_listed ≡ true
        → length all.new.paths.items ≡ length all.old.paths.items + 1) }
    ensures none { IsOk result → keep_going ≡ false
        → all.new.bad_names.items ≡ all.old.bad_names.items }
    ensures good { IfOk result (λ is_listed. is_listed ≡ true → IsListed keep_going part.now) }
    ensures bad { IfOk result (λ is_listed. is_listed ≡ false
        → ¬ IsListed keep_going part.now × (all.new ≡ all.old)) }
{
    match name_in(part) {
        Some(name) => {
            all.paths.push(String::from_str(alloc, name)?)?;
            Ok(true)
        }
        None if keep_going && !part.is_empty() => {
            let shown = masked(alloc, part)?;
            all.bad_names.push(all.paths.len())?;
            all.paths.push(shown)?;
            Ok(true)
        }
        None => Ok(false),
    }
}

/// Writes `?` for each byte outside 20H to 7EH.
pub fn masked(alloc: Global, name: &[u8]) -> Result<String, Memory>
    ensures { IfOk result (λ shown. string_bytes shown ≡ shown_name name.now) }
{
    let mut shown = String::with_capacity(alloc, name.len())?;
    for byte in name {
        let is_shown = (b' '..=b'~').contains(byte);
        shown.push(if is_shown { char::from(*byte) } else { '?' })?;
    }
    Ok(shown)
}

fn cut_first(list: &[u8]) -> (&[u8], &[u8])
    ensures parts { list.now ≢ [] → parts list.now ≡ result.0.now ∷ parts result.1.now }
    ensures shorter { list.now ≢ [] → length result.1.now < length list.now }
{
    match list.iter().position(|byte| *byte == 0) {
        Some(at) => (&list[..at], &list[at + 1..]),
        None => (list, &[]),
    }
}

fn name_in(part: &[u8]) -> Option<&str>
    ensures name { IfSome result (λ name. (name.now ≡ part.now) × IsName part.now) }
    ensures none { result ≡ None → ¬ IsName part.now }
{
    if part.is_empty() {
        return None;
    }
    str::from_utf8(part).ok()
}
