//! What the lists of piles say.
ghost use Rattle.std.specs.Prelude.{◌≡◌, ◌<◌, ◌+◌, ◌∷◌, ◌++◌, ℕ, Bool, List, [], IfErr, IfOk, IsOk, Option};
ghost use Rattle.std.specs.Prelude.{length, slice_index_or, string_bytes};
ghost use Rattle.std.specs.Str.{IsUtf8};
ghost use Rattle.dd_engine.specs.declared.choice.Choice.{Choice};
ghost use Rattle.dd_files.specs.Files.{Held};
ghost use Rattle.dd_line.specs.Line.{words_of};
ghost use Rattle.dd_pile.specs.Lists.{IfList};
ghost use Rattle.dd_staged.specs.Refusals.{IsBadStage, sources_view};
ghost use Rattle.dd_staged.specs.Sources.{Source, source_view};
ghost use Rattle.dd_inputs.specs.ListedNames.{shown_name};
ghost use Rattle.dicomdir.specs.Grounds.{GroundsOfPiles};
ghost use Rattle.dd_files.specs.ReadToEnd.{IsTooLong};
ghost use Rattle.dicomdir.specs.Publishes.{HasPiled, IsPiled, fault_of, sources_in};
ghost use Rattle.dicomdir.specs.Unread.{answer_of, said_of};
ghost use Rattle.dd_faults.specs.Refusal.{IsOfWork};
ghost use Rattle.dd_faults.specs.Reasons.{IsDue};

use crate::unread::UnreadStaged;
use dd_elem::Memory;
use dd_engine::FoundSources;
use dd_faults::{PathText, ProgramFault, Refusal, Subject};
use dd_files::{Files, Progress, Step};
use dd_inputs::masked;
use dd_keys::KeyFault;
use dd_pile::{PileFault, STAGED, read_pile};
use dd_staged::{SourceFault, Staged};
use dd_version::Version;
use std::alloc::Global;

/// The copy of a source.
#[derive(Clone, Copy)]
pub(crate) struct Place {
    /// The number of its pile, from 0.
    pub(crate) pile: usize,
    /// The number of the source in that pile, from 1.
    pub(crate) number: usize,
    /// How many bytes the list says that it has.
    pub(crate) size: u64,
}

/// The sources of piles, in their order.
#[derive(Drop)]
pub(crate) struct Piled {
    /// Their names, as lines show them.
    pub(crate) names: Vec<String>,
    pub(crate) places: Vec<Place>,
    /// Of which version each copy is, where the list says one.
    pub(crate) said: Vec<Option<Version>>,
    pub(crate) unread: UnreadStaged,
    pub(crate) found: FoundSources,
}

/// Reads the lists of the piles in these folders, one after the other. A pile that is given twice counts twice.
pub(crate) fn read_piles<F: Files + Progress>(
    alloc: Global,
    piles: &[String],
    files: &mut F,
) -> Result<Piled, Refusal>
    ensures refusal { IfErr result (IsOfWork (length piles.now)) }
    ensures due { (strict : Bool) → IfErr result (λ refusal.
        IsDue F.In.Read (F.refusals files.new) (F.Write.failures files.new) strict refusal.fault) }
    ensures grounds { (choice : Choice) → (bytes : ℕ) → (links : Bool) → (new : Option Held)
        → IfErr result (λ refusal. GroundsOfPiles choice bytes (words_of piles.now) links (F.held files.old) new
        refusal.subject refusal.fault) }
    ensures piled { IfOk result (HasPiled (words_of piles.now) (F.held files.old)) }
    ensures kept { F.held files.new ≡ F.held files.old }
{
    let mut piled = Piled {
        names: Vec::new(alloc),
        places: Vec::new(alloc),
        said: Vec::new(alloc),
        unread: UnreadStaged::new(alloc),
        found: FoundSources::new(alloc),
    };
    files.begin_step(Step::Reading, piles.len() as u64);
    for (at, pile) in piles.iter().enumerate() {
        match read_pile(alloc, pile.as_str(), files) {
            Ok(list) => add_list(alloc, at, list, &mut piled)?,
            Err(fault) => return Err(refusal_of(fault, at)),
        }
        files.advance();
    }
    files.hide_line();
    Ok(piled)
}

/// Adds the sources of the pile with this number, from 0.
fn add_list(alloc: Global, pile: usize, list: Vec<Staged>, piled: &mut Piled) -> Result<(), Memory>
    ensures { IsOk result → (lists : List (List Source)) → length lists ≡ pile
        → IsPiled lists piled.old → IsPiled (lists ++ sources_view list ∷ []) piled.new }
{
    let before = piled.names.len();
    let mut number = 0;
    for staged in list {
        number += 1;
        let turn = Turn {
            pile,
            number,
            before,
        };
        add_source(alloc, turn, staged, piled)?;
    }
    Ok(())
}

/// Which source of a pile is added.
#[derive(Clone, Copy)]
struct Turn {
    /// The number of its pile, from 0.
    pile: usize,
    /// Its number in that pile, from 1.
    number: usize,
    /// How many sources the piles before have.
    before: usize,
}

fn add_source(alloc: Global, turn: Turn, staged: Staged, piled: &mut Piled) -> Result<(), Memory>
    ensures { IsOk result → (lists : List (List Source)) → (part : List Source)
        → length lists ≡ turn.pile → length part + 1 ≡ turn.number → length (sources_in lists) ≡ turn.before
        → IsPiled (lists ++ part ∷ []) piled.old
        → IsPiled (lists ++ (part ++ source_view staged ∷ []) ∷ []) piled.new }
{
    let Turn {
        pile,
        number,
        before,
    } = turn;
    let Staged { name, size, found } = staged;
    piled.unread.add(piled.names.len(), before, &found)?;
    piled.names.push(shown_name(alloc, &name)?)?;
    piled.places.push(Place { pile, number, size })?;
    piled.said.push(said_of(&found)?)?;
    piled.found.push(answer_of(found))
}

/// Gives the answer for a source: one that was not read is answered as one whose read failed.
fn answer_of(found: Result<Version, SourceFault>) -> Result<Version, KeyFault>
    ensures { result ≡ answer_of found }
{
    match found {
        Ok(version) => Ok(version),
        Err(SourceFault::Key(fault)) => Err(fault),
        Err(_) => Err(KeyFault::Read),
    }
}

/// Copies the version that is said, where one is.
fn said_of(found: &Result<Version, SourceFault>) -> Result<Option<Version>, Memory>
    ensures { IfOk result (λ said. said ≡ said_of found.now) }
{
    match found {
        Ok(version) => Ok(Some(version.copy()?)),
        Err(_) => Ok(None),
    }
}

/// Gives the name as lines show it: itself where it is UTF-8.
fn shown_name(alloc: Global, name: &[u8]) -> Result<String, Memory>
    ensures utf8 { IfOk result (λ shown. IsUtf8 name.now → string_bytes shown ≡ name.now) }
    ensures other { IfOk result (λ shown. ¬ IsUtf8 name.now → string_bytes shown ≡ shown_name name.now) }
{
    match str::from_utf8(name) {
        Ok(text) => Ok(String::from_str(alloc, text)?),
        Err(_) => masked(alloc, name),
    }
}

/// Gives the refusal for a fault of the list of the pile with this number.
fn refusal_of(fault: PileFault, at: usize) -> Refusal
    ensures work { (paths : ℕ) → at < paths → IsOfWork paths result }
    ensures fault { result.fault ≡ fault_of fault }
    ensures grounds { (choice : Choice) → (bytes : ℕ) → (piles : List (List ℕ)) → (links : Bool)
        → (old : Option Held) → (new : Option Held)
        → ((item : ℕ) → fault ≡ PileFault.BadStage item
        → IfList (slice_index_or piles at []) (IsBadStage item) old)
        → (fault ≡ PileFault.TooLong → IfList (slice_index_or piles at []) IsTooLong old)
        → GroundsOfPiles choice bytes piles links old new result.subject result.fault }
{
    let list = Subject::PileFile(at, PathText::of(&STAGED));
    match fault {
        PileFault::Memory => Refusal::memory(),
        PileFault::Absent => Refusal::of(list, ProgramFault::Absent),
        PileFault::Unread => Refusal::of(list, ProgramFault::Unread),
        PileFault::TooLong => Refusal::of(list, ProgramFault::TooLong),
        PileFault::BadStage(item) => Refusal::of(Subject::Source(at), ProgramFault::BadStage(item)),
    }
}
