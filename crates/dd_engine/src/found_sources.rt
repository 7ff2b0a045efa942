ghost use Rattle.std.specs.Prelude.{◌++◌, ◌∷◌, List, [], IfErr, IfOk, OnOk, length};
ghost use Rattle.dd_engine.specs.Found.{HasFound};
ghost use Rattle.dd_engine.specs.Indexed.{IsWithin};
ghost use Rattle.dd_keys.specs.Sources.{Answer};
ghost use Rattle.dd_engine.specs.IndexNotes.{FindsBoth, NotesIndex};
ghost use Rattle.dd_engine.specs.Noting.{AreBelow, IsBelow};

use crate::choice::Choice;
use crate::noted_index::{NotedIndex, noted_plan};
use crate::notes::NotedFault;
use dd_elem::Memory;
use dd_keys::KeyFault;
use dd_layout::Limits;
use dd_sources::{EngineFault, Sources};
use dd_version::Version;
use std::alloc::Global;
use std::marker::Model;

/// What was found of sources that were read before, in their order.
#[derive(Drop)]
pub struct FoundSources {
    sources: Sources,
}

impl Model for FoundSources {
    ghost use Rattle.std.specs.Prelude.{◌≡◌, length};
    ghost use Rattle.dd_engine.specs.Found.{Found};

    ghost Value = { Found };

    ghost view = { λ found. record {
      versions = found.sources.versions.items;
      origins = found.sources.origins.items;
      skipped = found.sources.skipped.items;
    } };

    ghost invariant = { λ found. length found.sources.origins.items ≡ length found.sources.versions.items };
}

impl FoundSources {
    /// Makes one of no sources. Allocates nothing.
    pub fn new(alloc: Global) -> FoundSources
        ensures { HasFound [] result }
    {
        FoundSources {
            sources: Sources::new(alloc),
        }
    }

    /// Adds the version of the next source, or why it has none.
    pub fn push(&mut self, answer: Result<Version, KeyFault>) -> Result<(), Memory>
        ensures { OnOk result ((answers : List Answer) → HasFound answers self.old
            → HasFound (answers ++ answer ∷ []) self.new) }
    {
        let at = self.sources.versions.len() + self.sources.skipped.len();
        match answer {
            Ok(version) => {
                self.sources.origins.push(at)?;
                match self.sources.versions.push(version) {
                    Ok(()) => (),
                    Err(_) => {
                        let _last = self.sources.origins.pop();
                        return Err(Memory);
                    }
                }
            }
            Err(fault) => self.sources.skipped.push((at, fault))?,
        }
        Ok(())
    }
}

/// Does what `index_with_notes` does once all sources are read, where this was found of them.
pub fn publish_engine(
    alloc: Global,
    found: FoundSources,
    choice: &Choice,
    limits: Limits,
) -> Result<NotedIndex, NotedFault<EngineFault, usize>>
    ensures answers { (answers : List Answer) → HasFound answers found
        → NotesIndex choice.now limits answers result }
    ensures within { (answers : List Answer) → HasFound answers found
        → IfOk result (λ noted. IsWithin (length answers) noted.indexed) }
    ensures below { (answers : List Answer) → HasFound answers found
        → IfOk result (λ noted. AreBelow (λ at. at) (length answers) noted.notes.left_out.items) }
    ensures conflict { (answers : List Answer) → HasFound answers found
        → IfErr result (λ noted. IsBelow (λ at. at) (length answers) noted.conflict) }
    ensures found { (answers : List Answer) → HasFound answers found
        → IfErr result (λ noted. FindsBoth noted.fault noted.conflict) }
{
    let FoundSources { sources } = found;
    noted_plan(alloc, sources, choice, limits)
}
