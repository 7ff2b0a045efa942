//! The files that images are made of: sources, files of file-sets, or copies in piles.
ghost use Rattle.std.proofs.Props.{props};
ghost use Rattle.std.specs.Prelude.{◌≡◌, ◌<◌, All, None, length, map, string_bytes, true};
ghost use Rattle.dd_faults.specs.Refusal.{IsPileFile, IsSetFile, IsSource};
ghost use Rattle.dicomdir.specs.Origins.{IsClaimant, IsMemberPath, IsPathAt};
ghost use Rattle.dicomdir.specs.Publishes.{IsCopyAt, MayLinkAt, pile_at, place_at, said_at};

use crate::pile_path::PilePath;
use crate::piles::Place;
use dd_elem::Memory;
use dd_engine::{MergeFault, Pick, first_saying};
use dd_faults::{IdPath, PathText, Subject};
use dd_file_set::{Lookup, Origins};
use dd_files::file_path;
use dd_pile::copy_path;
use dd_version::Version;
use std::alloc::Global;

/// Sources, each by its number.
#[derive(Clone, Copy)]
pub(crate) struct SourceFiles<'a> {
    /// Their paths.
    pub(crate) paths: &'a [String],
}

impl Origins for SourceFiles<'_> {
    type Pick = usize;

    ghost number = { λ at. at };

    ghost count = { λ s. length s.paths.now };

    ghost paths = { λ s. length s.paths.now };

    ghost stands_at = { λ s at path.
        IsPathAt (map (λ path. string_bytes path) s.paths.now) at path };

    ghost gives_links = { λ _. ⊥ };

    ghost may_link = { λ _ _ _. ⊥ };

    ghost said = { λ _ _. None };

    ghost is_subject = { λ _ at subject. IsSource at subject };

    ghost is_claimant = { λ _ at planned subject. IsSource at subject };

    fn path(&self, alloc: Global, at: usize) -> Result<String, Memory> {
        Ok(String::from_str(alloc, path_at(self.paths, at))?)
    }

    fn lookup(&self, _at: usize) -> Lookup<'_> {
        Lookup::Source
    }

    fn gives_links(&self) -> bool {
        false
    }

    fn said(&self, _at: usize) -> Option<&Version> {
        None
    }

    fn claimant(&self, _alloc: Global, at: usize, _planned: &Version) -> Result<Subject, Memory> {
        Ok(Subject::Source(at))
    }

    fn subject(&self, at: usize) -> Subject {
        Subject::Source(at)
    }
}

/// Files of file-sets, each by the number of its set and its File ID.
#[derive(Clone, Copy)]
pub(crate) struct SetFiles<'s, 'a> {
    /// The folders of the file-sets.
    pub(crate) folders: &'s [String],
    /// The bytes of their directories.
    pub(crate) directories: &'s [&'a [u8]],
    /// Whether images get hard links in place of copies.
    pub(crate) link: bool,
    ghost paired: { length directories.now ≡ length folders.now },
}

impl<'a> Origins for SetFiles<'_, 'a> {
    type Pick = Pick<'a>;

    ghost number = { λ pick. pick.set };

    ghost count = { λ s. length s.folders.now };

    ghost paths = { λ s. length s.folders.now };

    ghost stands_at = { λ s pick path.
        IsMemberPath (map (λ folder. string_bytes folder) s.folders.now) pick path };

    ghost gives_links = { λ s. s.link ≡ true };

    ghost may_link = { λ s _ _. s.link ≡ true };

    ghost said = { λ _ _. None };

    ghost is_subject = { λ _ pick subject. IsSetFile pick.set subject };

    ghost is_claimant = { λ s pick planned subject.
        IsClaimant planned (map (λ set. set.now) s.directories.now) pick subject };

    fn path(&self, alloc: Global, pick: Pick<'a>) -> Result<String, Memory> {
        file_path(alloc, path_at(self.folders, pick.set), pick.file)
    }

    fn lookup(&self, pick: Pick<'a>) -> Lookup<'_> {
        Lookup::Member(path_at(self.folders, pick.set))
    }

    fn gives_links(&self) -> bool {
        self.link
    }

    fn said(&self, _pick: Pick<'a>) -> Option<&Version> {
        None
    }

    fn claimant(
        &self,
        alloc: Global,
        pick: Pick<'a>,
        planned: &Version,
    ) -> Result<Subject, Memory> {
        let named = match first_saying(alloc, self.directories, planned) {
            Ok(Some(first)) => first,
            Err(MergeFault::Memory) => return Err(Memory),
            _ => pick,
        };
        Ok(self.subject(named))
    }

    fn subject(&self, pick: Pick<'a>) -> Subject {
        Subject::SetFile(pick.set, PathText::of(&IdPath(pick.file)))
    }
}

/// Copies in piles, each by the number of its source among those of all piles.
#[derive(Clone, Copy)]
pub(crate) struct PileFiles<'a> {
    pub(crate) folders: &'a [String],
    pub(crate) places: &'a [Place],
    /// Of which version each copy is, where one is said.
    pub(crate) said: &'a [Option<Version>],
    pub(crate) link: bool,
    ghost in_piles: { All (λ place. place.pile < length folders.now) places.now } by { Prim.hlevel props },
}

impl Origins for PileFiles<'_> {
    type Pick = usize;

    ghost number = { λ at. at };

    ghost count = { λ s. length s.places.now };

    ghost paths = { λ s. length s.folders.now };

    ghost stands_at = { λ s at path.
        IsCopyAt (map (λ folder. string_bytes folder) s.folders.now) s.places.now at path };

    ghost gives_links = { λ s. s.link ≡ true };

    ghost may_link = { λ s at bytes. MayLinkAt (s.link ≡ true) s.places.now at bytes };

    ghost said = { λ s at. said_at s.said.now at };

    ghost is_subject = { λ s at subject. IsPileFile (pile_at s.places.now at) subject };

    ghost is_claimant = { λ s at planned subject. IsPileFile (pile_at s.places.now at) subject };

    fn path(&self, alloc: Global, at: usize) -> Result<String, Memory> {
        let place = place_at(self.places, at);
        copy_path(alloc, path_at(self.folders, place.pile), place.number)
    }

    fn lookup(&self, at: usize) -> Lookup<'_> {
        let place = place_at(self.places, at);
        Lookup::Stored(path_at(self.folders, place.pile), place.size)
    }

    fn gives_links(&self) -> bool {
        self.link
    }

    fn said(&self, at: usize) -> Option<&Version> {
        match self.said.get(at) {
            Some(Some(version)) => Some(version),
            Some(None) | None => None,
        }
    }

    fn claimant(&self, _alloc: Global, at: usize, _planned: &Version) -> Result<Subject, Memory> {
        Ok(self.subject(at))
    }

    fn subject(&self, at: usize) -> Subject {
        let place = place_at(self.places, at);
        Subject::PileFile(place.pile, PathText::of(&PilePath(place.number)))
    }
}

/// Gives the place with this number.
fn place_at(places: &[Place], at: usize) -> Place
    ensures { result ≡ place_at places.now at }
{
    match places.get(at) {
        Some(place) => *place,
        None => Place {
            pile: 0,
            number: 0,
            size: 0,
        },
    }
}

/// Gives the path with this number. The answer is an empty text if no path has it.
fn path_at(paths: &[String], at: usize) -> &str
    ensures { IsPathAt (map (λ path. string_bytes path) paths.now) at result.now }
{
    match paths.get(at) {
        Some(path) => path.as_str(),
        None => "",
    }
}
