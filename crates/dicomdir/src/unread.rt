//! Sources that could not be read, and why.
ghost use Rattle.std.specs.Prelude.{◌≡◌, ◌++◌, [], IsOk};
ghost use Rattle.dicomdir.specs.Unread.{absent_by, bad_name_by};

use dd_elem::Memory;
use dd_engine::PastFailures;
use dd_faults::ProgramFault;
use dd_staged::SourceFault;
use dd_version::Version;
use std::alloc::Global;

/// A source of a pile whose name is not UTF-8.
#[derive(Clone, Copy)]
pub(crate) struct StagedName {
    /// The number of the source among those of all piles, from 0.
    pub(crate) at: usize,
    /// The number that its line has: its number in its stage, and the sources of the piles before.
    pub(crate) number: usize,
}

/// The sources that have no path, since their names are not UTF-8, in rising order.
#[derive(Clone, Copy)]
pub(crate) enum BadNames<'a> {
    /// By their numbers, from 0. The line of each has its number from 1.
    Listed(&'a [usize]),
    Staged(&'a [StagedName]),
}

impl BadNames<'_> {
    /// Gives the number that the line of this source has, where its name is bad.
    fn number_of(self, at: usize) -> Option<usize> {
        match self {
            BadNames::Listed(sources) => match sources.binary_search(&at) {
                Ok(_) => Some(at.saturating_add(1)),
                Err(_) => None,
            },
            BadNames::Staged(names) => match names.binary_search_by(|name| name.at.cmp(&at)) {
                Ok(found) => names.get(found).map(|name| name.number),
                Err(_) => None,
            },
        }
    }
}

/// The sources that could not be read, by their numbers, in rising order.
#[derive(Clone, Copy)]
pub(crate) struct Unread<'a> {
    /// Those that could not be opened.
    absent: &'a [usize],
    /// Those of them that have no path.
    bad_names: BadNames<'a>,
}

impl<'a> Unread<'a> {
    pub(crate) fn of(past: &'a PastFailures, bad_names: BadNames<'a>) -> Unread<'a> {
        Unread {
            absent: &past.absent,
            bad_names,
        }
    }

    /// Says why the source of this number was not read.
    pub(crate) fn fault_of(&self, at: usize) -> ProgramFault {
        match self.bad_names.number_of(at) {
            Some(number) => ProgramFault::BadName(number),
            None if self.absent.binary_search(&at).is_ok() => ProgramFault::Absent,
            None => ProgramFault::Unread,
        }
    }
}

/// The sources of piles that were not read when they were staged.
#[derive(Drop)]
pub(crate) struct UnreadStaged {
    /// Those that could not be opened, by their numbers among the sources of all piles, in rising order.
    pub(crate) absent: Vec<usize>,
    /// Those whose names are not UTF-8, in the same order.
    pub(crate) bad_names: Vec<StagedName>,
}

impl UnreadStaged {
    /// Makes one of no sources. Allocates nothing.
    pub(crate) fn new(alloc: Global) -> UnreadStaged
        ensures absent { result.absent.items ≡ [] }
        ensures bad_names { result.bad_names.items ≡ [] }
    {
        UnreadStaged {
            absent: Vec::new(alloc),
            bad_names: Vec::new(alloc),
        }
    }

    /// Adds the source of this number, where it was not opened or its name is bad. `before` sources are in the piles
    /// before its own.
    pub(crate) fn add(
        &mut self,
        at: usize,
        before: usize,
        found: &Result<Version, SourceFault>,
    ) -> Result<(), Memory>
        ensures absent { IsOk result
            → self.new.absent.items ≡ self.old.absent.items ++ absent_by at found.now }
        ensures bad_names { IsOk result
            → self.new.bad_names.items ≡ self.old.bad_names.items ++ bad_name_by before at found.now }
    {
        match found {
            Err(SourceFault::Absent) => self.absent.push(at)?,
            Err(SourceFault::BadName(number)) => {
                let number = before.saturating_add(*number as usize);
                self.bad_names.push(StagedName { at, number })?;
            }
            Ok(_) | Err(SourceFault::Key(_) | SourceFault::Unread) => {}
        }
        Ok(())
    }
}
