//! Versions that get other keys in harmony.

ghost use Rattle.std.specs.Prelude.{◌≡◌};
ghost use Rattle.dd_catalogue.specs.Changes.{with_changes, with_one};
ghost use Rattle.dd_catalogue.specs.Conflicts.{same};

use dd_elem::{Ordered, Uid};
use dd_version::Version;
use std::alloc::Global;
use std::collections::VecDeque;
use std::marker::Model;

/// Holds the versions that have other keys in harmony, each with its index among the versions that a catalogue keeps.
#[derive(Debug)]
pub struct Changes {
    list: Vec<(usize, Version)>,
}

impl Model for Changes {
    ghost use Rattle.std.specs.Prelude.{ℕ, List};
    ghost use Rattle.dd_version.specs.declared.parts.Parts.{Parts};

    ghost Value = { List (ℕ × Parts) };

    ghost view = { λ changes. changes.list.items };
}

// By hand, so that dropping them is one call.
impl Drop for Changes {
    fn drop(self) {
        let Changes { list: _list } = self;
    }
}

impl Changes {
    pub(crate) fn of(list: Vec<(usize, Version)>) -> Changes
        ensures { result ≡ list.items }
    {
        Changes { list }
    }

    /// Puts each version at its index.
    pub(crate) fn write(self, versions: &mut Vec<Version>)
        ensures { versions.new.items ≡ with_changes self versions.old.items }
    {
        let Changes { list } = self;
        let mut changes = VecDeque::from(list);
        while let Some((index, version)) = changes.pop_front() {
            write_one(versions, index, version);
        }
    }
}

fn write_one(versions: &mut Vec<Version>, index: usize, version: Version)
    ensures { versions.new.items ≡ with_one index version versions.old.items }
{
    if index < versions.len() && are_of_one_instance(&versions[index], &version) {
        versions[index] = version;
    }
}

fn are_of_one_instance(one: &Version, other: &Version) -> bool
    ensures { result ≡ same one.now.instance other.now.instance }
{
    one.parts()
        .instance
        .compare(&other.parts().instance)
        .is_eq()
}
