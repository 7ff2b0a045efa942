//! The UIDs that a catalogue has withdrawn.

ghost use Rattle.std.specs.Prelude.{◌≡◌, ◌≢◌, [], ◌∷◌, is_some, IfOk, OnOk, OnErr};
ghost use Rattle.dd_elem.specs.Ordered.{bytes_cmp};
ghost use Rattle.dd_catalogue.specs.Best.{IsRising, at};
ghost use Rattle.dd_catalogue.specs.Contents.{uids_of};

use crate::best::Table;
use dd_elem::{Memory, Uid};
use std::alloc::Global;
use std::cmp::Ordering;
use std::marker::Model;
use std::sync::Arc;

/// A table of UIDs, alone or with copies that share its memory.
#[derive(Debug, Drop)]
enum Holding {
    Own(Table<Uid>),
    Shared(Arc<Table<Uid>>),
}

/// Holds withdrawn SOP Instance UIDs (PS3.3 section C.12.1), each once, rising. Copies of a list made by `for_sharing`
/// share its memory, until a UID is added to one of them.
#[derive(Debug, Drop)]
pub struct Withdrawals {
    held: Holding,
}

impl Model for Withdrawals {
    ghost use Rattle.std.specs.Prelude.{List, ℕ};
    ghost use Rattle.dd_catalogue.specs.Withdrawals.{SharesSome, uids_in};

    ghost Value = { List (List ℕ) };

    ghost view = { λ withdrawals. uids_in withdrawals.held };

    ghost invariant = { λ withdrawals. SharesSome withdrawals.held };
}

impl Withdrawals {
    /// Makes the list without a UID.
    pub fn new(alloc: Global) -> Withdrawals
        ensures { result ≡ [] }
    {
        Withdrawals::from_table(Table::new(alloc))
    }

    /// Makes the list of these UIDs. Sorts them in place, which takes no memory.
    pub fn from_list(uids: Vec<Uid>) -> Withdrawals
        ensures { result ≡ uids_of uids.items }
    {
        Withdrawals::from_table(uid_table(uids))
    }

    pub(crate) fn from_table(uids: Table<Uid>) -> Withdrawals
        ensures { result ≡ uids }
    {
        Withdrawals {
            held: Holding::Own(uids),
        }
    }

    pub(crate) fn for_sharing(alloc: Global, uids: Table<Uid>) -> Result<Withdrawals, Memory>
        ensures equal { IfOk result (λ withdrawals. withdrawals ≡ uids) }
        ensures rising { IsRising (λ uid. uid) bytes_cmp uids }
        ensures some { OnErr result (uids ≢ []) }
    {
        if uids.values().is_empty() {
            return Ok(Withdrawals::from_table(uids));
        }
        Ok(Withdrawals {
            held: Holding::Shared(Arc::new(alloc, uids)?),
        })
    }

    pub(crate) fn table(&self) -> &Table<Uid>
        ensures { result.now ≡ self.now }
    {
        match &self.held {
            Holding::Own(uids) => uids,
            Holding::Shared(uids) => uids,
        }
    }

    pub(crate) fn values(&self) -> &[Uid]
        ensures all { result.now ≡ self.now }
        ensures rising { IsRising (λ uid. uid) bytes_cmp self.now }
    {
        self.table().values()
    }

    pub(crate) fn has(&self, uid: &Uid) -> bool
        ensures { result ≡ is_some (at (λ uid. uid) bytes_cmp self.now uid.now) }
    {
        self.table().has(uid.as_bytes())
    }

    /// Shares the memory of this list where copies can. Memory where an allocation was refused, or no more copies can
    /// share it.
    pub(crate) fn copy(&self) -> Result<Withdrawals, Memory>
        ensures equal { IfOk result (λ withdrawals. withdrawals ≡ self.now) }
        ensures some { OnErr result (self.now ≢ []) }
    {
        match &self.held {
            Holding::Own(uids) => Ok(Withdrawals::from_table(uids.copy()?)),
            Holding::Shared(uids) => Ok(Withdrawals {
                held: Holding::Shared(uids.clone()?),
            }),
        }
    }

    /// Copies first a list that copies share.
    pub(crate) fn add(&mut self, uid: Uid) -> Result<(), Memory>
        ensures ok { OnOk result (self.new ≡ uids_of (uid ∷ self.old)) }
        ensures err { OnErr result (self.new ≡ self.old) }
    {
        match &mut self.held {
            Holding::Own(uids) => add(uids, uid),
            Holding::Shared(uids) => {
                let mut own = uids.copy()?;
                add(&mut own, uid)?;
                self.held = Holding::Own(own);
                Ok(())
            }
        }
    }
}

fn add(uids: &mut Table<Uid>, uid: Uid) -> Result<(), Memory>
    ensures ok { OnOk result (uids.new ≡ uids_of (uid ∷ uids.old)) }
    ensures err { OnErr result (uids.new ≡ uids.old) }
{
    match uids.take(uid) {
        Ok(_) => Ok(()),
        Err(_) => Err(Memory),
    }
}

/// Sorts the list in place, which takes no memory.
pub(crate) fn uid_table(mut uids: Vec<Uid>) -> Table<Uid>
    ensures { result ≡ uids_of uids.items }
{
    uids.sort_unstable_by(
        |one: &Uid, other: &Uid| -> Ordering
            ensures { result ≡ bytes_cmp one.now other.now }
        { one.as_bytes().cmp(other.as_bytes()) },
    );
    uids.dedup();
    Table::from_rising(uids)
}
