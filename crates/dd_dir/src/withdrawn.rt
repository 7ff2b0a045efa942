//! The withdrawn SOP Instance UIDs that a directory names.

ghost use Rattle.std.specs.Prelude.{◌≡◌, ◌≢◌, ◌↔◌, [], IsTrue, IfOk, IfErr, OnOk, OnErr, drop, option_map, zip};
ghost use Rattle.std.specs.List.{list_all};
ghost use Rattle.std.specs.Ordering.{is_lt};
ghost use Rattle.dd_elem.specs.Ordered.{bytes_cmp};
ghost use Rattle.dd_elem.specs.Uid.{is_uid};
ghost use Rattle.dd_dir.specs.Withdrawn.{AreRisingUids, uid_in};
ghost use Rattle.dd_walk.specs.WithdrawnPieces.{pieces_in, pieces_of};
ghost use Rattle.dd_dir.specs.declared.own_fault.OwnFault.TheVariants.{BadWithdrawal};

use crate::own_fault::OwnFault;
use dd_elem::{Memory, Uid};
use std::alloc::Global;

/// Stands between the UIDs of a value (PS3.5 section 6.4).
const SEPARATOR: u8 = b'\\';

/// Refuses, as BadWithdrawal, a value with a piece that is not a UID, or with pieces that do not rise strictly. A
/// directory without such a value passes.
pub(crate) fn check_withdrawn(value: Option<&[u8]>) -> Result<(), OwnFault>
    ensures ok { OnOk result
        (AreRisingUids (pieces_in (option_map (λ value. value.now) value.entry))) }
    ensures err { IfErr result (λ fault. (fault ≡ BadWithdrawal)
        × (AreRisingUids (pieces_in (option_map (λ value. value.now) value.entry)) → ⊥)) }
{
    match value {
        None => Ok(()),
        Some(value) if are_rising_uids(value) => Ok(()),
        Some(_) => Err(OwnFault::BadWithdrawal),
    }
}

fn are_rising_uids(value: &[u8]) -> bool
    ensures { IsTrue result ↔ AreRisingUids (pieces_of value.now) }
{
    are_uids(value) && rise(value)
}

fn are_uids(value: &[u8]) -> bool
    ensures { result ≡ list_all is_uid (pieces_of value.now) }
{
    value.split(|byte| *byte == SEPARATOR).all(is_uid)
}

fn rise(value: &[u8]) -> bool
    ensures { result ≡ list_all (λ pair. is_lt (bytes_cmp pair.0 pair.1))
        (zip (pieces_of value.now) (drop 1 (pieces_of value.now))) }
{
    let later = value.split(|byte| *byte == SEPARATOR).skip(1);
    value
        .split(|byte| *byte == SEPARATOR)
        .zip(later)
        .all(|pair| is_below(pair.0, pair.1))
}

fn is_uid(bytes: &[u8]) -> bool
    ensures { result ≡ is_uid bytes.now }
{
    Uid::new(bytes).is_ok()
}

fn uid_in(bytes: &[u8]) -> Option<Uid>
    ensures { result ≡ uid_in bytes.now }
{
    Uid::new(bytes).ok()
}

fn is_below(one: &[u8], other: &[u8]) -> bool
    ensures { result ≡ is_lt (bytes_cmp one.now other.now) }
{
    one.cmp(other).is_lt()
}

/// Gives the UIDs of the value, and an empty list where the directory has no such value.
pub(crate) fn withdrawn_uids(alloc: Global, value: Option<&[u8]>) -> Result<Vec<Uid>, Memory>
    requires { AreRisingUids (pieces_in (option_map (λ value. value.now) value)) }
    ensures all { IfOk result (λ uids. uids.items
        ≡ pieces_in (option_map (λ value. value.now) value.entry)) }
    ensures some { OnErr result (pieces_in (option_map (λ value. value.now) value.entry) ≢ []) }
{
    match value {
        None => Ok(Vec::new(alloc)),
        Some(value) => uids_of(alloc, value),
    }
}

fn uids_of(alloc: Global, value: &[u8]) -> Result<Vec<Uid>, Memory>
    requires { AreRisingUids (pieces_of value.now) }
    ensures all { IfOk result (λ uids. uids.items ≡ pieces_of value.now) }
    ensures some { OnErr result (pieces_of value.now ≢ []) }
{
    let count = value.split(|byte| *byte == SEPARATOR).count();
    let mut uids = Vec::with_capacity(alloc, count)?;
    uids.extend(value.split(|byte| *byte == SEPARATOR).filter_map(uid_in))?;
    Ok(uids)
}
