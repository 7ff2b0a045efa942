ghost use Rattle.std.specs.Prelude.{◌≡◌, ◌≤◌, length, IfOk};
ghost use Rattle.std.specs.Option.{option_copied};
ghost use Rattle.std.specs.Result.{result_err};
ghost use Rattle.dd_elem.specs.Clean.{clean_of};
ghost use Rattle.dd_elem.specs.Key.{IsKey, max_key_length};
ghost use Rattle.dd_keys.specs.Faults.{mismatch_of, wanted_uid};
ghost use Rattle.dd_keys.specs.RowViews.{uid_row_view};
ghost use Rattle.dd_keys.specs.Summaries.{AreFronts, summary_bytes, summary_key_fault, summary_uid_fault};
ghost use Rattle.dd_keys.specs.Values.{or_other};

use crate::fault::KeyFault;
use crate::rows::{KeyRow, MetaUid, UidRow};
use crate::summary::Values;
use dd_elem::{Key, Memory, Tag, Uid};
use dd_part10::Meta;
use std::alloc::Global;

impl KeyRow {
    pub fn value<'v, V: Values>(&self, values: &'v V) -> Result<&'v [u8], KeyFault>
        requires { AreFronts (V.tells values.now) }
        ensures fault { result_err result
            ≡ summary_key_fault self.now.tag (V.tells values.now self.now.tag) }
        ensures value { IfOk result (λ value. value.now
            ≡ summary_bytes (V.tells values.now) self.now.tag) }
        ensures valid { IfOk result (λ value. IsKey value.now) }
    {
        match values.value(self.tag) {
            None => Err(KeyFault::KeyIsSequence(self.tag)),
            Some(value) if value.length > Key::MAX_LEN as u64 => {
                Err(KeyFault::KeyTooLong(self.tag))
            }
            Some(value) => Ok(value.front),
        }
    }

    pub fn key(&self, alloc: Global, value: &[u8]) -> Result<Key, Memory>
        requires valid { IsKey value.now }
        requires clean { clean_of self.now.when_empty.now ≡ self.now.when_empty.now }
        requires short { length self.now.when_empty.now ≤ max_key_length }
        ensures { IfOk result (λ key. key ≡ or_other value.now self.now.when_empty.now) }
    {
        if value.is_empty() {
            keep(alloc, self.when_empty)
        } else {
            keep(alloc, value)
        }
    }
}

fn keep(alloc: Global, bytes: &[u8]) -> Result<Key, Memory>
    requires { IsKey bytes.now }
    ensures { IfOk result (λ key. key ≡ bytes.now) }
{
    match Key::copy_of(alloc, bytes) {
        Ok(key) => Ok(key),
        Err(_) => Err(Memory),
    }
}

impl UidRow {
    /// The UID, or the first check that it fails. A UID has at most 64 bytes, so neither a longer value nor its front
    /// is one.
    pub fn uid<V: Values>(&self, meta: &Meta, values: &V) -> Result<Uid, KeyFault>
        ensures fault { result_err result ≡ summary_uid_fault (uid_row_view self.now) meta.now
            (V.tells values.now self.now.tag) }
        ensures value { IfOk result (λ uid. uid ≡ summary_bytes (V.tells values.now) self.now.tag) }
    {
        let Some(value) = values.value(self.tag) else {
            return Err(KeyFault::KeyIsSequence(self.tag));
        };
        if value.front.is_empty() {
            return Err(KeyFault::MissingKey(self.tag));
        }
        let Ok(uid) = Uid::new(value.front) else {
            return Err(KeyFault::BadKeyUid(self.tag));
        };
        match mismatch(self.tag, wanted_uid(meta, self.same_as), value.front) {
            Some(fault) => Err(fault),
            None => Ok(uid),
        }
    }
}

fn wanted_uid(meta: &Meta, same_as: Option<MetaUid>) -> Option<&Uid>
    ensures { option_copied result ≡ wanted_uid meta.now same_as }
{
    match same_as {
        None => None,
        Some(MetaUid::Class) => Some(&meta.class),
        Some(MetaUid::Instance) => Some(&meta.instance),
    }
}

fn mismatch(tag: Tag, wanted: Option<&Uid>, value: &[u8]) -> Option<KeyFault>
    ensures { result ≡ mismatch_of tag (option_copied wanted.entry) value.now }
{
    match wanted {
        Some(wanted) if value != wanted.as_bytes() => Some(KeyFault::MetaMismatch(tag)),
        _ => None,
    }
}
