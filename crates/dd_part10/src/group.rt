//! Group 0002 of a file.

ghost use Rattle.std.specs.Prelude.{◌≡◌, ◌≢◌, ◌≤◌, Err, IfOk, length, option_map};
ghost use Rattle.dd_grammar.specs.declared.fault.SetFault.TheVariants.{Memory};
ghost use Rattle.dd_encoding.specs.declared.syntax.Syntax.TheVariants.{Explicit};
ghost use Rattle.dd_set.specs.Memory.{WantsMemory};
ghost use Rattle.dd_set.specs.Views.{set_view};
ghost use Rattle.dd_part10.specs.declared.fault.FileFault.TheVariants as faults;
ghost use Rattle.dd_part10.specs.File.{max_group_length};
ghost use Rattle.dd_grammar.specs.AnswersAs.{AnswersAs};
ghost use Rattle.dd_part10.specs.Faults.{is_memory};
ghost use Rattle.dd_part10.specs.Memory.{WantsNone};
ghost use Rattle.dd_part10.specs.Reading.{rest_after, count_in, after_length, is_meta_tag, is_alone, uid_at, uids_in};
ghost use Rattle.dd_part10.specs.Reading.{meta_in, syntax_in};

use crate::fault::FileFault;
use dd_elem::{Tag, Uid, clean};
use dd_encoding::{
    CLASS, COUNT_HEADER, COUNT_LENGTH, COUNT_SIZE, GROUP_LENGTH, INSTANCE, META_GROUP, Meta, Syntax,
};
use dd_set::{DataSet, Value, parse};
use dd_version::TRANSFER;
use std::alloc::Global;

/// The most bytes of group 0002 after its group length.
pub const MAX_GROUP_LENGTH: u32 = 65_536;

pub fn rest_after<'a>(front: &[u8], bytes: &'a [u8]) -> Option<&'a [u8]>
    ensures { option_map (λ rest. rest.now) result ≡ rest_after front.now bytes.now }
{
    bytes.strip_prefix(front)
}

#[tactic(auto, unfolding(crate::specs::Reading::count_in))]
pub fn read_count(front: &[u8]) -> Result<u32, FileFault>
    ensures exact { AnswersAs is_memory (λ n. n) result (count_in front.now) }
    ensures few { IfOk result (λ n. n ≤ max_group_length) }
    ensures whole { IfOk result (λ n. 12 ≤ length front.now) }
    ensures memory { WantsNone result }
{
    let Some(rest) = rest_after(COUNT_HEADER, front) else {
        return Err(FileFault::GroupLength);
    };
    if rest.len() < COUNT_SIZE {
        return Err(FileFault::GroupLength);
    }
    let count = u32::from_le_bytes([rest[0], rest[1], rest[2], rest[3]]);
    if count > MAX_GROUP_LENGTH {
        return Err(FileFault::GroupLength);
    }
    Ok(count)
}

/// Gives the bytes that the group length at the front counts, and the others after them.
pub fn split_group(bytes: &[u8]) -> Result<(&[u8], &[u8]), FileFault>
    ensures exact { AnswersAs is_memory (λ x. (x.0.now, x.1.now)) result (after_length bytes.now) }
    ensures memory { WantsNone result }
{
    let count = read_count(bytes)? as usize;
    let rest = &bytes[COUNT_LENGTH..];
    if rest.len() < count {
        return Err(FileFault::GroupLength);
    }
    Ok(rest.split_at(count))
}

/// Refused in this order: Meta, GroupLength, then MetaMissing or MetaUid for the first UID that fails.
#[tactic(auto, unfolding(crate::specs::Reading::meta_in))]
pub fn read_meta(alloc: Global, bytes: &[u8]) -> Result<Meta, FileFault>
    ensures exact { AnswersAs is_memory (λ meta. meta) result (meta_in bytes.now) }
    ensures group { result ≡ Err (faults.Meta Memory) → WantsMemory Explicit bytes.now }
    ensures set { result ≢ Err (faults.Set Memory) }
{
    let group = parse(alloc, Syntax::Explicit, bytes).map_err(FileFault::Meta)?;
    if !is_alone(&group) {
        return Err(FileFault::GroupLength);
    }
    uids_in(&group)
}

pub fn named_syntax(meta: &Meta) -> Result<Syntax, FileFault>
    ensures exact { AnswersAs is_memory (λ syntax. syntax) result (syntax_in meta.now) }
    ensures memory { WantsNone result }
{
    match meta.syntax() {
        Some(syntax) => Ok(syntax),
        None => Err(FileFault::OtherSyntax(meta.transfer)),
    }
}

fn is_alone(group: &DataSet<'_>) -> bool
    ensures { result ≡ is_alone (set_view group.now) }
{
    group
        .elements
        .iter()
        .all(|element| is_meta_tag(element.tag))
}

fn is_meta_tag(tag: Tag) -> bool
    ensures { result ≡ is_meta_tag tag }
{
    tag.group == META_GROUP && tag != GROUP_LENGTH
}

#[tactic(auto, unfolding(crate::specs::Reading::uids_in))]
fn uids_in(group: &DataSet<'_>) -> Result<Meta, FileFault>
    ensures exact { AnswersAs is_memory (λ meta. meta) result (uids_in (set_view group.now)) }
    ensures memory { WantsNone result }
{
    let class = uid_at(CLASS, group)?;
    let instance = uid_at(INSTANCE, group)?;
    let transfer = uid_at(TRANSFER, group)?;
    Ok(Meta {
        class,
        instance,
        transfer,
    })
}

#[tactic(auto, unfolding(crate::specs::Reading::uid_at))]
fn uid_at(tag: Tag, group: &DataSet<'_>) -> Result<Uid, FileFault>
    ensures exact { AnswersAs is_memory (λ uid. uid) result (uid_at tag (set_view group.now)) }
    ensures memory { WantsNone result }
{
    let Some(element) = group.find(tag) else {
        return Err(FileFault::MetaMissing(tag));
    };
    let Value::Bytes(bytes) = element.value else {
        return Err(FileFault::MetaUid(tag));
    };
    match Uid::new(clean(bytes)) {
        Ok(uid) => Ok(uid),
        Err(_) => Err(FileFault::MetaUid(tag)),
    }
}
