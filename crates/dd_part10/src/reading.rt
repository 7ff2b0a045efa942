ghost use Rattle.std.specs.Prelude.{◌≡◌, ◌≢◌, ℕ, ◌<◌, ◌^◌, IfOk, Ok, Err, length};
ghost use Rattle.dd_grammar.specs.declared.fault.SetFault.TheVariants.{Memory};
ghost use Rattle.dd_encoding.specs.Elements.{Elements};
ghost use Rattle.dd_set.specs.Memory.{WantsMemory};
ghost use Rattle.dd_scan.specs.Scan.{first_of};
ghost use Rattle.dd_set.specs.Views.{set_view};
ghost use Rattle.dd_part10.specs.declared.fault.FileFault.TheVariants as faults;
ghost use Rattle.dd_encoding.specs.declared.meta.Meta.{Meta};
ghost use Rattle.dd_part10.specs.File.{IsFile};
ghost use Rattle.dd_grammar.specs.AnswersAs.{AnswersAs};
ghost use Rattle.dd_part10.specs.Faults.{is_memory};
ghost use Rattle.dd_part10.specs.Views.{file_view};
ghost use Rattle.dd_part10.specs.Memory.{GroupWants, SetWants, WantsNone};
ghost use Rattle.dd_part10.specs.Reading.{rest_after_prefix, set_in, file_in};
ghost use Rattle.dd_part10.specs.Reading.{may_follow};

use crate::fault::FileFault;
use crate::file::DicomFile;
use crate::group::{named_syntax, read_meta, rest_after, split_group};
use dd_elem::Tag;
use dd_encoding::{GROUP_AT, META_GROUP, PREAMBLE_LENGTH, PREFIX, Syntax};
use dd_set::{DataSet, parse};
use std::alloc::Global;

/// Reads a DICOM file (PS3.10 section 7): 128 bytes of any preamble, `DICM`, and the group length (0002,0000) of at
/// most 65,536. Then come group 0002 in Explicit VR with the UIDs of `Meta`, and a data set above group 0002 in the
/// transfer syntax that they name. Otherwise `FileFault` names the first check that the bytes fail, or lack of memory.
pub fn parse_file<'a>(alloc: Global, bytes: &'a [u8]) -> Result<DicomFile<'a>, FileFault>
    ensures found { IfOk result (λ f. IsFile bytes.now f.meta (set_view f.set) f.set_at) }
    // A file is answered, unless memory runs out.
    ensures only { (meta : Meta) (set : Elements) (set_at : ℕ) → IsFile bytes.now meta set set_at
        → AnswersAs is_memory file_view result
        (Ok (record { meta = meta; set = set; set_at = set_at })) }
    ensures fault { AnswersAs is_memory file_view result (file_in bytes.now) }
    ensures group { result ≡ Err (faults.Meta Memory) → GroupWants bytes.now }
    ensures set { result ≡ Err (faults.Set Memory) → SetWants bytes.now }
{
    checked_file(alloc, bytes)
}

#[tactic(auto, unfolding(crate::specs::Reading::file_in))]
fn checked_file<'a>(alloc: Global, bytes: &'a [u8]) -> Result<DicomFile<'a>, FileFault>
    ensures exact { AnswersAs is_memory file_view result (file_in bytes.now) }
    ensures room { length bytes.now < 2 ^ 64 }
    ensures group { result ≡ Err (faults.Meta Memory) → GroupWants bytes.now }
    ensures set { result ≡ Err (faults.Set Memory) → SetWants bytes.now }
{
    let rest = rest_after_prefix(bytes)?;
    let (group, rest) = split_group(rest)?;
    let meta = read_meta(alloc, group)?;
    let syntax = named_syntax(&meta)?;
    let set = read_set(alloc, syntax, rest)?;
    Ok(DicomFile {
        meta,
        set,
        set_at: GROUP_AT + group.len() as u64,
    })
}

#[tactic(auto, unfolding(crate::specs::Reading::rest_after_prefix))]
pub fn rest_after_prefix(bytes: &[u8]) -> Result<&[u8], FileFault>
    ensures exact { AnswersAs is_memory (λ rest. rest.now) result (rest_after_prefix bytes.now) }
    ensures room { length bytes.now < 2 ^ 64 }
    ensures memory { WantsNone result }
{
    if bytes.len() < PREAMBLE_LENGTH {
        return Err(FileFault::NotPart10);
    }
    match rest_after(PREFIX, &bytes[PREAMBLE_LENGTH..]) {
        Some(rest) => Ok(rest),
        None => Err(FileFault::NotPart10),
    }
}

#[tactic(auto, unfolding(crate::specs::Reading::set_in))]
fn read_set<'a>(alloc: Global, syntax: Syntax, bytes: &'a [u8]) -> Result<DataSet<'a>, FileFault>
    ensures exact { AnswersAs is_memory set_view result (set_in syntax bytes.now) }
    ensures group { result ≢ Err (faults.Meta Memory) }
    ensures set { result ≡ Err (faults.Set Memory) → WantsMemory syntax bytes.now }
{
    let set = parse(alloc, syntax, bytes).map_err(FileFault::Set)?;
    if !may_follow(first_tag(&set)) {
        return Err(FileFault::GroupLength);
    }
    Ok(set)
}

fn first_tag(set: &DataSet<'_>) -> Option<Tag>
    ensures { result ≡ first_of (set_view set.now) }
{
    match set.elements.first() {
        None => None,
        Some(first) => Some(first.tag),
    }
}

pub fn may_follow(first: Option<Tag>) -> bool
    ensures { result ≡ may_follow first }
{
    match first {
        None => true,
        Some(tag) => tag.group > META_GROUP,
    }
}
