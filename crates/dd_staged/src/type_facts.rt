//! Facts that types give, for proofs. They are known only where a UID, a tag or a version is lent.

ghost use Rattle.std.specs.Prelude.{◌≡◌, ◌<◌, ◌^◌, map};
ghost use Rattle.std.specs.List.{AllByRecursion};
ghost use Rattle.dd_elem.specs.Uid.{IsUid};
ghost use Rattle.dd_staged.specs.Sources.{IsSource, IsTag};
ghost use Rattle.dd_staged.specs.Sources.{IsListed, Names, NamesInFile, source_view};

use crate::source_fault::SourceFault;
use crate::staged::Staged;
use dd_elem::{Tag, Uid};
use dd_keys::KeyFault;
use dd_part10::FileFault;
use dd_version::version_is_well_formed;

/// States that each is a source, if it can be listed.
pub(crate) fn list_is_valid(list: &[Staged])
    ensures { AllByRecursion IsListed (map source_view list.now)
        → AllByRecursion IsSource (map source_view list.now) }
{
    for staged in list {
        staged_is_valid(staged);
    }
}

fn staged_is_valid(staged: &Staged)
    ensures { IsListed (source_view staged.now) → IsSource (source_view staged.now) }
{
    size_is_valid(staged.size);
    match &staged.found {
        Ok(version) => version_is_well_formed(version),
        Err(SourceFault::Key(fault)) => fault_is_valid(fault),
        Err(SourceFault::BadName(number)) => number_is_valid(*number),
        Err(SourceFault::Absent | SourceFault::Unread) => {}
    }
}

fn size_is_valid(_size: u64)
    ensures { _size < 2 ^ 64 }
{}

fn number_is_valid(_number: u32)
    ensures { _number < 2 ^ 32 }
{}

fn fault_is_valid(fault: &KeyFault)
    ensures { Names fault.now }
{
    match fault {
        KeyFault::File(fault) => file_fault_is_valid(fault),
        KeyFault::NotImage(uid) => uid_is_valid(uid),
        KeyFault::MissingKey(tag)
        | KeyFault::BadKeyUid(tag)
        | KeyFault::KeyTooLong(tag)
        | KeyFault::KeyIsSequence(tag)
        | KeyFault::MetaMismatch(tag) => tag_is_valid(*tag),
        KeyFault::Read | KeyFault::FileTooLong | KeyFault::Memory => {}
    }
}

fn file_fault_is_valid(fault: &FileFault)
    ensures { NamesInFile fault.now }
{
    match fault {
        FileFault::MetaMissing(tag) | FileFault::MetaUid(tag) => tag_is_valid(*tag),
        FileFault::OtherSyntax(uid) => uid_is_valid(uid),
        FileFault::NotPart10 | FileFault::GroupLength | FileFault::Meta(_) | FileFault::Set(_) => {}
    }
}

fn tag_is_valid(tag: Tag)
    ensures { IsTag tag }
{
    tag.number();
}

fn uid_is_valid(uid: &Uid)
    ensures { IsUid uid.now }
{
    uid.as_bytes();
}
