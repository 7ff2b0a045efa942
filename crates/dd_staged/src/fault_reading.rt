//! The fault that an item says.

ghost use Rattle.std.specs.Prelude.{◌≡◌, ◌≢◌, ◌<◌, ◌^◌, IfOk, IfErr};
ghost use Rattle.std.specs.Int.{from_le_bytes, w32};
ghost use Rattle.dd_grammar.specs.Reading.{tag_of};
ghost use Rattle.dd_grammar.specs.declared.fault.SetFault.TheVariants as set_faults;
ghost use Rattle.dd_keys.specs.declared.fault.KeyFault.TheVariants as key_faults;
ghost use Rattle.dd_set.specs.Views.{set_view};
ghost use Rattle.dd_staged.specs.Sources.{IsFault, IsSourceFault, IsTag};
ghost use Rattle.dd_staged.specs.Values.{fault_in, file_fault_of, key_at, key_fault_in, numbers_in, set_fault_of};
ghost use Rattle.dd_version.specs.Fitting.{tag};

use crate::source_fault::SourceFault;
use crate::tags::{FAULT_NUMBERS, FAULT_PLACE, FAULT_TAG, FAULT_UID};
use crate::values::{ItemFault, four, raw_at, uid_at};
use dd_elem::Tag;
use dd_grammar::SetFault;
use dd_keys::KeyFault;
use dd_part10::FileFault;
use dd_set::DataSet;

pub(crate) fn fault_in(set: &DataSet<'_>) -> Result<SourceFault, ItemFault>
    ensures value { IfOk result (λ fault. fault ≡ fault_in (set_view set.now)) }
    ensures valid { IfOk result IsSourceFault }
    ensures bad { IfErr result (λ fault. (fault ≡ ItemFault.Bad)
        × ¬ IsSourceFault (fault_in (set_view set.now))) }
{
    let numbers = four(raw_at(set, FAULT_NUMBERS));
    match numbers[0] {
        92 => Ok(SourceFault::Absent),
        93 => Ok(SourceFault::Unread),
        99 => Ok(SourceFault::BadName(number_of(four(raw_at(set, FAULT_PLACE))))),
        _ => Ok(SourceFault::Key(key_fault_in(set, numbers)?)),
    }
}

fn number_of(bytes: [u8; 4]) -> u32
    ensures value { result ≡ from_le_bytes w32 bytes }
    ensures small { result < 2 ^ 32 }
{
    u32::from_le_bytes(bytes)
}

fn key_fault_in(set: &DataSet<'_>, numbers: [u8; 4]) -> Result<KeyFault, ItemFault>
    requires { numbers ≡ numbers_in (set_view set.now) }
    ensures value { IfOk result (λ fault. fault ≡ key_fault_in (set_view set.now)) }
    ensures valid { IfOk result IsFault }
    ensures bad { IfErr result (λ fault. (fault ≡ ItemFault.Bad) × ¬ IsFault (key_fault_in (set_view set.now))) }
{
    let [number, cause, deeper, _] = numbers;
    let tag = tag_in(four(raw_at(set, FAULT_TAG)));
    match number {
        31 => Ok(KeyFault::File(file_fault_in(set, cause, deeper, tag)?)),
        32 => Ok(KeyFault::NotImage(uid_at(set, FAULT_UID)?)),
        33 => Ok(KeyFault::MissingKey(tag)),
        34 => Ok(KeyFault::BadKeyUid(tag)),
        35 => Ok(KeyFault::KeyTooLong(tag)),
        36 => Ok(KeyFault::KeyIsSequence(tag)),
        37 => Ok(KeyFault::MetaMismatch(tag)),
        _ => Ok(KeyFault::FileTooLong),
    }
}

fn file_fault_in(
    set: &DataSet<'_>,
    cause: u8,
    deeper: u8,
    named: Tag,
) -> Result<FileFault, ItemFault>
    requires { IsTag named }
    ensures value { IfOk result (λ fault. fault
        ≡ file_fault_of cause deeper named (key_at (tag 0x0009 0x100a) (set_view set.now))) }
    ensures valid { IfOk result (λ fault. IsFault (key_faults.File fault)) }
    ensures bad { IfErr result (λ fault. (fault ≡ ItemFault.Bad) × ¬ IsFault (key_faults.File
        (file_fault_of cause deeper named (key_at (tag 0x0009 0x100a) (set_view set.now))))) }
{
    match cause {
        21 => Ok(FileFault::NotPart10),
        22 => Ok(FileFault::GroupLength),
        23 => Ok(FileFault::MetaMissing(named)),
        24 => Ok(FileFault::MetaUid(named)),
        25 => Ok(FileFault::OtherSyntax(uid_at(set, FAULT_UID)?)),
        26 => Ok(FileFault::Meta(set_fault_of(deeper))),
        _ => Ok(FileFault::Set(set_fault_of(deeper))),
    }
}

fn set_fault_of(number: u8) -> SetFault
    ensures value { result ≡ set_fault_of number }
    ensures memory { result ≢ set_faults.Memory }
{
    match number {
        1 => SetFault::Truncated,
        2 => SetFault::Order,
        3 => SetFault::BadVr,
        4 => SetFault::Reserved,
        5 => SetFault::OddLength,
        6 => SetFault::UndefinedLength,
        7 => SetFault::UnexpectedTag,
        8 => SetFault::BadDelimiter,
        9 => SetFault::Overrun,
        _ => SetFault::TooDeep,
    }
}

fn tag_in(bytes: [u8; 4]) -> Tag
    ensures value { result ≡ tag_of bytes }
    ensures valid { IsTag result }
{
    let tag = Tag {
        group: u16::from_le_bytes([bytes[0], bytes[1]]),
        element: u16::from_le_bytes([bytes[2], bytes[3]]),
    };
    tag.number();
    tag
}
