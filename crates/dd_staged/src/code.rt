//! Faults as numbers, with a tag, a UID or the number of a source.

ghost use Rattle.std.specs.Prelude.{◌≡◌};
ghost use Rattle.dd_encoding.specs.Spelling.{tag_text};
ghost use Rattle.dd_staged.specs.Codes.{at_tag, at_uid, code_of, file_code, key_code, plain, set_number};

use crate::source_fault::SourceFault;
use byteorder::{ByteOrder, LittleEndian};
use dd_elem::{Tag, Uid};
use dd_grammar::SetFault;
use dd_keys::KeyFault;
use dd_part10::FileFault;

/// Why a source has no version.
#[derive(Clone, Copy)]
pub(crate) struct Code {
    /// The numbers of the fault, of its cause, and of what caused that; then a 0.
    pub(crate) numbers: [u8; 4],
    /// The tag that it names, spelled.
    pub(crate) tag: [u8; 4],
    /// The UID that it names.
    pub(crate) uid: Option<Uid>,
    /// The number of the source whose name it says is bad.
    pub(crate) place: [u8; 4],
}

impl Code {
    pub(crate) fn of(fault: &SourceFault) -> Code
        ensures { result ≡ code_of fault.now }
    {
        match fault {
            SourceFault::Key(fault) => key_code(fault),
            SourceFault::Absent => plain(92, 0, 0),
            SourceFault::Unread => plain(93, 0, 0),
            SourceFault::BadName(number) => Code {
                place: number.to_le_bytes(),
                ..plain(99, 0, 0)
            },
        }
    }
}

fn key_code(fault: &KeyFault) -> Code
    ensures { result ≡ key_code fault.now }
{
    match fault {
        KeyFault::File(fault) => file_code(fault),
        KeyFault::NotImage(uid) => at_uid(32, 0, uid),
        KeyFault::MissingKey(tag) => at_tag(33, 0, *tag),
        KeyFault::BadKeyUid(tag) => at_tag(34, 0, *tag),
        KeyFault::KeyTooLong(tag) => at_tag(35, 0, *tag),
        KeyFault::KeyIsSequence(tag) => at_tag(36, 0, *tag),
        KeyFault::MetaMismatch(tag) => at_tag(37, 0, *tag),
        KeyFault::Read => plain(38, 0, 0),
        KeyFault::FileTooLong => plain(39, 0, 0),
        KeyFault::Memory => plain(91, 0, 0),
    }
}

fn file_code(fault: &FileFault) -> Code
    ensures { result ≡ file_code fault.now }
{
    match fault {
        FileFault::NotPart10 => plain(31, 21, 0),
        FileFault::GroupLength => plain(31, 22, 0),
        FileFault::MetaMissing(tag) => at_tag(31, 23, *tag),
        FileFault::MetaUid(tag) => at_tag(31, 24, *tag),
        FileFault::OtherSyntax(uid) => at_uid(31, 25, uid),
        FileFault::Meta(fault) => plain(31, 26, set_number(fault)),
        FileFault::Set(fault) => plain(31, 27, set_number(fault)),
    }
}

fn set_number(fault: &SetFault) -> u8
    ensures { result ≡ set_number fault.now }
{
    match fault {
        SetFault::Truncated => 1,
        SetFault::Order => 2,
        SetFault::BadVr => 3,
        SetFault::Reserved => 4,
        SetFault::OddLength => 5,
        SetFault::UndefinedLength => 6,
        SetFault::UnexpectedTag => 7,
        SetFault::BadDelimiter => 8,
        SetFault::Overrun => 9,
        SetFault::TooDeep => 10,
        SetFault::Memory => 91,
    }
}

fn plain(number: u8, cause: u8, deeper: u8) -> Code
    ensures { result ≡ plain number cause deeper }
{
    Code {
        numbers: [number, cause, deeper, 0],
        tag: [0; 4],
        uid: None,
        place: [0; 4],
    }
}

fn at_tag(number: u8, cause: u8, tag: Tag) -> Code
    ensures { result ≡ at_tag number cause tag }
{
    Code {
        tag: tag_bytes(tag),
        ..plain(number, cause, 0)
    }
}

fn at_uid(number: u8, cause: u8, uid: &Uid) -> Code
    ensures { result ≡ at_uid number cause uid.now }
{
    Code {
        uid: Some(*uid),
        ..plain(number, cause, 0)
    }
}

fn tag_bytes(tag: Tag) -> [u8; 4]
    ensures { result ≡ tag_text tag }
{
    let mut bytes = [0; 4];
    LittleEndian::write_u16(&mut bytes, tag.group);
    LittleEndian::write_u16(&mut bytes[2..], tag.element);
    bytes
}
