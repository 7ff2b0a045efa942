//! What a call answers beside its bytes.

ghost use Rattle.std.specs.Prelude.{◌≡◌, ◌<◌};
ghost use Rattle.dd_calls.specs.Faults.{cause_of, fault_of, file_cause, file_tag, file_within, place_of, refusal_of};
ghost use Rattle.dd_calls.specs.Faults.{set_cause, tag_of, within_of};
ghost use Rattle.dd_calls.specs.Sizes.{by_number, sized};

use dd_part10::FileFault;
use dd_set::SetFault;
use dd_walk::DirFault;

/// The status of a call that gave its answer.
pub const DONE: u32 = 0;

/// The status of a call whose answer is longer than the room for it.
pub const ROOM: u32 = 1;

/// The status of a call whose arguments are at fault: bytes that can't be cut at the ends given, or a number of no
/// record.
pub const ARGUMENTS: u32 = 2;

/// The status of a call of which an allocation was refused: 91 Memory.
pub const MEMORY: u32 = 91;

/// What a call answers beside its bytes.
#[repr(C)]
#[derive(Debug, Clone, Copy, PartialEq, Eq)]
pub struct Answer {
    /// How many bytes of text the answer has, also where it found no room.
    pub text: u64,
    /// How many rows it has, also where they found no room.
    pub rows: u64,
    /// How many bytes its File IDs have, also where they found no room; 0 where it has none.
    pub files: u64,
    /// The number of the file, directory or UID that is at fault, among those that were given, else 0.
    pub source: u64,
    /// The number of the fault, as the program has it, or 0.
    pub fault: u32,
    /// The number of the fault that is its cause: 21 to 27 of a file, else 0.
    pub within: u32,
    /// The number of the cause of that one: 1 to 10 of a data set, else 0.
    pub cause: u32,
    /// The offset of the record that is at fault, else 0.
    pub at: u32,
    /// The tag that is at fault, its group in the upper 16 bits, else 0.
    pub tag: u32,
}

impl Answer {
    /// Makes the answer of a call that gives this many bytes of text, rows and bytes of File IDs.
    pub fn sized(text: u64, rows: u64, files: u64) -> Answer
        ensures { result ≡ sized text rows files }
    {
        Answer {
            text,
            rows,
            files,
            source: 0,
            fault: DONE,
            within: 0,
            cause: 0,
            at: 0,
            tag: 0,
        }
    }

    /// Makes the answer of a call that is refused by a fault of this number alone.
    pub fn of_number(fault: u32) -> Answer
        ensures { result ≡ by_number fault }
    {
        Answer {
            fault,
            ..Answer::sized(0, 0, 0)
        }
    }

    /// Makes the answer of a call that is refused by a fault of the directory with this number.
    pub fn of_directory(fault: &DirFault, source: u64) -> Answer
        ensures value { result ≡ refusal_of fault.now source }
        ensures least { 50 < result.fault }
        ensures most { result.fault < 92 }
    {
        Answer {
            text: 0,
            rows: 0,
            files: 0,
            source,
            fault: fault_of(fault),
            within: within_of(fault),
            cause: cause_of(fault),
            at: place_of(fault),
            tag: tag_of(fault),
        }
    }
}

/// Gives the number of a fault.
fn fault_of(fault: &DirFault) -> u32
    ensures value { result ≡ fault_of fault.now }
    ensures least { 50 < result }
    ensures most { result < 92 }
{
    match fault {
        DirFault::File(FileFault::Meta(SetFault::Memory) | FileFault::Set(SetFault::Memory)) => 91,
        DirFault::File(_) => 51,
        DirFault::NotDirectory => 52,
        DirFault::RecordShape(_) => 53,
        DirFault::Dangling(_) => 54,
        DirFault::Twice(_) => 55,
        DirFault::LastRoot => 56,
        DirFault::TooDeep(_) => 58,
        DirFault::Memory => 91,
    }
}

/// Gives the number of the fault of the file.
fn within_of(fault: &DirFault) -> u32
    ensures { result ≡ within_of fault.now }
{
    match fault {
        DirFault::File(fault) => file_within(fault),
        _ => 0,
    }
}

/// Gives the number of the fault of a file.
pub fn file_within(fault: &FileFault) -> u32
    ensures { result ≡ file_within fault.now }
{
    match fault {
        FileFault::NotPart10 => 21,
        FileFault::GroupLength => 22,
        FileFault::MetaMissing(_) => 23,
        FileFault::MetaUid(_) => 24,
        FileFault::OtherSyntax(_) => 25,
        FileFault::Meta(_) => 26,
        FileFault::Set(_) => 27,
    }
}

/// Gives the number of the fault of the data set.
fn cause_of(fault: &DirFault) -> u32
    ensures { result ≡ cause_of fault.now }
{
    match fault {
        DirFault::File(fault) => file_cause(fault),
        _ => 0,
    }
}

/// Gives the number of the fault of the data set of a file.
pub fn file_cause(fault: &FileFault) -> u32
    ensures { result ≡ file_cause fault.now }
{
    match fault {
        FileFault::Meta(fault) | FileFault::Set(fault) => set_cause(*fault),
        _ => 0,
    }
}

/// Gives the number of the fault of a data set.
fn set_cause(fault: SetFault) -> u32
    ensures { result ≡ set_cause fault }
{
    match fault {
        SetFault::Truncated => 1,
        SetFault::Order => 2,
        SetFault::BadVr => 3,
        SetFault::Reserved => 4,
        SetFault::OddLength => 5,
        SetFault::UndefinedLength => 6,
        SetFault::UnexpectedTag => 7,
        SetFault::BadDelimiter => 8,
        SetFault::Overrun => 9,
        SetFault::TooDeep => 10,
        SetFault::Memory => 91,
    }
}

/// Gives the tag that is at fault.
fn tag_of(fault: &DirFault) -> u32
    ensures { result ≡ tag_of fault.now }
{
    match fault {
        DirFault::File(fault) => file_tag(fault),
        _ => 0,
    }
}

/// Gives the tag that is at fault in group 0002 of a file.
pub fn file_tag(fault: &FileFault) -> u32
    ensures { result ≡ file_tag fault.now }
{
    match fault {
        FileFault::MetaMissing(tag) | FileFault::MetaUid(tag) => tag.number(),
        _ => 0,
    }
}

/// Gives the offset of the record.
fn place_of(fault: &DirFault) -> u32
    ensures { result ≡ place_of fault.now }
{
    match fault {
        DirFault::RecordShape(at)
        | DirFault::Dangling(at)
        | DirFault::Twice(at)
        | DirFault::TooDeep(at) => *at,
        _ => 0,
    }
}
