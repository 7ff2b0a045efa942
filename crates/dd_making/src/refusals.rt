//! The answer of a call that is refused by each fault.

ghost use Rattle.std.specs.Prelude.{◌≡◌};
ghost use Rattle.dd_making.specs.Refusals.{IsFault, at_tag, key_refusal, merge_refusal, no_file, of_input, of_record};
ghost use Rattle.dd_making.specs.Refusals.{own_refusal, plan_refusal};

use dd_calls::{Answer, file_cause, file_tag, file_within};
use dd_dir::OwnFault;
use dd_elem::Tag;
use dd_engine::MergeFault;
use dd_grammar::SetFault;
use dd_keys::KeyFault;
use dd_layout::PlanFault;
use dd_part10::FileFault;

/// Answers for a file that has no version.
pub(crate) fn key_refusal(fault: &KeyFault) -> Answer
    ensures refusal { result ≡ key_refusal fault.now }
    ensures fault { IsFault result.fault }
{
    match fault {
        KeyFault::File(file) => Answer {
            within: file_within(file),
            cause: file_cause(file),
            tag: file_tag(file),
            ..Answer::of_number(no_file(file))
        },
        KeyFault::NotImage(_) => Answer::of_number(32),
        KeyFault::MissingKey(tag) => at_tag(33, *tag),
        KeyFault::BadKeyUid(tag) => at_tag(34, *tag),
        KeyFault::KeyTooLong(tag) => at_tag(35, *tag),
        KeyFault::KeyIsSequence(tag) => at_tag(36, *tag),
        KeyFault::MetaMismatch(tag) => at_tag(37, *tag),
        KeyFault::Read => Answer::of_number(38),
        KeyFault::FileTooLong => Answer::of_number(39),
        KeyFault::Memory => Answer::of_number(91),
    }
}

/// Numbers the fault of an image file: 91 where an allocation was refused.
fn no_file(fault: &FileFault) -> u32
    ensures number { result ≡ no_file fault.now }
    ensures fault { IsFault result }
{
    match fault {
        FileFault::Meta(SetFault::Memory) | FileFault::Set(SetFault::Memory) => 91,
        _ => 31,
    }
}

fn at_tag(fault: u32, tag: Tag) -> Answer
    ensures { result ≡ at_tag fault tag }
{
    Answer {
        tag: tag.number(),
        ..Answer::of_number(fault)
    }
}

/// Answers for a fault of the input with this number.
pub(crate) fn of_input(fault: u32, source: u64) -> Answer
    ensures { result ≡ of_input fault source }
{
    Answer {
        source,
        ..Answer::of_number(fault)
    }
}

/// Answers for versions that have no plan.
pub(crate) fn plan_refusal(fault: &PlanFault) -> Answer
    ensures refusal { result ≡ plan_refusal fault.now }
    ensures fault { IsFault result.fault }
{
    match fault {
        PlanFault::Conflict(_, _) => Answer::of_number(41),
        PlanFault::TooMany(_) => Answer::of_number(42),
        PlanFault::TooLarge => Answer::of_number(43),
        PlanFault::Memory => Answer::of_number(91),
    }
}

fn of_record(fault: u32, source: u64, at: u32) -> Answer
    ensures { result ≡ of_record fault source at }
{
    Answer {
        at,
        ..of_input(fault, source)
    }
}

/// Answers for a directory with this number that was not written here.
fn own_refusal(source: u64, fault: &OwnFault) -> Answer
    ensures refusal { result ≡ own_refusal source fault.now }
    ensures fault { IsFault result.fault }
{
    match fault {
        OwnFault::NoDigest(at) => of_record(61, source, *at),
        OwnFault::ForeignRecord(at) => of_record(62, source, *at),
        OwnFault::RecordKey(at, tag) => Answer {
            tag: tag.number(),
            ..of_record(63, source, *at)
        },
        OwnFault::BadWithdrawal => of_input(65, source),
        OwnFault::Memory => of_input(91, source),
    }
}

/// Answers for directories that have no directory of all their images.
pub(crate) fn merge_refusal(fault: &MergeFault) -> Answer
    ensures refusal { result ≡ merge_refusal fault.now }
    ensures fault { IsFault result.fault }
{
    match fault {
        MergeFault::Dir(at, fault) => Answer::of_directory(fault, *at as u64),
        MergeFault::Own(at, fault) => own_refusal(*at as u64, fault),
        MergeFault::Plan(fault) => plan_refusal(fault),
        MergeFault::Memory => Answer::of_number(91),
    }
}
