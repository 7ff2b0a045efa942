//! Compares what a file in memory says of itself with what the records of a directory say of it.

ghost use Rattle.std.specs.Prelude.{◌≡◌, ◌↔◌, Err, IfOk, IsErr, take};
ghost use Rattle.dd_set.specs.Views.{set_view};
ghost use Rattle.dd_scan.specs.Scan.{summary_length};
ghost use Rattle.dd_part10.specs.Faults.{SaysMemory};
ghost use Rattle.dd_part10.specs.Reading.{file_in};
ghost use Rattle.dd_part10.specs.Views.{file_view};
ghost use Rattle.dd_records.specs.ElementForms.{tag};
ghost use Rattle.dd_walk.specs.Saying.{key_of};
ghost use Rattle.dd_report.specs.Agreements.{agree, agreement, agreements, first_wrong, mislabelled, patient_id};
ghost use Rattle.dd_report.specs.Agreements.{Standing as Record, syntax_agreement};
ghost use Rattle.dd_calls.specs.Standings.{seen_by, standing_view};

use crate::standing::Standing;
use crate::values::value_in;
use dd_elem::{Memory, Tag, Uid, tags};
use dd_part10::{self, DicomFile, FileFault, parse_file};
use dd_records::table::{CLASS, INSTANCE, TRANSFER};
use dd_report::Finding;
use dd_set::DataSet;
use dd_walk::digest_in;
use std::alloc::Global;

/// Media Storage SOP Class UID.
const FILE_CLASS: Tag = Tag {
    group: 0x0002,
    element: 0x0002,
};

/// Media Storage SOP Instance UID.
const FILE_INSTANCE: Tag = Tag {
    group: 0x0002,
    element: 0x0003,
};

/// The Patient ID that this program writes in a record where the file has none or an empty one.
const NO_ID: &[u8] = b"NOID";

/// How many first bytes of two values are compared.
const COMPARED: usize = 1024;

/// A tag of a file, and whether the value there agrees with what the records say.
type Agreement = (Tag, bool);

/// Judges the file of an IMAGE record by what it says of itself. Memory where an allocation is refused.
pub(crate) fn mislabelled(
    alloc: Global,
    standing: &Standing<'_, '_>,
    bytes: &[u8],
) -> Result<Option<Finding>, Memory>
    ensures { IfOk result (λ finding. (entry : Record) → standing_view standing.now ≡ seen_by entry
        → finding ≡ mislabelled entry (file_in bytes.now)) }
{
    match parse_file(alloc, bytes) {
        Ok(file) => Ok(first_wrong(&agreements(standing, &file))),
        Err(fault) => finding_of_fault(standing, fault),
    }
}

/// Judges an IMAGE record whose file is no DICOM file. Memory where an allocation was refused.
fn finding_of_fault(
    standing: &Standing<'_, '_>,
    fault: FileFault,
) -> Result<Option<Finding>, Memory>
    ensures found { IfOk result (λ finding. (entry : Record) → standing_view standing.now ≡ seen_by entry
        → finding ≡ mislabelled entry (Err fault)) }
    ensures memory { IsErr result ↔ SaysMemory fault }
{
    if fault.is_want_of_memory() {
        return Err(Memory);
    }
    match fault {
        FileFault::OtherSyntax(transfer) => {
            Ok(first_wrong(&[syntax_agreement(standing, &transfer)]))
        }
        _ => Ok(Some(Finding::NoFile(fault))),
    }
}

/// Compares in the order of the file's tags.
fn agreements(standing: &Standing<'_, '_>, file: &DicomFile<'_>) -> [Agreement; 8]
    ensures { (entry : Record) → standing_view standing.now ≡ seen_by entry
        → result ≡ agreements entry (file_view file.now) }
{
    let (meta, set) = (&file.meta, &file.set);
    let class = value_in(&standing.tree.set, CLASS.tag);
    let instance = value_in(&standing.tree.set, INSTANCE.tag);
    let is_own = digest_in(&standing.tree.set).is_some();
    let inherited = standing.inherited;
    [
        uid_agreement(FILE_CLASS, &meta.class, class),
        uid_agreement(FILE_INSTANCE, &meta.instance, instance),
        syntax_agreement(standing, &meta.transfer),
        value_agreement(set, tags::SOP_CLASS_UID, class),
        value_agreement(set, tags::SOP_INSTANCE_UID, instance),
        patient_agreement(set, is_own, inherited.patient_id),
        value_agreement(set, tags::STUDY_INSTANCE_UID, inherited.study),
        value_agreement(set, tags::SERIES_INSTANCE_UID, inherited.series),
    ]
}

fn uid_agreement(tag: Tag, uid: &Uid, recorded: &[u8]) -> Agreement
    ensures { result ≡ agreement tag uid.now recorded.now }
{
    (tag, agree(uid.as_bytes(), recorded))
}

fn syntax_agreement(standing: &Standing<'_, '_>, transfer: &Uid) -> Agreement
    ensures { (entry : Record) → standing_view standing.now ≡ seen_by entry
        → result ≡ syntax_agreement entry transfer.now }
{
    let recorded = value_in(&standing.tree.set, TRANSFER.tag);
    uid_agreement(dd_part10::TRANSFER, transfer, recorded)
}

fn value_agreement(set: &DataSet<'_>, tag: Tag, recorded: &[u8]) -> Agreement
    ensures { result ≡ agreement tag (key_of tag (set_view set.now)) recorded.now }
{
    (tag, agree(value_in(set, tag), recorded))
}

fn patient_agreement(set: &DataSet<'_>, is_own: bool, recorded: &[u8]) -> Agreement
    ensures { result ≡ agreement (tag 0x0010 0x0020)
        (patient_id is_own (key_of (tag 0x0010 0x0020) (set_view set.now)))
        (patient_id is_own recorded.now) }
{
    let in_file = or_no_id(value_in(set, tags::PATIENT_ID), is_own);
    (tags::PATIENT_ID, agree(in_file, or_no_id(recorded, is_own)))
}

fn or_no_id(id: &[u8], is_own: bool) -> &[u8]
    ensures { result.now ≡ patient_id is_own id.now }
{
    if is_own && id.is_empty() { NO_ID } else { id }
}

fn agree(one: &[u8], other: &[u8]) -> bool
    ensures { result ≡ agree one.now other.now }
{
    one.len() == other.len() && front(one) == front(other)
}

#[tactic(auto, using(crate::proofs::Judged::whole_front))]
fn front(value: &[u8]) -> &[u8]
    ensures { result.now ≡ take summary_length value.now }
{
    if value.len() > COMPARED {
        &value[..COMPARED]
    } else {
        value
    }
}

fn first_wrong(all: &[Agreement]) -> Option<Finding>
    ensures { result ≡ first_wrong all.now }
{
    all.iter()
        .find(|(_, agrees)| !*agrees)
        .map(|(tag, _)| Finding::Mislabelled(*tag))
}
