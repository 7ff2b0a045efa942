//! Compares what a file says of itself with what the records of a directory say of it.
ghost use Rattle.std.specs.Prelude.{◌≡◌, ◌↔◌, ◌∷◌, ℕ, List, [], Err, IfOk, IsErr, None, OnErr, find, map, true};
ghost use Rattle.std.specs.Option.{option_copied, option_or};
ghost use Rattle.dd_elem.specs.Device.{Gives};
ghost use Rattle.dd_encoding.specs.Elements.{Elements};
ghost use Rattle.dd_grammar.specs.Lists.{same_tag};
ghost use Rattle.dd_scan.specs.Scan.{found_hit, hits_of, is_wanted};
ghost use Rattle.dd_part10.specs.declared.fault.FileFault.{FileFault};
ghost use Rattle.dd_part10.specs.Faults.{SaysMemory};
ghost use Rattle.dd_part10.specs.Memory.{IsRefused};
ghost use Rattle.dd_part10.specs.Reading.{FileParts};
ghost use Rattle.dd_part10.specs.Taking.{IsScanned};
ghost use Rattle.dd_records.specs.ElementForms.{tag};
ghost use Rattle.dd_walk.specs.ForestViews.{tree_view};
ghost use Rattle.dd_walk.specs.Saying.{key_of};
ghost use Rattle.dd_walk.specs.Trees.{Node};
ghost use Rattle.dd_report.specs.Agreements.{IsInherited, SumsUp, agree, agreement, agreements, by_keys, compared_tags};
ghost use Rattle.dd_report.specs.Agreements.{first_wrong, mislabelled, nearest, patient_id, standing_below};
ghost use Rattle.dd_report.specs.Agreements.{syntax_agreement};
ghost use Rattle.dd_slots.specs.Slots.{IsSlotOf};
ghost use Rattle.dd_report.specs.Batches.{KeepsBytes, judged};
ghost use Rattle.dd_report.specs.Checking.{most_read};
ghost use Rattle.dd_report.specs.Finding.{FindsBy, by_digest, without_digest};

use crate::checking::Check;
use crate::findings::{Finding, Judgement, digest_finding, judge_whole, value_in};
use dd_elem::{Memory, Read, Tag, Uid, tags};
use dd_files::SOURCE_LIMIT;
use dd_keys::read_kept;
use dd_part10::{self, FileFault, Scanned, StreamFault};
use dd_records::table::{CLASS, INSTANCE, TRANSFER};
use dd_scan::{Found, Summary};
use dd_slots::Slot;
use dd_walk::{Tree, digest_in};

/// The tags of a file's data set that are compared, rising.
const COMPARED: [Tag; 5] = [
    tags::SOP_CLASS_UID,
    tags::SOP_INSTANCE_UID,
    tags::PATIENT_ID,
    tags::STUDY_INSTANCE_UID,
    tags::SERIES_INSTANCE_UID,
];

/// Media Storage SOP Class UID.
const FILE_CLASS: Tag = Tag {
    group: 0x0002,
    element: 0x0002,
};

/// Media Storage SOP Instance UID.
const FILE_INSTANCE: Tag = Tag {
    group: 0x0002,
    element: 0x0003,
};

/// The Patient ID that this program writes in a record where the file has none or an empty one.
const NO_ID: &[u8] = b"NOID";

/// The values in the records above: each element as the nearest record above has it, else no bytes.
#[derive(Clone, Copy)]
pub(crate) struct Inherited<'a> {
    pub patient_id: &'a [u8],
    /// Study Instance UID.
    pub study: &'a [u8],
    /// Series Instance UID.
    pub series: &'a [u8],
}

impl<'a> Inherited<'a> {
    pub(crate) fn at_root() -> Inherited<'a>
        ensures { IsInherited result [] }
    {
        Inherited {
            patient_id: b"",
            study: b"",
            series: b"",
        }
    }

    /// Adds what this record says, for the records below it.
    pub(crate) fn under(self, tree: &Tree<'a>) -> Inherited<'a>
        ensures { (above : List Node) → IsInherited self.entry above
            → IsInherited result ((tree_view tree.now).node ∷ above) }
    {
        Inherited {
            patient_id: value_or(tree, tags::PATIENT_ID, self.patient_id),
            study: value_or(tree, tags::STUDY_INSTANCE_UID, self.study),
            series: value_or(tree, tags::SERIES_INSTANCE_UID, self.series),
        }
    }
}

fn value_or<'a>(tree: &Tree<'a>, tag: Tag, above: &'a [u8]) -> &'a [u8]
    ensures { (nodes : List Node) → above.now ≡ nearest tag nodes
        → result.now ≡ nearest tag ((tree_view tree.now).node ∷ nodes) }
{
    if tree.set.find(tag).is_some() {
        value_in(tree, tag)
    } else {
        above
    }
}

/// Gives the summary of no bytes where the set has no such element, or one that holds no bytes.
fn summary_at(found: &[Found], tag: Tag) -> Summary<'_>
    ensures { (set : Elements) → map found_hit found.now ≡ hits_of compared_tags set
        → is_wanted compared_tags tag ≡ true → SumsUp result (key_of tag set) }
{
    match Summary::find(found, tag) {
        Some(summary) => summary,
        None => Summary::of(b""),
    }
}

fn or_no_id(id: Summary<'_>, is_own: bool) -> Summary<'_>
    ensures { (value : List ℕ) → SumsUp id.entry value → SumsUp result (patient_id is_own value) }
{
    if is_own && id.length == 0 {
        Summary::of(NO_ID)
    } else {
        id
    }
}

fn agree(one: Summary<'_>, other: Summary<'_>) -> bool
    ensures { (value another : List ℕ) → SumsUp one.entry value → SumsUp other.entry another
        → result ≡ agree value another }
{
    one.length == other.length && one.front == other.front
}

/// A tag of a file, and whether the value there agrees with what the records say.
type Agreement = (Tag, bool);

fn uid_agreement(tag: Tag, uid: &Uid, recorded: &[u8]) -> Agreement
    ensures { result ≡ agreement tag uid.now recorded.now }
{
    let in_file = Summary::of(uid.as_bytes());
    (tag, agree(in_file, Summary::of(recorded)))
}

fn syntax_agreement(tree: &Tree<'_>, transfer: &Uid) -> Agreement
    ensures { (above : List Node)
        → result ≡ syntax_agreement (standing_below above (tree_view tree.now).node) transfer.now }
{
    uid_agreement(dd_part10::TRANSFER, transfer, value_in(tree, TRANSFER.tag))
}

fn value_agreement(found: &[Found], tag: Tag, recorded: &[u8]) -> Agreement
    ensures { (set : Elements) → map found_hit found.now ≡ hits_of compared_tags set
        → is_wanted compared_tags tag ≡ true
        → result ≡ agreement tag (key_of tag set) recorded.now }
{
    let in_file = summary_at(found, tag);
    (tag, agree(in_file, Summary::of(recorded)))
}

fn patient_agreement(found: &[Found], is_own: bool, recorded: &[u8]) -> Agreement
    ensures { (set : Elements) → map found_hit found.now ≡ hits_of compared_tags set
        → result ≡ agreement (tag 0x0010 0x0020)
        (patient_id is_own (key_of (tag 0x0010 0x0020) set))
        (patient_id is_own recorded.now) }
{
    let in_file = or_no_id(summary_at(found, tags::PATIENT_ID), is_own);
    let recorded = or_no_id(Summary::of(recorded), is_own);
    (tags::PATIENT_ID, agree(in_file, recorded))
}

/// Compares in the order of the file's tags.
fn agreements(tree: &Tree<'_>, inherited: Inherited<'_>, scanned: &Scanned) -> [Agreement; 8]
    ensures { (above : List Node) (file : FileParts)
        → IsInherited inherited.entry ((tree_view tree.now).node ∷ above)
        → IsScanned compared_tags scanned.now file
        → result ≡ agreements (standing_below above (tree_view tree.now).node) file }
{
    let meta = &scanned.meta;
    let found = scanned.found.as_slice();
    let class = value_in(tree, CLASS.tag);
    let instance = value_in(tree, INSTANCE.tag);
    let is_own = digest_in(&tree.set).is_some();
    [
        uid_agreement(FILE_CLASS, &meta.class, class),
        uid_agreement(FILE_INSTANCE, &meta.instance, instance),
        syntax_agreement(tree, &meta.transfer),
        value_agreement(found, tags::SOP_CLASS_UID, class),
        value_agreement(found, tags::SOP_INSTANCE_UID, instance),
        patient_agreement(found, is_own, inherited.patient_id),
        value_agreement(found, tags::STUDY_INSTANCE_UID, inherited.study),
        value_agreement(found, tags::SERIES_INSTANCE_UID, inherited.series),
    ]
}

fn first_wrong(all: &[Agreement]) -> Option<Finding>
    ensures { result ≡ first_wrong all.now }
{
    all.iter()
        .find(|(_, agrees)| !*agrees)
        .map(|(tag, _)| Finding::Mislabelled(*tag))
}

/// Judges an IMAGE record whose file is no DICOM file. Memory where an allocation was refused.
fn finding_of_fault(tree: &Tree<'_>, fault: FileFault) -> Result<Option<Finding>, Memory>
    ensures found { IfOk result (λ finding. (above : List Node)
        → finding ≡ mislabelled (standing_below above (tree_view tree.now).node) (Err fault)) }
    ensures memory { IsErr result ↔ SaysMemory fault }
{
    if fault.is_want_of_memory() {
        return Err(Memory);
    }
    match fault {
        FileFault::OtherSyntax(transfer) => Ok(first_wrong(&[syntax_agreement(tree, &transfer)])),
        _ => Ok(Some(Finding::NoFile(fault))),
    }
}

/// Judges an IMAGE record and its file, which is read once, into the slot. Where an allocation is refused meanwhile the
/// file is read to its end nonetheless: Memory where its digest does not differ.
pub(crate) fn judge_by_keys<R: Read>(
    check: Check<'_>,
    tree: &Tree<'_>,
    inherited: Inherited<'_>,
    reader: &mut R,
    slot: &mut Slot,
) -> Result<Judgement, Memory>
    ensures found { IfOk result (λ judgement. (above : List Node)
        → IsInherited inherited.entry ((tree_view tree.now).node ∷ above)
        → FindsBy R.Read most_read
        (λ (given : List ℕ). option_or (by_keys (standing_below above (tree_view tree.now).node) given)
        (without_digest check.entry.comparison.strict (tree_view tree.now).node))
        (judged judgement slot.new) reader.old reader.new) }
    ensures bytes { IfOk result (λ judgement. KeepsBytes judgement slot.new) }
    ensures memory { OnErr result ((given : List ℕ) × (fault : FileFault)
        × Gives R.has_given reader.old reader.new given
        × (by_digest (tree_view tree.now).node given ≡ None)
        × SaysMemory fault × IsRefused compared_tags fault given) }
{
    let strict = check.comparison.strict;
    match read_kept(check.alloc, reader, slot, &COMPARED, SOURCE_LIMIT) {
        Err(StreamFault::Read | StreamFault::TooLong) => {
            Ok(Judgement::Known(Some(Finding::Unreadable)))
        }
        Ok(scanned) => {
            let wrong = first_wrong(&agreements(tree, inherited, &scanned));
            Ok(judge_whole(tree, strict, slot, wrong))
        }
        Err(StreamFault::File(fault)) => judge_no_file(tree, strict, slot, fault),
    }
}

/// Gives Memory where an allocation was refused and the digest does not differ.
fn judge_no_file(
    tree: &Tree<'_>,
    strict: bool,
    slot: &Slot,
    fault: FileFault,
) -> Result<Judgement, Memory>
    ensures found { IfOk result (λ judgement. (above : List Node) (given : List ℕ)
        → IsSlotOf slot.now given → IsRefused compared_tags fault given
        → judged judgement slot.now
        ≡ option_or (by_keys (standing_below above (tree_view tree.now).node) given)
        (without_digest strict (tree_view tree.now).node)) }
    ensures bytes { IfOk result (λ judgement. KeepsBytes judgement slot.now) }
    ensures memory { OnErr result (SaysMemory fault × ((given : List ℕ) → IsSlotOf slot.now given
        → by_digest (tree_view tree.now).node given ≡ None)) }
{
    match finding_of_fault(tree, fault) {
        Ok(wrong) => Ok(judge_whole(tree, strict, slot, wrong)),
        Err(memory) => match digest_finding(digest_in(&tree.set), slot.digest()) {
            Some(differs) => Ok(Judgement::Known(Some(differs))),
            None => Err(memory),
        },
    }
}
