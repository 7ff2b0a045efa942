//! Which files a merge picks, and why it is refused.

use crate::merges::directories::{directories, label, slices, widest};
use dd_layout::Limits;
use dd_records::Label;
use dd_vectors::ask_all;
use dicomdir::{Choice, MergeFault, Merged, first_saying, merge_engine};
use std::alloc::Global;
use std::test::Fail;

/// The most bytes of a directory, the most records below one parent, and the directories. Then the size of the merged
/// directory, and for each image the number of its set and its File ID there, or the fault.
const PICKS: &str = "\
876 1 first first > 876 0 PT000001\\ST000001\\SE000001\\IM000001
876 1 empty first first > 876 1 PT000001\\ST000001\\SE000001\\IM000001
320 0 empty > 320
876 1 a b > 876 1 PT000001\\ST000001\\SE000001\\IM000001
876 1 b a b > 876 0 PT000001\\ST000001\\SE000001\\IM000001
1130 2 2 12 > 1130 1 PT000001\\ST000001\\SE000001\\IM000001 0 PT000001\\ST000001\\SE000001\\IM000001
2032 2 12 34 1234 > 2032 0 PT000001\\ST000001\\SE000001\\IM000001 0 PT000001\\ST000001\\SE000001\\IM000002 \
1 PT000001\\ST000001\\SE000001\\IM000001 1 PT000002\\ST000001\\SE000001\\IM000001
920 2 BD /1.2.3.4.5 > 920 0 PT000001\\ST000001\\SE000001\\IM000002
920 2 /1.2.3.4.5 BD > 920 1 PT000001\\ST000001\\SE000001\\IM000002
362 1 1 /1.2.3.4.5 1 > 362
928 1 1/1.2.3.4.6 /1.2.3.4.7/1.2.3.4.6 > 928 0 PT000001\\ST000001\\SE000001\\IM000001
876 1 12,1026,'5 > 876 0 PT000001\\ST000001\\SE000001\\IM000001
876 1 first,686,'X first > 876 0 XT000001\\ST000001\\SE000001\\IM000001
361 1 1 /1.2.3.4.5 1 > Plan: 43 TooLarge
875 1 first first > Plan: 43 TooLarge
876 1 1 2 > Plan: 42 TooMany Image
2032 1 12 34 > Plan: 42 TooMany Patient
0 0 5 1 > Plan: 41 Conflict 1.2.3.4.5 1.2.8.4.1
0 0 1 /1.2.8.4.1 5 > Plan: 42 TooMany Patient
876 1 first,336,40010000 > Dir 0: 55 Twice 320
0 0 first first,294,41010000 v3 > Dir 1: 56 LastRoot
0 0 1 5 first,128,'4 > Dir 2: 51 File 21 NotPart10
0 0 first v3 first,294,41010000 > Own 1: 62 ForeignRecord 646
0 0 v3,674,ffff v3 > Own 0: 61 NoDigest 646
0 0 1 1/1.2.3.4.6,402,2020,908,'. v3 > Own 1: 65 BadWithdrawal
0 0 5 1 first,402,2020 > Own 2: 63 RecordKey 320 (0010,0020)";

pub(crate) fn in_words(alloc: Global, merged: &Merged<'_>) -> Result<String, Fail> {
    let size = merged.plan.size();
    let mut text = format!(in alloc; "{size}")?;
    for pick in &merged.picks {
        let (set, file) = (pick.set, str::from_utf8(pick.file)?);
        write!(text, " {set} {file}")?;
    }
    Ok(text)
}

pub(crate) fn refused(alloc: Global, fault: MergeFault) -> Result<String, Fail> {
    Ok(match fault {
        MergeFault::Dir(at, fault) => format!(in alloc; "Dir {at}: {fault}")?,
        MergeFault::Own(at, fault) => format!(in alloc; "Own {at}: {fault}")?,
        MergeFault::Plan(fault) => format!(in alloc; "Plan: {fault}")?,
        MergeFault::Memory => String::from_str(alloc, "Memory")?,
    })
}

fn picked(alloc: Global, question: &str) -> Result<String, Fail> {
    let (bytes, rest) = question.split_once(' ').ok_or("no bytes")?;
    let (per_level, words) = rest.split_once(' ').ok_or("no count")?;
    let limits = Limits::new(bytes.parse()?, per_level.parse()?).ok_or("no limits")?;
    let sets = directories(alloc, words)?;
    let sets = slices(alloc, &sets)?;
    let Label { id, uid } = label()?;
    let uid = Some(uid);
    match merge_engine(alloc, &sets, &Choice { id, uid }, limits) {
        Ok(merged) => in_words(alloc, &merged),
        Err(fault) => refused(alloc, fault),
    }
}

/// Directories that are merged, and after the bar others. These are searched for the first record that says of the
/// first instance what the merge plans. Then the number of its set and its File ID there, `none`, or the fault of a
/// directory.
const FIRSTS: &str = "\
first | first first > 0 PT000001\\ST000001\\SE000001\\IM000001
first first,402,'P9 | first first,402,'P9,686,'X > 1 XT000001\\ST000001\\SE000001\\IM000001
first | empty first,402,'P9 first > 2 PT000001\\ST000001\\SE000001\\IM000001
first | first,386,'ROE^JANE > 0 PT000001\\ST000001\\SE000001\\IM000001
first | empty first,834,00 first,874,'2 first,754,'4 > none
first | 12 first,336,40010000 > Dir 1: 55 Twice 320";

fn first(alloc: Global, question: &str) -> Result<String, Fail> {
    let (merged, sought) = question.split_once(" | ").ok_or("no others")?;
    let sets = directories(alloc, merged)?;
    let Label { id, uid } = label()?;
    let uid = Some(uid);
    let sets = slices(alloc, &sets)?;
    let Ok(merged) = merge_engine(alloc, &sets, &Choice { id, uid }, widest()?) else {
        return Err("no plan".into());
    };
    let planned = merged.plan.versions().first().ok_or("no version")?;
    let others = directories(alloc, sought)?;
    match first_saying(alloc, &slices(alloc, &others)?, planned) {
        Ok(Some(pick)) => {
            let (set, file) = (pick.set, str::from_utf8(pick.file)?);
            Ok(format!(in alloc; "{set} {file}")?)
        }
        Ok(None) => Ok(String::from_str(alloc, "none")?),
        Err(fault) => refused(alloc, fault),
    }
}

#[test]
fn files_are_picked_or_sets_refused(rt: HostRuntime) -> Result<(), Fail> {
    ask_all(rt.alloc(), PICKS, picked)?;
    ask_all(rt.alloc(), FIRSTS, first)
}
