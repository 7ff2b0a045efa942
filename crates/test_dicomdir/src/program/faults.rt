//! The words of the faults of the program. No run here shows some of them.

use dd_dir::OwnFault;
use dd_elem::{BadSetId, BadUid};
use dd_layout::PlanFault;
use dd_walk::DirFault;
use dicomdir::{EngineFault, MergeFault, ProgramFault};
use std::test::Fail;

const PROGRAM: &str =
    "39 FileTooLong, 43 TooLarge, 56 LastRoot, 61 NoDigest 646, 65 BadWithdrawal, 71 BadUid, \
                       72 BadSetId, 91 Memory, 92 Absent, 93 Unread, 94 Create, 95 Folder, \
                       96 Unsent, 97 Changed, 98 Strict";

/// Faults of an index, and of a merge.
const ENGINE: &str = "43 TooLarge, 91 Memory, 92 Absent, 93 Unread";

const MERGE: &str = "43 TooLarge, 56 LastRoot, 61 NoDigest 646, 65 BadWithdrawal, 91 Memory";

fn fault_of(words: &str) -> Option<ProgramFault> {
    match words {
        "39 FileTooLong" => Some(ProgramFault::TooLong),
        "43 TooLarge" => Some(ProgramFault::Plan(PlanFault::TooLarge)),
        "56 LastRoot" => Some(ProgramFault::Dir(DirFault::LastRoot)),
        "61 NoDigest 646" => Some(ProgramFault::Own(OwnFault::NoDigest(646))),
        "65 BadWithdrawal" => Some(ProgramFault::Own(OwnFault::BadWithdrawal)),
        "71 BadUid" => Some(ProgramFault::Uid(BadUid)),
        "72 BadSetId" => Some(ProgramFault::SetId(BadSetId)),
        "91 Memory" => Some(ProgramFault::Memory),
        "92 Absent" => Some(ProgramFault::Absent),
        "93 Unread" => Some(ProgramFault::Unread),
        "94 Create" => Some(ProgramFault::Create),
        "95 Folder" => Some(ProgramFault::Folder),
        "96 Unsent" => Some(ProgramFault::Unsent),
        "97 Changed" => Some(ProgramFault::Changed),
        "98 Strict" => Some(ProgramFault::Strict),
        _ => None,
    }
}

fn engine_fault_of(words: &str) -> Option<EngineFault> {
    match words {
        "43 TooLarge" => Some(EngineFault::Plan(PlanFault::TooLarge)),
        "91 Memory" => Some(EngineFault::Memory),
        "92 Absent" => Some(EngineFault::Absent(7)),
        "93 Unread" => Some(EngineFault::Unread(7)),
        _ => None,
    }
}

fn merge_fault_of(words: &str) -> Option<MergeFault> {
    match words {
        "43 TooLarge" => Some(MergeFault::Plan(PlanFault::TooLarge)),
        "56 LastRoot" => Some(MergeFault::Dir(7, DirFault::LastRoot)),
        "61 NoDigest 646" => Some(MergeFault::Own(7, OwnFault::NoDigest(646))),
        "65 BadWithdrawal" => Some(MergeFault::Own(7, OwnFault::BadWithdrawal)),
        "91 Memory" => Some(MergeFault::Memory),
        _ => None,
    }
}

#[test]
fn faults_of_the_program_in_words(rt: HostRuntime) -> Result<(), Fail> {
    for words in PROGRAM.split(", ") {
        let fault = fault_of(words).ok_or("no fault")?;
        assert_eq!(rt; format!(in rt.alloc(); "{fault}")?.as_str(), words);
    }
    Ok(())
}

#[test]
fn faults_of_an_index_and_of_a_merge_in_words(rt: HostRuntime) -> Result<(), Fail> {
    for words in ENGINE.split(", ") {
        let fault = engine_fault_of(words).ok_or("no fault")?;
        assert_eq!(rt; format!(in rt.alloc(); "{fault}")?.as_str(), words);
    }
    for words in MERGE.split(", ") {
        let fault = merge_fault_of(words).ok_or("no fault")?;
        assert_eq!(rt; format!(in rt.alloc(); "{fault}")?.as_str(), words);
    }
    Ok(())
}
