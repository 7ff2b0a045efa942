//! Directories of catalogues in which instances are withdrawn.

use crate::publishing::{label_of, limits_of, published};
use crate::sending::outcomes;
use dd_catalogue::History;
use dd_dir::{assemble, publish};
use dd_elem::Uid;
use dd_layout::lay_out;
use dd_vectors::{ask_all, bytes_of, catalogue_of, claim_all, images};
use std::alloc::Global;
use std::test::Fail;

/// The images of a catalogue and the instances that are withdrawn, each after a `/`, and what follows the directory of
/// the images then.
const ENDS: &str = "\
1/1.2.3.4.6 > 09001000 4c4f 0c00 'DD_FILESET_1 09000210 5543 0000 0a000000 '1.2.3.4.6_
1/1.2.3.4.7/1.2.3.4.6 > 09001000 4c4f 0c00 'DD_FILESET_1 09000210 5543 0000 14000000 '1.2.3.4.6\\1.2.3.4.7_
1/1.2.3.4.10 > 09001000 4c4f 0c00 'DD_FILESET_1 09000210 5543 0000 0a000000 '1.2.3.4.10
1/1.2.3.4.6/1.2.3.4.10 > 09001000 4c4f 0c00 'DD_FILESET_1 09000210 5543 0000 14000000 '1.2.3.4.10\\1.2.3.4.6
1/1.2/1.3/1.4 > 09001000 4c4f 0c00 'DD_FILESET_1 09000210 5543 0000 0c000000 '1.2\\1.3\\1.4_
/1.2.3.4.5 > 09001000 4c4f 0c00 'DD_FILESET_1 09000210 5543 0000 0a000000 '1.2.3.4.5_";

/// The most bytes of the directory of one image and one withdrawn instance, and how many it has or why it is
/// refused.
const LIMITS: &str = "\
918 > 918
917 > 43 TooLarge
876 > 43 TooLarge";

/// After how many bytes at least and at most a writer fails that gets that directory, and what comes of each
/// such writer.
const SENT: &str = "\
0 917 > 12 Write there
918 925 > 918 bytes";

fn ends_so(alloc: Global, case: &str) -> Result<bool, Fail> {
    let (words, end) = case.split_once(" > ").ok_or("no end")?;
    let (letters, _) = words.split_once('/').ok_or("no instances")?;
    let mut bytes = published(alloc, letters)?;
    bytes.extend_from_slice(&bytes_of(alloc, end)?)?;
    Ok(published(alloc, words)? == bytes)
}

fn limited(alloc: Global, question: &str) -> Result<String, Fail> {
    let catalogue = catalogue_of(alloc, "1/1.2.3.4.6")?;
    match publish(alloc, &catalogue, &label_of("")?, limits_of(question)?) {
        Ok(bytes) => {
            let size = bytes.len();
            Ok(format!(in alloc; "{size}")?)
        }
        Err(fault) => Ok(format!(in alloc; "{fault}")?),
    }
}

fn sent(alloc: Global, question: &str) -> Result<String, Fail> {
    let catalogue = catalogue_of(alloc, "1/1.2.3.4.6")?;
    let plan = lay_out(alloc, &catalogue, &label_of("")?, limits_of("")?)?;
    outcomes(alloc, &plan, &published(alloc, "1/1.2.3.4.6")?, question)
}

#[test]
fn withdrawn_instances_are_named_behind_the_records(rt: HostRuntime) -> Result<(), Fail> {
    claim_all(rt.alloc(), ENDS, '\n', ends_so)?;
    ask_all(rt.alloc(), LIMITS, limited)?;
    ask_all(rt.alloc(), SENT, sent)
}

fn history(alloc: Global) -> Result<History, Fail> {
    let mut uids = Vec::new(alloc);
    uids.push(Uid::new(b"1.2.3.4.6")?)?;
    let mut parts = Vec::new(alloc);
    parts.push(History::Withdraw(uids))?;
    parts.push(History::Batch(images(alloc, "1")?))?;
    Ok(History::Merge(parts))
}

#[test]
fn a_history_names_what_it_withdraws(rt: HostRuntime) -> Result<(), Fail> {
    let alloc = rt.alloc();
    let bytes = assemble(alloc, &history(alloc)?, &label_of("")?, limits_of("")?)?;
    assert!(rt; bytes == published(alloc, "1/1.2.3.4.6")?);
    Ok(())
}
