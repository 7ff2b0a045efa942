use crate::publishing::{label_of, limits_of, published};
use dd_catalogue::Catalogue;
use dd_dir::write_directory;
use dd_layout::{Plan, lay_out};
use dd_set::WriteFault;
use dd_vectors::{Sink, ask_all, taken, v1_version};
use std::alloc::Global;
use std::test::Fail;

/// Makes the catalogue of V1 alone.
pub(crate) fn first_catalogue(alloc: Global) -> Result<Catalogue, Fail> {
    let mut catalogue = Catalogue::new(alloc);
    if catalogue.take(v1_version(alloc)?).is_err() {
        return Err("no memory".into());
    }
    Ok(catalogue)
}

pub(crate) fn first_plan(alloc: Global) -> Result<Plan, Fail> {
    let catalogue = first_catalogue(alloc)?;
    Ok(lay_out(alloc, &catalogue, &label_of("")?, limits_of("")?)?)
}

/// After how many bytes at least and at most a writer fails that gets the directory of four images, and what comes of
/// each such writer. `there` says that it fails exactly there, and then holds all the bytes before that place.
const FOUR_SENT: &str = "\
0 2031 > 12 Write there
2032 2040 > 2032 bytes";

fn outcome(alloc: Global, plan: &Plan, bytes: &[u8], after: u64) -> Result<String, Fail> {
    let mut sink = Sink::new(alloc, Some(after));
    sink.reserve(bytes.len())?;
    let said = write_directory(plan, &mut sink);
    if !bytes.starts_with(sink.bytes()) {
        return Err("it holds other bytes".into());
    }
    let held = sink.bytes().len() as u64;
    match said {
        Ok(size) if size == held => Ok(format!(in alloc; "{size} bytes")?),
        Err(WriteFault::Write(sent)) if sent == held && held == after => {
            Ok(String::from_str(alloc, "12 Write there")?)
        }
        said => Ok(format!(in alloc; "{said:?}, but {held} bytes")?),
    }
}

fn plan_of_four(alloc: Global) -> Result<Plan, Fail> {
    let catalogue = taken(alloc, "1234")?;
    Ok(lay_out(alloc, &catalogue, &label_of("")?, limits_of("")?)?)
}

/// Gives what comes of all these writers, or of the first that differs.
pub(crate) fn outcomes(
    alloc: Global,
    plan: &Plan,
    bytes: &[u8],
    question: &str,
) -> Result<String, Fail> {
    let (first, last) = question.split_once(' ').ok_or("no last")?;
    let (first, last): (u64, u64) = (first.parse()?, last.parse()?);
    let common = outcome(alloc, plan, bytes, first)?;
    for after in first..=last {
        let said = outcome(alloc, plan, bytes, after)?;
        if said.as_str() != common.as_str() {
            return Ok(format!(in alloc; "{said} at {after}")?);
        }
    }
    Ok(common)
}

fn four_sent(alloc: Global, question: &str) -> Result<String, Fail> {
    let (plan, bytes) = (plan_of_four(alloc)?, published(alloc, "1234")?);
    outcomes(alloc, &plan, &bytes, question)
}

#[test]
fn a_directory_stops_where_its_writer_fails(rt: HostRuntime) -> Result<(), Fail> {
    ask_all(rt.alloc(), FOUR_SENT, four_sent)
}
