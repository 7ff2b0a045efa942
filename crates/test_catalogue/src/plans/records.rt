//! Where the records of plans stand, what they name, and the versions that they are of.

use crate::catalogue::studies::push_study;
use crate::plans::plans::plan;
use dd_layout::Plan;
use dd_records::PlanRecord;
use dd_vectors::ask_all;
use std::alloc::Global;
use std::test::Fail;

/// Catalogues, each between empty lines: the images; then of each record the level, its offset, and the offsets of the
/// next of its parent and of the first below. Then the ranks in the File ID, and the place of the least version below
/// it.
pub(crate) const PLANS: &str = "\
1
Patient 320 0 404 - 0
Study 404 0 530 - 0
Series 530 0 622 - 0
Image 622 0 0 1.1.1.1 0

1234
Patient 320 1476 404 - 0
Study 404 0 530 - 0
Series 530 1130 622 - 0
Image 622 876 0 1.1.1.1 0
Image 876 0 0 1.1.1.2 1
Series 1130 0 1222 - 2
Image 1222 0 0 1.1.2.1 2
Patient 1476 0 1560 - 3
Study 1560 0 1686 - 3
Series 1686 0 1778 - 3
Image 1778 0 0 2.1.1.1 3

AC
Patient 320 0 404 - 0
Study 404 0 532 - 0
Series 532 0 624 - 0
Image 624 878 0 1.1.1.1 0
Image 878 0 0 1.1.1.2 1

pqr
Patient 320 0 404 - 0
Study 404 0 530 - 0
Series 530 0 622 - 0
Image 622 872 0 1.1.1.1 0
Image 872 1122 0 1.1.1.2 1
Image 1122 0 0 1.1.1.3 2

17
Patient 320 0 404 - 0
Study 404 0 530 - 0
Series 530 876 622 - 1
Image 622 0 0 1.1.1.1 1
Series 876 0 968 - 0
Image 968 0 0 1.1.2.1 0";

/// Catalogues, and of each version of the plan the instance, the time and the description of its study.
const VERSIONS: &str = "\
1 > 1.2.3.4.5 101500 '
pqr > 1.2.10 101500 ', 1.2.11 101500 ', 1.2.9 101500 '
AC > 1.2.3.4.5 101500 'B, 1.2.3.4.6 101500 'B
ZL > 1.2.3.4.5 101600 'A, 1.2.3.4.6 101600 'A";

/// Puts the ranks in a File ID after the text, or `-`.
fn push_ranks(alloc: Global, text: &mut String, record: &PlanRecord) -> Result<(), Fail> {
    let Some(file) = record.file else {
        text.push('-')?;
        return Ok(());
    };
    let mut is_first = true;
    for part in str::from_utf8(&file.text())?.split('\\') {
        let (_letters, digits) = part.split_at_checked(2).ok_or("a short part")?;
        let rank: u32 = digits.parse()?;
        if !is_first {
            text.push('.')?;
        }
        text.push_str(format!(in alloc; "{rank}")?.as_str())?;
        is_first = false;
    }
    Ok(())
}

/// Puts a record after the text, as a line.
fn push_record(alloc: Global, text: &mut String, record: &PlanRecord) -> Result<(), Fail> {
    let PlanRecord {
        level,
        at,
        next,
        lower,
        of,
        ..
    } = *record;
    text.push_str(format!(in alloc; "\n{level} {at} {next} {lower} ")?.as_str())?;
    push_ranks(alloc, text, record)?;
    text.push_str(format!(in alloc; " {of}")?.as_str())?;
    Ok(())
}

/// The images and the records of this plan.
pub(crate) fn lines(alloc: Global, letters: &str, plan: &Plan) -> Result<String, Fail> {
    let mut text = String::from_str(alloc, letters)?;
    for record in plan.records() {
        push_record(alloc, &mut text, record)?;
    }
    Ok(text)
}

fn versions(alloc: Global, question: &str) -> Result<String, Fail> {
    let plan = plan(alloc, question)?;
    let mut text = String::new(alloc);
    for version in plan.versions() {
        push_study(alloc, &mut text, version.parts())?;
    }
    Ok(text)
}

#[test]
fn records_stand_depth_first(rt: HostRuntime) -> Result<(), Fail> {
    for case in PLANS.split("\n\n") {
        let letters = case.split('\n').next().unwrap_or("");
        let plan = plan(rt.alloc(), letters)?;
        assert_eq!(rt; lines(rt.alloc(), letters, &plan)?.as_str(), case);
    }
    ask_all(rt.alloc(), VERSIONS, versions)
}
