//! Which plans there are within limits, and how many bytes the directories have.

use crate::plans::plans::planned;
use dd_layout::{Limits, PlanFault};
use dd_records::Level;
use dd_vectors::ask_all;
use std::alloc::Global;
use std::test::Fail;

/// The most bytes of a directory, the most records below one parent, the images of the catalogue and the ID of the
/// file-set. Then how many bytes the directory has, or why there is no plan.
const LIMITS: &str = "\
4294967295 999999 1 > 876
876 1 1 > 876
875 1 1 > 43 TooLarge
0 1 1 > 43 TooLarge
4294967295 0 1 > 42 TooMany Patient
0 0 1 > 42 TooMany Patient
882 1 1 DISC1 > 882
881 1 1 DISC1 > 43 TooLarge
320 0  > 320
319 0  > 43 TooLarge
4294967295 999999 1234 > 2032
2032 2 1234 > 2032
2031 2 1234 > 43 TooLarge
2032 1 1234 > 42 TooMany Patient
0 1 123 > 42 TooMany Series
1132 2 AC > 1132
1132 1 AC > 42 TooMany Image
0 0 15 > 41 Conflict 1.2.3.4.5 1.2.8.4.1
0 0 6251 > 41 Conflict 1.2.3.4.5 1.2.3.4.7
0 1000000 1 > no limits
4294967295 4294967295 1 > no limits";

/// Levels, and the refusal where too many of their records stand below one.
const LEVELS: &str = "\
Patient > 42 TooMany Patient
Study > 42 TooMany Study
Series > 42 TooMany Series
Image > 42 TooMany Image";

fn limited(alloc: Global, question: &str) -> Result<String, Fail> {
    let mut words = question.split(' ');
    let bytes = words.next().ok_or("no bytes")?.parse()?;
    let per_level = words.next().ok_or("no count")?.parse()?;
    let letters = words.next().ok_or("no images")?;
    let id = words.next().unwrap_or("");
    let Some(limits) = Limits::new(bytes, per_level) else {
        return Ok(String::from_str(alloc, "no limits")?);
    };
    match planned(alloc, letters, id, limits)? {
        Ok(plan) => {
            let size = plan.size();
            Ok(format!(in alloc; "{size}")?)
        }
        Err(fault) => Ok(format!(in alloc; "{fault}")?),
    }
}

/// The level with this name.
fn level_of(name: &str) -> Option<Level> {
    match name {
        "Patient" => Some(Level::Patient),
        "Study" => Some(Level::Study),
        "Series" => Some(Level::Series),
        "Image" => Some(Level::Image),
        _ => None,
    }
}

fn too_many(alloc: Global, question: &str) -> Result<String, Fail> {
    let level = level_of(question).ok_or("no level")?;
    let fault = PlanFault::TooMany(level);
    Ok(format!(in alloc; "{fault}")?)
}

#[test]
fn a_plan_keeps_to_its_limits(rt: HostRuntime) -> Result<(), Fail> {
    ask_all(rt.alloc(), LIMITS, limited)?;
    ask_all(rt.alloc(), LEVELS, too_many)?;
    let text = format!(in rt.alloc(); "{}", PlanFault::Memory)?;
    assert_eq!(rt; text.as_str(), "91 Memory");
    Ok(())
}
