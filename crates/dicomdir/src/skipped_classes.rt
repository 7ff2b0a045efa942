//! The SOP classes of sources that are skipped for theirs, for a person.
ghost use Rattle.std.specs.Prelude.{◌≡◌};

use crate::note_lines::UidText;
use dd_files::{Files, Hints};
use dd_keys::KeyFault;
use dd_messages::class_name;
use std::fmt::{self, InlineText};

/// The most classes that are named.
const MOST: usize = 5;

/// The most bytes of a line about them: a name has at most 76, and a number 20.
const LENGTH: usize = 512;

/// The name of a class, or an empty text where the place is free, and the number of its sources.
type Counted = (&'static str, usize);

/// Counts the sources that are skipped for their class, by its name, in their order.
#[derive(Clone, Copy)]
pub(crate) struct SkippedClasses {
    named: [Counted; MOST],
    /// Those of further classes, or of one without a name.
    others: usize,
}

impl SkippedClasses {
    pub(crate) fn new() -> SkippedClasses {
        SkippedClasses {
            named: [("", 0); MOST],
            others: 0,
        }
    }

    pub(crate) fn of(skipped: &[(usize, KeyFault)]) -> SkippedClasses {
        let mut classes = SkippedClasses::new();
        for (_, fault) in skipped {
            if let KeyFault::NotImage(class) = fault {
                classes.add(class_name(UidText::of(class).as_str()));
            }
        }
        classes
    }

    fn add(&mut self, name: Option<&'static str>) {
        if let Some(name) = name {
            for (named, count) in &mut self.named {
                if named.is_empty() || *named == name {
                    *named = name;
                    *count = count.saturating_add(1);
                    return;
                }
            }
        }
        self.others = self.others.saturating_add(1);
    }
}

/// Shows them as `6 Basic Text SR, 3 RT Dose, 1 other`.
impl fmt::Display for SkippedClasses {
    fn fmt<W: fmt::Write>(&self, f: &mut fmt::Formatter<W>) -> fmt::Result {
        let mut before = "";
        for (name, count) in &self.named {
            if *count > 0 {
                let name = name.strip_suffix(" Storage").unwrap_or(name);
                write!(f, "{before}{count} {name}")?;
                before = ", ";
            }
        }
        match self.others {
            0 => Ok(()),
            1 => write!(f, "{before}1 other"),
            count => write!(f, "{before}{count} others"),
        }
    }
}

/// Shows how many sources are of which class, where one has a name.
pub(crate) fn show_classes<F: Files + Hints>(classes: &SkippedClasses, files: &mut F)
    ensures kept { F.held files.new ≡ F.held files.old }
{
    if classes.named[0].1 > 0 {
        let text = InlineText::<LENGTH>::of(classes);
        files.show_line(&["  help: 32: ", text.as_str()]);
    }
}
