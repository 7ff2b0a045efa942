ghost use Rattle.std.specs.Prelude.{◌≡◌, ◌≤◌, length, Some};
ghost use Rattle.dd_records.specs.Levels.{name_of};
ghost use Rattle.dd_records.specs.Records.{kind_of};

use std::fmt;

/// The level of a record (PS3.3 section F.4).
#[derive(Clone, Copy, Debug, PartialEq, Eq, Hash)]
pub enum Level {
    /// A PATIENT record, at the root.
    Patient,
    /// A STUDY record, below a patient.
    Study,
    /// A SERIES record, below a study.
    Series,
    /// An IMAGE record, below a series.
    Image,
}

impl Level {
    /// Gives the Directory Record Type (PS3.3 section F.3.2.2).
    pub fn kind(self) -> &'static [u8]
        ensures exact { result.now ≡ kind_of self }
        ensures few { length result.now ≤ 7 }
    {
        match self {
            Level::Patient => b"PATIENT",
            Level::Study => b"STUDY",
            Level::Series => b"SERIES",
            Level::Image => b"IMAGE",
        }
    }
}

impl fmt::Display for Level {
    ghost output = { λ level. Some (name_of level) };

    fn fmt<W: fmt::Write>(&self, f: &mut fmt::Formatter<W>) -> fmt::Result {
        match self {
            Level::Patient => write!(f, "Patient"),
            Level::Study => write!(f, "Study"),
            Level::Series => write!(f, "Series"),
            Level::Image => write!(f, "Image"),
        }
    }
}
