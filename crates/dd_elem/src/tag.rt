ghost use Rattle.std.specs.Prelude.{◌≡◌, ◌+◌, ◌*◌, ◌^◌, ◌<◌, Some};
ghost use Rattle.dd_elem.specs.Tag.{number_of, text_of};

use std::fmt;

/// The tag of a data element. Tags are ordered by group, then by element (PS3.5 section 7.1).
#[derive(Clone, Copy, Debug, PartialEq, Eq, PartialOrd, Ord, Hash)]
pub struct Tag {
    pub group: u16,
    pub element: u16,
}

impl Tag {
    /// Gives one number, with the group in the upper 16 bits. Tags are in the order of these numbers.
    pub fn number(self) -> u32
        ensures value { result ≡ number_of self }
        ensures group { self.group < 2 ^ 16 }
        ensures element { self.element < 2 ^ 16 }
    {
        self.group as u32 * 65536 + self.element as u32
    }
}

/// Prints `(gggg,eeee)`, in upper case hexadecimal digits.
impl fmt::Display for Tag {
    ghost output = { λ tag. Some (text_of tag) };

    fn fmt<W: fmt::Write>(&self, f: &mut fmt::Formatter<W>) -> fmt::Result {
        let group = self.group;
        let element = self.element;
        write!(f, "({group:04X},{element:04X})")
    }
}
