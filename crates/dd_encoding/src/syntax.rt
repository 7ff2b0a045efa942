/// A little endian transfer syntax (PS3.5 section 10.1 and annex A).
#[derive(Clone, Copy, Debug, PartialEq, Eq, Hash)]
pub enum Syntax {
    /// Each header names the value representation of its value.
    Explicit,
    /// A header is a tag and a length.
    Implicit,
    /// As Explicit, where pixel data may be fragments (PS3.5 annex A.4).
    Encapsulated,
}

/// What ends a sequence or an item (PS3.5 section 7.5).
#[derive(Clone, Copy, Debug, PartialEq, Eq, Hash)]
pub enum Length {
    /// The header counts the bytes.
    Defined,
    /// The header has the length FFFFFFFFH, and a delimiter stands at the end.
    Undefined,
}
