//! Data sets as values: elements, sequences and items.

use dd_elem::{Tag, Vr};
use dd_encoding::Length;

/// A data set: its elements in the order of their bytes (PS3.5 section 7). The values are slices of
/// the bytes that it was read from.
#[cycle(data_set)]
#[derive(Debug, Drop, PartialEq)]
pub struct DataSet<'a> {
    pub elements: Vec<Element<'a>>,
}

/// A data element (PS3.5 section 7.1).
#[cycle(data_set)]
#[derive(Debug, Drop, PartialEq)]
pub struct Element<'a> {
    pub tag: Tag,
    /// Its value representation: there in Explicit VR alone.
    pub vr: Option<Vr>,
    pub value: Value<'a>,
}

/// The value of an element.
#[cycle(data_set)]
#[derive(Debug, Drop, PartialEq)]
pub enum Value<'a> {
    /// The bytes of a value that is no sequence and has no fragments, padding included.
    Bytes(&'a [u8]),
    /// A sequence of items (PS3.5 section 7.5).
    Items {
        /// What ends it: its length, or a delimiter.
        length: Length,
        items: Vec<Item<'a>>,
    },
    /// The fragments of encapsulated pixel data, the offset table first (PS3.5 annex A.4).
    Fragments(Vec<&'a [u8]>),
}

/// An item of a sequence, which holds a data set.
#[cycle(data_set)]
#[derive(Debug, Drop, PartialEq)]
pub struct Item<'a> {
    /// What ends it: its length, or a delimiter.
    pub length: Length,
    pub set: DataSet<'a>,
}
