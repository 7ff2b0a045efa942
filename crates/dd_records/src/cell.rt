//! Elements of records, whose values are lent.

ghost use Rattle.std.specs.Prelude.{◌≡◌, ◌++◌, ◌≤◌, ◌∷◌, [], length, if◌then◌else◌};
ghost use Rattle.byteorder.specs.Endian.{little_bytes};
ghost use Rattle.dd_elem.specs.Vr.{is_long_of};
ghost use Rattle.dd_records.specs.Cells.{IsShort, bare_value, cell_element, even_value};
ghost use Rattle.dd_records.specs.Sizes.{elements_size};

use byteorder::{ByteOrder, LittleEndian};
use dd_elem::{Tag, Vr};
use dd_encoding::{HEADER_SIZE, LONG_HEADER_SIZE};

/// An element in Explicit VR.
#[derive(Clone, Copy, Debug)]
pub struct Cell<'a> {
    pub tag: Tag,
    pub vr: Vr,
    pub value: CellValue<'a>,
}

/// The value of an element of a record, by how it is made even (PS3.5 section 6.2).
#[derive(Clone, Copy, Debug)]
pub enum CellValue<'a> {
    /// 32 bits, little endian.
    Long([u8; 4]),
    /// 16 bits, little endian.
    Short([u8; 2]),
    /// Text, padded with a space.
    Text(&'a [u8]),
    /// The text of a File ID, padded with a space.
    File([u8; 35]),
    /// A UID, padded with a NUL.
    Uid(&'a [u8]),
    /// Bytes, which are not padded.
    Bytes(&'a [u8]),
}

impl CellValue<'_> {
    /// Gives the bytes without padding.
    pub fn as_bytes(&self) -> &[u8]
        ensures { result.now ≡ bare_value self.now }
    {
        match self {
            CellValue::Long(number) => number,
            CellValue::Short(number) => number,
            CellValue::Text(text) => text,
            CellValue::File(text) => text,
            CellValue::Uid(uid) => uid,
            CellValue::Bytes(bytes) => bytes,
        }
    }

    /// Gives the padding that makes the length even.
    pub fn padding(&self) -> &'static [u8]
        ensures even { bare_value self.now ++ result.now ≡ even_value self.now }
        ensures few { length result.now ≤ 1 }
    {
        let padding: &'static [u8] = match self {
            CellValue::Text(_) | CellValue::File(_) => b" ",
            CellValue::Uid(_) => b"\0",
            CellValue::Long(_) | CellValue::Short(_) | CellValue::Bytes(_) => return b"",
        };
        if self.as_bytes().len() % 2 == 1 {
            padding
        } else {
            b""
        }
    }
}

impl Cell<'_> {
    /// Counts the bytes of the header, the value and the padding (PS3.5 section 7.1.2).
    pub fn size(&self) -> u64
        ensures { result ≡ elements_size (cell_element self.now ∷ []) }
    {
        let value = self.value.as_bytes().len() + self.value.padding().len();
        header_size(self.vr) + value as u64
    }
}

pub(crate) fn header_size(vr: Vr) -> u64
    ensures exact { result ≡ (if is_long_of vr then 12 else 8) }
    ensures few { result ≤ 12 }
{
    let size = if vr.is_long() {
        LONG_HEADER_SIZE
    } else {
        HEADER_SIZE
    };
    size as u64
}

pub(crate) fn long_value(number: u32) -> CellValue<'static>
    ensures exact { even_value result ≡ little_bytes 4 number }
    ensures short { IsShort (even_value result) }
{
    let mut bytes = [0; 4];
    LittleEndian::write_u32(&mut bytes, number);
    CellValue::Long(bytes)
}
