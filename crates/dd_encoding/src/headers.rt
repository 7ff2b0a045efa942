//! The bytes of headers (PS3.5 sections 7.1 and 7.5).

ghost use Rattle.std.specs.Prelude.{◌≡◌, ◌++◌, Some, None, true, false};
ghost use Rattle.byteorder.specs.Endian.{little_bytes};
ghost use Rattle.dd_elem.specs.Vr.{is_long_of};
ghost use Rattle.dd_encoding.specs.Spelling.{header_text, item_tag_text, tag_text};

use byteorder::{ByteOrder, LittleEndian};
use dd_elem::{Tag, Vr};

/// The group of items and delimiters, which no element has.
pub const DELIMITER_GROUP: u16 = 0xfffe;

pub const TAG_SIZE: usize = 4;

/// How many bytes each header begins with; only long ones have more.
pub const HEADER_SIZE: usize = 8;

/// How many bytes of length a long header has after these.
pub const LONG_LENGTH_SIZE: usize = 4;

/// The size of a header with a length of 32 bits after a value representation.
pub const LONG_HEADER_SIZE: usize = HEADER_SIZE + LONG_LENGTH_SIZE;

/// Begins an item (PS3.5 section 7.5).
pub const ITEM: Tag = Tag {
    group: DELIMITER_GROUP,
    element: 0xe000,
};

pub const ITEM_END: Tag = Tag {
    group: DELIMITER_GROUP,
    element: 0xe00d,
};

pub const SEQUENCE_END: Tag = Tag {
    group: DELIMITER_GROUP,
    element: 0xe0dd,
};

fn tag_bytes(tag: Tag) -> [u8; TAG_SIZE]
    ensures { result ≡ tag_text tag }
{
    let mut bytes = [0; TAG_SIZE];
    LittleEndian::write_u16(&mut bytes, tag.group);
    LittleEndian::write_u16(&mut bytes[2..], tag.element);
    bytes
}

/// Makes a header of a tag and a length of 32 bits: in Implicit VR, or of an item or a delimiter.
pub fn plain_header(tag: Tag, value_length: u32) -> [u8; HEADER_SIZE]
    ensures { result ≡ header_text tag None value_length }
{
    let mut header = [0; HEADER_SIZE];
    header[..TAG_SIZE].copy_from_slice(&tag_bytes(tag));
    LittleEndian::write_u32(&mut header[4..], value_length);
    header
}

pub fn item_header(count: u32) -> [u8; HEADER_SIZE]
    ensures { result ≡ item_tag_text ++ little_bytes 4 count }
{
    plain_header(ITEM, count)
}

pub fn short_header(tag: Tag, vr: Vr, value_length: u16) -> [u8; HEADER_SIZE]
    requires { is_long_of vr ≡ false }
    ensures { result ≡ header_text tag (Some vr) value_length }
{
    let mut header = [0; HEADER_SIZE];
    header[..TAG_SIZE].copy_from_slice(&tag_bytes(tag));
    header[4..6].copy_from_slice(&vr.letters());
    LittleEndian::write_u16(&mut header[6..], value_length);
    header
}

/// Puts two reserved bytes before the length.
pub fn long_header(tag: Tag, vr: Vr, value_length: u32) -> [u8; LONG_HEADER_SIZE]
    requires { is_long_of vr ≡ true }
    ensures { result ≡ header_text tag (Some vr) value_length }
{
    let mut header = [0; LONG_HEADER_SIZE];
    header[..TAG_SIZE].copy_from_slice(&tag_bytes(tag));
    header[4..6].copy_from_slice(&vr.letters());
    LittleEndian::write_u32(&mut header[8..], value_length);
    header
}
