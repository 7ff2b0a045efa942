//! What the first eight bytes of a header say.

ghost use Rattle.std.specs.Prelude.{◌≡◌, take, drop};
ghost use Rattle.dd_grammar.specs.Reading.{tag_of, long_of, short_of, ends_set, ends_sequence, is_item};

use dd_elem::Tag;
use dd_encoding::{HEADER_SIZE, ITEM, ITEM_END, Length, SEQUENCE_END};

pub fn tag_in(head: &[u8; HEADER_SIZE]) -> Tag
    ensures { result ≡ tag_of head.now }
{
    Tag {
        group: u16::from_le_bytes([head[0], head[1]]),
        element: u16::from_le_bytes([head[2], head[3]]),
    }
}

pub fn long_in(head: &[u8; HEADER_SIZE]) -> u32
    ensures { result ≡ long_of head.now }
{
    u32::from_le_bytes([head[4], head[5], head[6], head[7]])
}

pub fn short_in(head: &[u8; HEADER_SIZE]) -> u16
    ensures { result ≡ short_of head.now }
{
    u16::from_le_bytes([head[6], head[7]])
}

pub fn letters_in(head: &[u8; HEADER_SIZE]) -> [u8; 2]
    ensures { result ≡ take 2 (drop 4 head.now) }
{
    [head[4], head[5]]
}

pub fn ends_set(form: Length, head: &[u8; HEADER_SIZE]) -> bool
    ensures { result ≡ ends_set form head.now }
{
    match form {
        Length::Defined => false,
        Length::Undefined => tag_in(head) == ITEM_END,
    }
}

pub fn ends_sequence(form: Length, head: &[u8; HEADER_SIZE]) -> bool
    ensures { result ≡ ends_sequence form head.now }
{
    match form {
        Length::Defined => false,
        Length::Undefined => tag_in(head) == SEQUENCE_END,
    }
}

pub fn is_item(head: &[u8; HEADER_SIZE]) -> bool
    ensures { result ≡ is_item head.now }
{
    tag_in(head) == ITEM
}
