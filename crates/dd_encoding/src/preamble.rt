//! The places of what comes before group 0002 (PS3.10 section 7.1).

pub const PREAMBLE_LENGTH: usize = 128;

pub const PREFIX: &[u8] = b"DICM";

pub const PREFIX_END: usize = PREAMBLE_LENGTH + PREFIX.len();

/// The tag of the group length, UL, and the length of its value.
pub const COUNT_HEADER: &[u8] = b"\x02\0\0\0UL\x04\0";

/// The size of that value.
pub const COUNT_SIZE: usize = 4;

/// The size of the group length.
pub const COUNT_LENGTH: usize = COUNT_HEADER.len() + COUNT_SIZE;

/// The place of the first byte after it.
pub const GROUP_AT: u64 = (PREFIX_END + COUNT_LENGTH) as u64;
