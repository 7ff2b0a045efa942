//! The blocks of a message with its padding (FIPS 180-4, 5.1.1 and 5.2.1).

ghost use Rattle.std.specs.Prelude.{◌≡◌, ◌<◌, length};
ghost use Rattle.sha256_lanes.specs.Padding.{IsTail, block, block_count};

const BLOCK_LEN: usize = 64;

/// Says how many blocks a message has with its padding: the bit 1, zeros, and eight bytes of length.
pub(crate) fn block_count(message: &[u8]) -> usize
    ensures { result ≡ block_count message.now }
{
    let whole = message.len() / BLOCK_LEN;
    if message.len() % BLOCK_LEN < 56 {
        whole + 1
    } else {
        whole + 2
    }
}

/// Gives the one or two last blocks, which have what is left of a message after its whole blocks, and the padding.
pub(crate) fn tail_of(message: &[u8]) -> [u8; 128]
    ensures { IsTail result message.now }
{
    let left = message.len() % BLOCK_LEN;
    let end = if left < 56 { 64 } else { 128 };
    let bit_count = (message.len() as u64).wrapping_mul(8);
    let mut tail = [0u8; 128];
    tail[..left].copy_from_slice(&message[message.len() - left..]);
    tail[left] = 0x80;
    tail[end - 8..end].copy_from_slice(&bit_count.to_be_bytes());
    tail
}

/// Gives block `i` of a message with its padding, or any block where it has fewer.
#[inline(always)]
pub(crate) fn block<'a>(message: &'a [u8], tail: &'a [u8; 128], i: usize) -> &'a [u8]
    requires { IsTail tail.now message.now }
    ensures length { length result.now ≡ 64 }
    ensures block { i < block_count message.now → result.now ≡ block message.now i }
{
    let whole = message.len() / BLOCK_LEN;
    if i < whole {
        &message[BLOCK_LEN * i..BLOCK_LEN * i + BLOCK_LEN]
    } else if i == whole {
        &tail[..BLOCK_LEN]
    } else {
        &tail[BLOCK_LEN..]
    }
}
