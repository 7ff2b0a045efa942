ghost use Rattle.std.specs.Prelude.{◌≡◌};
ghost use Rattle.dd_elem.specs.Clean.{clean_of, is_padding, IsCleanOf};

/// Gives the longest prefix that does not end in a NUL or a space. Text is padded by a trailing space, a UID by one
/// trailing NUL (PS3.5 section 6.2).
pub fn clean(bytes: &[u8]) -> &[u8]
    ensures exact { result.now ≡ clean_of bytes.now }
    ensures longest { IsCleanOf bytes.now result.now }
{
    let mut kept = bytes;
    while let [front @ .., last] = kept
        && is_padding(*last)
    {
        kept = front;
    }
    kept
}

fn is_padding(byte: u8) -> bool
    ensures { result ≡ is_padding byte }
{
    byte == b'\0' || byte == b' '
}
