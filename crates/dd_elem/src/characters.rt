ghost use Rattle.std.specs.Prelude.{◌≡◌};
ghost use Rattle.std.specs.List.{list_all};
ghost use Rattle.dd_elem.specs.Characters.{is_id_character};

/// The characters of file-set IDs and of components of File IDs.
pub(crate) fn are_id_characters(bytes: &[u8]) -> bool
    ensures { result ≡ list_all is_id_character bytes.now }
{
    bytes.iter().all(|byte| is_id_character(*byte))
}

fn is_id_character(byte: u8) -> bool
    ensures { result ≡ is_id_character byte }
{
    matches!(byte, b'A'..=b'Z' | b'0'..=b'9' | b'_')
}
