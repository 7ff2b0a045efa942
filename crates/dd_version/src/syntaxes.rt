ghost use Rattle.std.specs.Prelude.{◌≡◌, ◌↔◌, IsTrue, Contains};
ghost use Rattle.std.specs.List.{list_any};
ghost use Rattle.std.specs.Str.{bytes_eq};
ghost use Rattle.dd_version.specs.Syntaxes.{encapsulated_syntaxes, known_syntaxes, is_known_syntax};

use dd_elem::{Tag, Uid};

/// The tag of the Transfer Syntax UID.
pub const TRANSFER: Tag = Tag {
    group: 0x0002,
    element: 0x0010,
};

/// Implicit VR Little Endian (PS3.5 annex A.1).
pub const IMPLICIT: &[u8] = b"1.2.840.10008.1.2";

/// Explicit VR Little Endian (PS3.5 annex A.2).
pub const EXPLICIT: &[u8] = b"1.2.840.10008.1.2.1";

/// Known transfer syntaxes with encapsulated pixel data (PS3.5 annex A.4).
const ENCAPSULATED: [&[u8]; 8] = [
    b"1.2.840.10008.1.2.5", // RLE Lossless
    b"1.2.840.10008.1.2.4.50", // JPEG Baseline
    b"1.2.840.10008.1.2.4.51", // JPEG Extended
    b"1.2.840.10008.1.2.4.70", // JPEG Lossless, first-order prediction
    b"1.2.840.10008.1.2.4.80", // JPEG-LS Lossless
    b"1.2.840.10008.1.2.4.81", // JPEG-LS Near-Lossless
    b"1.2.840.10008.1.2.4.90", // JPEG 2000 Lossless Only
    b"1.2.840.10008.1.2.4.91", // JPEG 2000
];

/// Says whether files in this transfer syntax are taken.
pub fn is_known_syntax(transfer: &Uid) -> bool
    ensures form { IsTrue result ↔ Contains known_syntaxes transfer.now }
    ensures test { result ≡ is_known_syntax transfer.now }
{
    is_known(transfer.as_bytes())
}

/// Says whether this UID names a known transfer syntax with encapsulated pixel data.
pub fn is_encapsulated(uid: &[u8]) -> bool
    ensures { result ≡ list_any (bytes_eq uid.now) encapsulated_syntaxes }
{
    ENCAPSULATED.contains(&uid)
}

fn is_known(uid: &[u8]) -> bool
    ensures { result ≡ is_known_syntax uid.now }
{
    uid == IMPLICIT || uid == EXPLICIT || is_encapsulated(uid)
}
