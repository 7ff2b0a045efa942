//! What stands in group 0002 of a directory.

ghost use Rattle.std.specs.Prelude.{◌≡◌};
ghost use Rattle.dd_records.specs.Directory.{directory_class, directory_syntax, meta_of};

use crate::label::Label;
use dd_elem::Uid;
use dd_encoding::Meta;

/// The class of directories, Media Storage Directory Storage (PS3.4 annex I.4, PS3.6 annex A).
pub const DIRECTORY_CLASS: &[u8] = b"1.2.840.10008.1.3.10";

/// Explicit VR Little Endian, in which a directory is encoded (PS3.10 section 8.6).
pub const DIRECTORY_SYNTAX: &[u8] = b"1.2.840.10008.1.2.1";

/// Makes the meta information of this label.
pub fn directory_meta(label: &Label) -> Meta
    ensures { result ≡ meta_of label.now }
{
    Meta {
        class: directory_class(),
        instance: label.uid,
        transfer: directory_syntax(),
    }
}

fn directory_class() -> Uid
    ensures { result ≡ directory_class }
{
    Uid::new(DIRECTORY_CLASS).unwrap()
}

fn directory_syntax() -> Uid
    ensures { result ≡ directory_syntax }
{
    Uid::new(DIRECTORY_SYNTAX).unwrap()
}
