//! Short values in arrays of fixed size, with zeros after them.

ghost use Rattle.std.specs.Prelude.{◌≡◌, ◌≤◌, length};
ghost use Rattle.dd_elem.specs.InPlace.{filled};

pub(crate) fn fill<const N: usize>(bytes: &[u8]) -> [u8; N]
    requires { length bytes.now ≤ N }
    ensures { result ≡ filled N bytes.now }
{
    let mut array = [0; N];
    array[..bytes.len()].copy_from_slice(bytes);
    array
}
