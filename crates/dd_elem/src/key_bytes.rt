//! Bytes that are held in place where they are few, and otherwise shared by copies.

ghost use Rattle.std.specs.Prelude.{◌≡◌, length, IfOk, IsErr, ◌<◌};
ghost use Rattle.dd_elem.specs.KeyBytes.{IsKeyBytes, key_bytes_view, most_in_place};

use crate::in_place::fill;
use crate::memory::Memory;
use std::alloc::Global;
use std::sync::ArcSlice;

/// The most bytes in place. With them a value has 24 bytes.
const ROOM: usize = 22;

#[derive(Debug, Drop)]
pub(crate) enum KeyBytes {
    /// In place: as many of the bytes as the number says.
    Short(u8, [u8; ROOM]),
    Long(ArcSlice<u8>),
}

impl KeyBytes {
    pub(crate) fn of(alloc: Global, bytes: &[u8]) -> Result<KeyBytes, Memory>
        ensures value { IfOk result (λ held. key_bytes_view held ≡ bytes.now) }
        ensures valid { IfOk result IsKeyBytes }
        ensures memory { IsErr result → most_in_place < length bytes.now }
    {
        if bytes.len() > ROOM {
            return Ok(KeyBytes::Long(ArcSlice::from_slice(alloc, bytes)?));
        }
        Ok(KeyBytes::Short(bytes.len() as u8, fill(bytes)))
    }

    pub(crate) fn as_slice(&self) -> &[u8]
        requires { IsKeyBytes self.now }
        ensures { result.now ≡ key_bytes_view self.now }
    {
        match self {
            KeyBytes::Short(len, bytes) => &bytes[..*len as usize],
            KeyBytes::Long(bytes) => bytes.as_slice(),
        }
    }

    /// Memory where no more copies can share the bytes.
    pub(crate) fn copy(&self) -> Result<KeyBytes, Memory>
        requires { IsKeyBytes self.now }
        ensures value { IfOk result (λ held. key_bytes_view held ≡ key_bytes_view self.now) }
        ensures valid { IfOk result IsKeyBytes }
        ensures memory { IsErr result → most_in_place < length (key_bytes_view self.now) }
    {
        match self {
            KeyBytes::Short(len, bytes) => Ok(KeyBytes::Short(*len, *bytes)),
            KeyBytes::Long(bytes) => Ok(KeyBytes::Long(bytes.clone()?)),
        }
    }
}
