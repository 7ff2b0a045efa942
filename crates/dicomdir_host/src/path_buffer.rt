ghost use Rattle.std.specs.Prelude.{◌≡◌, ◌≤◌, ◌<◌, ◌+◌, ◌++◌, ℕ, List, [], IsErr, IsOk, length, take};
ghost use Rattle.std.specs.Prelude.{if◌then◌else◌};
ghost use Rattle.std.specs.Str.{IsUtf8};
ghost use Rattle.dd_spelling.specs.Spellings.{in_small_letters, spelled};
ghost use Rattle.dicomdir_host.specs.Paths.{most_path};

use dd_spelling::Spelling;
use std::io::{self, ErrorKind};
use std::marker::Model;
use std::str::from_utf8;

/// The system takes paths up to 4,095 bytes (PATH_MAX counts the NUL).
const MOST: usize = 4096;

/// A path of at most 4,096 bytes, put together without an allocation.
#[derive(Drop)]
pub(crate) struct PathBuffer {
    bytes: [u8; MOST],
    len: usize,
    ghost within: { len ≤ length bytes },
}

impl Model for PathBuffer {
    ghost Value = { List ℕ };

    ghost view = { λ s. take s.len s.bytes };
}

impl PathBuffer {
    pub(crate) fn new() -> Self
        ensures { result ≡ [] }
    {
        PathBuffer {
            bytes: [0; MOST],
            len: 0,
        }
    }

    pub(crate) fn len(&self) -> usize
        ensures { result ≡ length self.now }
    {
        self.len
    }

    pub(crate) fn truncate(&mut self, len: usize)
        ensures { self.new ≡ take len self.old }
    {
        self.len = self.len.min(len);
    }

    /// Refused where the path gets too long.
    pub(crate) fn push(&mut self, text: &str) -> io::Result<()>
        ensures ok { IsOk result → self.new ≡ self.old ++ text.now }
        ensures err { IsErr result → (self.new ≡ self.old)
            × (most_path < length self.old + length text.now) }
    {
        self.push_letters(text, false)
    }

    fn push_letters(&mut self, text: &str, is_small: bool) -> io::Result<()>
        ensures ok { IsOk result
            → self.new ≡ self.old ++ (if is_small then in_small_letters text.now else text.now) }
        ensures err { IsErr result → (self.new ≡ self.old)
            × (most_path < length self.old + length text.now) }
    {
        if text.len() > self.bytes.len() - self.len {
            return Err(io::Error::from(ErrorKind::InvalidInput));
        }
        let end = self.len + text.len();
        let place = &mut self.bytes[self.len..end];
        place.copy_from_slice(text.as_bytes());
        if is_small {
            place.make_ascii_lowercase();
        }
        self.len = end;
        Ok(())
    }

    /// Refused where the path gets too long; then part of the name may be added.
    pub(crate) fn push_spelled(&mut self, name: &str, spelling: Spelling) -> io::Result<()>
        ensures ok { IsOk result → self.new ≡ self.old ++ spelled spelling name.now }
        ensures err { IsErr result → most_path < length self.old + length
            (spelled spelling name.now) }
    {
        self.push_letters(name, spelling.is_small)?;
        self.push(spelling.ending)
    }

    /// Gives its text. Bytes that are no UTF-8 give the empty text; no path is made of such bytes.
    pub(crate) fn as_str(&self) -> &str
        ensures text { IsUtf8 self.now → result.now ≡ self.now }
        ensures none { ¬ IsUtf8 self.now → result.now ≡ [] }
    {
        match from_utf8(&self.bytes[..self.len]) {
            Ok(text) => text,
            Err(_) => "",
        }
    }
}
