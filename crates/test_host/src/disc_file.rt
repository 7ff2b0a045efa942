ghost use Rattle.std.specs.Io.{ReadsAtMost};

use crate::disc::{Call, Disc, STEP};
use std::cell::{RefCell, RefMut};
use std::fs::{Metadata, OpenFile};
use std::io::{self, ErrorKind, Read, Seek, SeekFrom, Write};

pub(crate) fn borrowed(disc: &RefCell<Disc>) -> io::Result<RefMut<'_, Disc>> {
    match disc.try_borrow_mut() {
        Ok(disc) => Ok(disc),
        Err(_) => Err(io::Error::other("the disc is in use")),
    }
}

/// An open file of a disc. Writes go to its end.
pub(crate) struct DiscFile<'a> {
    pub(crate) disc: &'a RefCell<Disc>,
    pub(crate) place: usize,
    pub(crate) from: usize,
}

impl Drop for DiscFile<'_> {
    fn drop(self) {
        let DiscFile {
            disc,
            place: _,
            from: _,
        } = self;
        if let Ok(mut disc) = disc.try_borrow_mut() {
            disc.open = disc.open.saturating_sub(1);
        }
    }
}

impl Read for DiscFile<'_> {
    fn read(&mut self, buf: &mut [u8]) -> io::Result<usize> {
        let mut disc = borrowed(self.disc)?;
        disc.pass(Call::Read)?;
        let n = disc.read(self.place, self.from, buf)?;
        self.from = self.from.saturating_add(n);
        Ok(n)
    }
}

impl Write for DiscFile<'_> {
    fn write(&mut self, bytes: &[u8]) -> io::Result<usize> {
        let mut disc = borrowed(self.disc)?;
        disc.pass(Call::Write)?;
        let taken = &bytes[..bytes.len().min(STEP)];
        disc.add(self.place, taken)?;
        Ok(taken.len())
    }

    fn flush(&mut self) -> io::Result<()> {
        Ok(())
    }
}

impl Seek for DiscFile<'_> {
    fn seek(&mut self, _to: SeekFrom) -> io::Result<u64> {
        Err(io::Error::from(ErrorKind::Unsupported))
    }
}

impl OpenFile for DiscFile<'_> {
    fn sync_all(&self) -> io::Result<()> {
        let mut disc = borrowed(self.disc)?;
        disc.store(self.place)
    }

    fn sync_data(&self) -> io::Result<()> {
        self.sync_all()
    }

    fn metadata(&self) -> io::Result<Metadata> {
        let mut disc = borrowed(self.disc)?;
        disc.pass(Call::LookAtOpen)?;
        disc.metadata(self.place)
    }

    fn set_len(&self, _size: u64) -> io::Result<()> {
        Err(io::Error::from(ErrorKind::Unsupported))
    }
}
