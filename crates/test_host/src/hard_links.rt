use crate::disc::{Call, Disc};
use crate::power_cut::Kind;
use std::io::{self, ErrorKind};

impl Disc {
    /// Makes a hard link. A folder can't have one, and a symbolic link can.
    pub(crate) fn link(&mut self, original: &str, name: &str) -> io::Result<()> {
        self.pass(Call::Link)?;
        let place = self.find(original).ok_or(ErrorKind::NotFound)?;
        let Some(entry) = self.entries.get(place) else {
            return Err(io::Error::from(ErrorKind::NotFound));
        };
        if entry.kind == Kind::Folder {
            return Err(io::Error::from(ErrorKind::PermissionDenied));
        }
        let (kind, node, lasting) = (entry.kind, entry.node, entry.lasting);
        let bytes = entry.bytes.clone()?;
        self.has_room_for(name)?;
        self.note("link", name)?;
        let place = self.make(name, kind, false)?;
        if let Some(entry) = self.entries.get_mut(place) {
            entry.node = node;
            entry.lasting = lasting;
            entry.bytes = bytes;
        }
        self.pass(Call::Made)
    }
}
