//! What the tables of a catalogue hold: versions by their SOP Instance UIDs, and UIDs by themselves.

use crate::best::TryClone;
use crate::greatest::Keyed;
use dd_elem::{Memory, Uid};
use dd_version::Version;

impl Keyed for Version {
    ghost use Rattle.dd_catalogue.specs.Versions.{instance_of};

    ghost key_of = { instance_of };

    fn key(&self) -> &[u8] {
        self.parts().instance.as_bytes()
    }
}

impl TryClone for Version {
    fn try_clone(&self) -> Result<Version, Memory> {
        self.copy()
    }
}

impl Keyed for Uid {
    ghost key_of = { λ uid. uid };

    fn key(&self) -> &[u8] {
        self.as_bytes()
    }
}

impl TryClone for Uid {
    fn try_clone(&self) -> Result<Uid, Memory> {
        Ok(*self)
    }
}
