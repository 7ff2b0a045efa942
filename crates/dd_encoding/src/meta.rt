//! The file meta information (PS3.10 section 7.1).

use crate::encodings::syntax_of;
use crate::syntax::Syntax;
use dd_elem::{Tag, Uid};

pub const META_GROUP: u16 = 0x0002;

pub const GROUP_LENGTH: Tag = Tag {
    group: META_GROUP,
    element: 0x0000,
};

pub const CLASS: Tag = Tag {
    group: META_GROUP,
    element: 0x0002,
};

pub const INSTANCE: Tag = Tag {
    group: META_GROUP,
    element: 0x0003,
};

/// What group 0002 says of the data set.
#[derive(Clone, Copy, Debug, PartialEq, Eq)]
pub struct Meta {
    /// Media Storage SOP Class UID (0002,0002).
    pub class: Uid,
    /// Media Storage SOP Instance UID (0002,0003).
    pub instance: Uid,
    /// Transfer Syntax UID (0002,0010).
    pub transfer: Uid,
}

impl Meta {
    ghost use Rattle.std.specs.Prelude.{◌≡◌, ◌↔◌, Contains, IsSome};
    ghost use Rattle.dd_version.specs.Syntaxes.{known_syntaxes};
    ghost use Rattle.dd_encoding.specs.Syntaxes.{syntax_of};

    /// Gives the syntax of the data set, or None where the transfer syntax is not known.
    pub fn syntax(&self) -> Option<Syntax>
        ensures { result ≡ syntax_of self.now.transfer }
    {
        Meta::syntax_of(&self.transfer)
    }

    /// Gives the syntax of a transfer syntax, or None where it is not known.
    pub fn syntax_of(transfer: &Uid) -> Option<Syntax>
        ensures value { result ≡ syntax_of transfer.now }
        ensures known { IsSome result ↔ Contains known_syntaxes transfer.now }
    {
        syntax_of(transfer.as_bytes())
    }
}
