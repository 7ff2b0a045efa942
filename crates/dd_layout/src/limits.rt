ghost use Rattle.std.specs.Prelude.{◌≡◌, ◌≤◌, SomeIff};
ghost use Rattle.dd_elem.specs.FileId.{max_rank};

use dd_elem::FileId;
use std::marker::Model;

/// Limits the bytes of the file and the records below one parent.
#[derive(Clone, Copy, Debug, PartialEq, Eq)]
pub struct Limits {
    pub(crate) bytes: u32,
    pub(crate) per_level: u32,
}

impl Model for Limits {
    ghost use Rattle.std.specs.Prelude.{◌≤◌};
    ghost use Rattle.dd_elem.specs.FileId.{max_rank};
    ghost use Rattle.dd_layout.specs.Limits.{Limits};

    ghost Value = { Limits };

    ghost view = { λ limits. record { bytes = limits.bytes; per_level = limits.per_level } };

    ghost invariant = { λ limits. limits.per_level ≤ max_rank };

    ghost inverse = { λ seen. record { bytes = seen.bytes; per_level = seen.per_level } };
}

impl Limits {
    /// Makes limits of these numbers: None where `per_level` is above 999,999, the highest rank of a File ID.
    pub fn new(bytes: u32, per_level: u32) -> Option<Limits>
        ensures { SomeIff result (per_level ≤ max_rank)
            (record { bytes = bytes; per_level = per_level }) }
    {
        if per_level > FileId::MAX_RANK {
            return None;
        }
        Some(Limits { bytes, per_level })
    }

    /// Limits the bytes to these, and the records below one parent to the ranks of a File ID.
    pub fn of_bytes(bytes: u32) -> Limits
        ensures { result ≡ record { bytes = bytes; per_level = max_rank } }
    {
        Limits {
            bytes,
            per_level: FileId::MAX_RANK,
        }
    }
}
