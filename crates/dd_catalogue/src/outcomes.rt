//! What becomes of a version that a catalogue takes, of an instance that it withdraws, and of its harmony.

ghost use Rattle.std.specs.Prelude.{◌≡◌};
ghost use Rattle.dd_catalogue.specs.Taking.{as_took};

use crate::best::Taken;
use crate::catalogue::Catalogue;
use crate::changes::Changes;
use dd_elem::Uid;
use dd_version::Version;
use thiserror::Error;

/// What became of a version that was taken.
#[derive(Debug, Drop)]
pub enum Took {
    /// No version of its instance was held.
    New,
    /// It is greater than this one, which was held.
    Replaced(Version),
    /// It is no greater than the version that is held: handed back.
    Kept(Version),
    /// Its instance is withdrawn: handed back.
    Withdrawn(Version),
}

/// What became of an instance that was withdrawn.
#[derive(Debug, Drop)]
pub enum Withdrew {
    /// It was not withdrawn before. This version of it was kept until now.
    New(Option<Version>),
    /// It was withdrawn before.
    Already,
}

/// What was found of the harmony of a catalogue.
#[derive(Debug, Drop)]
pub enum Harmony {
    /// The catalogue in harmony: no two of its versions conflict.
    Found(Catalogue),
    /// The first two instances whose versions conflict.
    Conflict(Uid, Uid),
}

/// What was found of the harmony of versions.
#[derive(Debug, Drop)]
pub enum HarmonyChanges {
    /// The versions that have other keys in harmony: no two versions conflict.
    Found(Changes),
    /// The first two instances whose versions conflict.
    Conflict(Uid, Uid),
}

/// An allocation was refused.
#[derive(Debug, Drop, Error)]
#[error("91 Memory")]
pub struct Refused {
    /// The version that was not taken.
    pub back: Version,
}

pub(crate) fn to_took(taken: Taken<Version>) -> Took
    ensures { result ≡ as_took taken }
{
    match taken {
        Taken::Fresh => Took::New,
        Taken::Displaced(old) => Took::Replaced(old),
        Taken::Returned(given) => Took::Kept(given),
    }
}
