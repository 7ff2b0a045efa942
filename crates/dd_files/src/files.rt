ghost use Rattle.std.specs.Prelude.{◌≡◌, ◌≢◌, ℕ, List, [], Option, None, Err, IsSome, IfSome, IsSomeAnd, IsOk, IfOk};
ghost use Rattle.std.specs.Prelude.{IsTrue, false, length, option_map};
ghost use Rattle.std.specs.Io.KnownBytes.{Appends};
ghost use Rattle.dd_files.specs.Files.{Held, IsCall, IsUnread, ended, grown, linked, started, stored, written};

use dd_elem::{Read, Write};
use dd_slots::Lanes;
use thiserror::Error;

/// Limits the bytes of a file that is read.
pub const SOURCE_LIMIT: u64 = u32::MAX as u64;

/// Says that a file is not there or was not opened.
#[derive(Clone, Copy, Debug, PartialEq, Eq, Error)]
#[error("not there")]
pub struct NotThere;

/// Says that a folder or file was not made, not ended or not stored.
#[derive(Clone, Copy, Debug, PartialEq, Eq, Error)]
#[error("not done")]
pub struct NotDone;

/// Says why a file was not given a hard link.
#[derive(Clone, Copy, Debug, PartialEq, Eq, Error)]
pub enum LinkFault {
    /// The file is not there, or it is no plain file.
    #[error("not there")]
    Absent,
    /// The file has another number of bytes than it is to have.
    #[error("changed")]
    Changed,
    /// The new name is taken.
    #[error("taken")]
    Taken,
    /// The link was not made, as between two file systems.
    #[error("no hard link")]
    Refused,
}

/// Files that are read, and one at a time that is written. Each refusal counts, up to `u64::MAX`; where that is
/// reached, a call is refused.
pub trait Files: Write {
    type In: Read + Drop;

    ghost refusals: { Self → ℕ };

    // None where it is not known.
    ghost held: { Self → Option Held };

    // Something may be at this path.
    ghost is_taken: { Self → List ℕ → Type 0 };

    // A folder was made at this path, or was there.
    ghost has_folder: { Self → List ℕ → Type 0 };

    /// Says how many files are digested at once.
    fn lanes(&self) -> Lanes;

    /// Opens a file for reading.
    fn source(&mut self, path: &str) -> Result<Self::In, NotThere>
        ensures call { IsCall Self.Write refusals held result self.old self.new }
        ensures opened { IfOk result (IsUnread Self.In.Read (held self.old) path.now) }
        ensures kept { held self.new ≡ held self.old };

    /// Opens the file at this path, which is below the folder `set` and spelled as its directory records it. A system
    /// may show the names below `set` otherwise.
    fn member(&mut self, set: &str, path: &str) -> Result<Self::In, NotThere>
        ensures call { IsCall Self.Write refusals held result self.old self.new }
        ensures opened { IfOk result (IsUnread Self.In.Read (held self.old) path.now) }
        ensures kept { held self.new ≡ held self.old };

    /// Opens the file at exactly this path below the folder `set`, in no other spelling. A symbolic link counts as not
    /// there, and so does one among the folders below `set`.
    fn exact_file(&mut self, set: &str, path: &str) -> Result<Self::In, NotThere>
        ensures call { IsCall Self.Write refusals held result self.old self.new }
        ensures opened { IfOk result (IsUnread Self.In.Read (held self.old) path.now) }
        ensures kept { held self.new ≡ held self.old };

    /// Opens a list of names, of any size. `-` may stand for the standard input.
    fn names(&mut self, path: &str) -> Result<Self::In, NotThere>
        ensures call { IsCall Self.Write refusals held result self.old self.new }
        ensures opened { IfOk result (IsUnread Self.In.Read (held self.old) path.now) }
        ensures kept { held self.new ≡ held self.old };

    /// Gives the number of bytes that an open file is said to have, or 0 where nothing is said. It may be wrong.
    fn said_size(&self, input: &Self::In) -> u64;

    /// Makes a folder with its parents. Succeeds where it is there already.
    fn folder(&mut self, path: &str) -> Result<(), NotDone>
        ensures call { IsCall Self.Write refusals held result self.old self.new }
        ensures made { IsOk result → has_folder self.new path.now }
        ensures kept { held self.new ≡ held self.old }
        ensures bytes { Self.contents self.new ≡ Self.contents self.old };

    /// Makes a folder below `out` as `folder` does. Refuses a symbolic link below `out`, and makes nothing through it.
    fn folder_in(&mut self, out: &str, path: &str) -> Result<(), NotDone>
        ensures call { IsCall Self.Write refusals held result self.old self.new }
        ensures made { IsOk result → has_folder self.new path.now }
        ensures kept { held self.new ≡ held self.old }
        ensures bytes { Self.contents self.new ≡ Self.contents self.old };

    /// Says whether nothing is at this path: no file, no folder and no symbolic link, not even one that leads nowhere.
    /// False where the system doesn't say.
    fn is_free(&self, path: &str) -> bool
        ensures free { IsTrue result
            → IfSome (held self.now) (λ files. files.bytes_at path.now ≡ None) }
        ensures taken { result ≡ false → is_taken self.now path.now };

    /// Starts a new file, to which later writes go. Refused where the name is taken.
    fn create(&mut self, path: &str) -> Result<(), NotDone>
        ensures call { IsCall Self.Write refusals held result self.old self.new }
        ensures folders { (folder : List ℕ) → has_folder self.old folder → has_folder self.new folder }
        ensures free { IsOk result
            → IfSome (held self.old) (λ files. files.bytes_at path.now ≡ None) }
        ensures empty { IsOk result → IfSome (Self.contents self.new) (λ bytes. bytes ≡ []) }
        ensures started { IsOk result → held self.new
            ≡ option_map (started path.now) (held self.old) };

    /// Gives the file at `from` the hard link `path`, without reading its bytes. `from` is looked up as by `member`; a
    /// symbolic link there is Absent.
    fn link(&mut self, set: &str, from: &str, path: &str) -> Result<(), LinkFault>
        ensures call { IsCall Self.Write refusals held result self.old self.new }
        ensures unchanged { result ≢ Err LinkFault.Changed }
        ensures there { IsOk result → IfSome (held self.old)
            (λ files. IsSome (files.bytes_at from.now)) }
        ensures free { IsOk result
            → IfSome (held self.old) (λ files. files.bytes_at path.now ≡ None) }
        ensures linked { IsOk result → held self.new
            ≡ option_map (linked from.now path.now) (held self.old) };

    /// Gives the file at exactly the path `from` below the folder `set` the hard link `path` as `link` does, where it
    /// has `size` bytes. Changed where it has another number. Its bytes were stored before, so only the new name is to
    /// be stored.
    fn link_stored(&mut self, set: &str, from: &str, path: &str, size: u64) -> Result<(), LinkFault>
        ensures call { IsCall Self.Write refusals held result self.old self.new }
        ensures there { IsOk result → IfSome (held self.old)
            (λ files. IsSome (files.bytes_at from.now)) }
        ensures size { IsOk result → IfSome (held self.old)
            (λ files. IfSome (files.bytes_at from.now) (λ bytes. length bytes ≡ size)) }
        ensures changed { result ≡ Err LinkFault.Changed → IfSome (held self.old)
            (λ files. IsSomeAnd (files.bytes_at from.now) (λ bytes. length bytes ≢ size)) }
        ensures free { IsOk result
            → IfSome (held self.old) (λ files. files.bytes_at path.now ≡ None) }
        ensures linked { IsOk result → held self.new
            ≡ option_map (linked from.now path.now) (held self.old) };

    /// Ends the file that is being written.
    fn finish(&mut self) -> Result<(), NotDone>
        ensures call { IsCall Self.Write refusals held result self.old self.new }
        ensures ended { IsOk result → held self.new ≡ option_map ended (held self.old) };

    /// Stores the bytes of ended files where enough wait to be stored together. Else it may put that off to a later
    /// call, or to `store`.
    fn store_batch(&mut self) -> Result<(), NotDone>
        ensures call { IsCall Self.Write refusals held result self.old self.new }
        ensures kept { held self.new ≡ held self.old }
        ensures bytes { Self.contents self.new ≡ Self.contents self.old }
        ensures rest { IsOk result → Self.rest self.new ≡ Self.rest self.old };

    /// Stores the bytes of all ended files, and the name of each new file and folder. After a power cut these are still
    /// there, whole.
    fn store(&mut self) -> Result<(), NotDone>
        ensures call { IsCall Self.Write refusals held result self.old self.new }
        ensures stored { IsOk result → held self.new ≡ option_map stored (held self.old) }
        ensures bytes { Self.contents self.new ≡ Self.contents self.old };

    /// Names the ended file, or the folder of new names, that was not stored when `store` or `store_batch` was refused.
    /// The current folder is `.`.
    fn unstored(&self) -> &str;

    // No write counts as a refusal.
    ghost same_refusals: { (old new : Self) → Self.rest new ≡ Self.rest old
        → refusals new ≡ refusals old };

    ghost same_contents: { (files : Self)
        → IfSome (held files) (λ now. Self.contents files ≡ written now) };

    ghost written_grows: { (old new : Self) (bytes : List ℕ) → Self.rest new ≡ Self.rest old
        → Appends (Self.contents old) (Self.contents new) bytes
        → held new ≡ option_map (grown bytes) (held old) };
}
