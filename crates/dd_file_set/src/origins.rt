//! The files that images are made of.
ghost use Rattle.std.specs.Prelude.{◌≡◌, ◌<◌, ℕ, List, IfOk, Option, option_map, string_bytes, true};
ghost use Rattle.dd_file_set.specs.Made.{IsAsStored};
ghost use Rattle.dd_faults.specs.Refusal.{IsAmong};

use dd_elem::Memory;
use dd_faults::Subject;
use dd_version::Version;
use std::alloc::Global;

/// How the file of an image is looked up, and what a hard link to it needs.
#[derive(Clone, Copy)]
pub enum Lookup<'a> {
    /// It is looked up as a source. It gets no hard link.
    Source,
    /// It is looked up as a file of the file-set in this folder.
    Member(&'a str),
    /// It is looked up at exactly its path in this folder. It was stored before, with this number of bytes.
    Stored(&'a str, u64),
}

/// The files that images are made of. A pick is one of them where its number is below their count.
pub trait Origins {
    ghost use Rattle.dd_version.specs.declared.parts.Parts.{Parts};
    ghost use Rattle.dd_faults.specs.declared.refusal.Subject.{Subject};

    /// Which file an image is made of.
    type Pick: Copy;

    // The number of the file, or of the file-set that it is in.
    ghost number: { Self.Pick → ℕ };

    // How many files or file-sets there are.
    ghost count: { Self → ℕ };

    // How many paths the command line gives.
    ghost paths: { Self → ℕ };

    // It stands at this path.
    ghost stands_at: { Self → Self.Pick → List ℕ → Type 0 };

    // Images may get hard links in place of copies.
    ghost gives_links: { Self → Type 0 };

    // Its image may be a hard link to it, where it has these bytes.
    ghost may_link: { Self → Self.Pick → List ℕ → Type 0 };

    // Its copy must be wholly of this version, where one is said.
    ghost said: { Self → Self.Pick → Option Parts };

    // A refusal names this where the file can't be opened or read, or has changed.
    ghost is_subject: { Self → Self.Pick → Subject → Type 0 };

    // A refusal names this where the file is not what the plan says of it.
    ghost is_claimant: { Self → Self.Pick → Parts → Subject → Type 0 };

    /// Gives the path of the file.
    fn path(&self, alloc: Global, pick: Self::Pick) -> Result<String, Memory>
        ensures { number pick < count self.now
            → IfOk result (λ path. stands_at self.now pick (string_bytes path)) };

    /// Says how the file is looked up, and what a hard link to it needs.
    fn lookup(&self, pick: Self::Pick) -> Lookup<'_>
        ensures may { (bytes : List ℕ) → gives_links self.now → IsAsStored result bytes
            → may_link self.now pick bytes }
        ensures stored { (bytes : List ℕ) → may_link self.now pick bytes → IsAsStored result bytes };

    /// Says whether images may get hard links in place of copies.
    fn gives_links(&self) -> bool
        ensures { result ≡ true → gives_links self.now };

    /// Gives the version that a copy of the file must have with all its keys, where one is said.
    fn said(&self, pick: Self::Pick) -> Option<&Version>
        ensures { option_map (λ version. version.now) result ≡ said self.now pick };

    /// Finds what a refusal names where the file is not what the plan says. It is the file of the first record that
    /// says what the plan says, or the picked file where no record does or a set can't be read again.
    fn claimant(
        &self,
        alloc: Global,
        pick: Self::Pick,
        planned: &Version,
    ) -> Result<Subject, Memory>
        ensures claimed { IfOk result (is_claimant self.now pick planned.now) }
        ensures among { number pick < count self.now → IfOk result (IsAmong (paths self.now)) };

    /// Gives what a refusal names where the file can't be opened or read, or has changed.
    fn subject(&self, pick: Self::Pick) -> Subject
        ensures subject { is_subject self.now pick result }
        ensures among { number pick < count self.now → IsAmong (paths self.now) result };
}
