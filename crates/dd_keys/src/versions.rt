ghost use Rattle.std.specs.Prelude.{◌≡◌, ◌<◌, ◌^◌, ℕ, List, length, None, IsSome};
ghost use Rattle.dd_stream.specs.Bytes.{AreBytes};
ghost use Rattle.dd_stream.specs.Reads.{ReadsUpTo};
ghost use Rattle.dd_encoding.specs.Syntaxes.{syntax_of};
ghost use Rattle.dd_version.specs.declared.parts.Parts.{Parts};
ghost use Rattle.dd_keys.specs.Answers.{Answers, AnswersReader};
ghost use Rattle.dd_keys.specs.Faults.{first_fault};
ghost use Rattle.dd_keys.specs.Kept.{AnswersKept};
ghost use Rattle.dd_keys.specs.Summaries.{AreFronts, IsJudged, summary_fault, summary_parts};
ghost use Rattle.dd_keys.specs.Versions.{IsVersion};

use crate::digesting::{Digested, read_digested};
use crate::fault::KeyFault;
use crate::keeping::read_kept;
use crate::row_values::RowValues;
use crate::rows::WANTED;
use crate::summary::Values;
use dd_elem::Read;
use dd_part10::{Meta, parse_file};
use dd_slots::Slot;
use dd_version::{Version, is_image_class};
use sha2::{Digest, Sha256};
use std::alloc::Global;

/// Reads these bytes as a file, and gives its version: its keys without padding, its UIDs of group 0002, and its
/// SHA-256. A key that is empty and that a directory must have is replaced by a default.
///
/// Otherwise the answer is the first check that fails: of the file (PS3.10 section 7), of the class in group 0002, then
/// of each element in the order of tags. A refused allocation is `File` with the fault of the parse, or `Memory` after
/// all checks.
pub fn version_of(alloc: Global, bytes: &[u8]) -> Result<Version, KeyFault>
    ensures { Answers bytes.now result }
{
    let file = parse_file(alloc, bytes)?;
    version_from(alloc, &file.meta, &file.set, Sha256::digest(bytes))
}

/// Reads a file from a reader to its end, and gives its version. It holds only fixed buffers and the first 1,024 bytes
/// of each element that gives a key.
///
/// `Read` where the reader fails and `FileTooLong` where it gives more than `limit` bytes come before every check. Else
/// it answers as `version_of` does for the bytes that the reader gave. It allocates for group 0002, and for the data
/// set where an element of the table is there; a refusal of that is `File` with the fault of the read.
pub fn ingest<R: Read>(alloc: Global, reader: &mut R, limit: u64) -> Result<Version, KeyFault>
    ensures { ReadsUpTo R.Read limit reader.old reader.new
        (λ given left failures after. AnswersReader limit given left failures after result) }
{
    let Digested { file, digest } = read_digested(alloc, reader, &WANTED, limit);
    let scanned = file?;
    version_from(alloc, &scanned.meta, &scanned.found, digest)
}

/// Reads a version as `ingest` does, and leaves its digest as 32 zeros. Afterwards the slot has exactly the bytes that
/// the reader gave: with their SHA-256 the version is what `ingest` answers.
pub fn ingest_kept<R: Read>(
    alloc: Global,
    reader: &mut R,
    slot: &mut Slot,
    limit: u64,
) -> Result<Version, KeyFault>
    ensures { ReadsUpTo R.Read limit reader.old reader.new (AnswersKept result slot.new limit) }
{
    let scanned = read_kept(alloc, reader, slot, &WANTED, limit)?;
    version_from(alloc, &scanned.meta, &scanned.found, [0; 32])
}

fn version_from<V: Values>(
    alloc: Global,
    meta: &Meta,
    values: &V,
    digest: [u8; 32],
) -> Result<Version, KeyFault>
    requires known { IsSome (syntax_of meta.now.transfer) }
    requires fronts { AreFronts (V.tells values.now) }
    ensures { IsJudged (summary_fault meta.now (V.tells values.now))
        (summary_parts (V.tells values.now) digest meta.now) result }
{
    if !is_image_class(&meta.class) {
        return Err(KeyFault::NotImage(meta.class));
    }
    match RowValues::of(meta, values) {
        Ok(found) => {
            let parts = found.parts(alloc, meta, digest)?;
            Ok(Version::of(parts).unwrap())
        }
        Err(fault) => Err(fault),
    }
}

/// Law: bytes are a file of a version exactly where they fail no check, and then of one version only.
pub fn one_version()
    ensures one { (file : List ℕ) (version other : Parts) → IsVersion file version
        → IsVersion file other
        → version ≡ other }
    ensures passes { (file : List ℕ) (version : Parts) → IsVersion file version
        → first_fault file ≡ None }
    ensures fails { (file : List ℕ) → AreBytes file → length file < 2 ^ 64 → first_fault file ≡ None
        → (version : Parts) × IsVersion file version }
{}
