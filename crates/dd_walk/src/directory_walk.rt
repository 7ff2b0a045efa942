//! Directories of any producer, read from their bytes.

ghost use Rattle.std.specs.Prelude.{◌≡◌, ◌<◌, ◌⊎◌, IfOk, IfErr, IsErrAnd, MatchResult, Err, length};
ghost use Rattle.dd_part10.specs.declared.fault.FileFault.TheVariants as file_faults;
ghost use Rattle.dd_part10.specs.Memory.{GroupWants, SetWants};
ghost use Rattle.dd_grammar.specs.declared.fault.SetFault.TheVariants as set_faults;
ghost use Rattle.dd_walk.specs.declared.fault.DirFault.{DirFault};
ghost use Rattle.dd_walk.specs.declared.fault.DirFault.TheVariants.{File, Memory};
ghost use Rattle.dd_walk.specs.ForestViews.{walk_view};
ghost use Rattle.dd_walk.specs.ReadAnswers.{HasRecords, SaysMemory, contents_view};
ghost use Rattle.dd_walk.specs.Reading.{IsWalk, IsWalkOf, Refuses, RefusesOf};
ghost use Rattle.dd_walk.specs.Pending.{Rises};
ghost use Rattle.dd_walk.specs.Trees.{Walk};

use crate::directory::{Contents, directory_of, is_directory_meta};
use crate::fault::DirFault;
use crate::forest::Forest;
use crate::pending::{count_left, pending_of};
use crate::walk::{chain, last_offset};
use dd_part10::parse_file;
use std::alloc::Global;

/// Reads the records of a directory, joined by their offsets (PS3.3 section F.3.2, PS3.10 section 8.6). Refused, in
/// this order:
///
/// - File where the bytes are no DICOM file
/// - NotDirectory where the file is no directory
/// - RecordShape, Dangling, Twice or TooDeep at the first offset, depth first, that breaks the trees
/// - LastRoot where the last root reached is not the one that is named
///
/// Memory, alone or within File, where an allocation was refused.
pub fn read_directory<'a>(alloc: Global, bytes: &'a [u8]) -> Result<Forest<'a>, DirFault>
    ensures walk { IfOk result (λ forest. IsWalk bytes.now (walk_view forest)) }
    ensures only { (walk : Walk) → IsWalk bytes.now walk
        → MatchResult result (λ forest. walk_view forest ≡ walk) SaysMemory }
    ensures refused { IfErr result (λ fault. SaysMemory fault ⊎ Refuses bytes.now fault) }
    ensures refuses { (fault : DirFault) → Refuses bytes.now fault
        → IsErrAnd result (λ other. SaysMemory other ⊎ (other ≡ fault)) }
    // Memory runs out only while the bytes are read as a file, or for records.
    ensures group { result ≡ Err (File (file_faults.Meta set_faults.Memory))
        → GroupWants bytes.now }
    ensures set { result ≡ Err (File (file_faults.Set set_faults.Memory)) → SetWants bytes.now }
    ensures records { result ≡ Err Memory → HasRecords bytes.now }
{
    read_forest(alloc, bytes)
}

/// Reads as `read_directory`, which also says that no other answer is possible.
fn read_forest<'a>(alloc: Global, bytes: &'a [u8]) -> Result<Forest<'a>, DirFault>
    ensures walk { IfOk result (λ forest. IsWalk bytes.now (walk_view forest)) }
    ensures refused { IfErr result (λ fault. SaysMemory fault ⊎ Refuses bytes.now fault) }
    ensures group { result ≡ Err (File (file_faults.Meta set_faults.Memory))
        → GroupWants bytes.now }
    ensures set { result ≡ Err (File (file_faults.Set set_faults.Memory)) → SetWants bytes.now }
    ensures records { result ≡ Err Memory → HasRecords bytes.now }
{
    let file = parse_file(alloc, bytes).map_err(DirFault::File)?;
    if !is_directory_meta(&file.meta) {
        return Err(DirFault::NotDirectory);
    }
    let directory = directory_of(alloc, file.meta.instance, file.set, file.set_at)?;
    trees_of(alloc, directory)
}

fn trees_of<'a>(alloc: Global, directory: Contents<'a>) -> Result<Forest<'a>, DirFault>
    requires rise { Rises 0 directory.starts.items }
    requires each { length directory.starts.items ≡ length directory.items.items }
    ensures walk { IfOk result
        (λ forest. IsWalkOf (contents_view directory.entry) (walk_view forest)) }
    ensures refused { IfErr result (λ fault. (fault ≡ Memory)
        ⊎ RefusesOf (contents_view directory.entry) fault) }
    ensures memory { result ≡ Err Memory → 0 < length directory.entry.starts.items }
{
    let Contents {
        uid,
        id,
        withdrawn,
        first,
        last,
        starts,
        items,
    } = directory;
    let mut pending = pending_of(alloc, items)?;
    let trees = chain(alloc, &starts, &mut pending, first, 0)?;
    if last_offset(&trees) != last {
        return Err(DirFault::LastRoot);
    }
    Ok(Forest {
        uid,
        id,
        withdrawn,
        trees,
        unreached: count_left(&pending),
    })
}
