//! From a catalogue, or from what was taken, to the bytes of a directory.

ghost use Rattle.std.specs.Prelude.{◌≡◌, ◌⊎◌, None, Some, IfErr, IfOk, IsOk, length};
ghost use Rattle.dd_catalogue.specs.Contents.{held_of};
ghost use Rattle.dd_catalogue.specs.Harmony.{harmonised};
ghost use Rattle.dd_catalogue.specs.Histories.{taken};
ghost use Rattle.dd_layout.specs.Refusal.{refusal};
ghost use Rattle.dd_dir.specs.Directories.{IsDirectory, OffsetsWithin, directory};
ghost use Rattle.dd_dir.specs.SaysItself.{SaysItself};
ghost use Rattle.dd_dir.specs.Visits.{Realises};

use crate::buffer::Buffer;
use crate::directory_writing::write_directory;
use crate::well_formed::catalogue_is_held;
use dd_catalogue::{Catalogue, History, build};
use dd_layout::{Limits, PlanFault, lay_out};
use dd_records::Label;
use std::alloc::Global;

/// Makes the bytes of the directory of these versions, in harmony, and of these withdrawn UIDs, under this label
/// (PS3.10 section 8.6). Refused as `lay_out` refuses, and as Memory where the allocation of the bytes was refused,
/// even for an empty catalogue.
pub fn publish(
    alloc: Global,
    catalogue: &Catalogue,
    label: &Label,
    limits: Limits,
) -> Result<Vec<u8>, PlanFault>
    ensures bytes { IfOk result (λ bytes. bytes.items ≡ directory label.now catalogue.now.versions
        catalogue.now.withdrawn) }
    ensures file { IsOk result → IsDirectory label.now (harmonised catalogue.now.versions)
        catalogue.now.withdrawn }
    ensures within { IfOk result (λ bytes. OffsetsWithin (length bytes.items) label.now
        (harmonised catalogue.now.versions)) }
    ensures realised { IfOk result
        (λ bytes. Realises label.now catalogue.now.versions bytes.items) }
    ensures own { IfOk result
        (λ bytes. SaysItself catalogue.now.versions catalogue.now.withdrawn bytes.items) }
    ensures allowed { IsOk result
        → refusal label.now limits catalogue.now.versions catalogue.now.withdrawn ≡ None }
    ensures refused { IfErr result (λ fault. (fault ≡ PlanFault.Memory)
        ⊎ (refusal label.now limits catalogue.now.versions catalogue.now.withdrawn ≡ Some fault)) }
{
    catalogue_is_held(catalogue);
    let plan = lay_out(alloc, catalogue, label, limits)?;
    let mut buffer = Buffer::with_capacity(alloc, plan.size() as usize)?;
    match write_directory(&plan, &mut buffer) {
        Ok(_) => Ok(buffer.into_bytes()),
        Err(_) => Err(PlanFault::Memory),
    }
}

/// Makes the bytes that `publish` gives for the catalogue of a history: of the best of the versions taken and not
/// withdrawn in it, and of the UIDs withdrawn. Refused as `publish` refuses that catalogue, and as Memory where an
/// allocation for the catalogue was refused.
pub fn assemble(
    alloc: Global,
    history: &History,
    label: &Label,
    limits: Limits,
) -> Result<Vec<u8>, PlanFault>
    ensures bytes { IfOk result (λ bytes. bytes.items
        ≡ directory label.now (held_of (taken history.now)).versions
        (held_of (taken history.now)).withdrawn) }
    ensures file { IsOk result → IsDirectory label.now
        (harmonised (held_of (taken history.now)).versions)
        (held_of (taken history.now)).withdrawn }
    ensures within { IfOk result (λ bytes. OffsetsWithin (length bytes.items) label.now
        (harmonised (held_of (taken history.now)).versions)) }
    ensures realised { IfOk result
        (λ bytes. Realises label.now (held_of (taken history.now)).versions bytes.items) }
    ensures own { IfOk result (λ bytes. SaysItself (held_of (taken history.now)).versions
        (held_of (taken history.now)).withdrawn bytes.items) }
    ensures allowed { IsOk result → refusal label.now limits (held_of (taken history.now)).versions
        (held_of (taken history.now)).withdrawn ≡ None }
    ensures refused { IfErr result (λ fault. (fault ≡ PlanFault.Memory)
        ⊎ (refusal label.now limits (held_of (taken history.now)).versions
        (held_of (taken history.now)).withdrawn ≡ Some fault)) }
{
    let catalogue = build(alloc, history)?;
    publish(alloc, &catalogue, label, limits)
}
