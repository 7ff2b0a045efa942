//! A plan as bytes.

ghost use Rattle.std.specs.Prelude.{◌≡◌, List, IfOk};
ghost use Rattle.dd_catalogue.specs.Best.{IsRising};
ghost use Rattle.dd_catalogue.specs.Harmony.{harmonised};
ghost use Rattle.dd_catalogue.specs.Versions.{IsCatalogue};
ghost use Rattle.dd_dir.specs.Directories.{directory_of};
ghost use Rattle.dd_dir.specs.SaysItself.{SaysItself};
ghost use Rattle.dd_elem.specs.Ordered.{bytes_cmp};
ghost use Rattle.dd_version.specs.declared.parts.Parts.{Parts};

use dd_calls::Buffer;
use dd_dir::write_directory;
use dd_elem::Memory;
use dd_layout::Plan;
use std::alloc::Global;

/// Writes the directory of a plan into memory. Memory where an allocation is refused.
pub(crate) fn directory_bytes(alloc: Global, plan: &Plan) -> Result<Vec<u8>, Memory>
    ensures bytes { IfOk result (λ bytes. bytes.items
        ≡ directory_of plan.now.label plan.now.versions plan.now.withdrawn) }
    ensures says { IfOk result (λ bytes. (m : List Parts) → IsCatalogue m
        → plan.now.versions ≡ harmonised m → IsRising (λ uid. uid) bytes_cmp plan.now.withdrawn
        → SaysItself m plan.now.withdrawn bytes.items) }
{
    let mut buffer = Buffer::with_capacity(alloc, plan.size() as usize)?;
    match write_directory(plan, &mut buffer) {
        Ok(_) => Ok(buffer.into_bytes()),
        Err(_) => Err(Memory),
    }
}
