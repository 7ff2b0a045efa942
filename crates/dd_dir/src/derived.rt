//! The UID of a file-set that follows from what it holds.

ghost use Rattle.std.specs.Prelude.{◌≡◌, ◌≢◌, ◌⊎◌, None, Some, IfErr, IfOk, IsOk};
ghost use Rattle.dd_catalogue.specs.Contents.{nothing};
ghost use Rattle.dd_elem.specs.Digests.{uid_of_digest};
ghost use Rattle.dd_layout.specs.Layouts.{layout_of};
ghost use Rattle.dd_layout.specs.Refusal.{refusal};
ghost use Rattle.dd_dir.specs.Deriving.{derived_label, derived_refusal, harmony_excess, harmony_label};
ghost use Rattle.dd_dir.specs.Directories.{derived, directory_of, unnamed_label};
ghost use Rattle.sha2.specs.Sha256.{sha256};

use crate::directory_writing::write_directory;
use dd_catalogue::{Catalogue, Harmony};
use dd_elem::{SetId, Uid};
use dd_hashing::Digester;
use dd_layout::{Limits, Plan, PlanFault, lay_out, lay_out_harmony};
use dd_records::Label;
use std::alloc::Global;

/// The UID in the directory that is hashed.
const UNNAMED: &[u8] = b"2.25.0";

/// Derives a UID from the SHA-256 of the directory of this catalogue under this ID and the UID 2.25.0. The directory is
/// hashed while it is written, and never held in memory. Refused as `lay_out` refuses under that label.
pub fn derived_uid(
    alloc: Global,
    catalogue: &Catalogue,
    id: &SetId,
    limits: Limits,
) -> Result<Uid, PlanFault>
    ensures uid { IfOk result (λ uid. uid
        ≡ derived id.now catalogue.now.versions catalogue.now.withdrawn) }
    ensures allowed { IsOk result → refusal (unnamed_label id.now) limits catalogue.now.versions
        catalogue.now.withdrawn ≡ None }
    ensures refused { IfErr result (λ fault. ((fault ≡ PlanFault.Memory)
        × (catalogue.now ≢ nothing))
        ⊎ (refusal (unnamed_label id.now) limits catalogue.now.versions catalogue.now.withdrawn
        ≡ Some fault)) }
{
    let plan = lay_out(alloc, catalogue, &unnamed_label(id), limits)?;
    Ok(uid_of(&plan))
}

/// Lays out the directory of this catalogue under this ID and the UID that `derived_uid` gives, and harmonises and
/// sorts its versions once. Refused as `derived_uid` refuses, and then as `lay_out` refuses under the derived UID.
pub fn lay_out_derived(
    alloc: Global,
    catalogue: &Catalogue,
    id: &SetId,
    limits: Limits,
) -> Result<Plan, PlanFault>
    ensures planned { IfOk result (λ plan. plan
        ≡ layout_of (derived_label id.now catalogue.now.versions catalogue.now.withdrawn)
        catalogue.now.versions catalogue.now.withdrawn) }
    ensures allowed { IsOk result
        → derived_refusal id.now limits catalogue.now.versions catalogue.now.withdrawn ≡ None }
    ensures refused { IfErr result (λ fault. ((fault ≡ PlanFault.Memory)
        × (catalogue.now ≢ nothing))
        ⊎ (derived_refusal id.now limits catalogue.now.versions catalogue.now.withdrawn
        ≡ Some fault)) }
{
    match catalogue.harmonise_or_conflict()? {
        Harmony::Found(harmony) => lay_out_derived_harmony(alloc, harmony, id, limits),
        Harmony::Conflict(one, other) => Err(PlanFault::Conflict(one, other)),
    }
}

/// Lays out the directory of a catalogue whose versions are in harmony, as `lay_out_harmony` does, under this ID and
/// the UID that `derived_uid` gives. Refused as `lay_out_derived` refuses, but never with Conflict.
pub fn lay_out_derived_harmony(
    alloc: Global,
    harmony: Catalogue,
    id: &SetId,
    limits: Limits,
) -> Result<Plan, PlanFault>
    ensures planned { IfOk result (λ plan. plan ≡ record {
      label = harmony_label id.now harmony.versions harmony.withdrawn;
      versions = harmony.versions;
      withdrawn = harmony.withdrawn;
    }) }
    ensures allowed { IsOk result
        → harmony_excess id.now limits harmony.versions harmony.withdrawn ≡ None }
    ensures refused { IfErr result (λ fault. ((fault ≡ PlanFault.Memory) × (harmony ≢ nothing))
        ⊎ (harmony_excess id.now limits harmony.versions harmony.withdrawn ≡ Some fault)) }
{
    let plan = lay_out_harmony(alloc, harmony, &unnamed_label(id), limits)?;
    let uid = uid_of(&plan);
    plan.under(&Label { id: *id, uid }, limits)
}

/// The writer that hashes fails only where the count of its calls is at its last value, and it is called at most once
/// for each byte.
fn uid_of(plan: &Plan) -> Uid
    ensures { result ≡ uid_of_digest (sha256
        (directory_of plan.now.label plan.now.versions plan.now.withdrawn)) }
{
    let mut digester = Digester::new();
    match write_directory(plan, &mut digester) {
        Ok(_) => Uid::from_digest(&digester.digest()),
        Err(_) => {
            digester.fails_late();
            unreachable!()
        }
    }
}

fn unnamed_label(id: &SetId) -> Label
    ensures { result ≡ unnamed_label id.now }
{
    let uid = Uid::new(UNNAMED).unwrap();
    Label { id: *id, uid }
}
