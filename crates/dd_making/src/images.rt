//! The directory of one image.

ghost use Rattle.std.specs.Prelude.{◌≡◌, ◌≢◌, ◌<◌, ◌∷◌, ◌⊎◌, [], IfErr, IfOk, Some, length};
ghost use Rattle.dd_dir.specs.Deriving.{derived_refusal};
ghost use Rattle.dd_making.specs.Images.{IsGiven, IsLonger, IsNotLaidOut, IsOfImage, IsOfVersion, IsRefused};
ghost use Rattle.dd_making.specs.Merges.{no_limits};
ghost use Rattle.dd_making.specs.Refusals.{IsFault};

use crate::refusals::{key_refusal, plan_refusal};
use crate::writing::directory_bytes;
use dd_calls::{Answer, give};
use dd_catalogue::Catalogue;
use dd_dir::lay_out_derived;
use dd_elem::SetId;
use dd_keys::version_of;
use dd_layout::{Limits, PlanFault};
use dd_version::Version;
use std::alloc::Global;

/// Gives the directory of the image file `bytes` to the front of `text`, with no File-set ID and under the UID that
/// follows from what it says, and answers 0. That is what `dicomdir index` makes of this file alone.
///
/// Else nothing of `text` is changed, and the status is 1 where the directory is longer than `text`. It is the number
/// of the fault of `version_of`, or 91 where an allocation is refused.
pub fn of_image(alloc: Global, bytes: &[u8], text: &mut [u8], answer: &mut Answer) -> u32
    ensures given { result ≡ 0 → IsGiven bytes.now text.old text.new answer.new }
    ensures longer { result ≡ 1 → IsLonger bytes.now (length text.old) answer.new }
    ensures refused { 1 < result → IsRefused bytes.now answer.new }
    ensures status { 1 < result → result ≡ answer.new.fault }
    ensures same { result ≢ 0 → text.new ≡ text.old }
{
    match directory_of_image(alloc, bytes) {
        Ok(directory) => give(&directory, text, answer),
        Err(refusal) => {
            *answer = refusal;
            refusal.fault
        }
    }
}

fn directory_of_image(alloc: Global, bytes: &[u8]) -> Result<Vec<u8>, Answer>
    ensures made { IfOk result (λ text. IsOfImage bytes.now text.items) }
    ensures refused { IfErr result (IsRefused bytes.now) }
    ensures fault { IfErr result (λ answer. IsFault answer.fault) }
{
    match version_of(alloc, bytes) {
        Ok(version) => directory_of_version(alloc, version),
        Err(fault) => Err(key_refusal(&fault)),
    }
}

fn directory_of_version(alloc: Global, version: Version) -> Result<Vec<u8>, Answer>
    ensures made { IfOk result (λ text. IsOfVersion version text.items) }
    ensures refused { IfErr result (IsNotLaidOut version) }
    ensures fault { IfErr result (λ answer. IsFault answer.fault) }
{
    match lay_out_one(alloc, version) {
        Ok(text) => Ok(text),
        Err(fault) => Err(plan_refusal(&fault)),
    }
}

fn lay_out_one(alloc: Global, version: Version) -> Result<Vec<u8>, PlanFault>
    ensures made { IfOk result (λ text. IsOfVersion version text.items) }
    ensures refused { IfErr result (λ fault. (fault ≡ PlanFault.Memory)
        ⊎ (derived_refusal [] no_limits (version ∷ []) [] ≡ Some fault)) }
{
    let catalogue = Catalogue::from_versions(alloc, &[version])?;
    let plan = lay_out_derived(alloc, &catalogue, &no_id(), Limits::of_bytes(u32::MAX))?;
    Ok(directory_bytes(alloc, &plan)?)
}

fn no_id() -> SetId
    ensures { result ≡ [] }
{
    match SetId::new(b"") {
        Ok(id) => id,
        Err(_) => unreachable!(),
    }
}
