//! Plans of catalogues.

use dd_elem::{FileId, SetId, Uid};
use dd_layout::{Limits, Plan, PlanFault, lay_out, lay_out_harmony};
use dd_records::Label;
use dd_vectors::{catalogue_of, taken};
use std::alloc::Global;
use std::test::Fail;

/// The label with this ID.
pub(crate) fn label_of(id: &str) -> Result<Label, Fail> {
    Ok(Label {
        id: SetId::new(id.as_bytes())?,
        uid: Uid::new(b"2.25.0")?,
    })
}

/// What comes of laying out the catalogue of the images with these letters, under the label with this ID,
/// within these limits.
pub(crate) fn planned(
    alloc: Global,
    letters: &str,
    id: &str,
    limits: Limits,
) -> Result<Result<Plan, PlanFault>, Fail> {
    let catalogue = taken(alloc, letters)?;
    Ok(lay_out(alloc, &catalogue, &label_of(id)?, limits))
}

/// The plan of the catalogue of the images with these letters, under the label without an ID.
pub(crate) fn plan(alloc: Global, letters: &str) -> Result<Plan, Fail> {
    let limits = Limits::new(u32::MAX, FileId::MAX_RANK).ok_or("no limits")?;
    Ok(planned(alloc, letters, "", limits)??)
}

#[test]
fn harmony_is_laid_out_as_its_catalogue(rt: HostRuntime) -> Result<(), Fail> {
    let limits = Limits::new(u32::MAX, FileId::MAX_RANK).ok_or("no limits")?;
    let label = label_of("DISC1")?;
    for words in ["", "1234", "AC", "ZL/1.2.9"] {
        let catalogue = catalogue_of(rt.alloc(), words)?;
        let plan = lay_out(rt.alloc(), &catalogue, &label, limits)?;
        let again = lay_out_harmony(rt.alloc(), catalogue.harmonise()?, &label, limits)?;
        assert!(rt; again.records() == plan.records());
        assert_eq!(rt; again.size(), plan.size());
    }
    Ok(())
}
