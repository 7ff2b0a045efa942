//! UIDs of file-sets, derived from what they hold.

use crate::publishing::limits_of;
use crate::sending::first_catalogue;
use dd_catalogue::Catalogue;
use dd_dir::{derived_uid, lay_out_derived, lay_out_derived_harmony};
use dd_elem::SetId;
use dd_layout::Limits;
use dd_vectors::{ask_all, taken};
use std::alloc::Global;
use std::test::Fail;

/// Images (`v` for V1), the ID of the file-set and the most bytes of a directory, or none of these. Then the UID,
/// computed by another program from the bytes of the directory, or why there is no UID.
const DERIVED: &str = "\
v   > 2.25.203980963844863891982135713436996079817
v  876 > 2.25.203980963844863891982135713436996079817
1   > 2.25.245447624314332007178579807632227354409
1  876 > 2.25.245447624314332007178579807632227354409
1  875 > 43 TooLarge
1 DISC1 882 > 2.25.308109394600567013282965076628649889332
1 DISC1 881 > 43 TooLarge
   > 2.25.239637096442388064147279945434065034669
 DISC1 326 > 2.25.14983272099609356540788096995623605856
15   > 41 Conflict 1.2.3.4.5 1.2.8.4.1";

/// Such questions; and the UID of the plan and how many bytes the directory has, or why there is no plan. A UID of 44
/// bytes takes 38 more than `2.25.0`.
const LAID_OUT: &str = "\
v   > 2.25.203980963844863891982135713436996079817 914
1   > 2.25.245447624314332007178579807632227354409 914
1  914 > 2.25.245447624314332007178579807632227354409 914
1  913 > 43 TooLarge
1  875 > 43 TooLarge
1 DISC1 920 > 2.25.308109394600567013282965076628649889332 920
1 DISC1 919 > 43 TooLarge
   > 2.25.239637096442388064147279945434065034669 358
15   > 41 Conflict 1.2.3.4.5 1.2.8.4.1";

fn catalogue(alloc: Global, letters: &str) -> Result<Catalogue, Fail> {
    if letters == "v" {
        first_catalogue(alloc)
    } else {
        taken(alloc, letters)
    }
}

fn asked(alloc: Global, question: &str) -> Result<(Catalogue, SetId, Limits), Fail> {
    let mut words = question.split(' ');
    let catalogue = catalogue(alloc, words.next().ok_or("no images")?)?;
    let id = SetId::new(words.next().ok_or("no ID")?.as_bytes())?;
    let limits = limits_of(words.next().ok_or("no limit")?)?;
    Ok((catalogue, id, limits))
}

fn derived(alloc: Global, question: &str) -> Result<String, Fail> {
    let (catalogue, id, limits) = asked(alloc, question)?;
    match derived_uid(alloc, &catalogue, &id, limits) {
        Ok(uid) => Ok(format!(in alloc; "{uid}")?),
        Err(fault) => Ok(format!(in alloc; "{fault}")?),
    }
}

fn laid_out(alloc: Global, question: &str) -> Result<String, Fail> {
    let (catalogue, id, limits) = asked(alloc, question)?;
    match lay_out_derived(alloc, &catalogue, &id, limits) {
        Ok(plan) => {
            let uid = &plan.label().uid;
            let size = plan.size();
            Ok(format!(in alloc; "{uid} {size}")?)
        }
        Err(fault) => Ok(format!(in alloc; "{fault}")?),
    }
}

#[test]
fn file_sets_are_named_by_what_they_hold(rt: HostRuntime) -> Result<(), Fail> {
    ask_all(rt.alloc(), DERIVED, derived)?;
    ask_all(rt.alloc(), LAID_OUT, laid_out)
}

#[test]
fn harmony_is_laid_out_under_the_uid_of_its_catalogue(rt: HostRuntime) -> Result<(), Fail> {
    for question in ["v  914", "  358", "AC DISC1 4294967295", "ZL  4294967295"] {
        let (catalogue, id, limits) = asked(rt.alloc(), question)?;
        let plan = lay_out_derived(rt.alloc(), &catalogue, &id, limits)?;
        let again = lay_out_derived_harmony(rt.alloc(), catalogue.harmonise()?, &id, limits)?;
        assert!(rt; again.label() == plan.label());
        assert!(rt; again.records() == plan.records());
        assert_eq!(rt; again.size(), plan.size());
    }
    Ok(())
}
