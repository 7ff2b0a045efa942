//! The catalogue of image instances: of each SOP Instance UID (PS3.3 section C.12.1) the greatest version taken,
//! unless the instance is withdrawn, and the UIDs of withdrawn instances.
//!
//! Its one promise: neither the order of arrival nor repeats nor merges change it.
#![tactic(auto)]

mod best;
mod carriers;
mod catalogue;
mod changes;
mod conflicts;
mod entries;
mod greatest;
mod harmony;
mod harmony_laws;
mod history;
mod join;
mod kept;
mod laws;
mod outcomes;
mod owners;
mod sifting;
mod thinning;
mod tuples;
mod weaving;
mod withdrawals;

pub use catalogue::Catalogue;
pub use changes::Changes;
pub use harmony_laws::{
    catalogue_agrees_with_itself, harmony_again_is_same, harmony_is_not_less,
    harmony_keeps_conflict, harmony_keeps_images, merged_harmonies_are_merged_sets,
};
pub use history::{History, build, build_order_is_free};
pub use join::{Join, gather, gather_order_is_free, join_is_lawful, join_order_is_free};
pub use kept::Kept;
pub use laws::{
    best_is_best, best_is_one, best_of_bests, conflicts_decides, equal_is_same,
    first_conflict_is_first, first_conflict_is_one, harmonised_is_harmonised, harmonised_is_one,
    held_is_apart, held_of_held, kept_is_best_of_left, kept_of_all, kept_of_kept,
    kept_order_is_free, withdrawn_decides,
};
pub use outcomes::{Harmony, HarmonyChanges, Refused, Took, Withdrew};
pub use withdrawals::Withdrawals;
