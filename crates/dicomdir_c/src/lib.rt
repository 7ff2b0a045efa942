//! What programs in other languages call: functions over bytes and tables that they hold. Each is one of dd_calls or
//! dd_making under a name of C, with its contract, for any bytes and any room: none has a `requires`.
#![tactic(auto)]

mod checking;
mod making;
mod reading;

pub use checking::dicomdir_findings;
pub use making::{dicomdir_merge, dicomdir_notes, dicomdir_of_image, dicomdir_withdraw};
pub use reading::{
    dicomdir_front, dicomdir_interface, dicomdir_list, dicomdir_rows, dicomdir_spellings,
};
