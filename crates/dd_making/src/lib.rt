//! What programs in other languages ask to be made: directories of images and of directories, over bytes that they
//! hold.
//!
//! What it promises stands at `of_image`, `merge`, `withdraw` and `notes`. Nothing is kept between calls: what is known
//! of an image file is passed on as the directory of that file, and `merged_images_are_indexed` says that nothing is
//! lost so.
#![tactic(auto)]

mod choosing;
mod cutting;
mod images;
mod laws;
mod made;
mod merging;
mod note_rows;
mod noting;
mod refusals;
mod withdrawing;
mod writing;

pub use images::of_image;
pub use laws::merged_images_are_indexed;
pub use merging::merge;
pub use note_rows::NoteRow;
pub use noting::{Sum, notes};
pub use withdrawing::withdraw;
