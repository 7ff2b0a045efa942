//! Says why a run is refused, and what that concerns.
#![tactic(auto)]

mod image_path;
mod refusal;

pub use image_path::{FOLDER_LENGTH, IdPath, ImageFolder, ImagePath, ImagePathText, PathText};
pub use refusal::{ProgramFault, Refusal, Subject};
