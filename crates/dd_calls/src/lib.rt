//! What programs in other languages ask of directories: functions over bytes and tables that they hold.
//!
//! What it promises stands at `list`, `rows`, `front`, `findings` and `spellings`. Each is for any bytes and any room.
#![tactic(auto)]

mod agreements;
mod answer;
mod beside;
mod buffer;
mod checking;
mod directory_rows;
mod finding_row;
mod given_file;
mod judging;
mod laws;
mod listing;
mod spelling;
mod standing;
mod table;
mod texts;
mod values;

pub use answer::{ARGUMENTS, Answer, DONE, MEMORY, ROOM, file_cause, file_tag, file_within};
pub use beside::front;
pub use buffer::Buffer;
pub use checking::findings;
pub use directory_rows::rows;
pub use finding_row::FindingRow;
pub use given_file::GivenFile;
pub use laws::heads_stand_for_files;
pub use listing::{give, list};
pub use spelling::spellings;
pub use table::Row;
pub use texts::Texts;
