//! Files in memory, for tests. Its promise: they say what they hold, and change only as the trait `Files` says.
#![tactic(auto)]

mod as_files;
mod as_write;
mod calls;
mod contents;
mod later;
mod mem_files;
mod mem_reader;
mod planned_faults;

pub use calls::Call;
pub use mem_files::MemFiles;
pub use mem_reader::MemReader;
