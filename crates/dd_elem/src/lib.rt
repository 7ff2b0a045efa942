//! The values that every layer of `dicomdir` uses (PS3.5 sections 6, 7.1 and 9, PS3.10 section 8), and the traits of
//! readers and writers.
//!
//! Its one promise: a value of one of its types meets the rule of that type, and no reader or writer fails without
//! counting it.
#![tactic(auto)]

mod characters;
mod counts;
mod device;
mod file_id;
mod file_id_form;
mod in_place;
mod key;
mod key_bytes;
mod memory;
mod ordered;
mod padding;
mod set_id;
mod tag;
pub mod tags;
mod uid;
mod uid_text;
mod vr;

pub use counts::Counts;
pub use device::{Read, Write};
pub use file_id::FileId;
pub use file_id_form::is_file_id;
pub use key::{Key, KeyRefused};
pub use memory::Memory;
pub use ordered::Ordered;
pub use padding::clean;
pub use set_id::{BadSetId, SetId};
pub use tag::Tag;
pub use uid::{BadUid, Uid};
pub use vr::Vr;
