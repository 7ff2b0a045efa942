//! Directories of images and of directories.

ghost use Rattle.std.specs.Prelude.{◌≡◌, ◌≢◌, ◌<◌, ◌∷◌, [], length};
ghost use Rattle.std.specs.List.{AllByRecursion};
ghost use Rattle.dd_elem.specs.Uid.{IsUid};
ghost use Rattle.dd_making.specs.Cuts.{AreEnds, cuts};
ghost use Rattle.dd_making.specs.Images.{IsGiven, IsLonger, IsRefused};
ghost use Rattle.dd_making.specs.Merges.{GivesMade, IsRefusedMerge, IsRefusedWithdrawal, LacksRoom, rooms};
ghost use Rattle.dd_making.specs.Noted.{GivesNotes, LacksNoteRoom, note_rooms};

use dd_calls::Answer;
use dd_making::{NoteRow, Sum};
use std::alloc::Global;

/// Gives the directory of the image file `bytes`.
#[unsafe(no_mangle)]
pub extern "C" fn dicomdir_of_image(
    alloc: Global,
    bytes: &[u8],
    text: &mut [u8],
    answer: &mut Answer,
) -> u32
    ensures given { result ≡ 0 → IsGiven bytes.now text.old text.new answer.new }
    ensures longer { result ≡ 1 → IsLonger bytes.now (length text.old) answer.new }
    ensures refused { 1 < result → IsRefused bytes.now answer.new }
    ensures status { 1 < result → result ≡ answer.new.fault }
    ensures same { result ≢ 0 → text.new ≡ text.old }
{
    dd_making::of_image(alloc, bytes, text, answer)
}

/// Gives the directory of the images of the directories in `bytes`, which end at `ends`.
#[unsafe(no_mangle)]
pub extern "C" fn dicomdir_merge(
    alloc: Global,
    bytes: &[u8],
    ends: &[u64],
    id: &[u8],
    uid: &[u8],
    text: &mut [u8],
    sets: &mut [u64],
    file_ends: &mut [u64],
    files: &mut [u8],
    answer: &mut Answer,
) -> u32
    ensures made { result ≡ 0 → GivesMade id.now uid.now [] (cuts 0 bytes.now ends.now)
        (rooms text.old sets.old file_ends.old files.old)
        (rooms text.new sets.new file_ends.new files.new) answer.new }
    ensures room { result ≡ 1 → LacksRoom id.now uid.now [] (cuts 0 bytes.now ends.now)
        (rooms text.old sets.old file_ends.old files.old) answer.new }
    ensures ends { result < 2 → AreEnds 0 bytes.now ends.now }
    ensures refused { 1 < result → IsRefusedMerge id.now uid.now bytes.now ends.now answer.new }
    ensures status { 1 < result → result ≡ answer.new.fault }
    ensures same { result ≢ 0 → rooms text.new sets.new file_ends.new files.new
        ≡ rooms text.old sets.old file_ends.old files.old }
{
    dd_making::merge(
        alloc, bytes, ends, id, uid, text, sets, file_ends, files, answer,
    )
}

/// Gives what such a merge notes of its images, and counts these.
#[unsafe(no_mangle)]
pub extern "C" fn dicomdir_notes(
    alloc: Global,
    bytes: &[u8],
    ends: &[u64],
    id: &[u8],
    uid: &[u8],
    rows: &mut [NoteRow],
    text_ends: &mut [u64],
    text: &mut [u8],
    sum: &mut Sum,
    answer: &mut Answer,
) -> u32
    ensures given { result ≡ 0 → GivesNotes id.now uid.now (cuts 0 bytes.now ends.now)
        (note_rooms rows.old text_ends.old text.old sum.old)
        (note_rooms rows.new text_ends.new text.new sum.new) answer.new }
    ensures room { result ≡ 1 → LacksNoteRoom id.now uid.now (cuts 0 bytes.now ends.now)
        (note_rooms rows.old text_ends.old text.old sum.old) answer.new }
    ensures ends { result < 2 → AreEnds 0 bytes.now ends.now }
    ensures refused { 1 < result → IsRefusedMerge id.now uid.now bytes.now ends.now answer.new }
    ensures status { 1 < result → result ≡ answer.new.fault }
    ensures same { result ≢ 0 → note_rooms rows.new text_ends.new text.new sum.new
        ≡ note_rooms rows.old text_ends.old text.old sum.old }
{
    dd_making::notes(
        alloc, bytes, ends, id, uid, rows, text_ends, text, sum, answer,
    )
}

/// Gives the directory in `bytes` with these instances withdrawn, whose UIDs end at `uid_ends`.
#[unsafe(no_mangle)]
pub extern "C" fn dicomdir_withdraw(
    alloc: Global,
    bytes: &[u8],
    uids: &[u8],
    uid_ends: &[u64],
    id: &[u8],
    uid: &[u8],
    text: &mut [u8],
    sets: &mut [u64],
    file_ends: &mut [u64],
    files: &mut [u8],
    answer: &mut Answer,
) -> u32
    ensures made { result ≡ 0 → GivesMade id.now uid.now (cuts 0 uids.now uid_ends.now) (bytes.now ∷ [])
        (rooms text.old sets.old file_ends.old files.old)
        (rooms text.new sets.new file_ends.new files.new) answer.new }
    ensures room { result ≡ 1 → LacksRoom id.now uid.now (cuts 0 uids.now uid_ends.now) (bytes.now ∷ [])
        (rooms text.old sets.old file_ends.old files.old) answer.new }
    ensures ends { result < 2 → AreEnds 0 uids.now uid_ends.now }
    ensures uids { result < 2 → AllByRecursion IsUid (cuts 0 uids.now uid_ends.now) }
    ensures refused { 1 < result
        → IsRefusedWithdrawal id.now uid.now bytes.now uids.now uid_ends.now answer.new }
    ensures status { 1 < result → result ≡ answer.new.fault }
    ensures same { result ≢ 0 → rooms text.new sets.new file_ends.new files.new
        ≡ rooms text.old sets.old file_ends.old files.old }
{
    dd_making::withdraw(
        alloc, bytes, uids, uid_ends, id, uid, text, sets, file_ends, files, answer,
    )
}
