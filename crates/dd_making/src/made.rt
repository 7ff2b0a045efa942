//! A directory that was made of others, and where the files of its images are.

ghost use Rattle.std.specs.Prelude.{◌≡◌, ◌≢◌, ◌⊎◌, IfErr, IfOk, map};
ghost use Rattle.dd_calls.specs.Sizes.{by_number};
ghost use Rattle.dd_calls.specs.Texts.{AreTexts};
ghost use Rattle.dd_making.specs.Merges.{IsMadeOf, IsWider, LiesIn, files_in, made_size, rooms, sets_in};

use crate::writing::directory_bytes;
use dd_calls::{Answer, DONE, MEMORY, ROOM, Texts};
use dd_elem::Memory;
use dd_engine::{Merged, Pick};
use std::alloc::Global;

/// Holds the bytes of a directory, and of each of its images the number of the set that has its file, and the File ID
/// there.
#[derive(Drop)]
pub(crate) struct Made {
    pub(crate) text: Vec<u8>,
    pub(crate) sets: Vec<u64>,
    pub(crate) files: Texts,
}

impl Made {
    /// Makes this of what was merged. 91 where an allocation is refused.
    pub(crate) fn of(alloc: Global, merged: &Merged<'_>) -> Result<Made, Answer>
        ensures made { IfOk result (IsMadeOf merged.now) }
        ensures memory { IfErr result (λ answer. answer ≡ by_number 91) }
    {
        match Made::try_of(alloc, merged) {
            Ok(made) => Ok(made),
            Err(_) => Err(Answer::of_number(MEMORY)),
        }
    }

    fn try_of(alloc: Global, merged: &Merged<'_>) -> Result<Made, Memory>
        ensures { IfOk result (IsMadeOf merged.now) }
    {
        let text = directory_bytes(alloc, &merged.plan)?;
        let (sets, files) = files_of(alloc, &merged.picks)?;
        Ok(Made { text, sets, files })
    }

    /// Gives all of it to the fronts of these and answers 0, where each part fits; else 1, and they are as before.
    /// `answer` has its sizes.
    pub(crate) fn give(
        &self,
        text: &mut [u8],
        sets: &mut [u64],
        file_ends: &mut [u64],
        files: &mut [u8],
        answer: &mut Answer,
    ) -> u32
        ensures lies { result ≡ 0 → LiesIn self.now (rooms text.old sets.old file_ends.old files.old)
            (rooms text.new sets.new file_ends.new files.new) }
        ensures wider { result ≢ 0 → IsWider self.now (rooms text.old sets.old file_ends.old files.old) }
        ensures same { result ≢ 0 → rooms text.new sets.new file_ends.new files.new
            ≡ rooms text.old sets.old file_ends.old files.old }
        ensures status { (result ≡ 0) ⊎ (result ≡ 1) }
        ensures size { answer.new ≡ made_size self.now }
    {
        let (bytes, count, names) = (self.text.len(), self.sets.len(), self.files.text.len());
        *answer = Answer::sized(bytes as u64, count as u64, names as u64);
        if bytes > text.len() || count > sets.len() || !self.files.give(files, file_ends) {
            return ROOM;
        }
        text[..bytes].copy_from_slice(&self.text);
        sets[..count].copy_from_slice(&self.sets);
        DONE
    }
}

/// Lists the set of each pick, and its File ID.
fn files_of(alloc: Global, picks: &[Pick<'_>]) -> Result<(Vec<u64>, Texts), Memory>
    ensures sets { IfOk result (λ files. files.0.items ≡ sets_in picks.now) }
    ensures files { IfOk result (λ files. AreTexts (files_in picks.now) files.1) }
{
    let mut sets = Vec::new(alloc);
    let mut files = Texts::new(alloc);
    for pick in picks {
        sets.push(pick.set as u64)?;
        files.put(pick.file)?;
    }
    Ok((sets, files))
}
