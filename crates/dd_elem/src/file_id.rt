ghost use Rattle.std.specs.Prelude.{◌≡◌, ◌↔◌, IsTrue, SomeIff};
ghost use Rattle.dd_elem.specs.FileId.{AreRanks, IsRank, Ranks, ranks_of, text_of};

use std::marker::Model;

/// The File ID of an image: the ranks, 1 to 999,999, of its patient, study, series and image, each within its parent.
/// Its text has four components of 8 characters (PS3.10 section 8.2).
#[derive(Clone, Copy, Debug, PartialEq, Eq)]
pub struct FileId {
    patient: u32,
    study: u32,
    series: u32,
    image: u32,
}

impl Model for FileId {
    ghost Value = { Ranks };

    ghost view = { λ id. ranks_of id.patient id.study id.series id.image };

    ghost invariant = { λ id. AreRanks (ranks_of id.patient id.study id.series id.image) };

    ghost inverse = { λ ranks. record {
      patient = ranks.patient;
      study = ranks.study;
      series = ranks.series;
      image = ranks.image;
    } };
}

impl FileId {
    pub const MAX_RANK: u32 = 999_999;

    /// Makes the File ID of these ranks, or None where one is 0 or above 999,999.
    pub fn ranked(patient: u32, study: u32, series: u32, image: u32) -> Option<FileId>
        ensures { let ranks = ranks_of patient study series image in SomeIff result
            (AreRanks ranks) ranks }
    {
        if is_rank(patient) && is_rank(study) && is_rank(series) && is_rank(image) {
            Some(FileId {
                patient,
                study,
                series,
                image,
            })
        } else {
            None
        }
    }

    /// Gives the text `PTnnnnnn\STnnnnnn\SEnnnnnn\IMnnnnnn`, in decimal digits.
    pub fn text(&self) -> [u8; 35]
        ensures exact { result ≡ text_of self.now }
        ensures ranked { AreRanks self.now }
    {
        let mut text = *b"PT000000\\ST000000\\SE000000\\IM000000";
        itoa::write_digits(u64::from(self.patient), &mut text, 8);
        itoa::write_digits(u64::from(self.study), &mut text, 17);
        itoa::write_digits(u64::from(self.series), &mut text, 26);
        itoa::write_digits(u64::from(self.image), &mut text, 35);
        text
    }
}

fn is_rank(number: u32) -> bool
    ensures { IsTrue result ↔ IsRank number }
{
    (1..=FileId::MAX_RANK).contains(&number)
}
