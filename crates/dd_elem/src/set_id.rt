ghost use Rattle.std.specs.Prelude.{◌≡◌, ◌↔◌, List, ℕ, length, take, IsOk, IfOk, IsTrue};
ghost use Rattle.dd_elem.specs.InPlace.{filled, IsFilled, fields_back};
ghost use Rattle.dd_elem.specs.SetId.{IsSetId, is_set_id, max_set_id_length};

use crate::characters::are_id_characters;
use crate::in_place::fill;
use std::marker::Model;
use thiserror::Error;

const MAX_LENGTH: usize = 16;

/// The ID of a file-set: 0 to 16 characters of `A` to `Z`, `0` to `9` and `_` (PS3.3 section F.3.2.1). These are the
/// characters of CS in PS3.5 section 6.2, without the space.
#[derive(Clone, Copy, Debug, PartialEq, Eq)]
pub struct SetId {
    bytes: [u8; MAX_LENGTH],
    len: usize,
}

impl Model for SetId {
    ghost Value = { List ℕ };

    ghost view = { λ id. take id.len id.bytes };

    ghost invariant = { λ id. IsFilled max_set_id_length id.bytes id.len
        × IsTrue (is_set_id (take id.len id.bytes)) };

    ghost inverse = { λ bytes. record { bytes = filled max_set_id_length bytes; len = length bytes } };

    ghost inverse_ok = { λ id valid. fields_back max_set_id_length id.bytes id.len
        (λ bytes len. record {
          bytes = bytes;
          len = len;
        }) valid.0 };
}

/// The bytes are no ID of a file-set.
#[derive(Clone, Copy, Debug, PartialEq, Eq, Error)]
#[error("72 BadSetId")]
pub struct BadSetId;

impl SetId {
    /// Makes the ID of these characters. Refused where they are more than 16, or one is not allowed.
    #[tactic(auto, using(crate::proofs::SetIdForm::is_set_id_decides))]
    pub fn new(bytes: &[u8]) -> Result<SetId, BadSetId>
        ensures accepted { IsOk result ↔ IsSetId bytes.now }
        ensures value { IfOk result (λ id. id ≡ bytes.now) }
        ensures decided { IsTrue (is_set_id bytes.now) ↔ IsSetId bytes.now }
    {
        if !has_form(bytes) {
            return Err(BadSetId);
        }
        Ok(SetId {
            bytes: fill(bytes),
            len: bytes.len(),
        })
    }

    /// Gives the characters.
    #[tactic(auto, using(crate::proofs::SetIdForm::IsSetId_from_is_set_id))]
    pub fn as_bytes(&self) -> &[u8]
        ensures value { result.now ≡ self.now }
        ensures valid { IsSetId self.now }
    {
        &self.bytes[..self.len]
    }
}

fn has_form(bytes: &[u8]) -> bool
    ensures test { result ≡ is_set_id bytes.now }
    ensures form { IsTrue result ↔ IsSetId bytes.now }
{
    bytes.len() <= MAX_LENGTH && are_id_characters(bytes)
}
