ghost use Rattle.std.specs.Prelude.{◌≡◌, ◌≤◌, ◌↔◌, ◌++◌, List, ℕ, codes, length, take, IsOk, IfOk, IsTrue};
ghost use Rattle.dd_elem.specs.Digests.{uid_of_digest, uuid_of, uuid_octets};
ghost use Rattle.dd_elem.specs.Characters.{is_digit};
ghost use Rattle.dd_elem.specs.Uid.{IsUid, is_uid, is_component, max_uid_length};
ghost use Rattle.std.specs.List.{list_all};
ghost use Rattle.dd_elem.specs.InPlace.{filled, IsFilled, fields_back};

use crate::in_place::fill;
use itoa::Buffer;
use std::marker::Model;
use thiserror::Error;

const MAX_LENGTH: usize = 64;

/// A unique identifier (PS3.5 section 9.1).
#[derive(Clone, Copy, Debug, PartialEq, Eq)]
pub struct Uid {
    bytes: [u8; MAX_LENGTH],
    len: u8,
}

impl Model for Uid {
    ghost Value = { List ℕ };

    ghost view = { λ uid. take uid.len uid.bytes };

    ghost invariant = { λ uid. IsFilled max_uid_length uid.bytes uid.len
        × IsTrue (is_uid (take uid.len uid.bytes)) };

    ghost inverse = { λ bytes. record { bytes = filled max_uid_length bytes; len = length bytes } };

    ghost inverse_ok = { λ uid valid. fields_back max_uid_length uid.bytes uid.len
        (λ bytes len. record {
          bytes = bytes;
          len = len;
        }) valid.0 };
}

/// The bytes are no UID.
#[derive(Clone, Copy, Debug, PartialEq, Eq, Error)]
#[error("71 BadUid")]
pub struct BadUid;

const PREFIX: &[u8; 5] = b"2.25.";

impl Uid {
    /// Makes the UID of these characters. Refused where they are not 1 to 64, in components of digits joined by `.`.
    /// A component may not be empty, nor have a leading `0` before other digits (PS3.5 section 9.1).
    #[tactic(auto, using(crate::proofs::UidForm::is_uid_decides))]
    pub fn new(bytes: &[u8]) -> Result<Uid, BadUid>
        ensures accepted { IsOk result ↔ IsUid bytes.now }
        ensures value { IfOk result (λ uid. uid ≡ bytes.now) }
        ensures decided { IsTrue (is_uid bytes.now) ↔ IsUid bytes.now }
    {
        if !has_form(bytes) {
            return Err(BadUid);
        }
        Ok(Uid {
            bytes: fill(bytes),
            len: bytes.len() as u8,
        })
    }

    /// Makes the UID of a digest: `2.25.` and, in decimal, a UUID of version 8 (RFC 9562, PS3.5 section B.2). The
    /// UUID is the first 16 bytes but for the bits of version and variant.
    pub fn from_digest(digest: &[u8; 32]) -> Uid
        ensures value { result ≡ uid_of_digest digest.now }
        ensures valid { IsUid result }
    {
        let mut digits = Buffer::new();
        let number = digits.format(uuid_of(digest)).as_bytes();
        Uid {
            bytes: uid_bytes(number),
            len: (PREFIX.len() + number.len()) as u8,
        }
    }

    /// Gives the characters, 1 to 64.
    #[tactic(auto, using(crate::proofs::UidForm::IsUid_from_is_uid))]
    pub fn as_bytes(&self) -> &[u8]
        ensures value { result.now ≡ self.now }
        ensures valid { IsUid self.now }
    {
        &self.bytes[..usize::from(self.len)]
    }
}

fn uuid_of(digest: &[u8; 32]) -> u128
    ensures { result ≡ uuid_of digest.now }
{
    u128::from_be_bytes(uuid_octets(digest))
}

fn uuid_octets(digest: &[u8; 32]) -> [u8; 16]
    ensures { result ≡ uuid_octets digest.now }
{
    let mut octets = [0; 16];
    octets.copy_from_slice(&digest[..16]);
    octets[6] = 0x80 | digest[6] & 0x0f;
    octets[8] = 0x80 | digest[8] & 0x3f;
    octets
}

fn uid_bytes(number: &[u8]) -> [u8; MAX_LENGTH]
    requires { length number.now ≤ 59 }
    ensures { result ≡ filled max_uid_length (codes "2.25." ++ number.now) }
{
    let mut bytes = fill(PREFIX);
    bytes[PREFIX.len()..PREFIX.len() + number.len()].copy_from_slice(number);
    bytes
}

fn has_form(bytes: &[u8]) -> bool
    ensures test { result ≡ is_uid bytes.now }
    ensures form { IsTrue result ↔ IsUid bytes.now }
{
    bytes.len() <= MAX_LENGTH && bytes.split(|byte| *byte == b'.').all(is_component)
}

fn is_component(bytes: &[u8]) -> bool
    ensures { result ≡ is_component bytes.now }
{
    match bytes {
        [] => false,
        [b'0', _, ..] => false,
        digits => are_digits(digits),
    }
}

fn are_digits(bytes: &[u8]) -> bool
    ensures { result ≡ list_all is_digit bytes.now }
{
    bytes.iter().all(u8::is_ascii_digit)
}
