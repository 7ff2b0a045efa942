ghost use Rattle.std.specs.Prelude.{◌≡◌, ◌==◌, ◌↔◌, IsTrue, count_by};
ghost use Rattle.std.specs.List.{list_all, slice_split};
ghost use Rattle.dd_elem.specs.FileIdForm.{IsFileId, is_file_id_component, is_file_id_form};

use crate::characters::are_id_characters;

const MAX_COMPONENTS: usize = 8;

const MAX_COMPONENT_LENGTH: usize = 8;

/// Says whether the bytes are a File ID, whoever wrote it: 1 to 8 components joined by `\` (PS3.10 sections 8.2 and
/// 8.5). Each has 1 to 8 characters of `A` to `Z`, `0` to `9` and `_`.
#[tactic(auto, using(crate::proofs::FileIdForms::form_decides), unfolding(crate::specs::FileIdForm::is_file_id_form))]
pub fn is_file_id(bytes: &[u8]) -> bool
    ensures form { IsTrue result ↔ IsFileId bytes.now }
    ensures test { result ≡ is_file_id_form bytes.now }
{
    separators(bytes) < MAX_COMPONENTS && are_components(bytes)
}

fn separators(bytes: &[u8]) -> usize
    ensures { result ≡ count_by (λ byte. byte == 92) bytes.now }
{
    bytes.iter().filter(|byte| **byte == b'\\').count()
}

fn are_components(bytes: &[u8]) -> bool
    ensures { result ≡ list_all is_file_id_component (slice_split (λ byte. byte == 92) bytes.now) }
{
    bytes.split(|byte| *byte == b'\\').all(is_component)
}

fn is_component(bytes: &[u8]) -> bool
    ensures { result ≡ is_file_id_component bytes.now }
{
    (1..=MAX_COMPONENT_LENGTH).contains(&bytes.len()) && are_id_characters(bytes)
}
