ghost use Rattle.std.specs.Prelude.{◌≡◌, IfOk, false, map, string_bytes};
ghost use Rattle.std.specs.List.{list_any};
ghost use Rattle.dd_lines.specs.Text.{masked, masked_char};
ghost use Rattle.dd_refusals.specs.MaskedWords.{has_control};

use dd_elem::Memory;
use std::alloc::Global;

pub(crate) fn have_control(words: &[String]) -> bool
    ensures { result ≡ list_any (λ word. has_control (string_bytes word)) words.now }
{
    words.iter().any(|word| has_control(word.as_str()))
}

fn has_control(text: &str) -> bool
    ensures { result ≡ has_control text.now }
{
    text.chars().any(char::is_control)
}

/// Copies the words, with `?` for each control character.
pub(crate) fn mask_words(alloc: Global, words: &[String]) -> Result<Vec<String>, Memory>
    ensures masked { IfOk result (λ shown. map (λ word. string_bytes word) shown.items
        ≡ map (λ word. masked (string_bytes word)) words.now) }
    ensures clear { IfOk result (λ shown.
        list_any (λ word. has_control (string_bytes word)) shown.items ≡ false) }
{
    let mut shown = Vec::with_capacity(alloc, words.len())?;
    for word in words {
        shown.push(mask(alloc, word.as_str())?)?;
    }
    Ok(shown)
}

fn mask(alloc: Global, text: &str) -> Result<String, Memory>
    ensures masked { IfOk result (λ shown. string_bytes shown ≡ masked text.now) }
    ensures clear { IfOk result (λ shown. has_control (string_bytes shown) ≡ false) }
{
    Ok(text.chars().map(masked_char).collect(alloc)?)
}

fn masked_char(c: char) -> char
    ensures { result ≡ masked_char c }
{
    if c.is_control() { '?' } else { c }
}
