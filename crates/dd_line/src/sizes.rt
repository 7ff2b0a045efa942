//! Numbers of bytes: `650M`, as coreutils have them.
ghost use Rattle.std.specs.Prelude.{◌≡◌, ◌≤◌, ℕ, IfSome, None};
ghost use Rattle.dd_line.specs.Line.{IsNoLimit, most_bytes};
ghost use Rattle.dd_line.specs.Sizes.{IsCut, IsNumber, IsSize};

/// Gives the number of bytes, or none where the text is no such number, or it is more than a `u32` holds.
pub(crate) fn size_in(text: &str) -> Option<u32>
    ensures some { IfSome result (IsSize text.now) }
    ensures none { result ≡ None → IsNoLimit text.now }
{
    let (digits, unit) = parts(text);
    let number = number_in(digits)?;
    number.checked_mul(unit)
}

/// Cuts the text before the letter of its unit, and gives the bytes of the unit.
fn parts(text: &str) -> (&str, u32)
    ensures { IsCut text.entry.now result.0.now result.1 }
{
    if let Some(digits) = text.strip_suffix('K') {
        return (digits, 1 << 10);
    }
    if let Some(digits) = text.strip_suffix('k') {
        return (digits, 1 << 10);
    }
    if let Some(digits) = text.strip_suffix('M') {
        return (digits, 1 << 20);
    }
    match text.strip_suffix('G') {
        Some(digits) => (digits, 1 << 30),
        None => (text, 1),
    }
}

fn number_in(text: &str) -> Option<u32>
    ensures some { IfSome result (IsNumber text.now) }
    ensures none { result ≡ None → (number : ℕ) → number ≤ most_bytes → ¬ IsNumber text.now number }
{
    let number = text.parse::<i64>().ok()?;
    u32::try_from(number).ok()
}
