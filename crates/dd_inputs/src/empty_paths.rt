ghost use Rattle.std.specs.Prelude.{◌≡◌, ◌<◌, ℕ, [], None, Some, IfSome, length, ◌⊎◌, IsSomeAnd};
ghost use Rattle.dd_inputs.specs.EmptyPaths.{IsEmptyAt, IsFirstEmpty, IsOfEmptyPath};
ghost use Rattle.dd_faults.specs.Refusal.{IsOfWork};

use dd_faults::{ProgramFault, Refusal, Subject};

pub(crate) fn first_empty(paths: &[String]) -> Option<usize>
    ensures empty { IfSome result (IsEmptyAt paths.now) }
    ensures first { IfSome result (λ at.
        (before : ℕ) → before < at → ¬ IsEmptyAt paths.now before) }
    ensures none { result ≡ None → (at : ℕ) → ¬ IsEmptyAt paths.now at }
{
    for (at, path) in paths.iter().enumerate() {
        if path.is_empty() {
            return Some(at);
        }
    }
    None
}

/// Gives the refusal of a request with an empty path: 95 of the folder that it writes to, or else 92 of the first of
/// these paths.
pub fn empty_path(folder: Option<&str>, sources: &[String]) -> Option<Refusal>
    ensures folder { IfSome folder.entry (λ folder. folder.now ≡ []
        → result ≡ Some (record { subject = Subject.Folder; fault = ProgramFault.Folder })) }
    ensures source { IfSome folder.entry (λ folder. ¬ (folder.now ≡ []))
        → (at : ℕ) → IsFirstEmpty sources.now at
        → result ≡ Some (record { subject = Subject.Source at; fault = ProgramFault.Absent }) }
    ensures none { IfSome folder.entry (λ folder. ¬ (folder.now ≡ []))
        → ((at : ℕ) → ¬ IsEmptyAt sources.now at) → result ≡ None }
    ensures some { IfSome result (λ _. IsSomeAnd folder.entry (λ folder. folder.now ≡ [])
        ⊎ ((at : ℕ) × IsEmptyAt sources.now at)) }
    ensures fault { IfSome result (λ refusal. IsOfEmptyPath refusal.fault) }
    ensures work { IfSome result (λ refusal. IsOfWork (length sources.now) refusal) }
    ensures folders { result ≡ None → IfSome folder.entry (λ folder. ¬ (folder.now ≡ [])) }
    ensures sources { result ≡ None → (at : ℕ) → ¬ IsEmptyAt sources.now at }
{
    if let Some(folder) = folder
        && folder.is_empty()
    {
        return Some(Refusal::of(Subject::Folder, ProgramFault::Folder));
    }
    match first_empty(sources) {
        Some(at) => Some(Refusal::of(Subject::Source(at), ProgramFault::Absent)),
        None => None,
    }
}
