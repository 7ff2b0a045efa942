//! What holds of every data set and its bytes.

ghost use Rattle.std.specs.Prelude.{◌≡◌, ◌<◌, ◌≤◌, ◌^◌, ◌++◌, ◌↔◌, ℕ, List, length, Some, None};
ghost use Rattle.dd_stream.specs.Bytes.{AreBytes};
ghost use Rattle.dd_encoding.specs.Elements.{Elements};
ghost use Rattle.dd_set.specs.Memory.{WantsMemory};
ghost use Rattle.dd_grammar.specs.Reading.{first_fault};
ghost use Rattle.dd_encoding.specs.Spelling.{Spells};
ghost use Rattle.dd_grammar.specs.declared.fault.SetFault.TheVariants.{Truncated};
ghost use Rattle.dd_encoding.specs.declared.syntax.Syntax.{Syntax};

/// Bytes pass every check exactly where they spell a set.
pub fn no_fault_is_a_set()
    ensures { (syntax : Syntax) (bytes : List ℕ) → AreBytes bytes → length bytes < 2 ^ 64
        → (first_fault syntax bytes ≡ None) ↔ ((set : Elements) × Spells syntax set bytes) }
{}

/// The front of a spelling, where it is no spelling itself, is refused as Truncated.
pub fn front_is_truncated()
    ensures { (syntax : Syntax) (set : Elements) (front more : List ℕ) → AreBytes front
        → Spells syntax set (front ++ more)
        → ((other : Elements) → ¬ Spells syntax other front)
        → first_fault syntax front ≡ Some Truncated }
{}

/// A set has at most one spelling.
pub fn set_has_one_spelling()
    ensures { (syntax : Syntax) (set : Elements) (a b : List ℕ) → Spells syntax set a
        → Spells syntax set b → a ≡ b }
{}

/// Bytes spell at most one set.
pub fn bytes_spell_one_set()
    ensures { (syntax : Syntax) (a b : Elements) (bytes : List ℕ) → Spells syntax a bytes
        → Spells syntax b bytes
        → a ≡ b }
{}

/// Reading allocates only after a whole header at least.
pub fn memory_wants_a_header()
    ensures { (syntax : Syntax) (bytes : List ℕ) → WantsMemory syntax bytes → 8 ≤ length bytes }
{}
