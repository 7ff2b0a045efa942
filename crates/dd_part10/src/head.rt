ghost use Rattle.std.specs.Prelude.{◌≡◌, ℕ, ◌++◌, List, length, Some};
ghost use Rattle.dd_elem.specs.Uid.{IsUid};
ghost use Rattle.dd_encoding.specs.Elements.{Elements};
ghost use Rattle.dd_encoding.specs.Head.{head_text};
ghost use Rattle.dd_encoding.specs.Spelling.{Spells};
ghost use Rattle.dd_encoding.specs.Syntaxes.{syntax_of};
ghost use Rattle.dd_encoding.specs.declared.meta.Meta.{Meta};
ghost use Rattle.dd_encoding.specs.declared.syntax.Syntax.{Syntax};
ghost use Rattle.dd_part10.specs.File.{StartsAbove, IsFile};

/// States a law, and does nothing: a head with a data set after it is a file with its meta information and that set.
pub fn head_makes_file()
    ensures { (meta : Meta) (syntax : Syntax) (set : Elements) (text : List ℕ)
        → IsUid meta.class → IsUid meta.instance → IsUid meta.transfer
        → syntax_of meta.transfer ≡ Some syntax
        → Spells syntax set text → StartsAbove set
        → IsFile (head_text meta ++ text) meta set (length (head_text meta)) }
{}
