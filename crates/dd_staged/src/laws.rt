//! What holds of every stage. Each function states a law, and does nothing.

ghost use Rattle.std.specs.Prelude.{◌≡◌, ◌++◌, ℕ, List, length};
ghost use Rattle.sha2.specs.Sha256.{sha256};
ghost use Rattle.dd_staged.specs.Sources.{IsSource, Source};
ghost use Rattle.dd_staged.specs.Stages.{IsStage, source_elements, source_items, stage_set, stage_text};
ghost use Rattle.dd_staged.specs.Worked.{digest_header, end_bytes, item_bytes, one_slice, one_source, opening_bytes};
ghost use Rattle.dd_staged.specs.Worked.{slice_block, slice_front, slice_rest};
ghost use Rattle.dd_staged.specs.Values.{source_in};
ghost use Rattle.dd_encoding.specs.Elements.{elements_of};
ghost use Rattle.dd_encoding.specs.Spelling.{Spells};
ghost use Rattle.dd_encoding.specs.declared.syntax.Syntax.TheVariants.{Explicit};

/// An item says the source that it was made of.
pub fn item_says_its_source()
    ensures { (source : Source) → IsSource source
        → source_in (elements_of (source_elements source)) ≡ source }
{}

/// A stage is the spelling of its data set.
pub fn stage_is_a_set()
    ensures { (bytes : List ℕ) (sources : List Source) → IsStage bytes sources
        → Spells Explicit (stage_set (source_items sources)) bytes }
{}

/// Bytes spell one list at most.
pub fn stage_has_one_list()
    ensures { (bytes : List ℕ) (one other : List Source) → IsStage bytes one → IsStage bytes other
        → one ≡ other }
{}

/// One source that is no DICOM file has this spelling, of 210 bytes.
pub fn one_source_is_spelled()
    ensures text { let list = opening_bytes ++ (item_bytes ++ end_bytes)
        in stage_text one_source ≡ list ++ (digest_header ++ sha256 list) }
    ensures size { length (stage_text one_source) ≡ 210 }
{}

/// One source with a version has this spelling, of 450 bytes.
pub fn one_slice_is_spelled()
    ensures text { let list = opening_bytes ++ (slice_front ++ (slice_block ++ (slice_rest ++ end_bytes)))
        in stage_text one_slice ≡ list ++ (digest_header ++ sha256 list) }
    ensures size { length (stage_text one_slice) ≡ 450 }
{}
