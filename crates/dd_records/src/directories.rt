//! What holds of every directory. Each function states a law, and does nothing.

ghost use Rattle.std.specs.Prelude.{◌≡◌, ◌+◌, ◌<◌, ◌≤◌, ◌++◌, ℕ, List, All, length, map, sum_by};
ghost use Rattle.dd_elem.specs.SetId.{max_set_id_length};
ghost use Rattle.dd_encoding.specs.Head.{head_text};
ghost use Rattle.dd_encoding.specs.Elements.{Element, elements_of};
ghost use Rattle.dd_encoding.specs.Spelling.{AreElements, max_levels, undefined_length};
ghost use Rattle.dd_encoding.specs.declared.syntax.Syntax.TheVariants.{Explicit};
ghost use Rattle.dd_records.specs.declared.label.Label.{Label};
ghost use Rattle.dd_records.specs.Directory.{directory_elements, first_offset, meta_of};
ghost use Rattle.dd_records.specs.Records.{IsRecord, record_item};
ghost use Rattle.dd_records.specs.Sizes.{elements_size, record_size};
ghost use Rattle.dd_records.specs.Withdrawals.{withdrawal_elements, withdrawals_size};

/// A directory has as many bytes as stand before its first record, and as its records and the elements with the
/// withdrawn UIDs take together, whatever its offsets are.
pub fn directory_is_as_long_as_its_records()
    ensures { (label : Label) (first last : ℕ) (records : List (List Element))
        (withdrawn : List (List ℕ))
        → length (head_text (meta_of label))
        + elements_size (directory_elements label.id first last (map record_item records)
        ++ withdrawal_elements withdrawn)
        ≡ first_offset label + sum_by record_size records + withdrawals_size withdrawn }
{}

/// The elements of a directory are a data set on two conditions. The elements of each record are one too. The records,
/// and the elements with the withdrawn UIDs, take fewer bytes than the mark of an undefined length.
pub fn directory_is_a_data_set()
    ensures { (id : List ℕ) (first last : ℕ) (records : List (List Element))
        (withdrawn : List (List ℕ))
        → length id ≤ max_set_id_length
        → All IsRecord records → sum_by record_size records < undefined_length
        → withdrawals_size withdrawn < undefined_length
        → AreElements Explicit max_levels 0 (elements_of
        (directory_elements id first last
        (map record_item records) ++ withdrawal_elements withdrawn)) }
{}
