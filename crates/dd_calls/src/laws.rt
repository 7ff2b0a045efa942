//! What holds of files that are given by a head. The function states a law, and does nothing.

ghost use Rattle.std.specs.Prelude.{◌≡◌, ◌++◌, List, ℕ};
ghost use Rattle.sha2.specs.Sha256.{sha256};
ghost use Rattle.dd_part10.specs.Reading.{file_in};
ghost use Rattle.dd_report.specs.Agreements.{Standing};
ghost use Rattle.dd_report.specs.declared.checking.Comparison.{Comparison};
ghost use Rattle.dd_calls.specs.Findings.{found_given};
ghost use Rattle.dd_calls.specs.Heads.{SayTheSame};

/// Proves that a file given by its digest and a head has the finding that it has where it is given whole. The head is a
/// DICOM file with the values of the file at all tags that are compared.
pub fn heads_stand_for_files()
    ensures { (comparison : Comparison) (standing : Standing) (head given : List ℕ)
        → SayTheSame (file_in head) (file_in given)
        → found_given comparison standing 4 (sha256 given ++ head) ≡ found_given comparison standing 2 given }
{}
