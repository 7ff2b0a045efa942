//! Files, compared with their directory.

ghost use Rattle.std.specs.Prelude.{◌≡◌, ◌≢◌, ◌<◌, ◌==◌, length, not};
ghost use Rattle.dd_calls.specs.Answers.{IsRefused};
ghost use Rattle.dd_calls.specs.Findings.{FindingsGiven, IsAmiss};
ghost use Rattle.dd_calls.specs.Sizes.{by_number, sized};

use dd_calls::{Answer, FindingRow, GivenFile};
use dd_report::Comparison;
use std::alloc::Global;

/// Gives what a check finds of these files, whose records stand in the directory `bytes`: with `keys` and `strict` as
/// with `--keys` and `--strict`, where they are not 0.
#[unsafe(no_mangle)]
pub extern "C" fn dicomdir_findings(
    alloc: Global,
    bytes: &[u8],
    files: &[GivenFile],
    contents: &[u8],
    keys: u32,
    strict: u32,
    findings: &mut [FindingRow],
    answer: &mut Answer,
) -> u32
    ensures given { result ≡ 0 → FindingsGiven bytes.now
        (record { keys = not (keys == 0); strict = not (strict == 0) }) files.now contents.now
        findings.old findings.new answer.new }
    ensures room { result ≡ 1 → (length findings.old < length files.now)
        × (answer.new ≡ sized 0 (length files.now) 0) }
    ensures amiss { result ≡ 2 → IsAmiss bytes.now
        (record { keys = not (keys == 0); strict = not (strict == 0) }) files.now contents.now
        × (answer.new ≡ by_number 2) }
    ensures refused { result ≢ 0 → result ≢ 1 → result ≢ 2 → IsRefused bytes.now result answer.new }
    ensures same { result ≢ 0 → findings.new ≡ findings.old }
{
    let comparison = Comparison {
        keys: keys != 0,
        strict: strict != 0,
    };
    dd_calls::findings(alloc, bytes, files, contents, comparison, findings, answer)
}
