ghost use Rattle.std.specs.Prelude.{◌≡◌, IsErr, IsOk, OnOk};
ghost use Rattle.dd_elem.specs.Device.{HasFailed};
ghost use Rattle.dd_json.specs.Values.{json_line};
ghost use Rattle.dd_lines.specs.Text.{TakesText};
ghost use Rattle.dicomdir.specs.Stages.{staged_json};

use dd_elem::Write;
use dd_json::{Json, print_json};
use dd_pile::StageSum;
use std::fmt;

/// Prints how many sources a pile has, how many of them have no version, and how many bytes the others have.
pub(crate) fn print_staged<O: Write>(sum: &StageSum, out: &mut O) -> fmt::Result
    ensures told { OnOk result (TakesText O.Write out.old out.new (json_line (staged_json sum.now))) }
    ensures worked { IsOk result → O.failures out.new ≡ O.failures out.old }
    ensures failed { IsErr result → HasFailed (O.failures out.old) (O.failures out.new) }
{
    print_json(
        &Json::Object(&[
            ("line", Json::Text("DONE")),
            ("sources", Json::Number(sum.sources as u64)),
            ("skipped", Json::Number(sum.skipped as u64)),
            ("image_bytes", Json::Number(sum.bytes)),
        ]),
        out,
    )
}
