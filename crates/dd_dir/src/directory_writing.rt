//! Directories sent to a writer.

ghost use Rattle.std.specs.Prelude.{◌≡◌, ◌-◌, ◌<◌, ◌^◌, List, IfOk, IsOk, length};
ghost use Rattle.std.specs.List.{AllByRecursion};
ghost use Rattle.dd_catalogue.specs.Best.{IsRising};
ghost use Rattle.dd_catalogue.specs.Harmony.{harmonised};
ghost use Rattle.dd_catalogue.specs.Versions.{IsCatalogue};
ghost use Rattle.dd_elem.specs.Ordered.{bytes_cmp};
ghost use Rattle.dd_elem.specs.SetId.{IsSetId};
ghost use Rattle.dd_elem.specs.Uid.{IsUid};
ghost use Rattle.dd_version.specs.declared.parts.Parts.{Parts};
ghost use Rattle.dd_records.specs.Directory.{first_offset};
ghost use Rattle.dd_layout.specs.Plans.{records_end, size};
ghost use Rattle.dd_stream.specs.Sends.{SendsTo};
ghost use Rattle.dd_dir.specs.Directories.{IsDirectory, OffsetsWithin, directory_of, opening_text};
ghost use Rattle.dd_dir.specs.SaysItself.{SaysItself};
ghost use Rattle.dd_dir.specs.Visits.{Realises};

use crate::cells::send_cells;
use crate::records::send_records;
use crate::roots::{first_root, last_root};
use crate::withdrawal_writing::send_withdrawals;
use dd_elem::{Vr, Write};
use dd_encoding::{send_header, write_head};
use dd_layout::Plan;
use dd_records::{RECORDS, directory_meta, first_offset, front_cells, withdrawals_size};
use dd_stream::WriteFault;

/// Sends the bytes of the directory, and answers how many they are (PS3.3 section F.3.2, PS3.10 section
/// 8.6). 12 Write where the writer failed, with how many of the bytes went before.
pub fn write_directory<W: Write>(plan: &Plan, writer: &mut W) -> Result<u64, WriteFault>
    ensures sends { let text = directory_of plan.now.label plan.now.versions plan.now.withdrawn
        in SendsTo W.Write text 0 result writer.old writer.new }

    ensures short { length (directory_of plan.now.label plan.now.versions plan.now.withdrawn)
        < 2 ^ 32 }

    ensures size { IfOk result (λ n. n ≡ size plan.now.label plan.now.versions plan.now.withdrawn) }
    ensures file { IsOk result → IsDirectory plan.now.label plan.now.versions plan.now.withdrawn }
    ensures within { IfOk result (λ n. OffsetsWithin n plan.now.label plan.now.versions) }

    // Where the versions are in harmony, the bytes say them again, and the withdrawn UIDs where these rise.
    ensures realised { IsOk result → (m : List Parts) → IsCatalogue m
        → plan.now.versions ≡ harmonised m
        → Realises plan.now.label m
        (directory_of plan.now.label plan.now.versions plan.now.withdrawn) }
    ensures own { IsOk result → (m : List Parts) → IsCatalogue m → plan.now.versions ≡ harmonised m
        → IsRising (λ uid. uid) bytes_cmp plan.now.withdrawn → SaysItself m plan.now.withdrawn
        (directory_of plan.now.label plan.now.versions plan.now.withdrawn) }
{
    let withdrawn = plan.withdrawn();
    let records = plan.records();
    let end = records_end(plan);
    let count = records_size(plan, end);
    let sent = send_opening(plan, count, writer)?;
    let sent = send_records(records, end, plan.versions(), writer, sent)?;
    send_withdrawals(withdrawn, writer, sent)
}

fn records_end(plan: &Plan) -> u32
    ensures exact { result ≡ records_end plan.now.label plan.now.versions }
    ensures small { size plan.now.label plan.now.versions plan.now.withdrawn < 2 ^ 32 }
    ensures uids { AllByRecursion IsUid plan.now.withdrawn }
{
    let end = u128::from(plan.size()) - withdrawals_size(plan.withdrawn());
    end as u32
}

fn records_size(plan: &Plan, end: u32) -> u32
    requires { end ≡ records_end plan.now.label plan.now.versions }
    ensures exact { result
        ≡ records_end plan.now.label plan.now.versions - first_offset plan.now.label }
    ensures id { IsSetId plan.now.label.id }
    ensures uid { IsUid plan.now.label.uid }
{
    end - first_offset(plan.label()) as u32
}

/// Sends the head of the file, the elements before the sequence of the records, and its header.
fn send_opening<W: Write>(plan: &Plan, count: u32, writer: &mut W) -> Result<u64, WriteFault>
    requires { length (opening_text plan.now.label plan.now.versions count) < 2 ^ 64 }
    ensures { let text = opening_text plan.now.label plan.now.versions count
        in SendsTo W.Write text 0 result writer.old writer.new }
{
    let label = plan.label();
    let records = plan.records();
    let front = front_cells(label, first_root(records), last_root(records));
    let sent = write_head(&directory_meta(label), writer)?;
    let sent = send_cells(&front, writer, sent)?;
    send_header(RECORDS, Vr::SQ, count, writer, sent)
}
