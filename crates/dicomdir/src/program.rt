//! The program's run.
ghost use Rattle.std.specs.Prelude.{◌≡◌, ◌≤◌, ◌<◌, ◌⊎◌, ℕ, List, [], IfErr, IfOk, length, true, false};
ghost use Rattle.dd_elem.specs.Device.{HasFailed};
ghost use Rattle.dd_files.specs.Keeping.{IfSaid};
ghost use Rattle.dd_line.specs.Line.{HasBadLimit, HasBadName, IsCheck, IsReading, LacksSources, OnlyReads};
ghost use Rattle.dd_line.specs.Line.{words_of};
ghost use Rattle.dd_line.specs.Requests.{id_of, instances_of, is_dry, keeps_going, read_of, uid_of, verb_of};
ghost use Rattle.dicomdir.specs.DryRun.{HasDryRun, HasKeepGoing};
ghost use Rattle.dd_inputs.specs.EmptyPaths.{HasEmptyPath, RequestsEmptyPath};
ghost use Rattle.dd_inspecting.specs.Inspecting.{ChecksSet, ListsSet};
ghost use Rattle.dicomdir.specs.InspectingLines.{IsList, PrintsRequested, comparison_in, first_path};
ghost use Rattle.dicomdir.specs.InspectingLines.{form_in, style_in};
ghost use Rattle.dicomdir.specs.Last.{MakesLastLine, MakesLastOf};
ghost use Rattle.dicomdir.specs.Lines.{IndexSays, IndexesLine, IsIndex, IsMerge, IsWithdraw, MergeSays, MergesLine};
ghost use Rattle.dicomdir.specs.Lines.{IsPublish, IsStage, PublishSays, PublishesLine, StagesLine, WithdrawSays};
ghost use Rattle.dicomdir.specs.Lines.{WithdrawsLine};
ghost use Rattle.dicomdir.specs.Grounds.{GroundsOf};
ghost use Rattle.dd_inputs.specs.ListedNames.{AreOfSources, HavePaths};
ghost use Rattle.dicomdir.specs.Done.{IsDone};
ghost use Rattle.dicomdir.specs.Names.{choice_by};
ghost use Rattle.dd_faults.specs.Refusal.{IsOfWork};
ghost use Rattle.dd_refusals.specs.Faults.{is_quiet};
ghost use Rattle.dd_faults.specs.Reasons.{IsDue};
ghost use Rattle.dicomdir.specs.Refused.{IsRefused, IsRefusedLine, refuses_notes};
ghost use Rattle.dicomdir.specs.Words.{IsRequestStatus, IsStatusOf, IsTaken, MakesOf, MakesRequested, SaysOf};
ghost use Rattle.dicomdir.specs.Words.{SaysRequested, StagesOf, StagesRequested, line_of};

use crate::index::run_index;
use crate::making::Making;
use crate::merging::{run_merge, run_withdraw};
use crate::names::{Names, names_of};
use crate::publishing::run_publish;
use crate::staging::{Sources, run_stage};
use crate::telling::{tell_empty, tell_refusal};
use dd_elem::Write;
use dd_faults::Refusal;
use dd_files::{Files, FoundPaths, Hints, Progress};
use dd_inputs::{
    LinePaths, all_sources, bad_names_in, empty_path, from_of, looked_up, paths_of, paths_or,
    written_in,
};
use dd_inspecting::{check_of, listing_of, run_check, run_list};
use dd_line::{Request, read_request};
use dd_refusals::{Paths, is_quiet, refuse_line, shows_hints, tell_with_hints};
use std::alloc::Global;

#[derive(Clone, Copy)]
struct Work<'a> {
    request: &'a Request,
    names: &'a Names,
    /// The numbers of the sources whose names are not UTF-8, in rising order.
    bad_names: &'a [usize],
}

/// Runs a command line, the first word being the program's name, and answers the status:
///
/// - 0 where the work is done or help was asked for
/// - 1 where the run was refused or the output failed
/// - 2 where the command line is at fault
/// - 3 where `check` found something, where `index` or `stage` with `--keep-going` passed a source that it could not
///   read, or where `publish` has one in a pile
///
/// `index [--id ID] [--uid UID] [--max-bytes N] [--files0-from FILE] OUT SRC...` copies the images to their File IDs in
/// the folder OUT and writes OUT/DICOMDIR. It prints `SKIP <path>: <fault>` for each source that has no version, and
/// `DONE <n> instances, <size> bytes`. With `--keep-going` it skips a source that can't be opened or read, too. A
/// refusal is one line on the error output, `FAULT <path>: <fault>`, with `-` where it concerns no path. A text about
/// the command line is the parser's, with `?` for each control character of the words. What is printed to the error
/// output may get lost.
///
/// `merge [--id ID] [--uid UID] [--max-bytes N] [--files0-from FILE] OUT SET...` makes such a file-set of the images of
/// other file-sets, each a folder with a DICOMDIR that this program wrote. All these are read before the first is
/// examined, and the plan is made before the first image is copied.
///
/// `withdraw [--id ID] [--uid UID] [--max-bytes N] OUT SET UID...` makes one as `merge OUT SET` does, with these
/// instances withdrawn as well: the directory names them and lists no record of them, and a merge with it leaves them
/// out.
///
/// With `--strict` each of these is refused where it printed a line SKIP or NOTE, before anything is made. With
/// `--dry-run` they stop before anything is made and print `PLAN <n> instances, <size> bytes`, to which `index` adds `,
/// <total> bytes of images`. `--files0-from` reads further names from FILE, each ended by a zero byte. It does so after
/// OUT is looked at and before any source is opened.
///
/// A path that is empty is refused before any file is opened: OUT as a folder that is not made, any other as a file
/// that is not there.
///
/// `stage [--keep-going] [--files0-from FILE] [--from FOLDER] PILE SRC...` copies each source's bytes to the new folder
/// PILE, writes PILE/STAGED, which says of each what it is or what is wrong with it, and prints `DONE <n> sources, <s>
/// skipped, <b> bytes of images`. `publish [--id ID] [--uid UID] [--max-bytes N] [--link] [--files0-from FILE] [--from
/// FOLDER] OUT PILE...` makes and prints what `index` does of the sources of all these piles, in their order. FOLDER is
/// where OUT, SRC and FILE are looked up; they are printed as given.
///
/// `check [--keys] [--strict] SET` compares the files of a file-set with its directory, which any program may have
/// written. It prints what it finds, or `OK <n> records`. With `--keys` it also compares what image files say of
/// themselves with their records, and with `--strict` it finds each file whose record has no digest. `list [--long]
/// SET` prints the records of a file-set and the instances that it withdraws.
///
/// With `--json` each of these lines is a JSON object (RFC 8259), and FAULT has its hints as members.
///
/// The files show the progress of all but `list`, unless the line has `--quiet`. Hints follow the FAULT line where the
/// files say that a person reads it, unless the line has `--quiet`, and with `--verbose` always.
pub fn run<F: Files + FoundPaths + Progress + Hints, O: Write, E: Write>(
    alloc: Global,
    words: Vec<String>,
    files: &mut F,
    out: &mut O,
    err: &mut E,
) -> u8
    ensures status { result ≤ 3 }
    ensures findings { result ≡ 3 → IsCheck (line_of words.items)
        ⊎ HasKeepGoing (line_of words.items) ⊎ IsPublish (line_of words.items) }
    ensures line { result ≡ 2 → (files.new ≡ files.old) × (out.new ≡ out.old) }

    // The work of a line with a bad name or limit, or without sources, is never done.
    ensures words { result ≡ 2 → IsTaken words.items → HasBadName (line_of words.items)
        ⊎ (HasBadLimit (line_of words.items) ⊎ LacksSources (line_of words.items)) }
    ensures names { result ≡ 0 → IsTaken words.items → ¬ HasBadName (line_of words.items) }
    ensures limit { IsTaken words.items → HasBadLimit (line_of words.items)
        → (1 ≤ result) × (files.new ≡ files.old) × (out.new ≡ out.old) }
    ensures sources { IsTaken words.items → LacksSources (line_of words.items)
        → (1 ≤ result) × (files.new ≡ files.old) × (out.new ≡ out.old) }
    ensures empty { IsTaken words.items → HasEmptyPath (line_of words.items)
        → (1 ≤ result) × (files.new ≡ files.old) × (out.new ≡ out.old) }

    // Where the files say what they hold, `check`, `list` and each command with `--dry-run` leave them as they were.
    ensures reading { IsTaken words.items → IsReading (line_of words.items)
        → F.held files.new ≡ F.held files.old }
    ensures dry { IsTaken words.items → HasDryRun (line_of words.items)
        → F.held files.new ≡ F.held files.old }

    // Wherever the power is cut and whatever the status: what stood before is as it was. The last file, which is the
    // directory in OUT or the list of a pile, is as it was before, or else all others are there, whole.
    ensures cuts { IsTaken words.items → IfSaid (MakesLastLine (line_of words.items))
        (F.held files.old) (F.held files.new) }

    // Where they say that, the file-set that the words ask for stands in OUT: all images of its plan and its directory,
    // at paths where no file stood. Each image is a file of the version that is planned there, and that of a copy in a
    // pile is wholly of the version that the list of the pile says; only with `--link` may it have the bytes of the
    // picked file, whatever these are. All other files are as they were.
    ensures indexes { IsDone result → IsTaken words.items → IsIndex (line_of words.items)
        → ¬ HasDryRun (line_of words.items)
        → IndexesLine (line_of words.items) result (F.held files.old) (F.held files.new) }
    ensures merges { result ≡ 0 → IsTaken words.items → IsMerge (line_of words.items)
        → ¬ HasDryRun (line_of words.items)
        → MergesLine (line_of words.items) (F.held files.old) (F.held files.new) }
    ensures withdraws { result ≡ 0 → IsTaken words.items → IsWithdraw (line_of words.items)
        → ¬ HasDryRun (line_of words.items)
        → WithdrawsLine (line_of words.items) (F.held files.old) (F.held files.new) }
    ensures publishes { IsDone result → IsTaken words.items → IsPublish (line_of words.items)
        → ¬ HasDryRun (line_of words.items)
        → PublishesLine (line_of words.items) result (F.held files.old) (F.held files.new) }

    // Where they say that, the pile that the words ask for stands, with a list of its copies, and its sum was printed.
    ensures stages { IsDone result → IsTaken words.items → IsStage (line_of words.items)
        → StagesLine O.Write (line_of words.items) result (F.held files.old) (F.held files.new)
        out.old out.new }

    // Each has printed exactly its lines SKIP and NOTE on what was read, and then DONE or PLAN with the numbers of its
    // plan.
    ensures index_says { IsDone result → IsTaken words.items → IsIndex (line_of words.items)
        → IndexSays O.Write (line_of words.items) result (F.held files.old) out.old out.new }
    ensures merge_says { result ≡ 0 → IsTaken words.items → IsMerge (line_of words.items)
        → MergeSays O.Write (line_of words.items) (F.held files.old) out.old out.new }
    ensures withdraw_says { result ≡ 0 → IsTaken words.items → IsWithdraw (line_of words.items)
        → WithdrawSays O.Write (line_of words.items) (F.held files.old) out.old out.new }
    ensures publish_says { IsDone result → IsTaken words.items → IsPublish (line_of words.items)
        → PublishSays O.Write (line_of words.items) result (F.held files.old) out.old out.new }

    // Where they say that, `list` has read the directory in the folder and sent its listing, and `check` has sent what
    // it found of each file, or that the directory can't be read.
    ensures lists { result ≡ 0 → IsTaken words.items → IsList (line_of words.items)
        → ListsSet O.Write F.is_shown (style_in (line_of words.items)) (form_in (line_of words.items))
        (first_path (line_of words.items)) (F.held files.old) result out.old out.new }
    ensures checks { IsDone result → IsTaken words.items → IsCheck (line_of words.items)
        → ChecksSet F.In.Read (first_path (line_of words.items)) (F.held files.old)
        (comparison_in (line_of words.items)) (style_in (line_of words.items)) O.Write result
        (F.refusals files.old) (F.refusals files.new) out.old out.new }

    // With 1 the output failed, or the run was refused for a reason that the error output has, with the path that it
    // concerns.
    ensures refused { result ≡ 1 → IsTaken words.items → HasFailed (O.failures out.old) (O.failures out.new)
        ⊎ IsRefusedLine F.In.Read E.Write (line_of words.items) (F.refusals files.new) (F.Write.failures files.new)
        (F.is_taken files.old) (F.held files.old) (F.held files.new) err.old err.new }
    ensures done { result ≡ 0 → err.new ≡ err.old }
{
    match read_request(alloc, words.as_slice()) {
        Ok(request) => run_request(alloc, &request, files, out, err),
        Err(fault) => refuse_line(alloc, words.as_slice(), &fault, out, err),
    }
}

/// Prints a refusal if there is one, and answers the status.
#[tactic(auto, using(crate::proofs::MadeLast::same_request))]
fn run_request<F: Files + FoundPaths + Progress + Hints, O: Write, E: Write>(
    alloc: Global,
    request: &Request,
    files: &mut F,
    out: &mut O,
    err: &mut E,
) -> u8
    ensures status { IsRequestStatus request.now result }
    ensures line { result ≡ 2 → (files.new ≡ files.old) × (out.new ≡ out.old) }
    ensures empty { RequestsEmptyPath request.now
        → (1 ≤ result) × (files.new ≡ files.old) × (out.new ≡ out.old) }
    ensures refused { result ≡ 1 → HasFailed (O.failures out.old) (O.failures out.new)
        ⊎ IsRefused F.In.Read E.Write request.now (F.refusals files.new) (F.Write.failures files.new)
        (F.is_taken files.old) (F.held files.old) (F.held files.new) err.old err.new }
    ensures done { result ≡ 0 → err.new ≡ err.old }
    ensures kept { OnlyReads (verb_of request.now) → F.held files.new ≡ F.held files.old }
    ensures dry { is_dry request.now ≡ true → F.held files.new ≡ F.held files.old }
    ensures last { IfSaid (MakesLastOf request.now) (F.held files.old) (F.held files.new) }
    ensures made { is_dry request.now ≡ false → IsDone result
        → MakesRequested request.now (choice_by (id_of request.now) (uid_of request.now))
        (words_of (instances_of request.now)) result (F.held files.old) (F.held files.new) }
    ensures says { IsDone result → SaysRequested O.Write request.now
        (choice_by (id_of request.now) (uid_of request.now)) (words_of (instances_of request.now)) result
        (F.held files.old) out.old out.new }
    ensures printed { IsDone result → PrintsRequested F.In.Read O.Write F.is_shown request.now
        (F.held files.old) result (F.refusals files.old) (F.refusals files.new) out.old out.new }
    ensures staged { IsDone result → StagesRequested O.Write request.now result
        (F.held files.old) (F.held files.new) out.old out.new }
{
    let names = match names_of(alloc, request) {
        Ok(names) => names,
        Err(fault) => {
            let refusal = Refusal::general(fault);
            return tell_with_hints(&refusal, request, Paths::none(), files, err);
        }
    };
    let paths = paths_of(request);
    match empty_path(written_in(request), paths.sources) {
        Some(refusal) => tell_empty(&refusal, request, paths, files, err),
        None => {
            let work = Work {
                request,
                names: &names,
                bad_names: &[],
            };
            run_named(alloc, work, files, out, err)
        }
    }
}

/// Runs the command, whose paths have passed. Prints a refusal if there is one, and answers the status.
#[tactic(auto, using(crate::proofs::MadeLast::same_request))]
fn run_named<F: Files + FoundPaths + Progress + Hints, O: Write, E: Write>(
    alloc: Global,
    work: Work<'_>,
    files: &mut F,
    out: &mut O,
    err: &mut E,
) -> u8
    requires chooses { work.names.now.choice ≡ choice_by (id_of work.request.now) (uid_of work.request.now) }
    requires withdraws { work.names.now.withdrawn.items ≡ words_of (instances_of work.request.now) }
    ensures status { IsStatusOf work.entry.request.now result }
    ensures refused { result ≡ 1 → HasFailed (O.failures out.old) (O.failures out.new)
        ⊎ IsRefused F.In.Read E.Write work.entry.request.now (F.refusals files.new) (F.Write.failures files.new)
        (F.is_taken files.old) (F.held files.old) (F.held files.new) err.old err.new }
    ensures done { result ≡ 0 → err.new ≡ err.old }
    ensures kept { OnlyReads (verb_of work.entry.request.now)
        → F.held files.new ≡ F.held files.old }
    ensures dry { is_dry work.entry.request.now ≡ true → F.held files.new ≡ F.held files.old }
    ensures last { IfSaid (MakesLastOf work.entry.request.now) (F.held files.old) (F.held files.new) }
    ensures made { is_dry work.entry.request.now ≡ false → IsDone result
        → MakesRequested work.entry.request.now work.entry.names.now.choice
        work.entry.names.now.withdrawn.items result (F.held files.old) (F.held files.new) }
    ensures says { IsDone result → SaysRequested O.Write work.entry.request.now
        work.entry.names.now.choice work.entry.names.now.withdrawn.items result
        (F.held files.old) out.old out.new }
    ensures printed { IsDone result → PrintsRequested F.In.Read O.Write F.is_shown work.entry.request.now
        (F.held files.old) result (F.refusals files.old) (F.refusals files.new) out.old out.new }
    ensures staged { IsDone result → StagesRequested O.Write work.entry.request.now result
        (F.held files.old) (F.held files.new) out.old out.new }
{
    let request = work.request;
    let given = paths_of(request);
    let listed = match all_sources(alloc, request, files) {
        Ok(listed) => listed,
        Err(refusal) => return tell_refusal(&refusal, request, given, files, err),
    };
    silence_quiet(request, files);
    let sources = paths_or(&listed, given.sources);
    let named = Work {
        request,
        names: work.names,
        bad_names: bad_names_in(&listed),
    };
    let paths = LinePaths {
        folder: given.folder,
        sources,
    };
    match run_verb(alloc, named, sources, files, out) {
        Ok(status) => status,
        Err(refusal) => tell_refusal(&refusal, request, paths, files, err),
    }
}

fn silence_quiet<F: Files + Progress>(request: &Request, files: &mut F)
    ensures quiet { is_quiet request.now ≡ true → F.is_silent files.new }
    ensures kept { F.held files.new ≡ F.held files.old }
    ensures unrefused { F.refusals files.new ≡ F.refusals files.old }
{
    if is_quiet(request) {
        files.silence();
    }
}

/// Runs the command on these sources, of which the line itself gives the first.
#[tactic(auto, using(crate::proofs::MadeLast::same_request))]
fn run_verb<F: Files + FoundPaths + Progress + Hints, O: Write>(
    alloc: Global,
    work: Work<'_>,
    sources: &[String],
    files: &mut F,
    out: &mut O,
) -> Result<u8, Refusal>
    requires least { length (read_of work.request.now) ≤ length sources.now }
    requires named { AreOfSources (words_of sources.now) work.bad_names.now }
    requires none { keeps_going work.request.now ≡ false → work.bad_names.now ≡ [] }
    requires quiet { is_quiet work.request.now ≡ true → F.is_silent files.old }
    ensures refusal { IfErr result (IsOfWork (length sources.now)) }
    ensures due { IfErr result (λ refusal. IsDue F.In.Read (F.refusals files.new) (F.Write.failures files.new)
        (refuses_notes work.entry.request.now) refusal.fault) }
    ensures grounds { (names : List (List ℕ))
        → HavePaths names (words_of sources.now) work.entry.bad_names.now
        → IfErr result (GroundsOf work.entry.request.now work.entry.names.now.choice
        work.entry.names.now.withdrawn.items names (F.held files.old) (F.held files.new)) }
    ensures failed { IfOk result (λ status. status ≡ 1 → HasFailed (O.failures out.old) (O.failures out.new)) }
    ensures status { IfOk result (λ status. IsStatusOf work.entry.request.now status) }

    ensures kept { OnlyReads (verb_of work.entry.request.now)
        → F.held files.new ≡ F.held files.old }
    ensures dry { is_dry work.entry.request.now ≡ true → F.held files.new ≡ F.held files.old }
    ensures last { IfSaid (MakesLastOf work.entry.request.now) (F.held files.old) (F.held files.new) }

    ensures made { (names : List (List ℕ))
        → HavePaths names (words_of sources.now) work.entry.bad_names.now
        → is_dry work.entry.request.now ≡ false → IfOk result (λ status. IsDone status
        → MakesOf work.entry.request.now work.entry.names.now.choice
        work.entry.names.now.withdrawn.items names status
        (F.held files.old) (F.held files.new)) }

    ensures says { (names : List (List ℕ))
        → HavePaths names (words_of sources.now) work.entry.bad_names.now
        → IfOk result (λ status. IsDone status → SaysOf O.Write work.entry.request.now
        work.entry.names.now.choice work.entry.names.now.withdrawn.items names status
        (F.held files.old) out.old out.new) }

    ensures printed { IfOk result (λ status. PrintsRequested F.In.Read O.Write F.is_shown
        work.entry.request.now (F.held files.old) status
        (F.refusals files.old) (F.refusals files.new) out.old out.new) }
    ensures staged { (names : List (List ℕ))
        → HavePaths names (words_of sources.now) work.entry.bad_names.now
        → IfOk result (λ status. IsDone status → StagesOf O.Write work.entry.request.now names status
        (F.held files.old) (F.held files.new) out.old out.new) }
{
    let Work {
        request,
        names,
        bad_names,
    } = work;
    let explains = shows_hints(request, files);
    match request {
        Request::Index(index) => {
            let mut making = Making::of(alloc, &index.new_set, names, false, explains);
            making.keep_going = index.keep_going;
            making.bad_names = bad_names;
            run_index(making, sources, files, out)
        }
        Request::Merge(merge) => {
            let making = Making::of(alloc, &merge.new_set, names, merge.link, explains);
            run_merge(making, sources, files, out)
        }
        Request::Withdraw(withdraw) => {
            let making = Making::of(alloc, &withdraw.new_set, names, false, explains);
            run_withdraw(making, &withdraw.set, files, out)
        }
        Request::Stage(stage) => {
            let sources = Sources {
                names: sources,
                bad_names,
            };
            run_stage(alloc, stage, sources, files, out)
        }
        Request::Publish(publish) => {
            let folder = looked_up(alloc, from_of(request), publish.new_set.out.as_str())?;
            let making = Making::of(alloc, &publish.new_set, names, publish.link, explains);
            let making = Making {
                folder: folder.as_str(),
                ..making
            };
            run_publish(making, sources, files, out)
        }
        Request::Check(check) => run_check(check_of(alloc, check), files, out),
        Request::List(list) => run_list(listing_of(alloc, list), files, out),
    }
}
