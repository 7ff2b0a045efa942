ghost use Rattle.std.specs.Prelude.{◌≡◌, ◌≤◌, ◌++◌, ◌⊎◌, ℕ, [], IfErr, IfOk, IsOk, Some, false, length};
ghost use Rattle.std.specs.Prelude.{option_map, string_bytes};
ghost use Rattle.std.specs.Option.{option_map_or};
ghost use Rattle.dd_line.specs.Line.{OnlyReads, words_of};
ghost use Rattle.dd_line.specs.Requests.{keeps_going, read_of, verb_of};
ghost use Rattle.dd_line.specs.declared.request.Request.{Request};
ghost use Rattle.dd_files.specs.Keeping.{HasBytes};
ghost use Rattle.dd_inputs.specs.From.{looked_up_list};
ghost use Rattle.dd_inputs.specs.ListedNames.{AreNames, FailsAt, FindsSources, HavePaths, list_of, parts};
ghost use Rattle.dd_faults.specs.Refusal.{IsOfWork};
ghost use Rattle.dd_inputs.specs.Reasons.{IsDueBefore, IsDueToList};

use crate::line_paths::{from_of, looked_up, looked_up_list};
use crate::listed_names::{AllSources, NamesFault, add_names};
use crate::taken::refuse_taken;
use dd_elem::Memory;
use dd_faults::{ProgramFault, Refusal, Subject};
use dd_files::{Files, ReadFault, SOURCE_LIMIT, read_whole};
use dd_line::{Request, Sources};
use std::alloc::Global;

/// Gives the paths of all sources: the given ones, where there is no list.
pub fn paths_or<'a>(listed: &'a Option<AllSources>, given: &'a [String]) -> &'a [String]
    ensures { result.now ≡ option_map_or (λ all. all.paths.items) listed.now given.now }
{
    match listed {
        Some(all) => all.paths.as_slice(),
        None => given,
    }
}

/// Gives the numbers of the names that are no paths.
pub fn bad_names_in(listed: &Option<AllSources>) -> &[usize]
    ensures { result.now ≡ option_map_or (λ all. all.bad_names.items) listed.now [] }
{
    match listed {
        Some(all) => all.bad_names.as_slice(),
        None => &[],
    }
}

/// Lists the paths that a request with a list of names reads: the paths of its line, and then the names. None if it has
/// no list. Refused first where the folder of the new file-set already has a directory; then where the list can't be
/// opened or read, or has a bad name.
pub fn all_sources<F: Files>(
    alloc: Global,
    request: &Request,
    files: &mut F,
) -> Result<Option<AllSources>, Refusal>
    ensures refusal { (paths : ℕ) → IfErr result (IsOfWork paths) }
    ensures due { IfErr result (λ refusal. IsDueBefore F.In.Read (F.refusals files.new) (F.is_taken files.old)
        request.now (F.held files.old) refusal.fault) }
    ensures listed { IfOk result (λ listed. FindsSources (keeps_going request.now)
        (list_of request.now) (words_of (read_of request.now)) (F.held files.old)
        (words_of (option_map_or (λ all. all.paths.items) listed (read_of request.now)))
        (option_map_or (λ all. all.bad_names.items) listed [])) }
    ensures least { IfOk result (λ listed. length (read_of request.now)
        ≤ length (option_map_or (λ all. all.paths.items) listed (read_of request.now))) }
    ensures unread { OnlyReads (verb_of request.now) → F.refusals files.new ≡ F.refusals files.old }
    ensures kept { F.held files.new ≡ F.held files.old }
{
    refuse_old(alloc, request, files)?;
    match request {
        Request::Index(index) => { listed_sources(alloc, &index.sources, index.keep_going, files) }
        Request::Merge(merge) => listed_sources(alloc, &merge.sets, false, files),
        Request::Stage(stage) => {
            listed_in(
                alloc,
                from_of(request),
                &stage.sources,
                stage.keep_going,
                files,
            )
        }
        Request::Publish(publish) => {
            listed_in(alloc, from_of(request), &publish.piles, false, files)
        }
        Request::Withdraw(_) => Ok(None),
        Request::Check(_) => Ok(None),
        Request::List(_) => Ok(None),
    }
}

/// Refuses a pile that is there in any form, and the folder of a file-set that has a directory already.
fn refuse_old<F: Files>(alloc: Global, request: &Request, files: &mut F) -> Result<(), Refusal>
    ensures refusal { (paths : ℕ) → IfErr result (IsOfWork paths) }
    ensures due { IfErr result (λ refusal. IsDueBefore F.In.Read (F.refusals files.new) (F.is_taken files.old)
        request.now (F.held files.old) refusal.fault) }
    ensures unread { OnlyReads (verb_of request.now) → F.refusals files.new ≡ F.refusals files.old }
    ensures kept { F.held files.new ≡ F.held files.old }
{
    match request {
        Request::Stage(stage) if !files.is_free(stage.pile.as_str()) => {
            Err(Refusal::of(Subject::Folder, ProgramFault::Create))
        }
        _ => match request.new_set() {
            Some(set) => {
                let folder = looked_up(alloc, from_of(request), set.out.as_str())?;
                refuse_taken(alloc, folder.as_str(), files)
            }
            None => Ok(()),
        },
    }
}

/// Does what `listed_sources` does, where the list is looked up in the folder `from`, unless it is the standard input.
fn listed_in<F: Files>(
    alloc: Global,
    from: &str,
    sources: &Sources,
    keep_going: bool,
    files: &mut F,
) -> Result<Option<AllSources>, Refusal>
    ensures refusal { (paths : ℕ) → IfErr result (IsOfWork paths) }
    ensures due { (r : Request) → list_of r
        ≡ option_map (λ list. looked_up_list from.now (string_bytes list)) sources.now.files0_from
        → keeps_going r ≡ keep_going → IfErr result (λ refusal.
        IsDueToList F.In.Read (F.refusals files.new) r (F.held files.old) refusal.fault) }
    ensures listed { IfOk result (λ listed. FindsSources keep_going
        (option_map (λ list. looked_up_list from.now (string_bytes list)) sources.now.files0_from)
        (words_of sources.now.words.items) (F.held files.old)
        (words_of (option_map_or (λ all. all.paths.items) listed sources.now.words.items))
        (option_map_or (λ all. all.bad_names.items) listed [])) }
    ensures least { IfOk result (λ listed. length sources.now.words.items
        ≤ length (option_map_or (λ all. all.paths.items) listed sources.now.words.items)) }
    ensures kept { F.held files.new ≡ F.held files.old }
{
    let Some(list) = &sources.files0_from else {
        return Ok(None);
    };
    let path = looked_up_list(alloc, from, list.as_str())?;
    let bytes = list_bytes(alloc, path.as_str(), files)?;
    let all = with_listed(alloc, sources.words.as_slice(), &bytes, keep_going)?;
    Ok(Some(all))
}

fn listed_sources<F: Files>(
    alloc: Global,
    sources: &Sources,
    keep_going: bool,
    files: &mut F,
) -> Result<Option<AllSources>, Refusal>
    ensures refusal { (paths : ℕ) → IfErr result (IsOfWork paths) }
    ensures due { (r : Request) → list_of r ≡ option_map string_bytes sources.now.files0_from
        → keeps_going r ≡ keep_going → IfErr result (λ refusal.
        IsDueToList F.In.Read (F.refusals files.new) r (F.held files.old) refusal.fault) }
    ensures listed { IfOk result (λ listed. FindsSources keep_going
        (option_map string_bytes sources.now.files0_from)
        (words_of sources.now.words.items) (F.held files.old)
        (words_of (option_map_or (λ all. all.paths.items) listed sources.now.words.items))
        (option_map_or (λ all. all.bad_names.items) listed [])) }
    ensures least { IfOk result (λ listed. length sources.now.words.items
        ≤ length (option_map_or (λ all. all.paths.items) listed sources.now.words.items)) }
    ensures kept { F.held files.new ≡ F.held files.old }
{
    match &sources.files0_from {
        None => Ok(None),
        Some(list) => {
            let bytes = list_bytes(alloc, list.as_str(), files)?;
            let all = with_listed(alloc, sources.words.as_slice(), &bytes, keep_going)?;
            Ok(Some(all))
        }
    }
}

/// Reads a whole list of names. Absent where it can't be opened, Unread where a read fails, TooLong where it has more
/// than 4,294,967,295 bytes.
fn list_bytes<F: Files>(alloc: Global, path: &str, files: &mut F) -> Result<Vec<u8>, Refusal>
    ensures refusal { (paths : ℕ) → IfErr result (IsOfWork paths) }
    ensures due { (r : Request) → list_of r ≡ Some path.now → IfErr result (λ refusal.
        IsDueToList F.In.Read (F.refusals files.new) r (F.held files.old) refusal.fault) }
    ensures read { IfOk result (λ bytes. HasBytes path.now bytes.items (F.held files.old)) }
    ensures kept { F.held files.new ≡ F.held files.old }
{
    let Ok(mut reader) = files.names(path) else {
        return Err(Refusal::of(Subject::List, ProgramFault::Absent));
    };
    match read_whole(alloc, &mut reader, SOURCE_LIMIT) {
        Ok(bytes) => Ok(bytes),
        Err(ReadFault::Read) => Err(Refusal::of(Subject::List, ProgramFault::Unread)),
        Err(ReadFault::TooLong) => Err(Refusal::of(Subject::List, ProgramFault::TooLong)),
        Err(ReadFault::Memory) => Err(Refusal::memory()),
    }
}

fn with_listed(
    alloc: Global,
    given: &[String],
    list: &[u8],
    keep_going: bool,
) -> Result<AllSources, Refusal>
    ensures refusal { (paths : ℕ) → IfErr result (IsOfWork paths) }
    ensures fault { IfErr result (λ refusal. (refusal.fault ≡ ProgramFault.Memory)
        ⊎ ((number : ℕ) × (refusal.fault ≡ ProgramFault.BadName number)
        × FailsAt keep_going (parts list.now) number)) }
    ensures names { IsOk result → AreNames keep_going (parts list.now) }
    ensures paths { IfOk result (λ all. HavePaths (words_of given.now ++ parts list.now)
        (words_of all.paths.items) all.bad_names.items) }
    ensures none { keep_going ≡ false → IfOk result (λ all. all.bad_names.items ≡ []) }
    ensures least { IfOk result (λ all. length given.now ≤ length all.paths.items) }
{
    let mut all = AllSources {
        paths: copies_of(alloc, given)?,
        bad_names: Vec::new(alloc),
    };
    match add_names(alloc, list, keep_going, &mut all) {
        Ok(()) => Ok(all),
        Err(NamesFault::Memory) => Err(Refusal::memory()),
        Err(NamesFault::BadName(at)) => Err(Refusal::of(Subject::List, ProgramFault::BadName(at))),
    }
}

fn copies_of(alloc: Global, paths: &[String]) -> Result<Vec<String>, Memory>
    ensures same { IfOk result (λ copies. words_of copies.items ≡ words_of paths.now) }
    ensures count { IfOk result (λ copies. length copies.items ≡ length paths.now) }
{
    let mut copies = Vec::with_capacity(alloc, paths.len())?;
    for path in paths {
        copies.push(String::from_str(alloc, path.as_str())?)?;
    }
    Ok(copies)
}
