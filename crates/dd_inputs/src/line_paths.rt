//! The paths that a command line gives.
ghost use Rattle.std.specs.Prelude.{◌≡◌, IfOk, option_map, string_bytes};
ghost use Rattle.dd_line.specs.Requests.{folder_of, read_of, written_of};
ghost use Rattle.dd_inputs.specs.From.{from_in, given_list, looked_up, looked_up_list};

use dd_elem::Memory;
use dd_files::path_in;
use dd_line::Request;
use std::alloc::Global;
use std::slice;

/// The paths that a command works on.
#[derive(Clone, Copy)]
pub struct LinePaths<'a> {
    /// The folder that it writes to, if it does, and else empty.
    pub folder: &'a str,
    /// The paths that it reads.
    pub sources: &'a [String],
}

/// Gives the paths of a request.
pub fn paths_of(request: &Request) -> LinePaths<'_>
    ensures folder { result.folder.now ≡ folder_of request.now }
    ensures sources { result.sources.now ≡ read_of request.now }
{
    LinePaths {
        folder: folder_in(request),
        sources: sources_in(request),
    }
}

/// Gives an empty path where nothing is made.
fn folder_in(request: &Request) -> &str
    ensures { result.now ≡ folder_of request.now }
{
    match written_in(request) {
        Some(folder) => folder,
        None => "",
    }
}

/// Gives the folder that the command writes to, if it does.
pub fn written_in(request: &Request) -> Option<&str>
    ensures { option_map (λ folder. folder.now) result
        ≡ option_map string_bytes (written_of request.now) }
{
    match request {
        Request::Index(index) => Some(index.new_set.out.as_str()),
        Request::Merge(merge) => Some(merge.new_set.out.as_str()),
        Request::Withdraw(withdraw) => Some(withdraw.new_set.out.as_str()),
        Request::Stage(stage) => Some(stage.pile.as_str()),
        Request::Publish(publish) => Some(publish.new_set.out.as_str()),
        Request::Check(_) | Request::List(_) => None,
    }
}

fn sources_in(request: &Request) -> &[String]
    ensures { result.now ≡ read_of request.now }
{
    match request {
        Request::Index(index) => index.sources.words.as_slice(),
        Request::Merge(merge) => merge.sets.words.as_slice(),
        Request::Withdraw(withdraw) => slice::from_ref(&withdraw.set),
        Request::Stage(stage) => stage.sources.words.as_slice(),
        Request::Publish(publish) => publish.piles.words.as_slice(),
        Request::Check(check) => slice::from_ref(&check.set),
        Request::List(list) => slice::from_ref(&list.set),
    }
}

/// Gives the path of the list of names, empty where the line names none.
pub fn list_of(request: &Request) -> &str
    ensures { result.now ≡ given_list request.now }
{
    let sources = match request {
        Request::Index(index) => &index.sources,
        Request::Merge(merge) => &merge.sets,
        Request::Stage(stage) => &stage.sources,
        Request::Publish(publish) => &publish.piles,
        Request::Withdraw(_) | Request::Check(_) | Request::List(_) => return "",
    };
    match &sources.files0_from {
        Some(list) => list.as_str(),
        None => "",
    }
}

/// Gives the folder in which the paths of the line are looked up, but for those of piles: an empty path where it is the
/// current one.
pub fn from_of(request: &Request) -> &str
    ensures { result.now ≡ from_in request.now }
{
    let from = match request {
        Request::Stage(stage) => &stage.from,
        Request::Publish(publish) => &publish.from,
        _ => return "",
    };
    match from {
        Some(from) => from.as_str(),
        None => "",
    }
}

/// Gives the path at which a path of the line is looked up in this folder. An absolute path stays the same.
pub fn looked_up(alloc: Global, from: &str, path: &str) -> Result<String, Memory>
    ensures { IfOk result (λ found. string_bytes found ≡ looked_up from.now path.now) }
{
    if path.starts_with('/') {
        return Ok(String::from_str(alloc, path)?);
    }
    path_in(alloc, from, path)
}

/// Does the same for a list of names, where `-` is the standard input.
pub(crate) fn looked_up_list(alloc: Global, from: &str, list: &str) -> Result<String, Memory>
    ensures { IfOk result (λ found. string_bytes found ≡ looked_up_list from.now list.now) }
{
    if list == "-" {
        return Ok(String::from_str(alloc, list)?);
    }
    looked_up(alloc, from, list)
}
