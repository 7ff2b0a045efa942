//! A request in one form for all commands.
ghost use Rattle.std.specs.Prelude.{◌≡◌, List, ◌∷◌, ◌↔◌, [], IfOk, None, false, string_bytes};
ghost use Rattle.clap.specs.Words.{Row, Text, subcommand_of};
ghost use Rattle.dd_line.specs.Line.{Asks, FitsCommand, IsAsked, IsReading, OnlyReads, PassesTaken, RefusesByKind};
ghost use Rattle.dd_line.specs.Line.{dicomdir_app, words_of};
ghost use Rattle.dd_line.specs.Requests.{AsksToMake, AsksToRead, Requests};

use crate::from_words::read_request;
use crate::request::{NewSet, PublishRequest, Request, Sources, StageRequest, WithdrawRequest};
use clap::error::ErrorKind;
use std::alloc::{AllocError, Global};
use thiserror::Error;

/// Names a command of the program.
#[derive(Clone, Copy, Debug, PartialEq, Eq)]
pub enum Verb {
    /// `index OUT SRC...` makes a file-set of copies of files.
    Index,
    /// `merge OUT SET...` makes a file-set of other file-sets.
    Merge,
    /// `withdraw OUT SET UID...` makes a file-set of one without some of its images, for good.
    Withdraw,
    /// `stage PILE SRC...` makes a pile of copies of files, with a list of what they are.
    Stage,
    /// `publish OUT PILE...` makes a file-set of piles, as `index` does of their sources.
    Publish,
    /// `check SET` compares the files of a file-set with its directory.
    Check,
    /// `list SET` lists the records of a directory.
    List,
}

/// Says what a command line asks for. `index`, `merge`, `stage` and `publish` have at least one path, and at least two
/// where no file of names is given. `withdraw` has two paths and at least one UID; `check` and `list` have one path.
/// What a command has no option for is `None`, false or empty; `max_bytes` is 4294967295 then.
#[derive(Debug, Drop)]
pub struct Asked {
    pub verb: Verb,
    /// The ID of the new file-set, as the line spells it.
    pub id: Option<String>,
    /// The UID of the new file-set, as the line spells it.
    pub uid: Option<String>,
    /// The most bytes that the directory may have: 4294967295 where the line does not say.
    pub max_bytes: u32,
    /// The folder that the command writes to, if it writes, then the paths that it reads, in the order of the line.
    pub paths: Vec<String>,
    /// The SOP Instance UIDs to withdraw, as the line spells them, in its order.
    pub uids: Vec<String>,
    /// `--keys`: `check` also compares what each file says of itself with its record.
    pub keys: bool,
    /// `--strict`: a command that writes is refused where it would leave something out, and `check` also finds a file
    /// of which no digest is recorded.
    pub strict: bool,
    /// `--dry-run`: the command says what it would make, and makes nothing.
    pub dry_run: bool,
    /// `--quiet`: no progress and no hints are shown.
    pub quiet: bool,
    /// `--verbose`: hints are shown where there is no terminal, too.
    pub verbose: bool,
    /// `--long`: `list` also prints names, dates, times, modalities and numbers.
    pub long: bool,
    /// `--link`: `merge` and `publish` give images hard links in place of copies.
    pub link: bool,
    /// `--keep-going`: `index` and `stage` skip a source that can't be opened or read.
    pub keep_going: bool,
    /// `--json`: each line is printed as a JSON object.
    pub json: bool,
    /// `--files0-from` of a command that takes sources: the file that holds names of more of them, each ended by a zero
    /// byte.
    pub files0_from: Option<String>,
    /// `--from` of `stage` and `publish`: the folder in which all paths but those of piles are looked up.
    pub from: Option<String>,
}

/// Says why a command line asks for nothing.
#[derive(Debug, Drop, Error)]
pub enum LineFault {
    /// The words are no command line of the program, or ask for help. The text is for the user.
    #[error("{0}")]
    Refused(clap::Error),
    /// An allocation was refused.
    #[error("91 Memory")]
    Memory,
}

impl From<AllocError> for LineFault {
    ghost use Rattle.dd_line.specs.declared.line.LineFault.TheVariants.{Memory};

    ghost from_gives = { λ _ fault. fault ≡ Memory };

    fn from(_error: AllocError) -> LineFault {
        LineFault::Memory
    }
}

impl From<clap::Error> for LineFault {
    ghost use Rattle.dd_line.specs.Line.{IsFaultOf};

    ghost from_gives = { IsFaultOf };

    fn from(error: clap::Error) -> LineFault {
        match error.kind() {
            ErrorKind::OutOfMemory => LineFault::Memory,
            _ => LineFault::Refused(error),
        }
    }
}

/// Puts the folder of the new file-set before these paths.
fn making_line(
    alloc: Global,
    verb: Verb,
    new_set: NewSet,
    mut paths: Vec<String>,
) -> Result<Asked, AllocError>
    ensures verb { IfOk result (λ asked. asked.verb ≡ verb) }
    ensures set { IfOk result (AsksToMake new_set (words_of paths.items)) }
    ensures uids { IfOk result (λ asked. asked.uids.items ≡ []) }
    ensures flags { IfOk result (λ asked. (asked.link ≡ false) × (asked.keep_going ≡ false)) }
    ensures files { IfOk result (λ asked. (asked.files0_from ≡ None) × (asked.from ≡ None)) }
{
    paths.insert(0, new_set.out)?;
    Ok(Asked {
        verb,
        id: new_set.id,
        uid: new_set.uid,
        max_bytes: new_set.max_bytes,
        paths,
        uids: Vec::new(alloc),
        keys: false,
        strict: new_set.strict,
        dry_run: new_set.dry_run,
        quiet: new_set.quiet,
        verbose: new_set.verbose,
        long: false,
        link: false,
        keep_going: false,
        json: new_set.json,
        files0_from: None,
        from: None,
    })
}

fn sources_line(
    alloc: Global,
    verb: Verb,
    new_set: NewSet,
    sources: Sources,
) -> Result<Asked, AllocError>
    ensures verb { IfOk result (λ asked. asked.verb ≡ verb) }
    ensures set { IfOk result (AsksToMake new_set (words_of sources.words.items)) }
    ensures uids { IfOk result (λ asked. asked.uids.items ≡ []) }
    ensures flags { IfOk result (λ asked. (asked.link ≡ false) × (asked.keep_going ≡ false)) }
    ensures files { IfOk result (λ asked.
        (asked.files0_from ≡ sources.files0_from) × (asked.from ≡ None)) }
{
    let mut asked = making_line(alloc, verb, new_set, sources.words)?;
    asked.files0_from = sources.files0_from;
    Ok(asked)
}

fn reading_line(alloc: Global, verb: Verb, set: String) -> Result<Asked, AllocError>
    ensures verb { IfOk result (λ asked. asked.verb ≡ verb) }
    ensures set { IfOk result (AsksToRead (string_bytes set)) }
    ensures flags { IfOk result (λ asked. (asked.keys ≡ false) × (asked.strict ≡ false)
        × (asked.quiet ≡ false) × (asked.verbose ≡ false) × (asked.long ≡ false) × (asked.json ≡ false)) }
{
    let mut paths = Vec::new(alloc);
    paths.push(set)?;
    Ok(Asked {
        verb,
        id: None,
        uid: None,
        max_bytes: u32::MAX,
        paths,
        uids: Vec::new(alloc),
        keys: false,
        strict: false,
        dry_run: false,
        quiet: false,
        verbose: false,
        long: false,
        link: false,
        keep_going: false,
        json: false,
        files0_from: None,
        from: None,
    })
}

fn withdraw_line(alloc: Global, withdraw: WithdrawRequest) -> Result<Asked, AllocError>
    ensures asked { IfOk result (λ asked. (command : Text) → (given : List Row)
        → Requests (Request.Withdraw withdraw) command given → Asks asked command given) }
    ensures fits { IfOk result FitsCommand }
{
    let mut paths = Vec::new(alloc);
    paths.push(withdraw.set)?;
    let mut asked = making_line(alloc, Verb::Withdraw, withdraw.new_set, paths)?;
    asked.uids = withdraw.instances;
    Ok(asked)
}

fn stage_line(alloc: Global, stage: StageRequest) -> Result<Asked, AllocError>
    ensures asked { IfOk result (λ asked. (command : Text) → (given : List Row)
        → Requests (Request.Stage stage) command given → Asks asked command given) }
    ensures fits { IfOk result FitsCommand }
{
    let StageRequest {
        pile,
        sources,
        from,
        keep_going,
        quiet,
        verbose,
        json,
    } = stage;
    let Sources { words, files0_from } = sources;
    let mut paths = words;
    paths.insert(0, pile)?;
    Ok(Asked {
        verb: Verb::Stage,
        id: None,
        uid: None,
        max_bytes: u32::MAX,
        paths,
        uids: Vec::new(alloc),
        keys: false,
        strict: false,
        dry_run: false,
        quiet,
        verbose,
        long: false,
        link: false,
        keep_going,
        json,
        files0_from,
        from,
    })
}

fn publish_line(alloc: Global, publish: PublishRequest) -> Result<Asked, AllocError>
    ensures asked { IfOk result (λ asked. (command : Text) → (given : List Row)
        → Requests (Request.Publish publish) command given → Asks asked command given) }
    ensures fits { IfOk result FitsCommand }
{
    let mut asked = sources_line(alloc, Verb::Publish, publish.new_set, publish.piles)?;
    asked.link = publish.link;
    asked.from = publish.from;
    Ok(asked)
}

fn line_of(alloc: Global, request: Request) -> Result<Asked, AllocError>
    ensures asked { IfOk result (λ asked. (command : Text) → (given : List Row)
        → Requests request command given → Asks asked command given) }
    ensures fits { IfOk result FitsCommand }
{
    match request {
        Request::Index(index) => {
            let mut asked = sources_line(alloc, Verb::Index, index.new_set, index.sources)?;
            asked.keep_going = index.keep_going;
            Ok(asked)
        }
        Request::Merge(merge) => {
            let mut asked = sources_line(alloc, Verb::Merge, merge.new_set, merge.sets)?;
            asked.link = merge.link;
            Ok(asked)
        }
        Request::Withdraw(withdraw) => withdraw_line(alloc, withdraw),
        Request::Stage(stage) => stage_line(alloc, stage),
        Request::Publish(publish) => publish_line(alloc, publish),
        Request::Check(check) => {
            let mut asked = reading_line(alloc, Verb::Check, check.set)?;
            asked.keys = check.keys;
            asked.strict = check.strict;
            asked.quiet = check.quiet;
            asked.verbose = check.verbose;
            asked.json = check.json;
            Ok(asked)
        }
        Request::List(list) => {
            let mut asked = reading_line(alloc, Verb::List, list.set)?;
            asked.long = list.long;
            asked.verbose = list.verbose;
            asked.json = list.json;
            Ok(asked)
        }
    }
}

/// Reads a command line as `read_request` does, in one form for all commands.
pub fn read_words(alloc: Global, words: &[String]) -> Result<Asked, LineFault>
    ensures asked { IfOk result (λ asked.
        IsAsked asked (subcommand_of dicomdir_app (words_of words.now))) }
    ensures fits { IfOk result FitsCommand }
    ensures reading { IfOk result (λ asked.
        OnlyReads asked.verb ↔ IsReading (subcommand_of dicomdir_app (words_of words.now))) }
    ensures passes { PassesTaken (words_of words.now) result }
    ensures kinds { RefusesByKind (words_of words.now) result }
{
    let request = read_request(alloc, words)?;
    Ok(line_of(alloc, request)?)
}
