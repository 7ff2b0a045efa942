ghost use Rattle.std.specs.Prelude.{◌≡◌, [], Some, IfErr, IfOk, MatchResult, true};
ghost use Rattle.clap.specs.Words.{fault_of, found_of, rows_of, subcommand_of, subcommand_rows_of, takes};
ghost use Rattle.dd_line.specs.Line.{HasBadLimit, IsRefusedFor, LacksSources, PassesTaken, RefusesByKind};
ghost use Rattle.dd_line.specs.Line.{RefusesWhere, dicomdir_app, out_name, verb_name, words_of};
ghost use Rattle.dd_line.specs.Requests.{GivesNoLimit, GivesNoSource, HasFlags, HasOne, HasSources, IsRequested};
ghost use Rattle.dd_line.specs.Requests.{IsServed, MakesAsGiven, NamesCommand, Requests};

use crate::arguments;
use crate::commands::{no_source, program};
use crate::given::{flag_of, limit_of, path_of, value_of, values_of};
use crate::line::{LineFault, Verb};
use crate::request::{
    CheckRequest, IndexRequest, ListRequest, MergeRequest, NewSet, PublishRequest, Request,
    Sources, StageRequest, WithdrawRequest,
};
use clap::ArgMatches;
use std::alloc::{AllocError, Global};

/// Refused where the words give a wrong limit.
fn new_set_of(alloc: Global, verb: Verb, given: &ArgMatches<'_>) -> Result<NewSet, LineFault>
    requires out { HasOne out_name (rows_of (found_of given.now)) }
    requires flags { HasFlags (rows_of (found_of given.now)) }
    ensures set { IfOk result (λ set. MakesAsGiven set (rows_of (found_of given.now))) }
    ensures wrong { RefusesWhere (GivesNoLimit (rows_of (found_of given.now))) ⊥ result }
{
    let max_bytes = limit_of(alloc, verb, given)?;
    Ok(NewSet {
        out: path_of(alloc, given, arguments::OUT)?,
        id: value_of(alloc, given, arguments::ID)?,
        uid: value_of(alloc, given, arguments::UID)?,
        max_bytes,
        strict: flag_of(given, arguments::STRICT),
        dry_run: flag_of(given, arguments::DRY_RUN),
        quiet: flag_of(given, arguments::QUIET),
        verbose: flag_of(given, arguments::VERBOSE),
        json: flag_of(given, arguments::JSON),
    })
}

/// Refused where the words give no source.
fn sources_of(
    alloc: Global,
    verb: Verb,
    given: &ArgMatches<'_>,
    name: &str,
) -> Result<Sources, LineFault>
    ensures sources { IfOk result (HasSources name.now (rows_of (found_of given.now))) }
    ensures some { RefusesWhere ⊥ (GivesNoSource name.now (rows_of (found_of given.now))) result }
{
    let words = values_of(alloc, given, name)?;
    let files0_from = value_of(alloc, given, arguments::FILES0_FROM)?;
    if words.is_empty() && files0_from.is_none() {
        return Err(LineFault::Refused(no_source(alloc, verb)?));
    }
    Ok(Sources { words, files0_from })
}

fn index_request(alloc: Global, given: &ArgMatches<'_>) -> Result<Request, LineFault>
    requires { IsServed Verb.Index (rows_of (found_of given.now)) }
    ensures request { IfOk result (λ request.
        Requests request (verb_name Verb.Index) (rows_of (found_of given.now))) }
    ensures wrong { RefusesWhere (GivesNoLimit (rows_of (found_of given.now)))
        (LacksSources (Some (verb_name Verb.Index, rows_of (found_of given.now)))) result }
{
    let new_set = new_set_of(alloc, Verb::Index, given)?;
    let sources = sources_of(alloc, Verb::Index, given, arguments::SOURCE)?;
    let keep_going = flag_of(given, arguments::KEEP_GOING);
    Ok(Request::Index(IndexRequest {
        new_set,
        sources,
        keep_going,
    }))
}

fn merge_request(alloc: Global, given: &ArgMatches<'_>) -> Result<Request, LineFault>
    requires { IsServed Verb.Merge (rows_of (found_of given.now)) }
    ensures request { IfOk result (λ request.
        Requests request (verb_name Verb.Merge) (rows_of (found_of given.now))) }
    ensures wrong { RefusesWhere (GivesNoLimit (rows_of (found_of given.now)))
        (LacksSources (Some (verb_name Verb.Merge, rows_of (found_of given.now)))) result }
{
    let new_set = new_set_of(alloc, Verb::Merge, given)?;
    let sets = sources_of(alloc, Verb::Merge, given, arguments::SET)?;
    let link = flag_of(given, arguments::LINK);
    Ok(Request::Merge(MergeRequest {
        new_set,
        sets,
        link,
    }))
}

fn withdraw_request(alloc: Global, given: &ArgMatches<'_>) -> Result<Request, LineFault>
    requires { IsServed Verb.Withdraw (rows_of (found_of given.now)) }
    ensures request { IfOk result (λ request.
        Requests request (verb_name Verb.Withdraw) (rows_of (found_of given.now))) }
    ensures wrong { RefusesWhere (GivesNoLimit (rows_of (found_of given.now))) ⊥ result }
{
    Ok(Request::Withdraw(WithdrawRequest {
        new_set: new_set_of(alloc, Verb::Withdraw, given)?,
        set: path_of(alloc, given, arguments::SET)?,
        instances: values_of(alloc, given, arguments::INSTANCE)?,
    }))
}

fn stage_request(alloc: Global, given: &ArgMatches<'_>) -> Result<Request, LineFault>
    requires { IsServed Verb.Stage (rows_of (found_of given.now)) }
    ensures request { IfOk result (λ request.
        Requests request (verb_name Verb.Stage) (rows_of (found_of given.now))) }
    ensures wrong { RefusesWhere (GivesNoLimit (rows_of (found_of given.now)))
        (LacksSources (Some (verb_name Verb.Stage, rows_of (found_of given.now)))) result }
{
    Ok(Request::Stage(StageRequest {
        pile: path_of(alloc, given, arguments::OUT)?,
        sources: sources_of(alloc, Verb::Stage, given, arguments::SOURCE)?,
        from: value_of(alloc, given, arguments::FROM)?,
        keep_going: flag_of(given, arguments::KEEP_GOING),
        quiet: flag_of(given, arguments::QUIET),
        verbose: flag_of(given, arguments::VERBOSE),
        json: flag_of(given, arguments::JSON),
    }))
}

fn publish_request(alloc: Global, given: &ArgMatches<'_>) -> Result<Request, LineFault>
    requires { IsServed Verb.Publish (rows_of (found_of given.now)) }
    ensures request { IfOk result (λ request.
        Requests request (verb_name Verb.Publish) (rows_of (found_of given.now))) }
    ensures wrong { RefusesWhere (GivesNoLimit (rows_of (found_of given.now)))
        (LacksSources (Some (verb_name Verb.Publish, rows_of (found_of given.now)))) result }
{
    Ok(Request::Publish(PublishRequest {
        new_set: new_set_of(alloc, Verb::Publish, given)?,
        piles: sources_of(alloc, Verb::Publish, given, arguments::PILE)?,
        from: value_of(alloc, given, arguments::FROM)?,
        link: flag_of(given, arguments::LINK),
    }))
}

fn check_request(alloc: Global, given: &ArgMatches<'_>) -> Result<Request, AllocError>
    requires { IsServed Verb.Check (rows_of (found_of given.now)) }
    ensures { IfOk result (λ request.
        Requests request (verb_name Verb.Check) (rows_of (found_of given.now))) }
{
    Ok(Request::Check(CheckRequest {
        set: path_of(alloc, given, arguments::SET)?,
        keys: flag_of(given, arguments::KEYS),
        strict: flag_of(given, arguments::STRICT),
        quiet: flag_of(given, arguments::QUIET),
        verbose: flag_of(given, arguments::VERBOSE),
        json: flag_of(given, arguments::JSON),
    }))
}

fn list_request(alloc: Global, given: &ArgMatches<'_>) -> Result<Request, AllocError>
    requires { IsServed Verb.List (rows_of (found_of given.now)) }
    ensures { IfOk result (λ request.
        Requests request (verb_name Verb.List) (rows_of (found_of given.now))) }
{
    Ok(Request::List(ListRequest {
        set: path_of(alloc, given, arguments::SET)?,
        long: flag_of(given, arguments::LONG),
        verbose: flag_of(given, arguments::VERBOSE),
        json: flag_of(given, arguments::JSON),
    }))
}

fn request_of(alloc: Global, found: &ArgMatches<'_>) -> Result<Request, LineFault>
    requires { NamesCommand (subcommand_rows_of found.now) }
    ensures request { IfOk result (λ request.
        IsRequested request (subcommand_rows_of found.now)) }
    ensures wrong { RefusesWhere (HasBadLimit (subcommand_rows_of found.now))
        (LacksSources (subcommand_rows_of found.now)) result }
{
    match found.subcommand() {
        Some(("index", given)) => index_request(alloc, given),
        Some(("merge", given)) => merge_request(alloc, given),
        Some(("withdraw", given)) => withdraw_request(alloc, given),
        Some(("stage", given)) => stage_request(alloc, given),
        Some(("publish", given)) => publish_request(alloc, given),
        Some(("check", given)) => Ok(check_request(alloc, given)?),
        Some(("list", given)) => Ok(list_request(alloc, given)?),
        _ => unreachable!(),
    }
}

fn matches_of<'a>(alloc: Global, words: &'a [String]) -> Result<ArgMatches<'a>, LineFault>
    ensures found { IfOk result (λ found.
        subcommand_rows_of found ≡ subcommand_of dicomdir_app (words_of words.entry.now)) }
    ensures passes { IfErr result (λ fault.
        takes dicomdir_app (words_of words.entry.now) ≡ true
        → fault ≡ LineFault.Memory) }
    ensures kinds { MatchResult result
        (λ _. fault_of dicomdir_app (words_of words.entry.now) ≡ [])
        (IsRefusedFor (fault_of dicomdir_app (words_of words.entry.now))) }
{
    Ok(program(alloc)?.try_get_matches_from(words)?)
}

/// Reads what the words of a command line ask for. The first word is the program's name.
///
/// A line that the program does not take, or that asks for help, is `Refused`. So is `--max-bytes` with what is no
/// number of bytes, or more than 4294967295, and `index`, `merge`, `stage` or `publish` without a source, as a path or
/// by `--files0-from`.
pub fn read_request(alloc: Global, words: &[String]) -> Result<Request, LineFault>
    ensures request { IfOk result (λ request.
        IsRequested request (subcommand_of dicomdir_app (words_of words.now))) }
    ensures passes { PassesTaken (words_of words.now) result }
    ensures kinds { RefusesByKind (words_of words.now) result }
{
    let found = matches_of(alloc, words)?;
    request_of(alloc, &found)
}
