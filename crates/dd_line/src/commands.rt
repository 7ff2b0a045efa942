//! The commands, as the parser gets them.
ghost use Rattle.std.specs.Prelude.{◌≡◌, IfOk};
ghost use Rattle.clap.specs.Words.{kind_of};
ghost use Rattle.dd_line.specs.Line.{HasApp, bare_app, check_app, comparing_app, dicomdir_app, index_app, labelled_app};
ghost use Rattle.dd_line.specs.Line.{linking_app, list_app, making_app, merge_app, publish_app, reading_app};
ghost use Rattle.dd_line.specs.Line.{showing_app, stage_app, staging_app, withdraw_app, writing_app};

use crate::arguments::{
    self, any_paths, files0_from, flag, from, json, keep_going, link, option, path, paths, quiet,
    verbose,
};
use crate::endings;
use crate::line::Verb;
use crate::version::VERSION;
use clap::error::ErrorKind;
use clap::{Command, Error};
use std::alloc::{AllocError, Global};

/// The options for the label of a directory and its size.
fn labelled_command<'a>(
    alloc: Global,
    name: &'a str,
    about: &'a str,
) -> Result<Command<'a>, AllocError>
    ensures { IfOk result (HasApp (labelled_app name.entry.now)) }
{
    Command::new(alloc, name)
        .about(about)
        .arg(option(
            alloc,
            arguments::ID,
            "ID",
            "ID of the file-set, such as DISC1; by default empty",
        ))?
        .arg(option(
            alloc,
            arguments::UID,
            "UID",
            "UID of the file-set; else made from its content",
        ))?
        .arg(option(
            alloc,
            arguments::MAX_BYTES,
            "N",
            "Most bytes of DICOMDIR, not of the disc, such as 650M or 3G",
        ))
}

/// Adds what keeps a command from making something.
fn making_command<'a>(
    alloc: Global,
    name: &'a str,
    about: &'a str,
) -> Result<Command<'a>, AllocError>
    ensures { IfOk result (HasApp (making_app name.entry.now)) }
{
    labelled_command(alloc, name, about)?
        .arg(flag(
            alloc,
            arguments::STRICT,
            "Makes nothing where something would be left out",
        ))?
        .arg(flag(
            alloc,
            arguments::DRY_RUN,
            "Makes nothing, and says what it would make",
        ))
}

/// Adds what a command shows, and the folder that it writes to.
fn writing_command<'a>(
    alloc: Global,
    name: &'a str,
    about: &'a str,
) -> Result<Command<'a>, AllocError>
    ensures { IfOk result (HasApp (writing_app name.entry.now)) }
{
    making_command(alloc, name, about)?
        .arg(quiet(alloc))?
        .arg(verbose(alloc))?
        .arg(json(alloc))?
        .arg(path(
            alloc,
            arguments::OUT,
            "OUT",
            "New folder, or one with no DICOMDIR; no file there is overwritten",
        ))
}

fn index_command<'a>(alloc: Global) -> Result<Command<'a>, AllocError>
    ensures { IfOk result (HasApp index_app) }
{
    let about = "Makes a file-set of image files: copies them, writes its DICOMDIR";
    let command = writing_command(alloc, "index", about)?.after_help(endings::INDEX);
    command
        .arg(files0_from(alloc))?
        .arg(keep_going(alloc))?
        .arg(any_paths(
            alloc,
            arguments::SOURCE,
            "SRC",
            "DICOM files; one that is no image, or lacks a key, is skipped",
        ))
}

/// Adds what images a command takes, and whether it copies them.
fn linking_command<'a>(
    alloc: Global,
    name: &'a str,
    about: &'a str,
) -> Result<Command<'a>, AllocError>
    ensures { IfOk result (HasApp (linking_app name.entry.now)) }
{
    writing_command(alloc, name, about)?
        .arg(files0_from(alloc))?
        .arg(link(alloc))
}

fn merge_command<'a>(alloc: Global) -> Result<Command<'a>, AllocError>
    ensures { IfOk result (HasApp merge_app) }
{
    let about = "Makes a file-set of others: copies their images, writes its DICOMDIR";
    let command = linking_command(alloc, "merge", about)?.after_help(endings::MERGE);
    command.arg(any_paths(
        alloc,
        arguments::SET,
        "SET",
        "Folders with a DICOMDIR of this program each; they are not changed",
    ))
}

fn withdraw_command<'a>(alloc: Global) -> Result<Command<'a>, AllocError>
    ensures { IfOk result (HasApp withdraw_app) }
{
    let about = "Makes a file-set of one without some images, which no merge brings back";
    writing_command(alloc, "withdraw", about)?
        .after_help(endings::WITHDRAW)
        .arg(path(
            alloc,
            arguments::SET,
            "SET",
            "Folder with a DICOMDIR of this program; it is not changed",
        ))?
        .arg(paths(
            alloc,
            arguments::INSTANCE,
            "UID",
            "SOP Instance UIDs of the images; one that the file-set lacks is withdrawn too",
        ))
}

/// Adds what a command shows.
fn showing_command<'a>(
    alloc: Global,
    name: &'a str,
    about: &'a str,
) -> Result<Command<'a>, AllocError>
    ensures { IfOk result (HasApp (showing_app name.entry.now)) }
{
    Command::new(alloc, name)
        .about(about)
        .arg(quiet(alloc))?
        .arg(verbose(alloc))?
        .arg(json(alloc))
}

/// Adds where the sources of a pile are looked up, and whether one that can't be read ends the run.
fn staging_command<'a>(alloc: Global) -> Result<Command<'a>, AllocError>
    ensures { IfOk result (HasApp staging_app) }
{
    let about = "Copies files to a pile, with a list of what they are, for publish";
    let command = showing_command(alloc, "stage", about)?.after_help(endings::STAGE);
    command
        .arg(files0_from(alloc))?
        .arg(from(alloc))?
        .arg(keep_going(alloc))
}

fn stage_command<'a>(alloc: Global) -> Result<Command<'a>, AllocError>
    ensures { IfOk result (HasApp stage_app) }
{
    staging_command(alloc)?
        .arg(path(
            alloc,
            arguments::OUT,
            "PILE",
            "New folder; one that is there is refused",
        ))?
        .arg(any_paths(
            alloc,
            arguments::SOURCE,
            "SRC",
            "DICOM files; what is wrong with one is noted for publish",
        ))
}

fn publish_command<'a>(alloc: Global) -> Result<Command<'a>, AllocError>
    ensures { IfOk result (HasApp publish_app) }
{
    let about = "Makes a file-set of piles, as index does of their sources";
    let command = linking_command(alloc, "publish", about)?.after_help(endings::PUBLISH);
    command.arg(from(alloc))?.arg(any_paths(
        alloc,
        arguments::PILE,
        "PILE",
        "Folders that stage made, in the order of their sources; they are not changed",
    ))
}

fn reading_command<'a>(
    alloc: Global,
    name: &'a str,
    about: &'a str,
) -> Result<Command<'a>, AllocError>
    ensures { IfOk result (HasApp (reading_app name.entry.now)) }
{
    Command::new(alloc, name).about(about).arg(path(
        alloc,
        arguments::SET,
        "SET",
        "Folder of the file-set; nothing in it is changed",
    ))
}

fn comparing_command<'a>(alloc: Global) -> Result<Command<'a>, AllocError>
    ensures { IfOk result (HasApp comparing_app) }
{
    let about = "Checks that the files which a DICOMDIR names are there and unchanged";
    let command = reading_command(alloc, "check", about)?.after_help(endings::CHECK);
    command
        .arg(flag(
            alloc,
            arguments::KEYS,
            "Also compares what each image says of itself with its record",
        ))?
        .arg(flag(
            alloc,
            arguments::STRICT,
            "Also finds each file whose record has no digest to compare",
        ))
}

fn check_command<'a>(alloc: Global) -> Result<Command<'a>, AllocError>
    ensures { IfOk result (HasApp check_app) }
{
    comparing_command(alloc)?
        .arg(quiet(alloc))?
        .arg(verbose(alloc))?
        .arg(json(alloc))
}

fn list_command<'a>(alloc: Global) -> Result<Command<'a>, AllocError>
    ensures { IfOk result (HasApp list_app) }
{
    let about = "Lists the records of a DICOMDIR, those of other programs too";
    let command = reading_command(alloc, "list", about)?.after_help(endings::LIST);
    command
        .arg(flag(
            alloc,
            arguments::LONG,
            "Also prints names, dates, times, modalities and numbers",
        ))?
        .arg(verbose(alloc))?
        .arg(json(alloc))
}

/// Makes a command that takes sources or `--max-bytes`, with the name by which the user calls it.
fn command_of<'a>(alloc: Global, verb: Verb) -> Result<Command<'a>, AllocError> {
    match verb {
        Verb::Merge => merge_command(alloc)?.bin_name("dicomdir merge"),
        Verb::Withdraw => withdraw_command(alloc)?.bin_name("dicomdir withdraw"),
        Verb::Stage => stage_command(alloc)?.bin_name("dicomdir stage"),
        Verb::Publish => publish_command(alloc)?.bin_name("dicomdir publish"),
        _ => index_command(alloc)?.bin_name("dicomdir index"),
    }
}

/// Makes the error for a line without a source.
pub(crate) fn no_source(alloc: Global, verb: Verb) -> Result<Error, AllocError>
    ensures { IfOk result (λ e. kind_of e ≡ ErrorKind.MissingRequiredArgument) }
{
    command_of(alloc, verb)?.error(
        ErrorKind::MissingRequiredArgument,
        "no source is given: name one, or give --files0-from FILE",
    )
}

/// Makes the error for a wrong value of `--max-bytes`.
pub(crate) fn wrong_limit(alloc: Global, verb: Verb, value: &str) -> Result<Error, AllocError>
    ensures { IfOk result (λ e. kind_of e ≡ ErrorKind.ValueValidation) }
{
    let message = format!(in alloc;
        "invalid value '{value}' for '--max-bytes <N>': \
        N is a number of at most 4294967295 bytes, which K, k, M or G may follow: 650M"
    )?;
    command_of(alloc, verb)?.error(ErrorKind::ValueValidation, message.as_str())
}

fn bare_program<'a>(alloc: Global) -> Command<'a>
    ensures { HasApp bare_app result }
{
    Command::new(alloc, "dicomdir")
        .about(
            "Makes, merges, checks and lists DICOM file-sets with their DICOMDIR, and withdraws images",
        )
        .version(VERSION)
        .after_help(endings::PROGRAM)
        .subcommand_required(true)
}

pub(crate) fn program<'a>(alloc: Global) -> Result<Command<'a>, AllocError>
    ensures { IfOk result (HasApp dicomdir_app) }
{
    bare_program(alloc)
        .subcommand(index_command(alloc)?)?
        .subcommand(merge_command(alloc)?)?
        .subcommand(withdraw_command(alloc)?)?
        .subcommand(stage_command(alloc)?)?
        .subcommand(publish_command(alloc)?)?
        .subcommand(check_command(alloc)?)?
        .subcommand(list_command(alloc)?)
}
