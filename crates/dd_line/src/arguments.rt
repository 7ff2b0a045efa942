//! The arguments of the commands, as the parser gets them.
ghost use Rattle.dd_line.specs.Line.{HasRule, any_paths, files0_from_name, flag, from_name, json_name};
ghost use Rattle.dd_line.specs.Line.{keep_going_name, link_name};
ghost use Rattle.dd_line.specs.Line.{one_path, quiet_name, some_paths, text_option, verbose_name};

use clap::{Arg, ArgAction};
use std::alloc::Global;

// The names of the options.
pub(crate) const ID: &str = "id";

pub(crate) const UID: &str = "uid";

pub(crate) const MAX_BYTES: &str = "max-bytes";

pub(crate) const FILES0_FROM: &str = "files0-from";

pub(crate) const FROM: &str = "from";

// The names of the flags.
pub(crate) const KEYS: &str = "keys";

pub(crate) const STRICT: &str = "strict";

pub(crate) const DRY_RUN: &str = "dry-run";

pub(crate) const QUIET: &str = "quiet";

pub(crate) const VERBOSE: &str = "verbose";

pub(crate) const LONG: &str = "long";

pub(crate) const LINK: &str = "link";

pub(crate) const KEEP_GOING: &str = "keep-going";

pub(crate) const JSON: &str = "json";

// The names of the paths.
pub(crate) const OUT: &str = "out";

pub(crate) const SOURCE: &str = "source";

pub(crate) const SET: &str = "set";

pub(crate) const PILE: &str = "pile";

// Images, each by its SOP Instance UID.
pub(crate) const INSTANCE: &str = "instance";

pub(crate) fn option<'a>(
    alloc: Global,
    name: &'a str,
    value_name: &'a str,
    help: &'a str,
) -> Arg<'a>
    ensures { HasRule (text_option name.entry.now) result }
{
    Arg::new(alloc, name)
        .long(name)
        .value_name(value_name)
        .help(help)
}

pub(crate) fn flag<'a>(alloc: Global, name: &'a str, help: &'a str) -> Arg<'a>
    ensures { HasRule (flag name.entry.now) result }
{
    let flag = Arg::new(alloc, name)
        .long(name)
        .action(ArgAction::SetTrue)
        .help(help);
    if name == KEEP_GOING {
        return flag.short('k');
    }
    flag
}

pub(crate) fn quiet<'a>(alloc: Global) -> Arg<'a>
    ensures { HasRule (flag quiet_name) result }
{
    flag(alloc, QUIET, "Shows no progress and no hints")
}

pub(crate) fn verbose<'a>(alloc: Global) -> Arg<'a>
    ensures { HasRule (flag verbose_name) result }
{
    flag(
        alloc,
        VERBOSE,
        "Shows hints where there is no terminal, too",
    )
}

pub(crate) fn json<'a>(alloc: Global) -> Arg<'a>
    ensures { HasRule (flag json_name) result }
{
    flag(alloc, JSON, "Prints each line as a JSON object")
}

pub(crate) fn keep_going<'a>(alloc: Global) -> Arg<'a>
    ensures { HasRule (flag keep_going_name) result }
{
    flag(
        alloc,
        KEEP_GOING,
        "Skips a SRC that can't be opened or read; the status is then 3",
    )
}

pub(crate) fn link<'a>(alloc: Global) -> Arg<'a>
    ensures { HasRule (flag link_name) result }
{
    flag(
        alloc,
        LINK,
        "Makes hard links to the images in place of copies",
    )
}

/// Makes a path that has to be given.
pub(crate) fn path<'a>(alloc: Global, name: &'a str, value_name: &'a str, help: &'a str) -> Arg<'a>
    ensures { HasRule (one_path name.entry.now) result }
{
    Arg::new(alloc, name)
        .required(true)
        .value_name(value_name)
        .help(help)
}

pub(crate) fn paths<'a>(alloc: Global, name: &'a str, value_name: &'a str, help: &'a str) -> Arg<'a>
    ensures { HasRule (some_paths name.entry.now) result }
{
    path(alloc, name, value_name, help).num_args(1..)
}

pub(crate) fn any_paths<'a>(
    alloc: Global,
    name: &'a str,
    value_name: &'a str,
    help: &'a str,
) -> Arg<'a>
    ensures { HasRule (any_paths name.entry.now) result }
{
    paths(alloc, name, value_name, help).required(false)
}

pub(crate) fn files0_from<'a>(alloc: Global) -> Arg<'a>
    ensures { HasRule (text_option files0_from_name) result }
{
    option(
        alloc,
        FILES0_FROM,
        "FILE",
        "Reads names from FILE, or -, ended by zero bytes",
    )
}

pub(crate) fn from<'a>(alloc: Global) -> Arg<'a>
    ensures { HasRule (text_option from_name) result }
{
    option(
        alloc,
        FROM,
        "FOLDER",
        "Looks up each path but PILE in FOLDER, and prints it as given",
    )
}
