ghost use Rattle.std.specs.Prelude.{◌≡◌, true};
ghost use Rattle.std.specs.Prelude.{[], ◌∷◌, ◌++◌, IfOk, IsOk, option_map, string_bytes};
ghost use Rattle.clap.specs.Takes.{is_given};
ghost use Rattle.clap.specs.Words.{first_of, found_of, rows_of};
ghost use Rattle.dd_line.specs.Line.{IsLimit, RefusesWhere, flag_names, given_for, is_among, max_bytes_name};
ghost use Rattle.dd_line.specs.Line.{words_of};
ghost use Rattle.dd_line.specs.Requests.{GivesNoLimit, HasFlags, HasOne, IsOnly};

use crate::arguments::MAX_BYTES;
use crate::commands::wrong_limit;
use crate::line::{LineFault, Verb};
use crate::sizes::size_in;
use clap::ArgMatches;
use std::alloc::{AllocError, Global};

/// None where the option is not given.
pub(crate) fn value_of(
    alloc: Global,
    given: &ArgMatches<'_>,
    name: &str,
) -> Result<Option<String>, AllocError>
    ensures { IfOk result (λ value.
        option_map string_bytes value ≡ first_of name.now (rows_of (found_of given.now))) }
{
    match given.get_str(name) {
        Some(value) => Ok(Some(String::from_str(alloc, value)?)),
        None => Ok(None),
    }
}

pub(crate) fn path_of(
    alloc: Global,
    given: &ArgMatches<'_>,
    name: &str,
) -> Result<String, AllocError>
    requires { HasOne name.now (rows_of (found_of given.now)) }
    ensures { IfOk result (λ path.
        IsOnly name.now (rows_of (found_of given.now)) (string_bytes path)) }
{
    match given.get_str(name) {
        Some(path) => String::from_str(alloc, path),
        None => unreachable!(),
    }
}

pub(crate) fn values_of(
    alloc: Global,
    given: &ArgMatches<'_>,
    name: &str,
) -> Result<Vec<String>, AllocError>
    ensures { IfOk result (λ words. words_of words.items
        ≡ given_for name.now (rows_of (found_of given.now))) }
{
    let values = given.get_strs(name).unwrap_or(&[]);
    let mut words = Vec::new(alloc);
    for value in values {
        words.push(String::from_str(alloc, value)?)?;
    }
    Ok(words)
}

/// 4294967295 where `--max-bytes` is not given. Refused where its value is no number of bytes up to that.
pub(crate) fn limit_of(alloc: Global, verb: Verb, given: &ArgMatches<'_>) -> Result<u32, LineFault>
    ensures limit { IfOk result (IsLimit (first_of max_bytes_name (rows_of (found_of given.now)))) }
    ensures wrong { RefusesWhere (GivesNoLimit (rows_of (found_of given.now))) ⊥ result }
{
    let Some(text) = given.get_str(MAX_BYTES) else {
        return Ok(u32::MAX);
    };
    match size_in(text) {
        Some(bytes) => Ok(bytes),
        None => Err(LineFault::Refused(wrong_limit(alloc, verb, text)?)),
    }
}

pub(crate) fn flag_of(given: &ArgMatches<'_>, name: &str) -> bool
    requires known { is_among flag_names name.now ≡ true }
    requires flags { HasFlags (rows_of (found_of given.now)) }
    ensures { result ≡ is_given name.now (rows_of (found_of given.now)) }
{
    given.get_flag(name)
}
