//! The flags that every command may have.
ghost use Rattle.std.specs.Prelude.{◌≡◌};
ghost use Rattle.dd_line.specs.Requests.{is_json};
ghost use Rattle.dd_refusals.specs.Faults.{is_quiet, is_verbose};
ghost use Rattle.dd_refusals.specs.Styles.{style_by};

use dd_json::Style;
use dd_line::Request;

/// Says whether the request has `--quiet`.
pub fn is_quiet(request: &Request) -> bool
    ensures { result ≡ is_quiet request.now }
{
    match request {
        Request::Index(index) => index.new_set.quiet,
        Request::Merge(merge) => merge.new_set.quiet,
        Request::Withdraw(withdraw) => withdraw.new_set.quiet,
        Request::Stage(stage) => stage.quiet,
        Request::Publish(publish) => publish.new_set.quiet,
        Request::Check(check) => check.quiet,
        Request::List(_) => false,
    }
}

pub(crate) fn is_verbose(request: &Request) -> bool
    ensures { result ≡ is_verbose request.now }
{
    match request {
        Request::Index(index) => index.new_set.verbose,
        Request::Merge(merge) => merge.new_set.verbose,
        Request::Withdraw(withdraw) => withdraw.new_set.verbose,
        Request::Stage(stage) => stage.verbose,
        Request::Publish(publish) => publish.new_set.verbose,
        Request::Check(check) => check.verbose,
        Request::List(list) => list.verbose,
    }
}

/// Says how the lines of the request are printed.
pub(crate) fn style_of(request: &Request) -> Style
    ensures { result ≡ style_by (is_json request.now) }
{
    let is_json = match request {
        Request::Index(index) => index.new_set.json,
        Request::Merge(merge) => merge.new_set.json,
        Request::Withdraw(withdraw) => withdraw.new_set.json,
        Request::Stage(stage) => stage.json,
        Request::Publish(publish) => publish.new_set.json,
        Request::Check(check) => check.json,
        Request::List(list) => list.json,
    };
    style_for(is_json)
}

/// Gives the style of lines that are JSON objects or not.
pub fn style_for(json: bool) -> Style
    ensures { result ≡ style_by json }
{
    if json { Style::Json } else { Style::Text }
}
