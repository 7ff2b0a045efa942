ghost use Rattle.std.specs.Prelude.{◌≡◌, ◌≤◌, None, true};
ghost use Rattle.dd_messages.specs.FaultLines.{TellsFault};
ghost use Rattle.dd_refusals.specs.Mistakes.{IsMistake};

use crate::masked_words::{have_control, mask_words};
use crate::refusal::{Paths, tell};
use dd_elem::Write;
use dd_faults::Refusal;
use dd_json::Style;
use dd_line::{LineFault, read_words};
use dd_lines::Text;
use dd_messages::RefusalForm;
use std::alloc::Global;
use std::fmt;

/// Prints why these words are refused, or the help that they ask for, and gives the status. A control character of a
/// word is printed as `?`.
pub fn refuse_line<O: Write, E: Write>(
    alloc: Global,
    words: &[String],
    fault: &LineFault,
    out: &mut O,
    err: &mut E,
) -> u8
    ensures status { result ≤ 2 }
    ensures memory { fault.now ≡ LineFault.Memory → (result ≡ 1) × (out.new ≡ out.old) }
    ensures line { result ≡ 2 → out.new ≡ out.old }
    ensures mistake { IsMistake fault.now → (1 ≤ result) × (out.new ≡ out.old) }
    ensures refused { IsMistake fault.now → result ≡ 1 → TellsFault E.Write Style.Text None err.old err.new }
    ensures done { result ≡ 0 → err.new ≡ err.old }
{
    match fault {
        LineFault::Memory => tell(&Refusal::memory(), Paths::none(), RefusalForm::Words, err),
        LineFault::Refused(error) => {
            let mistake = error.use_stderr();
            if have_control(words) {
                refuse_masked(alloc, words, mistake, out, err)
            } else {
                tell_parser(error, mistake, out, err)
            }
        }
    }
}

/// Prints the parser's text for these words with `?` in place of each control character, and gives the status: 1 where
/// an allocation was refused. `mistake` says whether the words themselves have a mistake.
fn refuse_masked<O: Write, E: Write>(
    alloc: Global,
    words: &[String],
    mistake: bool,
    out: &mut O,
    err: &mut E,
) -> u8
    ensures status { result ≤ 2 }
    ensures line { result ≡ 2 → out.new ≡ out.old }
    ensures mistake { mistake ≡ true → (1 ≤ result) × (out.new ≡ out.old) }
    ensures refused { mistake ≡ true → result ≡ 1 → TellsFault E.Write Style.Text None err.old err.new }
    ensures done { result ≡ 0 → err.new ≡ err.old }
{
    let Ok(shown) = mask_words(alloc, words) else {
        return tell(&Refusal::memory(), Paths::none(), RefusalForm::Words, err);
    };
    match read_words(alloc, shown.as_slice()) {
        Err(LineFault::Refused(error)) => tell_parser(&error, mistake, out, err),
        Err(LineFault::Memory) => tell(&Refusal::memory(), Paths::none(), RefusalForm::Words, err),

        // Words that are refused are refused with `?` too: no name and no number has a `?`.
        Ok(_) => 2,
    }
}

/// Prints the parser's text, and gives the status. A mistake goes to the error output, with status 2. Help goes to the
/// output, with status 0, or 1 where the output failed.
fn tell_parser<O: Write, E: Write>(
    error: &clap::Error,
    mistake: bool,
    out: &mut O,
    err: &mut E,
) -> u8
    ensures status { result ≤ 2 }
    ensures line { result ≡ 2 → out.new ≡ out.old }
    ensures mistake { mistake ≡ true → (1 ≤ result) × (out.new ≡ out.old) }
    ensures refused { mistake ≡ true → result ≡ 1 → TellsFault E.Write Style.Text None err.old err.new }
    ensures done { result ≡ 0 → err.new ≡ err.old }
{
    if mistake {
        let _ = fmt::Write::write(&mut Text { to: err }, format_args!("{error}"));
        return 2;
    }
    match fmt::Write::write(&mut Text { to: out }, format_args!("{error}")) {
        Ok(()) => 0,
        Err(_) => 1,
    }
}
