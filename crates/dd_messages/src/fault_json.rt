//! Faults as JSON objects.
ghost use Rattle.std.specs.Prelude.{◌≡◌, ℕ, List, OnErr, OnOk};
ghost use Rattle.serde_json.specs.Data.{Data};
ghost use Rattle.dd_json.specs.Values.{json_line, value_of};
ghost use Rattle.dd_lines.specs.Text.{FailsInText, TakesText};
ghost use Rattle.dd_messages.specs.FaultLines.{broken_json, refusal_json};

use crate::class_names::class_name;
use crate::shown_hints::ShownHints;
use dd_elem::Write;
use dd_json::{Json, print_json};
use std::fmt;

/// A member of an object: its name and its value.
pub(crate) type Member<'a> = (&'a str, Json<'a>);

/// The words of a fault, and what stands in front of them: its number and its name.
#[derive(Clone, Copy)]
pub(crate) struct FaultWords<'a> {
    pub(crate) number: u64,
    pub(crate) name: &'a str,
    pub(crate) words: &'a str,
}

impl<'a> FaultWords<'a> {
    /// Takes a fault's words apart, such as `51 File 27 Set 10 TooDeep`.
    pub(crate) fn of(words: &'a str) -> FaultWords<'a> {
        let mut parts = words.split(' ');
        let number = parts.next().unwrap_or("");
        let name = parts.next().unwrap_or("");
        FaultWords {
            number: number.parse().unwrap_or(0),
            name,
            words,
        }
    }

    /// Gives the fault that the words go on with: a number of two digits, and a name with a capital letter.
    pub(crate) fn cause(&self) -> Option<FaultWords<'a>> {
        let (_, words) = self.words.split_once(' ')?;
        let (_, words) = words.split_once(' ')?;
        match words.as_bytes() {
            [b'0'..=b'9', b'0'..=b'9', b' ', b'A'..=b'Z', ..] => Some(FaultWords::of(words)),
            _ => None,
        }
    }

    /// Gives its members as a cause.
    pub(crate) fn named(&self) -> [Member<'a>; 2] {
        [
            ("number", Json::Number(self.number)),
            ("name", Json::Text(self.name)),
        ]
    }

    /// Gives the name of the class that is not taken, where the fault is of one that has a name.
    pub(crate) fn class_name(&self) -> Option<&'static str> {
        class_name(self.words.strip_prefix("32 NotImage ")?)
    }

    /// Gives its members where it has no cause.
    pub(crate) fn members(&self) -> [Member<'a>; 3] {
        let [number, name] = self.named();
        [number, name, ("words", Json::Text(self.words))]
    }

    /// Gives its members with the name of a class.
    pub(crate) fn members_of_class(&self, class: &'a str) -> [Member<'a>; 4] {
        let [number, name, words] = self.members();
        [number, name, words, ("class_name", Json::Text(class))]
    }

    /// Gives its members with those of its cause.
    pub(crate) fn members_with(&self, cause: &'a [Member<'a>]) -> [Member<'a>; 4] {
        let [number, name, words] = self.members();
        [number, name, words, ("cause", Json::Object(cause))]
    }
}

/// Prints that a directory can't be read, for the fault of these words.
pub fn print_broken_json<W: Write>(words: &str, to: &mut W) -> fmt::Result
    ensures sent { OnOk result ((fault : Data)
        × TakesText W.Write to.old to.new (json_line (broken_json fault))) }
    ensures unsent { OnErr result ((fault : Data)
        × FailsInText W.Write to.old to.new (json_line (broken_json fault))) }
{
    let fault = FaultWords::of(words);
    match fault.cause() {
        None => print_broken_for(Json::Object(&fault.members()), to),
        Some(cause) => {
            let cause = cause.named();
            print_broken_for(Json::Object(&fault.members_with(&cause)), to)
        }
    }
}

fn print_broken_for<W: Write>(fault: Json<'_>, to: &mut W) -> fmt::Result
    ensures sent { OnOk result
        (TakesText W.Write to.old to.new (json_line (broken_json (value_of fault.entry)))) }
    ensures unsent { OnErr result
        (FailsInText W.Write to.old to.new (json_line (broken_json (value_of fault.entry)))) }
{
    print_json(
        &Json::Object(&[("line", Json::Text("BROKEN")), ("fault", fault)]),
        to,
    )
}

/// Prints that a run is refused for the fault of these words. The path is a string, or null. The hints are the system's
/// words, if there are any, and what to do first.
pub(crate) fn print_fault_json<'t, W: Write>(
    path: Json<'t>,
    words: &'t str,
    hints: Option<&'t ShownHints>,
    to: &mut W,
) -> fmt::Result
    ensures sent { OnOk result ((fault : Data) × (hints : List (List ℕ × Data))
        × TakesText W.Write to.old to.new (json_line (refusal_json (value_of path.entry) fault hints))) }
    ensures unsent { OnErr result ((fault : Data) × (hints : List (List ℕ × Data))
        × FailsInText W.Write to.old to.new (json_line (refusal_json (value_of path.entry) fault hints))) }
{
    let fault = FaultWords::of(words);
    match fault.cause() {
        None => print_fault_for(path, Json::Object(&fault.members()), hints, to),
        Some(cause) => {
            let cause = cause.named();
            print_fault_for(path, Json::Object(&fault.members_with(&cause)), hints, to)
        }
    }
}

fn print_fault_for<'t, W: Write>(
    path: Json<'t>,
    fault: Json<'t>,
    hints: Option<&'t ShownHints>,
    to: &mut W,
) -> fmt::Result
    ensures sent { OnOk result ((hints : List (List ℕ × Data)) × TakesText W.Write to.old to.new
        (json_line (refusal_json (value_of path.entry) (value_of fault.entry) hints))) }
    ensures unsent { OnErr result ((hints : List (List ℕ × Data)) × FailsInText W.Write to.old to.new
        (json_line (refusal_json (value_of path.entry) (value_of fault.entry) hints))) }
{
    match hints {
        None => print_json(
            &Json::Object(&[
                ("line", Json::Text("FAULT")),
                ("path", path),
                ("fault", fault),
            ]),
            to,
        ),
        Some(hints) => {
            let step = [hints.before(), hints.path.as_str(), hints.after()];
            print_hinted(path, fault, hints.cause.as_str(), &step, to)
        }
    }
}

/// Prints the object with the system's words, if there are any, and with what to do first.
fn print_hinted<'t, W: Write>(
    path: Json<'t>,
    fault: Json<'t>,
    cause: &'t str,
    step: &'t [&'t str],
    to: &mut W,
) -> fmt::Result
    ensures sent { OnOk result ((hints : List (List ℕ × Data)) × TakesText W.Write to.old to.new
        (json_line (refusal_json (value_of path.entry) (value_of fault.entry) hints))) }
    ensures unsent { OnErr result ((hints : List (List ℕ × Data)) × FailsInText W.Write to.old to.new
        (json_line (refusal_json (value_of path.entry) (value_of fault.entry) hints))) }
{
    if cause.is_empty() {
        return print_json(
            &Json::Object(&[
                ("line", Json::Text("FAULT")),
                ("path", path),
                ("fault", fault),
                ("help", Json::Texts(step)),
            ]),
            to,
        );
    }
    print_json(
        &Json::Object(&[
            ("line", Json::Text("FAULT")),
            ("path", path),
            ("fault", fault),
            ("cause", Json::Text(cause)),
            ("help", Json::Texts(step)),
        ]),
        to,
    )
}
