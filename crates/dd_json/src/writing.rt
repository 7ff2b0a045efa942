//! Values of JSON texts, written.
ghost use Rattle.std.specs.Prelude.{◌≡◌, ◌++◌, ◌∷◌, [], OnErr, OnOk, false};
ghost use Rattle.serde_json.specs.Written.{comma_if, compact_text, items_text, members_text};
ghost use Rattle.dd_lines.specs.Telling.{Tells, way_of};
ghost use Rattle.dd_lines.specs.Text.{FailsInText, TakesText};
ghost use Rattle.dd_json.specs.Values.{items_view, json_line, members_view, value_of};

use crate::parts::{
    add_joined_text, add_member_name, add_number, add_raw, add_shown_text, add_text, add_texts,
};
use crate::value::Json;
use dd_elem::Write;
use dd_lines::LineBuffer;
use std::fmt;

/// Prints a line of one value: all of it or up to where the writer fails. A line that is not long is one write.
pub fn print_json<W: Write>(value: &Json<'_>, to: &mut W) -> fmt::Result
    ensures sent { OnOk result (TakesText W.Write to.old to.new (json_line (value_of value.now))) }
    ensures unsent { OnErr result (FailsInText W.Write to.old to.new (json_line (value_of value.now))) }
    ensures rest { W.rest to.new ≡ W.rest to.old }
{
    let mut lines = LineBuffer::new(to);
    add_json_line(value, &mut lines)?;
    lines.flush()
}

/// Adds a line of one value.
pub fn add_json_line<W: Write>(value: &Json<'_>, lines: &mut LineBuffer<'_, W>) -> fmt::Result
    ensures same { lines.new.to.ghost_name ≡ lines.old.to.ghost_name }
    ensures written { Tells result (json_line (value_of value.now))
        (way_of W.Write lines.old) (way_of W.Write lines.new) }
    ensures rest { W.rest lines.new.to.now ≡ W.rest lines.old.to.now }
{
    add_json(value, lines)?;
    lines.add_end()
}

/// Adds the text of a value, with no space between its parts.
#[cycle(values)]
pub fn add_json<W: Write>(value: &Json<'_>, lines: &mut LineBuffer<'_, W>) -> fmt::Result
    ensures same { lines.new.to.ghost_name ≡ lines.old.to.ghost_name }
    ensures written { Tells result (compact_text (value_of value.now))
        (way_of W.Write lines.old) (way_of W.Write lines.new) }
    ensures rest { W.rest lines.new.to.now ≡ W.rest lines.old.to.now }
{
    match value {
        Json::Null => add_raw("null", lines),
        Json::Boolean(true) => add_raw("true", lines),
        Json::Boolean(false) => add_raw("false", lines),
        Json::Number(number) => add_number(*number, lines),
        Json::Text(text) => add_text(text, lines),
        Json::Texts(texts) => add_texts(texts, lines),
        Json::Shown(bytes) => add_shown_text(bytes, lines),
        Json::Joined(parts) => add_joined_text(parts, lines),
        Json::Array(items) => {
            add_raw("[", lines)?;
            add_items(items, lines)
        }
        Json::Object(members) => {
            add_raw("{", lines)?;
            add_members(members, lines)
        }
    }
}

/// Adds the items of an array, and the bracket that closes it.
#[cycle(values)]
fn add_items<W: Write>(items: &[Json<'_>], lines: &mut LineBuffer<'_, W>) -> fmt::Result
    ensures same { lines.new.to.ghost_name ≡ lines.old.to.ghost_name }
    ensures written { Tells result (items_text false (items_view items.now))
        (way_of W.Write lines.old) (way_of W.Write lines.new) }
    ensures rest { W.rest lines.new.to.now ≡ W.rest lines.old.to.now }
{
    let mut later = false;
    for item in items {
        add_comma_if(later, lines)?;
        add_json(item, lines)?;
        later = true;
    }
    add_raw("]", lines)
}

/// Adds the members of an object, and the brace that closes it.
#[cycle(values)]
fn add_members<W: Write>(members: &[(&str, Json<'_>)], lines: &mut LineBuffer<'_, W>) -> fmt::Result
    ensures same { lines.new.to.ghost_name ≡ lines.old.to.ghost_name }
    ensures written { Tells result (members_text false (members_view members.now))
        (way_of W.Write lines.old) (way_of W.Write lines.new) }
    ensures rest { W.rest lines.new.to.now ≡ W.rest lines.old.to.now }
{
    let mut later = false;
    for member in members {
        add_comma_if(later, lines)?;
        add_member_name(member.0, lines)?;
        add_json(&member.1, lines)?;
        later = true;
    }
    add_raw("}", lines)
}

/// Adds a comma where something stands before.
fn add_comma_if<W: Write>(later: bool, lines: &mut LineBuffer<'_, W>) -> fmt::Result
    ensures same { lines.new.to.ghost_name ≡ lines.old.to.ghost_name }
    ensures written { Tells result (comma_if later)
        (way_of W.Write lines.old) (way_of W.Write lines.new) }
    ensures rest { W.rest lines.new.to.now ≡ W.rest lines.old.to.now }
{
    add_raw(if later { "," } else { "" }, lines)
}
