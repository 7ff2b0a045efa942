//! Printing to a device, with no memory.
ghost use Rattle.std.specs.Prelude.{◌≡◌, OnErr, OnOk};
ghost use Rattle.dd_lines.specs.Telling.{parts_of, shown_line};
ghost use Rattle.dd_lines.specs.Text.{FailsInText, TakesText, line_text};

use crate::line_buffer::LineBuffer;
use dd_elem::Write;
use dd_stream::send;
use std::fmt;

/// Sends the bytes of a text, all of them or up to where the writer fails.
pub fn send_text<W: Write>(text: &str, to: &mut W) -> fmt::Result
    ensures sent { OnOk result (TakesText W.Write to.old to.new text.now) }
    ensures unsent { OnErr result (FailsInText W.Write to.old to.new text.now) }
    ensures rest { W.rest to.new ≡ W.rest to.old }
{
    send_bytes(text.as_bytes(), to)
}

pub(crate) fn send_bytes<W: Write>(bytes: &[u8], to: &mut W) -> fmt::Result
    ensures sent { OnOk result (TakesText W.Write to.old to.new bytes.now) }
    ensures unsent { OnErr result (FailsInText W.Write to.old to.new bytes.now) }
    ensures rest { W.rest to.new ≡ W.rest to.old }
{
    match send(bytes, to, 0) {
        Ok(_) => Ok(()),
        Err(_) => Err(fmt::Error),
    }
}

/// Prints the parts of a line, one after the other, and the end of the line: all of it or up to where
/// the writer fails. A control character of a part prints as `?`, so that no part ends the line or steers
/// a terminal. A line that is not long is one write.
pub fn print_line<W: Write>(parts: &[&str], to: &mut W) -> fmt::Result
    ensures sent { OnOk result (TakesText W.Write to.old to.new (line_text parts.now)) }
    ensures unsent { OnErr result (FailsInText W.Write to.old to.new (line_text parts.now)) }
    ensures rest { W.rest to.new ≡ W.rest to.old }
{
    let mut line = LineBuffer::new(to);
    for part in parts {
        line.add_masked(part)?;
    }
    line.add(b"\n")?;
    line.flush()
}

/// Prints a line as `print_line` does, but byte by byte: each byte of a part outside 20 to 7E prints as `?`.
pub fn show_line<W: Write>(parts: &[&[u8]], to: &mut W) -> fmt::Result
    ensures sent { OnOk result (TakesText W.Write to.old to.new (shown_line (parts_of parts.now))) }
    ensures unsent { OnErr result
        (FailsInText W.Write to.old to.new (shown_line (parts_of parts.now))) }
    ensures rest { W.rest to.new ≡ W.rest to.old }
{
    let mut line = LineBuffer::new(to);
    line.add_line(parts)?;
    line.flush()
}

/// A device that a text is printed to as it comes.
#[derive(Drop)]
pub struct Text<'a, W: Write> {
    /// The device.
    pub to: &'a mut W,
}

impl<W: Write> fmt::Write for Text<'_, W> {
    fn write_str(&mut self, text: &str) -> fmt::Result {
        send_text(text, self.to)
    }
}
