//! Lines on their way to a device.
ghost use Rattle.std.specs.Prelude.{◌≡◌, ◌++◌, ◌∷◌, [], OnErr, OnOk, codes};
ghost use Rattle.std.specs.List.{concat, repeat};
ghost use Rattle.dd_lines.specs.Telling.{Tells, parts_of, shown, shown_byte, shown_line, way_of};
ghost use Rattle.dd_lines.specs.Text.{FailsInText, SendsFront, TakesText, masked};

use crate::text::send_bytes;
use crate::waiting::Waiting;
use dd_elem::Write;
use std::fmt;

/// Keeps the bytes of lines for `flush`, so that a line, or many, are one write. Where there is no room for all, a
/// front goes earlier.
#[derive(Drop)]
pub struct LineBuffer<'a, W: Write> {
    waiting: Waiting,
    to: &'a mut W,
}

impl<'a, W: Write> LineBuffer<'a, W> {
    /// Makes a buffer in which nothing waits.
    pub fn new(to: &'a mut W) -> LineBuffer<'a, W>
        ensures same { result.to.ghost_name ≡ to.entry.ghost_name }
        ensures device { result.to.now ≡ to.old }
        ensures empty { result.waiting ≡ [] }
    {
        LineBuffer {
            waiting: Waiting::new(),
            to,
        }
    }

    /// Sends a front of what waited and of these to the device; the rest waits then.
    pub fn add(&mut self, more: &[u8]) -> fmt::Result
        ensures same { self.new.to.ghost_name ≡ self.old.to.ghost_name }
        ensures sent { OnOk result (SendsFront W.Write self.old.to.now self.new.to.now
            (self.old.waiting ++ more.now) self.new.waiting) }
        ensures unsent { OnErr result (FailsInText W.Write self.old.to.now self.new.to.now
            (self.old.waiting ++ more.now)) }
        ensures rest { W.rest self.new.to.now ≡ W.rest self.old.to.now }
    {
        if self.waiting.has_room(more.len()) {
            self.waiting.keep(more);
            return Ok(());
        }
        self.flush()?;
        if self.waiting.has_room(more.len()) {
            self.waiting.keep(more);
            return Ok(());
        }
        send_bytes(more, self.to)?;
        Ok(())
    }

    /// Adds a text as `add` does, with `?` for each control character.
    pub fn add_masked(&mut self, text: &str) -> fmt::Result
        ensures same { self.new.to.ghost_name ≡ self.old.to.ghost_name }
        ensures sent { OnOk result (SendsFront W.Write self.old.to.now self.new.to.now
            (self.old.waiting ++ masked text.now) self.new.waiting) }
        ensures unsent { OnErr result (FailsInText W.Write self.old.to.now self.new.to.now
            (self.old.waiting ++ masked text.now)) }
        ensures rest { W.rest self.new.to.now ≡ W.rest self.old.to.now }
    {
        let mut rest = text;
        while let Some((front, after)) = rest.split_once(char::is_control) {
            self.add(front.as_bytes())?;
            self.add(b"?")?;
            rest = after;
        }
        self.add(rest.as_bytes())
    }

    /// Adds two spaces for each level.
    pub fn add_indent(&mut self, level: u64) -> fmt::Result
        ensures same { self.new.to.ghost_name ≡ self.old.to.ghost_name }
        ensures written { Tells result (repeat level (codes "  "))
            (way_of W.Write self.old) (way_of W.Write self.new) }
    {
        for _ in 0..level {
            self.add(b"  ")?;
        }
        Ok(())
    }

    /// Adds a line of these parts, one after the other, with `?` for each byte that does not print.
    pub fn add_line(&mut self, parts: &[&[u8]]) -> fmt::Result
        ensures same { self.new.to.ghost_name ≡ self.old.to.ghost_name }
        ensures written { Tells result (shown_line (parts_of parts.now))
            (way_of W.Write self.old) (way_of W.Write self.new) }
        ensures rest { W.rest self.new.to.now ≡ W.rest self.old.to.now }
    {
        self.add_parts(parts)?;
        self.add_end()
    }

    /// Adds these parts to the line, with `?` for each byte that does not print.
    pub fn add_parts(&mut self, parts: &[&[u8]]) -> fmt::Result
        ensures same { self.new.to.ghost_name ≡ self.old.to.ghost_name }
        ensures written { Tells result (shown (concat (parts_of parts.now)))
            (way_of W.Write self.old) (way_of W.Write self.new) }
        ensures rest { W.rest self.new.to.now ≡ W.rest self.old.to.now }
    {
        for part in parts {
            self.add_shown(part)?;
        }
        Ok(())
    }

    /// Adds the end of a line.
    pub fn add_end(&mut self) -> fmt::Result
        ensures same { self.new.to.ghost_name ≡ self.old.to.ghost_name }
        ensures written { Tells result (10 ∷ []) (way_of W.Write self.old) (way_of W.Write self.new) }
        ensures rest { W.rest self.new.to.now ≡ W.rest self.old.to.now }
    {
        self.add(b"\n")
    }

    fn add_shown(&mut self, text: &[u8]) -> fmt::Result
        ensures same { self.new.to.ghost_name ≡ self.old.to.ghost_name }
        ensures written { Tells result (shown text.now) (way_of W.Write self.old) (way_of W.Write self.new) }
        ensures rest { W.rest self.new.to.now ≡ W.rest self.old.to.now }
    {
        for byte in text {
            self.add(&[shown_byte(*byte)])?;
        }
        Ok(())
    }

    /// Sends all that waits.
    pub fn flush(&mut self) -> fmt::Result
        ensures same { self.new.to.ghost_name ≡ self.old.to.ghost_name }
        ensures sent { OnOk result (TakesText W.Write self.old.to.now self.new.to.now self.old.waiting) }
        ensures empty { OnOk result (self.new.waiting ≡ []) }
        ensures unsent { OnErr result (FailsInText W.Write self.old.to.now self.new.to.now self.old.waiting) }
        ensures rest { W.rest self.new.to.now ≡ W.rest self.old.to.now }
    {
        send_bytes(self.waiting.as_slice(), self.to)?;
        self.waiting.clear();
        Ok(())
    }
}

/// Gives `?` for a byte outside 20 to 7E.
pub fn shown_byte(byte: u8) -> u8
    ensures { result ≡ shown_byte byte }
{
    match byte {
        0x20..=0x7e => byte,
        _ => b'?',
    }
}
