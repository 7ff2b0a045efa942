//! Headers and bytes taken from where reading stands.

ghost use Rattle.std.specs.Prelude.{◌≡◌, ◌≢◌, ◌+◌, ◌≤◌, ◌<◌, length, IfOk, OnSome, Err, option_map};
ghost use Rattle.dd_grammar.specs.declared.fault.SetFault.TheVariants.{Memory};
ghost use Rattle.dd_grammar.specs.Checks.{header_view};
ghost use Rattle.dd_grammar.specs.Reading.{long_length_at, front_at, item_front_at, take_at, is_over, left_after};
ghost use Rattle.dd_set.specs.Places.{at_view, stepped};

use dd_encoding::{HEADER_SIZE, LONG_LENGTH_SIZE, Length, Syntax};
use dd_grammar::{
    Header, Opening, SetFault, Shape, element_opening, ends_here, item_opening, leaves_fewer,
    left_after,
};

/// A place in the bytes: what is to come, and how much of it the nearest enclosing length leaves.
#[derive(Clone, Copy)]
pub struct Cursor<'a> {
    pub left: Option<u64>,
    pub rest: &'a [u8],
}

impl<'a> Cursor<'a> {
    fn is_over(self, form: Length) -> bool
        ensures { result ≡ is_over form (at_view self.entry) }
    {
        match ends_here(form, self.left) {
            Some(over) => over,
            None => self.rest.is_empty(),
        }
    }

    /// Makes the same place, with n bytes left.
    pub fn within(self, n: u64) -> Cursor<'a>
        ensures { result ≡ record self.entry { left = Some n } }
    {
        Cursor {
            left: Some(n),
            rest: self.rest,
        }
    }

    /// Makes the place after the n bytes from here, which end where `inner` stands.
    pub fn after(self, n: u64, inner: Cursor<'a>) -> Cursor<'a>
        ensures { at_view result
            ≡ record { left = left_after self.entry.left n; bytes = inner.entry.rest.now } }
    {
        Cursor {
            left: left_after(self.left, n),
            rest: inner.rest,
        }
    }

    /// Takes n bytes.
    #[tactic(auto, unfolding(dd_grammar::specs::Reading::take_at))]
    pub fn take(self, n: u64) -> Result<(&'a [u8], Cursor<'a>), SetFault>
        ensures exact { take_at n (at_view self.entry) ≡ stepped (λ bytes. bytes.now) result }
        ensures whole { IfOk result (λ x. length x.0.now ≡ n) }
        ensures shorter { IfOk result (λ x. length x.1.rest.now + n ≡ length self.entry.rest.now) }
        ensures memory { result ≢ Err Memory }
    {
        if leaves_fewer(self.left, n) {
            return Err(SetFault::Overrun);
        }
        if (self.rest.len() as u64) < n {
            return Err(SetFault::Truncated);
        }
        let (front, rest) = self.rest.split_at(n as usize);
        let left = left_after(self.left, n);
        Ok((front, Cursor { left, rest }))
    }

    /// Takes the length of a long header, after its first eight bytes.
    #[tactic(auto, unfolding(dd_grammar::specs::Reading::long_length_at))]
    fn long(self) -> Result<(u32, Cursor<'a>), SetFault>
        ensures exact { long_length_at (at_view self.entry) ≡ stepped (λ n. n) result }
        ensures not_longer { IfOk result (λ x. length x.1.rest.now ≤ length self.entry.rest.now) }
    {
        let (bytes, at) = self.take(LONG_LENGTH_SIZE as u64)?;
        let length = u32::from_le_bytes([bytes[0], bytes[1], bytes[2], bytes[3]]);
        Ok((length, at))
    }

    fn head(self) -> Result<([u8; HEADER_SIZE], Cursor<'a>), SetFault>
        ensures exact { take_at 8 (at_view self.entry) ≡ stepped (λ head. head) result }
        ensures shorter { IfOk result (λ x. length x.1.rest.now < length self.entry.rest.now) }
        ensures memory { result ≢ Err Memory }
    {
        let (bytes, at) = self.take(HEADER_SIZE as u64)?;
        let mut head = [0; HEADER_SIZE];
        head.copy_from_slice(bytes);
        Ok((head, at))
    }

    /// Takes the next header of a set of this form, or None at the end of the set. Tags below the
    /// number `low` may not follow.
    #[tactic(auto, unfolding(dd_grammar::specs::Reading::front_at, dd_grammar::specs::Reading::head_at))]
    pub fn front(
        self,
        syntax: Syntax,
        form: Length,
        low: u64,
    ) -> Result<(Option<Header>, Cursor<'a>), SetFault>
        ensures exact { front_at syntax form low (at_view self.entry)
            ≡ stepped (option_map header_view) result }
        ensures shorter { IfOk result
            (λ x. OnSome x.0 (length x.1.rest.now < length self.entry.rest.now)) }
        ensures not_longer { IfOk result (λ x. length x.1.rest.now ≤ length self.entry.rest.now) }
    {
        if self.is_over(form) {
            return Ok((None, self));
        }
        let (head, at) = self.head()?;
        match element_opening(syntax, form, low, &head)? {
            Opening::End => Ok((None, at)),
            Opening::Whole(header) => Ok((Some(header), at)),
            Opening::Long(tag, vr) => {
                let (length, at) = at.long()?;
                let vr = Some(vr);
                let shape = Shape { vr, length };
                Ok((Some(Header { tag, shape }), at))
            }
        }
    }

    /// Takes the length of the next item of a sequence of this form, or None at the end of the
    /// sequence.
    #[tactic(auto, unfolding(dd_grammar::specs::Reading::item_front_at, dd_grammar::specs::Reading::head_at))]
    pub fn item_front(self, form: Length) -> Result<(Option<u32>, Cursor<'a>), SetFault>
        ensures exact { item_front_at form (at_view self.entry) ≡ stepped (λ n. n) result }
        ensures shorter { IfOk result
            (λ x. OnSome x.0 (length x.1.rest.now < length self.entry.rest.now)) }
        ensures not_longer { IfOk result (λ x. length x.1.rest.now ≤ length self.entry.rest.now) }
        ensures memory { result ≢ Err Memory }
    {
        if self.is_over(form) {
            return Ok((None, self));
        }
        let (head, at) = self.head()?;
        Ok((item_opening(form, &head)?, at))
    }
}
