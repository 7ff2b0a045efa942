ghost use Rattle.std.specs.Prelude.{◌≡◌, ◌≢◌, ◌+◌, ◌≤◌, ◌<◌, length, IfOk, OnSome, Some, None, Err, option_map};
ghost use Rattle.dd_grammar.specs.declared.fault.SetFault.TheVariants.{Memory};
ghost use Rattle.dd_encoding.specs.declared.syntax.Length.TheVariants.{Defined};
ghost use Rattle.dd_grammar.specs.Checks.{header_view};
ghost use Rattle.dd_grammar.specs.Reading.{eight_at, head_at, long_length_at, front_at, item_front_at, take_at};
ghost use Rattle.dd_scan.specs.Skips.{Advances, Finds, Takes, Skips};

use dd_encoding::{HEADER_SIZE, LONG_LENGTH_SIZE, Length, Syntax};
use dd_grammar::{
    Header, Opening, SetFault, Shape, element_opening, ends_here, item_opening, leaves_fewer,
    left_after,
};
use dd_stream::{Feed, fill, skip};

/// A place in the bytes of a feed.
#[derive(Drop)]
pub struct Cursor<'a, F: Feed> {
    pub feed: &'a mut F,
    /// How many bytes the nearest enclosing length leaves, where there is one.
    pub left: Option<u64>,
}

impl<F: Feed> Cursor<'_, F> {
    /// Takes as many bytes as there is room for.
    pub fn take(&mut self, room: &mut [u8]) -> Result<(), SetFault>
        ensures same { self.new.feed.ghost_name ≡ self.old.feed.ghost_name }
        ensures found { Advances F.Feed self.old self.new
            (λ start end. Takes room.new result (take_at (length room.new) start) end) }
        ensures fewer { F.most self.new.feed.now ≤ F.most self.old.feed.now }
        ensures memory { result ≢ Err Memory }
        ensures less { IfOk result
            (λ _. length room.new + F.most self.new.feed.now ≤ F.most self.old.feed.now) }
    {
        let n = room.len();
        if leaves_fewer(self.left, n as u64) {
            return Err(SetFault::Overrun);
        }
        if fill(self.feed, room) < n {
            return Err(SetFault::Truncated);
        }
        self.left = left_after(self.left, n as u64);
        Ok(())
    }

    /// Skips n bytes.
    pub fn pass(&mut self, n: u32) -> Result<(), SetFault>
        ensures same { self.new.feed.ghost_name ≡ self.old.feed.ghost_name }
        ensures found { Advances F.Feed self.old self.new
            (λ start end. Skips result (take_at n start) end) }
        ensures fewer { F.most self.new.feed.now ≤ F.most self.old.feed.now }
        ensures memory { result ≢ Err Memory }
    {
        let n = u64::from(n);
        if leaves_fewer(self.left, n) {
            return Err(SetFault::Overrun);
        }
        if skip(self.feed, n) < n {
            return Err(SetFault::Truncated);
        }
        self.left = left_after(self.left, n);
        Ok(())
    }

    fn eight(&mut self) -> Result<[u8; HEADER_SIZE], SetFault>
        ensures same { self.new.feed.ghost_name ≡ self.old.feed.ghost_name }
        ensures found { Advances F.Feed self.old self.new
            (λ start end. Finds (λ head. Some head) result (eight_at start) end) }
        ensures fewer { F.most self.new.feed.now ≤ F.most self.old.feed.now }
        ensures memory { result ≢ Err Memory }
        ensures less { IfOk result (λ _. F.most self.new.feed.now < F.most self.old.feed.now) }
    {
        let mut head = [0; HEADER_SIZE];
        self.take(&mut head)?;
        Ok(head)
    }

    fn eight_or_end(&mut self) -> Result<Option<[u8; HEADER_SIZE]>, SetFault>
        requires { self.old.left ≡ None }
        ensures same { self.new.feed.ghost_name ≡ self.old.feed.ghost_name }
        ensures found { Advances F.Feed self.old self.new
            (λ start end. Finds (λ head. head) result (head_at Defined start) end) }
        ensures fewer { F.most self.new.feed.now ≤ F.most self.old.feed.now }
        ensures memory { result ≢ Err Memory }
        ensures some { IfOk result
            (λ x. OnSome x (F.most self.new.feed.now < F.most self.old.feed.now)) }
    {
        let mut head = [0; HEADER_SIZE];
        let n = fill(self.feed, &mut head);
        if n == 0 {
            return Ok(None);
        }
        if n < head.len() {
            return Err(SetFault::Truncated);
        }
        Ok(Some(head))
    }

    /// Gives None where a set or a sequence of this form ends by its length.
    fn head(&mut self, form: Length) -> Result<Option<[u8; HEADER_SIZE]>, SetFault>
        ensures same { self.new.feed.ghost_name ≡ self.old.feed.ghost_name }
        ensures found { Advances F.Feed self.old self.new
            (λ start end. Finds (λ head. head) result (head_at form start) end) }
        ensures fewer { F.most self.new.feed.now ≤ F.most self.old.feed.now }
        ensures memory { result ≢ Err Memory }
        ensures some { IfOk result
            (λ x. OnSome x (F.most self.new.feed.now < F.most self.old.feed.now)) }
    {
        match ends_here(form, self.left) {
            Some(true) => Ok(None),
            Some(false) => Ok(Some(self.eight()?)),
            None => self.eight_or_end(),
        }
    }

    fn long(&mut self) -> Result<u32, SetFault>
        ensures same { self.new.feed.ghost_name ≡ self.old.feed.ghost_name }
        ensures found { Advances F.Feed self.old self.new
            (λ start end. Finds (λ n. n) result (long_length_at start) end) }
        ensures fewer { F.most self.new.feed.now ≤ F.most self.old.feed.now }
        ensures memory { result ≢ Err Memory }
    {
        let mut length = [0; LONG_LENGTH_SIZE];
        self.take(&mut length)?;
        Ok(u32::from_le_bytes(length))
    }

    /// Takes the next header of a set of this form, or None at its end. Refuses a tag whose number is below `low`.
    pub fn front(
        &mut self,
        syntax: Syntax,
        form: Length,
        low: u64,
    ) -> Result<Option<Header>, SetFault>
        ensures same { self.new.feed.ghost_name ≡ self.old.feed.ghost_name }
        ensures found { Advances F.Feed self.old self.new
            (λ start end. Finds (option_map header_view) result
            (front_at syntax form low start) end) }
        ensures fewer { F.most self.new.feed.now ≤ F.most self.old.feed.now }
        ensures memory { result ≢ Err Memory }
        ensures some { IfOk result
            (λ x. OnSome x (F.most self.new.feed.now < F.most self.old.feed.now)) }
    {
        let Some(head) = self.head(form)? else {
            return Ok(None);
        };
        match element_opening(syntax, form, low, &head)? {
            Opening::End => Ok(None),
            Opening::Whole(header) => Ok(Some(header)),
            Opening::Long(tag, vr) => {
                let length = self.long()?;
                let vr = Some(vr);
                let shape = Shape { vr, length };
                Ok(Some(Header { tag, shape }))
            }
        }
    }

    /// Takes the length of the next item of a sequence of this form, or None at its end.
    pub fn item_front(&mut self, form: Length) -> Result<Option<u32>, SetFault>
        ensures same { self.new.feed.ghost_name ≡ self.old.feed.ghost_name }
        ensures found { Advances F.Feed self.old self.new
            (λ start end. Finds (λ n. n) result (item_front_at form start) end) }
        ensures fewer { F.most self.new.feed.now ≤ F.most self.old.feed.now }
        ensures memory { result ≢ Err Memory }
        ensures some { IfOk result
            (λ x. OnSome x (F.most self.new.feed.now < F.most self.old.feed.now)) }
    {
        match self.head(form)? {
            None => Ok(None),
            Some(head) => item_opening(form, &head),
        }
    }
}
