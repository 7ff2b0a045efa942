ghost use Rattle.std.specs.Prelude.{◌≡◌, ◌↔◌, IsTrue, IsSome, IfSome, Some, option_map, string_bytes, true};
ghost use Rattle.dd_elem.specs.Device.{IsBeforeFail, passing};
ghost use Rattle.dd_mem_files.specs.PlannedFaults.{Planned, after_call, after_opening, after_taking, fails_at};
ghost use Rattle.dd_mem_files.specs.PlannedFaults.{counted_down, failing_reader_of, nothing_planned};

use std::marker::Model;

#[derive(Debug, Drop)]
struct ReaderFault {
    path: String,
    opening: u32,
    after: u64,
}

/// What is to fail: writes after a number of bytes, one of the next calls, one reader, and hard links.
#[derive(Debug, Drop)]
pub(crate) struct PlannedFaults {
    room: Option<u64>,
    call: u32,
    reader: Option<ReaderFault>,
    no_links: bool,
}

impl Model for PlannedFaults {
    ghost Value = { Planned };

    ghost view = { λ s. record {
      room = s.room;
      call = s.call;
      reader = option_map failing_reader_of s.reader;
      no_links = s.no_links;
    } };
}

impl PlannedFaults {
    pub(crate) fn new() -> Self
        ensures { result ≡ nothing_planned }
    {
        PlannedFaults {
            room: None,
            call: 0,
            reader: None,
            no_links: false,
        }
    }

    pub(crate) fn fail_write(&mut self, after: u64)
        ensures { self.new ≡ record self.old { room = Some after } }
    {
        self.room = Some(after);
    }

    pub(crate) fn fail_call(&mut self, n: u32)
        ensures { self.new ≡ record self.old { call = n } }
    {
        self.call = n;
    }

    pub(crate) fn fail_read(&mut self, path: String, opening: u32, after: u64)
        ensures { self.new ≡ record self.old {
          reader = Some (record { path = string_bytes path; opening = opening; after = after });
        } }
    {
        self.reader = Some(ReaderFault {
            path,
            opening,
            after,
        });
    }

    pub(crate) fn refuse_links(&mut self)
        ensures { self.new ≡ record self.old { no_links = true } }
    {
        self.no_links = true;
    }

    pub(crate) fn refuses_links(&self) -> bool
        ensures { result ≡ self.now.no_links }
    {
        self.no_links
    }

    /// Says how many of `len` bytes the next write takes. None where it fails.
    pub(crate) fn taken_len(&self, len: usize) -> Option<usize>
        ensures writable { IsSome result ↔ IsBeforeFail self.now.room 0 }
        ensures len { IfSome result (λ n. n ≡ passing self.now.room 0 len) }
    {
        match self.room {
            None => Some(len),
            Some(0) => None,
            Some(room) => Some((len as u64).min(room) as usize),
        }
    }

    /// Counts the bytes that a write took.
    pub(crate) fn take(&mut self, n: usize)
        ensures { self.new ≡ after_taking self.old n }
    {
        if let Some(room) = self.room {
            self.room = Some(room.saturating_sub(n as u64));
        }
    }

    /// Counts a call, and says whether it is to be refused.
    pub(crate) fn call(&mut self) -> bool
        ensures refuses { IsTrue result ↔ (self.old.call ≡ 1) }
        ensures after { self.new ≡ after_call self.old }
    {
        let is_refused = self.call == 1;
        self.call = self.call.saturating_sub(1);
        is_refused
    }

    fn fails_at(&self, path: &str) -> Option<u64>
        ensures { result ≡ fails_at self.now.reader path.now }
    {
        match &self.reader {
            Some(reader) if reader.opening == 1 && reader.path.as_str() == path => {
                Some(reader.after)
            }
            _ => None,
        }
    }

    /// Counts an opening of the path, and says after how many bytes its reader is to fail.
    pub(crate) fn open(&mut self, path: &str) -> Option<u64>
        ensures fails { result ≡ fails_at self.old.reader path.now }
        ensures after { self.new ≡ after_opening path.now self.old }
    {
        let fails = self.fails_at(path);
        count_down(&mut self.reader, path);
        fails
    }
}

fn count_down(reader: &mut Option<ReaderFault>, path: &str)
    ensures { option_map failing_reader_of reader.new
        ≡ counted_down path.now (option_map failing_reader_of reader.old) }
{
    if let Some(reader) = reader {
        if reader.path.as_str() == path {
            reader.opening = reader.opening.saturating_sub(1);
        }
    }
}
