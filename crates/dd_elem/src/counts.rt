ghost use Rattle.std.specs.Prelude.{◌≡◌, ◌↔◌, IsTrue, IsOk, is_ok};
ghost use Rattle.dd_elem.specs.Counts.{counts_after, settled};
ghost use Rattle.dd_elem.specs.Device.{counted, IsLive};

use std::io;

/// The calls of a device, and how many of them failed. Each count stops at `u64::MAX`.
#[derive(Clone, Copy, Debug, Default, PartialEq, Eq)]
pub struct Counts {
    pub calls: u64,
    pub failures: u64,
}

impl Counts {
    /// Starts both counts at 0.
    pub fn new() -> Self
        ensures { result ≡ record { calls = 0; failures = 0 } }
    {
        Counts {
            calls: 0,
            failures: 0,
        }
    }

    /// Says whether no count is at `u64::MAX`. With one there, a device fails from then on.
    pub fn is_live(&self) -> bool
        ensures { IsTrue result ↔ IsLive self.now.calls self.now.failures }
    {
        self.calls < u64::MAX && self.failures < u64::MAX
    }

    /// Counts a call.
    pub fn call(&mut self)
        ensures { self.new ≡ record self.old { calls = counted self.old.calls } }
    {
        self.calls = self.calls.saturating_add(1);
    }

    /// Counts a call. Where a count was at `u64::MAX` it fails, and counts that failure, too.
    pub fn begin(&mut self) -> io::Result<()>
        ensures live { IsOk result ↔ IsLive self.old.calls self.old.failures }
        ensures counts { self.new ≡ counts_after self.old (is_ok result) }
    {
        let is_live = self.is_live();
        self.call();
        if !is_live {
            self.fail();
            return Err(io::Error::other("a device was called or failed too often"));
        }
        Ok(())
    }

    /// Counts a failure.
    pub fn fail(&mut self)
        ensures { self.new ≡ record self.old { failures = counted self.old.failures } }
    {
        self.failures = self.failures.saturating_add(1);
    }

    /// Counts a failure where a begun call ended in an error, and gives back its result.
    pub fn settle<T>(&mut self, done: io::Result<T>) -> io::Result<T>
        ensures done { result ≡ done }
        ensures counts { self.new ≡ settled self.old (is_ok done) }
    {
        if done.is_err() {
            self.fail();
        }
        done
    }
}
