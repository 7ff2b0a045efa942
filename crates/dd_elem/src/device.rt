ghost use Rattle.std.specs.Prelude.{◌≡◌, ℕ, List, Option, ◌<◌, IsOk, IsErr};
ghost use Rattle.std.specs.Io.{ReadsAtMost, WritesAtMost};
ghost use Rattle.std.specs.Io.KnownBytes.{ReadConsumes, WriteAppends};
ghost use Rattle.dd_elem.specs.Device.{counted, last_count, HasWorked, Gives, read_piece, TakesSome, TakesNone};

use std::io;

/// A reader that counts its calls and its failures, each up to `u64::MAX`. With a count there, a call fails.
pub trait Read {
    ghost calls: { Self → ℕ };

    ghost failures: { Self → ℕ };

    // The bytes that are still to come, where they are known.
    ghost remaining: { Self → Option (List ℕ) };

    // An earlier state, from which `has_given` counts bytes. Each reader chooses its form.
    ghost Past: { Type 0 };

    // The reader has given these bytes since that state.
    ghost has_given: { Self → Past → List ℕ → Type 0 };

    /// Reads bytes to the front of `buf`, and answers how many: 0 at their end, or where `buf` is empty.
    fn read(&mut self, buf: &mut [u8]) -> io::Result<usize>
        ensures bound { ReadsAtMost result buf.new }
        ensures called { calls self.new ≡ counted (calls self.old) }
        ensures live { IsOk result → calls self.old < last_count }
        ensures worked { IsOk result → HasWorked (failures self.old) (failures self.new) }
        ensures failed { IsErr result → failures self.new ≡ counted (failures self.old) }

        // A failure gives nothing.
        ensures left { ReadConsumes (remaining self.old) (remaining self.new) result buf.new }
        ensures gives { Gives has_given self.old self.new (read_piece result buf.new) };
}

/// A writer that counts its calls and its failures as `Read` does. A call that takes nothing of a piece that is not
/// empty is a failure, too.
pub trait Write {
    ghost calls: { Self → ℕ };

    ghost failures: { Self → ℕ };

    // The bytes that the writer holds, where they are known.
    ghost contents: { Self → Option (List ℕ) };

    // What no write changes.
    ghost Rest: { Type 0 };

    ghost rest: { Self → Rest };

    /// Takes some bytes from the front of `bytes`, and answers how many.
    fn write(&mut self, bytes: &[u8]) -> io::Result<usize>
        ensures bound { WritesAtMost result bytes.now }
        ensures called { calls self.new ≡ counted (calls self.old) }
        ensures live { TakesSome result bytes.now → calls self.old < last_count }
        ensures worked { TakesSome result bytes.now
            → HasWorked (failures self.old) (failures self.new) }
        ensures failed { TakesNone result bytes.now
            → failures self.new ≡ counted (failures self.old) }

        // A failure adds nothing.
        ensures appends { WriteAppends (contents self.old) (contents self.new) result bytes.now }
        ensures rest { rest self.new ≡ rest self.old };
}
