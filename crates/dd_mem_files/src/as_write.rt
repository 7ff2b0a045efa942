ghost use Rattle.std.specs.Prelude.{◌≡◌, IsOk, is_ok};
ghost use Rattle.std.specs.Io.{WritesAtMost};
ghost use Rattle.std.specs.Io.KnownBytes.{WriteAppends};
ghost use Rattle.dd_elem.specs.Counts.{counts_after};
ghost use Rattle.dd_elem.specs.Device.{IsLive};
ghost use Rattle.dd_mem_files.specs.MemFiles.{Adds, Unwritten, unwritten, written_of};
ghost use Rattle.dd_mem_files.specs.PlannedFaults.{after_write};

use crate::mem_files::MemFiles;
use dd_elem::Write;
use std::io;

impl Write for MemFiles {
    ghost calls = { λ s. s.counts.calls };

    ghost failures = { λ s. s.counts.failures };

    ghost contents = { λ s. written_of s };

    ghost Rest = { Unwritten };

    ghost rest = { unwritten };

    /// Appends the whole piece, or what fits before writes are to fail, to the file that is being written. Fails where
    /// writes are to fail, where there is no such file, where a count is at its last value and where an allocation is
    /// refused.
    fn write(&mut self, bytes: &[u8]) -> io::Result<usize>
        ensures bound { WritesAtMost result bytes.now }
        ensures appends { WriteAppends (written_of self.old)
            (written_of self.new) result bytes.now }
        ensures live { IsOk result → IsLive self.old.counts.calls self.old.counts.failures }
        ensures adds { Adds bytes.now result self.old self.new }
        ensures counts { self.new.counts ≡ counts_after self.old.counts (is_ok result) }
        ensures same { self.new ≡ record self.old {
          files = self.new.files;
          counts = self.new.counts;
          planned = after_write self.old.planned result;
        } }
    {
        self.counts.begin()?;
        let done = self
            .append(bytes)
            .map_err(|_| io::Error::other("no file took the bytes"));
        self.counts.settle(done)
    }
}
