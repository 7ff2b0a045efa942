ghost use Rattle.std.specs.Prelude.{◌≡◌, ◌⊎◌, ℕ, []};
ghost use Rattle.dd_slots.specs.Slots.{IsSlotOf};
ghost use Rattle.dd_elem.specs.Device.{either_fact};
ghost use Rattle.dd_keys.specs.Kept.{IsKept};
ghost use Rattle.dd_stream.specs.Reads.{ReadsUpTo};

use dd_elem::{Read, Tag};
use dd_part10::{Scanned, StreamFault, read_file};
use dd_slots::Slot;
use std::alloc::Global;
use std::io;

/// Puts all bytes that pass from a reader into a slot.
#[derive(Drop)]
pub(crate) struct Keeping<'r, R: Read> {
    pub reader: &'r mut R,
    pub slot: &'r mut Slot,
}

impl<R: Read> Read for Keeping<'_, R> {
    ghost calls = { λ k. R.calls k.reader.now };

    ghost failures = { λ k. R.failures k.reader.now };

    ghost remaining = { λ k. R.remaining k.reader.now };

    ghost Past = { ℕ × (ℕ × (Unit {0} ⊎ R.Past)) };

    ghost has_given = { λ k past bytes. (k.reader.ghost_name ≡ past.0)
        × ((k.slot.ghost_name ≡ past.1.0)
        × either_fact (λ _ m. IsSlotOf k.slot.now m)
        (λ p m. R.has_given k.reader.now p m) past.1.1 bytes) };

    fn read(&mut self, buf: &mut [u8]) -> io::Result<usize> {
        let n = self.reader.read(buf)?;
        self.slot.take(&buf[..n]);
        Ok(n)
    }
}

/// Reads a file as `read_file` does. Afterwards the slot has exactly the bytes that the reader gave, whether they are a
/// file or not.
pub fn read_kept<R: Read>(
    alloc: Global,
    reader: &mut R,
    slot: &mut Slot,
    wanted: &[Tag],
    limit: u64,
) -> Result<Scanned, StreamFault>
    ensures { ReadsUpTo R.Read limit reader.old reader.new (IsKept result slot.new wanted.now limit) }
{
    slot.clear();
    let mut keeping = Keeping { reader, slot };
    read_keeping(alloc, &mut keeping, wanted, limit)
}

fn read_keeping<R: Read>(
    alloc: Global,
    keeping: &mut Keeping<'_, R>,
    wanted: &[Tag],
    limit: u64,
) -> Result<Scanned, StreamFault>
    requires { IsSlotOf keeping.old.slot.now [] }
    ensures same_reader { keeping.new.reader.ghost_name ≡ keeping.old.reader.ghost_name }
    ensures same_slot { keeping.new.slot.ghost_name ≡ keeping.old.slot.ghost_name }
    ensures read { ReadsUpTo R.Read limit keeping.old.reader.now keeping.new.reader.now
        (IsKept result keeping.new.slot.now wanted.now limit) }
{
    read_file(alloc, keeping, wanted, limit)
}
