ghost use Rattle.std.specs.Prelude.{◌≡◌, ◌≢◌, ◌<◌, ◌+◌, ◌^◌, ℕ, drop, vec_len, IsTrue, IfOk, IsErrOf};
ghost use Rattle.disk.specs.Storage.{KeepsFiles, ReportsAs};
ghost use Rattle.disk.specs.Time.{HasCause};
ghost use Rattle.journal.specs.declared.error.JournalError.TheVariants.{Device, NoMemory, Damaged, Full};
ghost use Rattle.disk.specs.declared.error.DiskError.TheVariants as DiskError;

use crate::records::find_records;
use crate::{Journal, JournalError, Payloads, begins_closed};
use disk::{Disk, DiskError, Side};
use std::alloc::Global;

impl Journal {
    ghost use Rattle.journal.specs.Journal.{FindsAll, IsAt, IsBroken};

    /// Reads the journal that begins at a position of a file, and the payloads of its records.
    ///
    /// `Damaged` holds a position where there is neither a whole record nor a closed gate: the file may end there.
    /// `NoMemory` is returned when the file from the position on, or the list of its payloads, does not fit in memory.
    /// Nothing is written, whatever is returned.
    pub fn scan<D: Disk>(
        alloc: Global,
        disk: &mut D,
        side: Side,
        at: u64,
    ) -> Result<(Journal, Payloads), JournalError>
        ensures found { IsTrue D.is_honest → IfOk result (λ r. IsAt r.0 at (D.files disk.old side).content r.1) }
        ensures only { IsTrue D.is_honest → FindsAll (drop at (D.files disk.old side).content) result }
        ensures side { IfOk result (λ r. r.0.side ≡ side) }

        // It returns `Damaged` exactly if the bytes stand for no payloads.
        ensures damaged { IsTrue D.is_honest → (place : ℕ) → IsErrOf result (Damaged place) → IsBroken at (D.files disk.old side).content place }
        ensures causes { ReportsAs D.Disk Device NoMemory disk.old disk.new result × (IsErrOf result Full → ⊥) }
        ensures kept { IsTrue D.is_honest → KeepsFiles D.Disk disk.old disk.new }
    {
        let bytes = read_from(alloc, disk, side, at)?;
        let found = find_records(alloc, &bytes)?;
        let end = at + found.end as u64;
        if !begins_closed(&bytes[found.end..]) {
            return Err(JournalError::Damaged(end));
        }
        Ok((Journal { side, end }, Payloads::at(bytes, found.places)))
    }
}

// What a file has from a position on: nothing if the file ends before it.
fn read_from<D: Disk>(
    alloc: Global,
    disk: &mut D,
    side: Side,
    at: u64,
) -> Result<Vec<u8>, DiskError>
    ensures value { IsTrue D.is_honest → IfOk result (λ bytes. bytes.items ≡ drop at (D.files disk.old side).content) }
    ensures fits { IfOk result (λ bytes. at + vec_len bytes < 2 ^ 64) }
    ensures cause { HasCause (D.failures disk.old) (D.failures disk.new) result }
    ensures refusals { D.refusals disk.new ≢ D.refusals disk.old → IsErrOf result DiskError.NoMemory }
    ensures kept { IsTrue D.is_honest → KeepsFiles D.Disk disk.old disk.new }
{
    let end = disk.len(side)?;
    if end <= at {
        return Ok(Vec::new(alloc));
    }
    let mut bytes = vec![in alloc; 0; (end - at) as usize]?;
    disk.read(side, at, &mut bytes)?;
    Ok(bytes)
}
