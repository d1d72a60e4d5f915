ghost use Rattle.std.specs.Prelude.{◌≡◌, ◌≢◌, ◌≤◌, ◌<◌, ◌+◌, ◌↔◌, ◌++◌, [], ◌∷◌, ℕ, length, replicate, IsTrue, IfOk, OnOk, IsErrOf};
ghost use Rattle.disk.specs.Storage.{ReportsAs, WritesSynced};
ghost use Rattle.disk.specs.declared.error.DiskError.TheVariants as DiskError;
ghost use Rattle.journal.specs.Records.{record_of};
ghost use Rattle.journal.specs.declared.journal.TheConstants.{LIMIT};
ghost use Rattle.journal.specs.declared.error.JournalError.TheVariants.{Device, NoMemory, Damaged};
ghost use Rattle.journal.specs.declared.error.AppendError.TheVariants.{Within};

use crate::records::{begin_record, end_record, record_length};
use crate::{AppendError, JournalError};
use disk::{Disk, Side, write_synced};
use std::alloc::{AllocError, Global};

/// The position of the closed gate that ends a journal is below this limit.
pub const LIMIT: u64 = 1 << 30;

/// A journal: its file, and where its records end.
#[derive(Clone, Copy, Debug, PartialEq, Eq)]
pub struct Journal {
    /// The file of the journal.
    pub side: Side,
    /// The position of the closed gate that ends the journal.
    pub end: u64,
}

impl Journal {
    ghost use Rattle.journal.specs.Journal.{Appends, IsAt, Moves, RefusesBefore, RefusesFull};

    /// Begins a journal without records at a position: writes a closed gate there, and syncs.
    ///
    /// After an error of the disk, what the file holds from that position on is unspecified.
    pub fn start<D: Disk>(disk: &mut D, side: Side, at: u64) -> Result<Journal, JournalError>
        requires { IsTrue D.is_honest → at ≤ length (D.files disk.old side).content }
        ensures begun { IsTrue D.is_honest → IfOk result (λ journal. IsAt journal at (D.files disk.new side).content []) }
        ensures journal { IfOk result (λ journal. (journal.side ≡ side) × (journal.end ≡ at)) }
        ensures written { IsTrue D.is_honest → WritesSynced D.Disk side at (0 ∷ []) disk.old disk.new result }
        ensures full { RefusesFull disk.old disk.new (LIMIT ≤ at) result }
        ensures damaged { (place : ℕ) → IsErrOf result (Damaged place) → ⊥ }
        ensures causes { ReportsAs D.Disk Device NoMemory disk.old disk.new result }
    {
        if at >= LIMIT {
            return Err(JournalError::Full);
        }
        write_synced(disk, side, at, &[0])?;
        Ok(Journal { side, end: at })
    }

    /// Appends a payload: over the closed gate that ends the journal its record, and a closed gate behind it. At `Ok` it is on the disk; a crash
    /// at any moment leaves all of it or nothing.
    ///
    /// `Full` is returned before anything is written if the new closed gate would not lie below the limit. After an error of the disk the payload
    /// may or may not be there: scan the file again first.
    pub fn append<D: Disk>(
        &mut self,
        alloc: Global,
        disk: &mut D,
        payload: &[u8],
    ) -> Result<(), JournalError>
        requires { IsTrue D.is_honest → self.old.end < length (D.files disk.old self.old.side).content }
        ensures appended { IsTrue D.is_honest → Appends D.Disk self.old self.new disk.old disk.new (record_of payload.now) 0 result }
        ensures moved { Moves self.old self.new (length (record_of payload.now)) result }
        ensures full { RefusesFull disk.old disk.new (LIMIT ≤ self.old.end + length (record_of payload.now)) result }
        ensures damaged { (place : ℕ) → IsErrOf result (Damaged place) → ⊥ }
        ensures causes { ReportsAs D.Disk Device NoMemory disk.old disk.new result }
    {
        if !fits(self.end, record_length(payload)) {
            return Err(JournalError::Full);
        }
        let mut record = Vec::new(alloc);
        let place = begin_record(&mut record)?;
        record.extend_from_slice(payload)?;
        end_record(&mut record, place);
        self.append_all(disk, &mut record, 0)?;
        Ok(())
    }

    /// Appends payloads one behind another, all of them as one: a crash at any moment leaves all or none. `records` has their records, each as `begin_record` and
    /// `end_record` make it. When the call returns, it has any bytes.
    ///
    /// All but the gate of the first record is written and synced, and then that gate is opened and synced: two syncs, however many payloads there are. Behind the
    /// closed gate that follows them it lays this number of zeros, so that the next records go over them, and their syncs need not make the file longer. Zeros mean
    /// nothing to a reader, and the limit does not count them.
    ///
    /// After `Before` the next append may follow; after `Within` scan the file again first. `Before(NoMemory)` is returned if there is no memory for the
    /// records and what follows them together.
    pub fn append_all<D: Disk>(
        &mut self,
        disk: &mut D,
        records: &mut Vec<u8>,
        zeros: usize,
    ) -> Result<(), AppendError>
        requires within { IsTrue D.is_honest → self.old.end < length (D.files disk.old self.old.side).content }
        requires some { 1 ≤ length records.old.items }
        ensures appended { IsTrue D.is_honest → Appends D.Disk self.old self.new disk.old disk.new records.old.items zeros result }
        ensures moved { Moves self.old self.new (length records.old.items) result }
        ensures before { RefusesBefore disk.old disk.new (LIMIT ≤ self.old.end + length records.old.items) result }
        ensures causes { ReportsAs D.Disk (Within DiskError.Device) (Within DiskError.NoMemory) disk.old disk.new result }
        ensures refusals { IsErrOf result (Within DiskError.NoMemory) → D.refusals disk.new ≢ D.refusals disk.old }
    {
        let count = records.len() as u64;
        if !fits(self.end, count) {
            return Err(AppendError::Before(JournalError::Full));
        }
        close(records, zeros)?;
        write_synced(disk, self.side, self.end + 1, &records[1..])?;
        write_synced(disk, self.side, self.end, &records[..1])?;
        self.end += count;
        Ok(())
    }
}

// Adds a closed gate, and then this number of zeros.
fn close(records: &mut Vec<u8>, zeros: usize) -> Result<(), AllocError>
    ensures { OnOk result (records.new.items ≡ records.old.items ++ 0 ∷ replicate zeros 0) }
{
    records.push(0)?;
    let count = records.len().saturating_add(zeros);
    records.resize(count, 0)
}

// Whether the closed gate after records of this many bytes would be below the limit.
fn fits(end: u64, count: u64) -> bool
    ensures { IsTrue result ↔ (end + count < LIMIT) }
{
    count < LIMIT.saturating_sub(end)
}
