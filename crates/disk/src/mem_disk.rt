ghost use Rattle.std.specs.Prelude.{◌≡◌, ◌≤◌, [], take, length, vec_len, ◌↔◌, OnOk, OnErr, IfOk, IfErr, IsOk};
ghost use Rattle.disk.specs.declared.side.Side.{Side};
ghost use Rattle.disk.specs.Side.{ChangesSide, pick};
ghost use Rattle.disk.specs.File.{MayLeave, overwritten};
ghost use Rattle.disk.specs.Calls.{durable_of, OverwritesSide};
ghost use Rattle.disk.specs.Crash.{crashed};

use crate::choice::choose;
use crate::crash::may_leave;
use crate::record::{Change, Record};
use crate::{Choice, Disk, DiskError, Side};
use std::alloc::{AllocError, Global};

/// The bytes that a crash is to leave of both files.
#[derive(Debug, Drop)]
pub struct Fill {
    pub a: Vec<u8>,
    pub b: Vec<u8>,
}

/// An honest disk in memory. The caller chooses its crashes.
///
/// It keeps a record of all its calls, and from it decides what a crash may leave. A call returns `NoMemory` if memory
/// is refused, and then the files and the record of calls are as they were.
pub struct MemDisk {
    alloc: Global,
    a: Vec<u8>,
    b: Vec<u8>,
    history: Record,
    ghost reads_left: { (side : Side) → MayLeave (durable_of history.calls.items side) (pick a.items b.items side) },
}

impl Drop for MemDisk {
    // Written by hand, so that dropping a disk is one call everywhere.
    fn drop(self) {
        let MemDisk {
            alloc: _,
            a: _,
            b: _,
            history: _,
        } = self;
    }
}

impl MemDisk {
    ghost use Rattle.disk.specs.File.{at_rest};
    ghost use Rattle.disk.specs.Choice.{chosen};
    ghost use Rattle.disk.specs.Time.{MayLeaveNow};
    ghost use Rattle.disk.specs.MemDisk.{files_of, fill_of};

    /// A disk of two empty files, all of it durable.
    pub fn new(alloc: Global) -> Self
        ensures empty { (side : Side) → files_of result side ≡ at_rest [] }
        ensures fresh { result.history.calls.items ≡ [] }
    {
        MemDisk {
            alloc,
            a: Vec::new(alloc),
            b: Vec::new(alloc),
            history: Record::new(alloc),
        }
    }

    /// Makes the call with this number return `Device`; calls of all five kinds are counted, from 1, from now on. A
    /// write or a cut that fails so does not change what reads give.
    pub fn fail_call(&mut self, number: u64)
        ensures files { (side : Side) → files_of self.new side ≡ files_of self.old side }
        ensures calls { self.new.history.calls.items ≡ self.old.history.calls.items }
        ensures number { self.new.history.until_failure ≡ number }
    {
        self.history.fail(number);
    }

    /// The number of device calls so far. A call that was refused memory is not counted.
    pub fn calls(&self) -> u64
        ensures { result ≡ length self.now.history.calls.items }
    {
        self.history.calls.len() as u64
    }

    /// A fill that `crash` takes: each byte that was touched since the last sync is as the choice says.
    pub fn fill(&self, alloc: Global, choice: Choice) -> Result<Fill, AllocError>
        ensures chosen { IfOk result (λ fill. (side : Side) → fill_of fill side ≡ chosen choice (files_of self.now side)) }
        ensures allowed { IfOk result (λ fill. MayLeaveNow (files_of self.now) (fill_of fill)) }
    {
        let calls = self.history.calls.as_slice();
        Ok(Fill {
            a: choose(alloc, calls, Side::A, &self.a, choice)?,
            b: choose(alloc, calls, Side::B, &self.b, choice)?,
        })
    }

    /// Crashes and leaves these bytes, if a crash may leave them; else it returns the fill, and nothing has changed.
    ///
    /// It neither undoes nor makes durable what was done since the last sync of a file: the next crash may leave other
    /// bytes.
    pub fn crash(&mut self, fill: Fill) -> Result<(), Fill>
        ensures allowed { IsOk result ↔ MayLeaveNow (files_of self.old) (fill_of fill) }
        ensures ok { OnOk result ((side : Side) → files_of self.new side ≡ crashed (fill_of fill side) (files_of self.old side)) }
        ensures err { IfErr result (λ back. back ≡ fill) }
        ensures unchanged { OnErr result ((side : Side) → files_of self.new side ≡ files_of self.old side) }
        ensures calls { self.new.history.calls.items ≡ self.old.history.calls.items }
    {
        let calls = self.history.calls.as_slice();
        if !may_leave(calls, Side::A, &fill.a) || !may_leave(calls, Side::B, &fill.b) {
            return Err(fill);
        }
        let Fill { a, b } = fill;
        self.a = a;
        self.b = b;
        Ok(())
    }

    // The bytes that reads of a file give.
    fn content(&self, side: Side) -> &[u8]
        ensures { result.now ≡ (files_of self.now side).content }
    {
        match side {
            Side::A => &self.a,
            Side::B => &self.b,
        }
    }
}

impl Disk for MemDisk {
    ghost use Rattle.std.specs.Prelude.{true, length};
    ghost use Rattle.disk.specs.Calls.{LeftAt, failures_of, at_now};
    ghost use Rattle.disk.specs.MemDisk.{files_of, reads_left};

    ghost is_honest = { true };

    ghost files = { files_of };

    ghost moment = { λ disk. length disk.history.calls.items };

    ghost left_at = { λ disk. LeftAt disk.history.calls.items };

    ghost failures = { λ disk. failures_of disk.history.calls.items };

    ghost refusals = { λ disk. disk.history.refusals };

    ghost at_now = { λ _ disk. at_now disk.history.calls.items };

    ghost reads_left = { λ _. reads_left };

    fn len(&mut self, side: Side) -> Result<u64, DiskError> {
        let change = self.history.begin(side, Change::Nothing)?;
        self.history.end(side, change);
        Ok(self.content(side).len() as u64)
    }

    fn read(&mut self, side: Side, at: u64, buffer: &mut [u8]) -> Result<(), DiskError> {
        let change = self.history.begin(side, Change::Nothing)?;
        self.history.end(side, change);
        let from = at as usize;
        buffer.copy_from_slice(&self.content(side)[from..from + buffer.len()]);
        Ok(())
    }

    fn write_at(&mut self, side: Side, at: u64, bytes: &[u8]) -> Result<(), DiskError> {
        let count = bytes.len() as u64;
        let change = self.history.begin(side, Change::Write { at, count })?;
        let Ok(()) = write_side(&mut self.a, &mut self.b, side, at as usize, bytes) else {
            return self.history.refuse();
        };
        self.history.end(side, change);
        Ok(())
    }

    fn cut(&mut self, side: Side, count: u64) -> Result<(), DiskError> {
        let change = self.history.begin(side, Change::Cut { count })?;
        cut_side(&mut self.a, &mut self.b, side, count as usize);
        self.history.end(side, change);
        Ok(())
    }

    fn sync(&mut self, side: Side) -> Result<(), DiskError> {
        let Ok(content) = self.content(side).to_vec(self.alloc) else {
            return self.history.refuse();
        };
        let _nothing = self.history.begin(side, Change::Nothing)?;
        self.history.end(side, Change::Sync { content });
        Ok(())
    }
}

// Writes bytes over what one of the files has from a place on.
fn write_side(
    a: &mut Vec<u8>,
    b: &mut Vec<u8>,
    side: Side,
    at: usize,
    bytes: &[u8],
) -> Result<(), AllocError>
    requires { at ≤ length (pick a.old.items b.old.items side) }
    ensures ok { OnOk result (OverwritesSide side at bytes.now (pick a.old.items b.old.items) (pick a.new.items b.new.items)) }
    ensures err { OnErr result ((each : Side) → pick a.new.items b.new.items each ≡ pick a.old.items b.old.items each) }
{
    match side {
        Side::A => overwrite(a, at, bytes),
        Side::B => overwrite(b, at, bytes),
    }
}

// Cuts one of the files.
fn cut_side(a: &mut Vec<u8>, b: &mut Vec<u8>, side: Side, count: usize)
    ensures { ChangesSide side (take count) (pick a.old.items b.old.items) (pick a.new.items b.new.items) }
{
    match side {
        Side::A => a.truncate(count),
        Side::B => b.truncate(count),
    }
}

// Writes bytes over what is there from a place on, and past the end.
fn overwrite(content: &mut Vec<u8>, at: usize, bytes: &[u8]) -> Result<(), AllocError>
    requires { at ≤ vec_len content.old }
    ensures ok { OnOk result (content.new.items ≡ overwritten content.old.items at bytes.now) }
    ensures err { OnErr result (content.new.items ≡ content.old.items) }
{
    let over = bytes.len().min(content.len() - at);
    content.extend_from_slice(&bytes[over..])?;
    content[at..at + over].copy_from_slice(&bytes[..over]);
    Ok(())
}
