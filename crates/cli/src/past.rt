//! What a store was after the first of its commits.
ghost use Rattle.std.specs.Prelude.{◌≡◌, ◌⊎◌, [], IfOk, IsTrue};
ghost use Rattle.disk.specs.MemDisk.{files_of};
ghost use Rattle.disk.specs.declared.side.Side.TheVariants.{A, B};
ghost use Rattle.sides.specs.First.{LeavesFirst};
ghost use Rattle.vault.specs.LiveSides.{IsSideOf};
ghost use Rattle.cli.specs.Copies.{IsCopyAfter};
ghost use Rattle.cli.specs.Obeyed.{IsNotOpened, ReportsAt, ReportsSide};

use crate::obeying::reported;
use crate::{Failure, Outcome};
use commit::Core;
use disk::{Disk, MemDisk, Side};
use report::{Format, write_report_in};
use sides::close_behind;
use std::alloc::{AllocError, Global};
use std::io::Write;
use vault::{LiveSide, one_store, read_live};

/// Writes the report of a store in a format, as it was after the first `at` of its commits.
pub(crate) fn report_at<D: Disk, W: Write>(
    alloc: Global,
    disk: D,
    format: Format,
    at: u64,
    out: &mut W,
) -> (D, Outcome)
    ensures { IsNotOpened D.Disk (W.contents out.old) (W.contents out.new) disk result.0 result.1
        ⊎ ReportsAt D.Disk at format (W.contents out.old) (W.contents out.new) disk result.0 result.1 }
{
    let mut disk = disk;
    match read_live(alloc, &mut disk) {
        Ok(live) => {
            let outcome = report_side(alloc, live, format, at, out);
            (disk, outcome)
        }
        Err(error) => (disk, Outcome::Failed(Failure::Store(error))),
    }
}

// Writes the report of what a side was after the first `at` of its commits.
fn report_side<W: Write>(
    alloc: Global,
    live: LiveSide,
    format: Format,
    at: u64,
    out: &mut W,
) -> Outcome
    ensures { ReportsSide live at format (W.contents out.old) (W.contents out.new) result }
{
    match copied(alloc, live, at) {
        Ok(copy) => reported(&copy, write_report_in(alloc, &copy, format, out)),
        Err(_) => Outcome::Failed(Failure::NoMemory),
    }
}

// The store that a side was after the first `at` of its commits, in memory.
fn copied(alloc: Global, live: LiveSide, at: u64) -> Result<Core<MemDisk>, AllocError>
    ensures { IfOk result (λ copy. (read : IsSideOf live) → IsCopyAfter at read copy) }
{
    one_store();
    let LiveSide {
        graph: _,
        bytes,
        start,
    } = live;
    let first = closed(bytes, start, at);
    let disk = disk_of(alloc, &first)?;
    match Core::open(alloc, disk) {
        Ok(copy) => Ok(copy),
        // The first commits of a side that was read are a side, so there is no memory.
        Err(_) => Err(AllocError),
    }
}

// The bytes of a side whose journal begins at `start`, as they were after the first `at` of its commits.
fn closed(bytes: Vec<u8>, start: u64, at: u64) -> Vec<u8>
    ensures { LeavesFirst at start bytes.items result.items }
{
    let mut bytes = bytes;
    close_behind(&mut bytes, start, at);
    bytes
}

// A disk in memory whose first file has these bytes.
fn disk_of(alloc: Global, bytes: &[u8]) -> Result<MemDisk, AllocError>
    ensures first { IfOk result (λ disk. (files_of disk A).content ≡ bytes.now) }
    ensures second { IfOk result (λ disk. (files_of disk B).content ≡ []) }
{
    let mut disk = MemDisk::new(alloc);
    match disk.write_at(Side::A, 0, bytes) {
        Ok(()) => Ok(disk),
        Err(_) => Err(AllocError),
    }
}
