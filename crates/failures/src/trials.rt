//! What fails, and at which call.
use crate::calls::{Came, Way, call};
use crate::falling_disk::FallingDisk;
use crate::stage::Stage;
use crate::streams::Limits;
use crate::wrong_disk::{Wrong, WrongDisk};
use disk::MemDisk;
use std::alloc::AllocError;
use std::sync::Wait;
use std::thread::Threads;

/// What fails.
#[derive(Clone, Copy, Debug, PartialEq, Eq)]
pub(crate) enum Kind {
    /// A call of the device.
    Device,
    /// A call of the disk is refused memory.
    Memory,
    /// A read of the graph or of the script.
    Reader,
    /// A write of the output.
    Writer,
    /// The program itself: over this disk it is a wrong one.
    Program(Wrong),
    /// The program does not see that a read failed.
    ReadsOn,
    /// The program does not see that a write failed.
    WritesOn,
}

/// What fails, and at which of its calls, counted from 1.
#[derive(Clone, Copy, Debug, PartialEq, Eq)]
pub(crate) struct Trial {
    pub(crate) kind: Kind,
    pub(crate) number: u64,
}

/// Calls the program on a disk while something fails. Returns the disk, what came, and whether the call that fails was made.
pub(crate) fn tried<R: Threads + Wait + Sync>(
    stage: &Stage<'_, R>,
    line: &str,
    way: Way,
    trial: Trial,
    disk: MemDisk,
) -> Result<(MemDisk, Came, bool), AllocError> {
    match trial.kind {
        Kind::Device => with_device(stage, line, way, trial.number, disk),
        Kind::Memory => with_memory(stage, line, way, trial.number, disk),
        Kind::Reader | Kind::Writer | Kind::ReadsOn | Kind::WritesOn => {
            with_streams(stage, line, way, &limits(trial), disk)
        }
        Kind::Program(wrong) => with_program(stage, line, way, wrong, trial.number, disk),
    }
}

// Which read or write fails.
fn limits(trial: Trial) -> Limits {
    let number = trial.number;
    let (read, write) = match trial.kind {
        Kind::Reader | Kind::ReadsOn => (number, 0),
        _ => (0, number),
    };
    Limits {
        read,
        write,
        is_hidden: trial.kind == Kind::ReadsOn || trial.kind == Kind::WritesOn,
    }
}

fn with_device<R: Threads + Wait + Sync>(
    stage: &Stage<'_, R>,
    line: &str,
    way: Way,
    number: u64,
    disk: MemDisk,
) -> Result<(MemDisk, Came, bool), AllocError> {
    let mut disk = disk;
    let before = disk.calls();
    disk.fail_call(number);
    let (mut disk, came) = call(stage, line, way, &Limits::none(), disk)?;
    disk.fail_call(0);
    let is_met = disk.calls().saturating_sub(before) >= number;
    Ok((disk, came, is_met))
}

fn with_memory<R: Threads + Wait + Sync>(
    stage: &Stage<'_, R>,
    line: &str,
    way: Way,
    number: u64,
    disk: MemDisk,
) -> Result<(MemDisk, Came, bool), AllocError> {
    let disk = FallingDisk::new(disk, number);
    let (disk, came) = call(stage, line, way, &Limits::none(), disk)?;
    let is_met = disk.has_fallen();
    Ok((disk.into_disk(), came, is_met))
}

fn with_streams<R: Threads + Wait + Sync>(
    stage: &Stage<'_, R>,
    line: &str,
    way: Way,
    limits: &Limits,
    disk: MemDisk,
) -> Result<(MemDisk, Came, bool), AllocError> {
    let (disk, came) = call(stage, line, way, limits, disk)?;
    let is_met = came.has_failed;
    Ok((disk, came, is_met))
}

fn with_program<R: Threads + Wait + Sync>(
    stage: &Stage<'_, R>,
    line: &str,
    way: Way,
    wrong: Wrong,
    number: u64,
    disk: MemDisk,
) -> Result<(MemDisk, Came, bool), AllocError> {
    let disk = WrongDisk::new(disk, wrong, number);
    let (disk, came) = call(stage, line, way, &Limits::none(), disk)?;
    let is_met = disk.has_come();
    let mut disk = disk.into_disk();
    disk.fail_call(0);
    Ok((disk, came, is_met))
}
