//! The program over a disk that is not honest. Nothing is promised of what it then finds, but that each error of the disk is told,
//! and none that was not there.
use crate::calls::{Way, call};
use crate::lying_disk::LyingDisk;
use crate::stage::Stage;
use crate::streams::Limits;
use std::alloc::{AllocError, Global};
use std::sync::Wait;
use std::thread::Threads;

/// Calls the program with each of these lines, one after another on one disk, for this number of seeds. If the disk hides its errors, the program over it is
/// one that does not tell them.
pub(crate) fn answer<R: Threads + Wait + Sync>(
    stage: &Stage<'_, R>,
    seeds: &str,
    hides: bool,
    lines: &str,
) -> Result<String, AllocError> {
    let seeds = seeds.parse::<u64>().unwrap_or(0);
    for seed in 0..seeds {
        if let Some(number) = told(stage, seed, hides, lines)? {
            return said(stage.alloc, seed, number);
        }
    }
    String::from_str(stage.alloc, "as promised\n")
}

// The line for a seed and a call at which something else was told.
fn said(alloc: Global, seed: u64, number: usize) -> Result<String, AllocError> {
    let mut text = String::new(alloc);
    writeln!(
        text,
        "seed {seed}, call {number}: not the errors of the disk"
    )?;
    Ok(text)
}

// The first line at which something else is told than what the disk answered, if there is one.
fn told<R: Threads + Wait + Sync>(
    stage: &Stage<'_, R>,
    seed: u64,
    hides: bool,
    lines: &str,
) -> Result<Option<usize>, AllocError> {
    let mut disk = LyingDisk::new(stage.alloc, seed, hides);
    for (number, line) in lines.lines().enumerate() {
        let (next, is_right) = tell(stage, line, disk)?;
        disk = next;
        if !is_right {
            return Ok(Some(number));
        }
    }
    Ok(None)
}

// Calls the program with a line. Returns the disk, and whether the program told what the disk answered.
fn tell<R: Threads + Wait + Sync>(
    stage: &Stage<'_, R>,
    line: &str,
    disk: LyingDisk,
) -> Result<(LyingDisk, bool), AllocError> {
    let before = disk.errors();
    let (disk, came) = call(stage, line, Way::Whole, &Limits::none(), disk)?;
    let is_right = is_told(came.told.as_str(), disk.errors() != before);
    Ok((disk, is_right))
}

// Whether an error of the disk is told exactly where there was one.
fn is_told(told: &str, has_erred: bool) -> bool {
    if has_erred {
        return told.ends_with("status 5\n");
    }
    !told.contains("device failed")
        && !told.contains("refused 9: device")
        && !told.contains("halted")
}
