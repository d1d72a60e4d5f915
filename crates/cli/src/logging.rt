//! The log of a store: its commits since the last turnover.
ghost use Rattle.std.specs.Prelude.{◌⊎◌, IfErr, IfOk, IsTrue, OnOk};
ghost use Rattle.std.specs.Io.KnownBytes.{Appends};
ghost use Rattle.sides.specs.NextCommit.{IsFurther, ReadsNext};
ghost use Rattle.cli.specs.LogText.{commit_lines};
ghost use Rattle.cli.specs.Logged.{IsLogFailure, TellsLog, WritesLog};
ghost use Rattle.cli.specs.Obeyed.{IsNotOpened, Logs};

use crate::log_lines::write_commit;
use crate::{Failure, Outcome};
use disk::Disk;
use graph::Graph;
use sides::{next_commit, sides_go_on};
use std::alloc::Global;
use std::io::Write;
use terms::Event;
use vault::{LiveSide, read_live};

/// Writes the log of a store.
pub(crate) fn log<D: Disk, W: Write>(alloc: Global, disk: D, out: &mut W) -> (D, Outcome)
    ensures { IsNotOpened D.Disk (W.contents out.old) (W.contents out.new) disk result.0 result.1
        ⊎ Logs D.Disk (W.contents out.old) (W.contents out.new) disk result.0 result.1 }
{
    let mut disk = disk;
    match read_live(alloc, &mut disk) {
        Ok(live) => {
            let outcome = log_side(alloc, live, out);
            (disk, outcome)
        }
        Err(error) => (disk, Outcome::Failed(Failure::Store(error))),
    }
}

// Writes the log of a side.
fn log_side<W: Write>(alloc: Global, live: LiveSide, out: &mut W) -> Outcome
    ensures { TellsLog live (W.contents out.old) (W.contents out.new) result }
{
    sides_go_on();
    match write_log(alloc, &live.graph, &live.bytes, live.start, out) {
        Ok(()) => Outcome::Logged,
        Err(failure) => Outcome::Failed(failure),
    }
}

// Writes the lines of the commits whose journal begins at this position of some bytes.
fn write_log<W: Write>(
    alloc: Global,
    graph: &Graph,
    bytes: &[u8],
    start: u64,
    out: &mut W,
) -> Result<(), Failure>
    ensures written { OnOk result (WritesLog graph.now bytes.now start (W.contents out.old) (W.contents out.new)) }
    ensures fails { IfErr result IsLogFailure }
{
    let mut commit = Vec::new(alloc);
    let mut number = 0;
    let mut at = start;
    while let Some(next) = following(alloc, bytes, at, &mut commit)? {
        number += 1;
        write_next(graph, number, &commit, out)?;
        at = next;
    }
    Ok(())
}

// Reads the commit at this position, and returns the position after it, or `None` at the journal's end.
fn following(
    alloc: Global,
    bytes: &[u8],
    at: u64,
    commit: &mut Vec<Event>,
) -> Result<Option<u64>, Failure>
    ensures read { IfOk result (ReadsNext bytes.now at commit.new.items) }
    ensures goes_on { IfOk result (IsFurther bytes.now at) }
    ensures fails { IfErr result IsLogFailure }
{
    match next_commit(alloc, bytes, at, commit) {
        Ok(next) => Ok(next),
        // A side that was read has no damage, so there is no memory.
        Err(_) => Err(Failure::NoMemory),
    }
}

// Writes the lines of the commit of this number.
fn write_next<W: Write>(
    graph: &Graph,
    number: u64,
    commit: &[Event],
    out: &mut W,
) -> Result<(), Failure>
    ensures written { OnOk result (Appends (W.contents out.old) (W.contents out.new) (commit_lines graph.now number commit.now)) }
    ensures fails { IfErr result IsLogFailure }
{
    match write_commit(graph, number, commit, out) {
        Ok(()) => Ok(()),
        Err(_) => Err(Failure::Output),
    }
}
