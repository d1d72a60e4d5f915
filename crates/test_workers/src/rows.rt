//! Runs whose verdict and facts are the same with any number of workers.
ghost use Rattle.std.specs.Prelude.{◌≤◌};

use crate::stores::{fibonacci, idle, put_tags, sums, tell, tell_within};
use anyhow::Error;
use pool::{AlwaysGo, drive};
use std::io::Print;
use std::sync::Wait;
use std::thread::Threads;

/// What a row runs.
#[derive(Clone, Copy, Debug, PartialEq, Eq)]
pub(crate) enum Row {
    /// Four numbers, from the first two.
    Complete,
    /// A number of which one before is missing.
    Blocked,
    /// All numbers that an `i64` holds, and then one more.
    Overflow,
    /// A number that the environment put already.
    PutTwice,
    /// Three sums, each of twenty numbers that steps put one after another.
    Waiting,
}

// A limit that no row meets.
const LIMIT: u64 = 1_000;

impl Row {
    /// The title that is printed above the row.
    pub(crate) fn title(self) -> &'static str {
        match self {
            Row::Complete => "four numbers from the first two",
            Row::Blocked => "a number of which one before is wanting",
            Row::Overflow => "all numbers that fit, and then one more",
            Row::PutTwice => "a number that is there already",
            Row::Waiting => "three sums that wait for one number after another",
        }
    }
}

/// Runs the row on `workers` workers, and prints the verdict, the number of bytes, and the end of the report.
pub(crate) fn try_row<R: Threads + Wait + Sync>(
    rt: &HostRuntime,
    threads: &R,
    row: Row,
    workers: u8,
) -> Result<(), Error>
    requires { (1 ≤ workers) × (workers ≤ 64) }
{
    let alloc = rt.alloc();
    match row {
        Row::Complete => {
            let core = fibonacci(alloc, &[0, 1], 2..6)?;
            let (core, verdict) = drive(threads, alloc, core, workers, LIMIT, &AlwaysGo);
            tell(rt, workers, core, verdict, 7)
        }
        Row::Blocked => {
            let core = fibonacci(alloc, &[0], 2..3)?;
            let (core, verdict) = drive(threads, alloc, core, workers, LIMIT, &AlwaysGo);
            tell(rt, workers, core, verdict, 2)
        }
        Row::Overflow => {
            let core = fibonacci(alloc, &[0, 1], 2..93)?;
            let (mut core, verdict) = drive(threads, alloc, core, workers, LIMIT, &AlwaysGo);
            rt.println(format_args!("  {workers}: {verdict:?}"))?;
            put_tags(&mut core, 93..94)?;
            let core = idle(core)?;
            let (core, verdict) = drive(threads, alloc, core, workers, LIMIT, &AlwaysGo);
            // A new store with the two items, the tags, the ends, and the fault: 275 + 50 + 92 * 17 + 18 bytes beside the ends. Each has a record of its own at most, of
            // 41 bytes; at least they are a group of 64 and one of 27, of 8 + 64 * 36 and 8 + 27 * 36 bytes.
            tell_within(rt, workers, core, verdict, 3, 5199, 5638)
        }
        Row::PutTwice => {
            let core = fibonacci(alloc, &[0, 1, 7], 2..3)?;
            let (core, verdict) = drive(threads, alloc, core, workers, LIMIT, &AlwaysGo);
            tell(rt, workers, core, verdict, 5)
        }
        Row::Waiting => {
            let core = sums(alloc, 3)?;
            let (core, verdict) = drive(threads, alloc, core, workers, LIMIT, &AlwaysGo);
            // A new store with the item and the tags, of 498 + 25 + 23 * 17 bytes; and the ends, as above: each with a record of its own, or all as one group.
            tell_within(rt, workers, core, verdict, 4, 1750, 1857)
        }
    }
}
