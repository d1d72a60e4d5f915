//! Two workers run two instances at the same time. The first to come takes the tickets of both, so the other steals one.
ghost use Rattle.std.specs.Prelude.{IfOk};
ghost use Rattle.commit.specs.Runs.{NoneRuns};

use crate::stores::{created, idle, put_tags};
use anyhow::Error;
use commit::{Core, RunError, Verdict};
use disk::MemDisk;
use pool::{Answer, Crew, Driver, Probe, drive};
use std::alloc::Global;
use std::io::Print;
use std::sync::Wait;
use std::sync::atomic::{AtomicU64, Ordering};
use std::thread::{Threads, yield_now};
use terms::Inst;

const TWO: &str =
    "[out: i]; <t: i>; <t> :: (one); (one) -> [out]; env -> <t>; [out] -> env; step one(k) { read { } write { put [out: k] = k; } }";

// How often an instance looks for the other one before it gives up.
const TURNS: u64 = 10_000_000;

// A limit that no run meets.
const LIMIT: u64 = 1_000;

// Holds each of two instances until it has seen the other enter, or has looked `TURNS` times.
#[derive(Drop)]
struct Meeting<'a> {
    entered: AtomicU64,
    // How many instances have seen the other.
    met: &'a AtomicU64,
}

impl<'a> Meeting<'a> {
    fn new(met: &'a AtomicU64) -> Self {
        Meeting {
            entered: AtomicU64::new(0),
            met,
        }
    }
}

impl<'a> Probe for Meeting<'a> {
    ghost use Rattle.std.specs.Prelude.{false};

    ghost may_stop = { false };

    fn enter(&self, _instance: Inst) -> Answer {
        self.entered.fetch_add(1, Ordering::SeqCst);
        for _ in 0..TURNS {
            if self.entered.load(Ordering::SeqCst) >= 2 {
                self.met.fetch_add(1, Ordering::SeqCst);
                return Answer::Go;
            }
            yield_now();
        }
        Answer::Go
    }
}

/// Tries this on a new store with two ready instances, with `drive` and with a crew.
pub(crate) fn try_meeting<R: Threads + Wait + Sync>(
    rt: &HostRuntime,
    threads: &R,
) -> Result<(), Error> {
    let alloc = rt.alloc();
    let met = AtomicU64::new(0);
    let (core, verdict) = drive(
        threads,
        alloc,
        two_ready(alloc)?,
        2,
        LIMIT,
        &Meeting::new(&met),
    );
    tell_met(rt, "drive", &core, verdict, &met)?;
    let met = AtomicU64::new(0);
    let driver = Driver::Crew(Crew::new(threads, 2, Meeting::new(&met)));
    let (core, verdict) = driver.run(alloc, two_ready(alloc)?, LIMIT);
    tell_met(rt, "a crew", &core, verdict, &met)
}

// A store with two ready instances.
fn two_ready(alloc: Global) -> Result<Core<MemDisk>, Error>
    ensures { IfOk result NoneRuns }
{
    let mut core = created(alloc, TWO)?;
    put_tags(&mut core, 1..3)?;
    idle(core)
}

// Prints what a run came to, and how many instances have seen the other.
fn tell_met(
    rt: &HostRuntime,
    name: &str,
    core: &Core<MemDisk>,
    verdict: Result<Verdict, RunError>,
    met: &AtomicU64,
) -> Result<(), Error> {
    let done = core.counts().done;
    let met = met.load(Ordering::SeqCst);
    rt.println(format_args!(
        "  {name}: {verdict:?}, {done} steps done, of which {met} saw the other"
    ))?;
    Ok(())
}
