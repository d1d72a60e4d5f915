ghost use Rattle.std.specs.Prelude.{◌≡◌, ◌≤◌, false, true, Ok, IsTrue};
ghost use Rattle.commit.specs.declared.verdict.Verdict.TheVariants.{Halted};
ghost use Rattle.commit.specs.Core.{is_halted};
ghost use Rattle.commit.specs.Runs.{NoneRuns, RunsWithin};
ghost use Rattle.pool.specs.Concluded.{Concludes};
ghost use Rattle.pool.specs.Worked.{WorksOn};

use crate::Probe;
use crate::team::{Causes, run_team};
use commit::{Core, First, RunError, Status, Verdict, run_with};
use disk::Disk;
use passes::Blank;
use std::alloc::Global;
use std::marker::Brand;
use std::sync::Wait;
use std::thread::Threads;
use terms::facts_are_told_apart;
use vault::stores_go_on;

/// Runs the steps of a store on `workers` workers, 1 to 64, each in its own thread, until nothing is left to do, or
/// `limit` steps have ended, or the probe answers `Stop`.
///
/// It returns the core with the verdict. An error leaves all that was committed. No instance runs in the core that is
/// passed in, nor in the one that is returned. A refusal that was met in the run is the verdict before the limit and a stop:
/// of a thread, of memory, or of a record that does not fit, in this order. If the workers leave something to do although
/// none of them met a refusal or was asked to stop, the calling thread does it, without asking the probe.
pub fn drive<D: Disk + Send, P: Probe + Sync, R: Threads + Wait + Sync>(
    rt: &R,
    alloc: Global,
    core: Core<D>,
    workers: u8,
    limit: u64,
    probe: &P,
) -> (Core<D>, Result<Verdict, RunError>)
    requires idle { NoneRuns core }
    requires workers { (1 ≤ workers) × (workers ≤ 64) }
    ensures idle { NoneRuns result.0 }
    ensures halted { is_halted core ≡ true → (result.0 ≡ core) × (result.1 ≡ Ok Halted) }
    ensures runs { is_halted core ≡ false → RunsWithin D.Disk P.may_stop true core result.0 limit result.1 }
{
    facts_are_told_apart();
    stores_go_on::<D>();
    core.is_kept();
    let mut core = core;
    match core.allow(limit) {
        Ok(()) => {
            let (core, causes) = worked(rt, alloc, core, workers, probe);
            core.is_kept();
            conclude::<D, P>(alloc, core, causes)
        }
        Err(_) => (core, Ok(Verdict::Halted)),
    }
}

// Lets the workers run.
fn worked<D: Disk + Send, P: Probe + Sync, R: Threads + Wait + Sync>(
    rt: &R,
    alloc: Global,
    core: Core<D>,
    workers: u8,
    probe: &P,
) -> (Core<D>, Causes)
    requires idle { NoneRuns core }
    requires working { is_halted core ≡ false }
    requires workers { workers ≤ 64 }
    ensures works { WorksOn D.Disk core result.0 result.1.full }
    ensures idle { NoneRuns result.0 }
    ensures asked { result.1.asked ≡ true → P.may_stop ≡ true }
{
    stores_go_on::<D>();
    core.is_kept();
    match Blank::new(alloc, 0, workers + 1) {
        Ok(blank) => run_team::<Brand, D, P, R>(rt, alloc, core, blank, workers, probe),
        Err(_) => (core, Causes::memory()),
    }
}

// The verdict after the workers have ended. What they left to do without a cause is done here.
fn conclude<D: Disk, P: Probe>(
    alloc: Global,
    core: Core<D>,
    causes: Causes,
) -> (Core<D>, Result<Verdict, RunError>)
    requires idle { NoneRuns core }
    requires asked { causes.asked ≡ true → P.may_stop ≡ true }
    ensures idle { NoneRuns result.0 }
    ensures concludes { Concludes D.Disk P.may_stop causes core result.0 result.1 }
{
    match core.status() {
        Ok(Status::Stopped(instance, kind)) => (core, Ok(Verdict::Stopped(instance, kind))),
        Ok(Status::Quiet { blocked }) => {
            if blocked == 0 {
                (core, Ok(Verdict::Complete))
            } else {
                (core, Ok(Verdict::Blocked(blocked)))
            }
        }
        Ok(Status::Working) => {
            if causes.no_thread {
                return (core, Err(RunError::Spawn));
            }
            if causes.no_memory {
                return (core, Err(RunError::NoMemory));
            }
            if causes.full {
                return (core, Err(RunError::Full));
            }
            let left = core.allowance();
            if left == 0 {
                return (core, Ok(Verdict::Limit));
            }
            if causes.asked {
                return (core, Ok(Verdict::Asked));
            }
            run_with(alloc, core, &mut First, left)
        }
        Err(_) => (core, Ok(Verdict::Halted)),
    }
}
