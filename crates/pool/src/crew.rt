//! Workers, and the probe that they ask before each step.
ghost use Rattle.std.specs.Prelude.{◌≡◌, ◌≤◌, false, true, Ok, IsTrue};
ghost use Rattle.commit.specs.declared.verdict.Verdict.TheVariants.{Halted};
ghost use Rattle.commit.specs.Core.{is_halted};
ghost use Rattle.commit.specs.Runs.{NoneRuns, RunsWithin};

use crate::{Probe, drive};
use commit::{Core, RunError, Verdict};
use disk::Disk;
use std::alloc::Global;
use std::sync::Wait;
use std::thread::Threads;

/// Workers, 1 to 64, that run the steps of a store, each on its own thread; and the probe that they ask.
#[derive(Drop)]
pub struct Crew<'a, R, P> {
    rt: &'a R,
    workers: u8,
    probe: P,
    ghost few: { (1 ≤ workers) × (workers ≤ 64) },
}

impl<'a, R: Threads + Wait + Sync, P: Probe> Crew<'a, R, P> {
    /// `workers` workers, with this probe.
    pub fn new(rt: &'a R, workers: u8, probe: P) -> Self
        requires { (1 ≤ workers) × (workers ≤ 64) }
    {
        Crew { rt, workers, probe }
    }

    /// Runs the steps of a store on the workers, as `drive` does.
    pub fn run<D: Disk + Send>(
        &self,
        alloc: Global,
        core: Core<D>,
        limit: u64,
    ) -> (Core<D>, Result<Verdict, RunError>)
        requires { NoneRuns core }
        ensures idle { NoneRuns result.0 }
        ensures halted { is_halted core ≡ true → (result.0 ≡ core) × (result.1 ≡ Ok Halted) }
        ensures runs { is_halted core ≡ false → RunsWithin D.Disk P.may_stop true core result.0 limit result.1 }
    {
        drive(self.rt, alloc, core, self.workers, limit, &self.probe)
    }
}
