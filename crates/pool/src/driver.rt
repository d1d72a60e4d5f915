//! Who runs the steps of a store.
ghost use Rattle.std.specs.Prelude.{◌≡◌, false, true, Ok};
ghost use Rattle.commit.specs.declared.verdict.Verdict.TheVariants.{Halted};
ghost use Rattle.commit.specs.Core.{is_halted};
ghost use Rattle.commit.specs.Runs.{NoneRuns};
ghost use Rattle.pool.specs.Driver.{RunsBy};

use crate::{Crew, Probe};
use commit::{Core, First, RunError, Verdict, run_with};
use disk::Disk;
use std::alloc::Global;
use std::marker::Sync;
use std::sync::Wait;
use std::thread::Threads;

/// Who runs the steps of a store.
#[derive(Drop)]
pub enum Driver<'a, R, P> {
    /// The calling thread; it always takes the first of the ready instances.
    Alone,
    /// Workers, each on a thread of its own.
    Crew(Crew<'a, R, P>),
}

impl<'a, R: Threads + Wait + Sync, P: Probe> Driver<'a, R, P> {
    /// Runs the steps of a store until nothing is left to do, or `limit` of them have ended, and returns the core with
    /// the verdict. No instance runs in the core that is passed in, nor in the one that is returned.
    pub fn run<D: Disk + Send>(
        &self,
        alloc: Global,
        core: Core<D>,
        limit: u64,
    ) -> (Core<D>, Result<Verdict, RunError>)
        requires { NoneRuns core }
        ensures idle { NoneRuns result.0 }
        ensures halted { is_halted core ≡ true → (result.0 ≡ core) × (result.1 ≡ Ok Halted) }
        ensures runs { is_halted core ≡ false → RunsBy D.Disk P.may_stop self.now core result.0 limit result.1 }
    {
        match self {
            Driver::Alone => run_with(alloc, core, &mut First, limit),
            Driver::Crew(crew) => crew.run(alloc, core, limit),
        }
    }
}
