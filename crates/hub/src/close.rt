//! The end of a hub.
ghost use Rattle.std.specs.Prelude.{◌≡◌, ◌<◌, ◌++◌, ℕ, true, IfOk, IfErr, OnOk};
ghost use Rattle.commit.specs.Runs.{NoneRuns};
ghost use Rattle.hub.specs.Kept.{HasRun};
ghost use Rattle.passes.specs.Roll.{has_number};
ghost use Rattle.hub.specs.Whole.{IsWhole, WhyNotClosed, HasWholeHistory};

use crate::glance::Glance;
use crate::{EnvPass, Hub, Kept, WorkPass};
use commit::Core;
use disk::Disk;
use passes::{Board, Naming, are_here, gather};
use std::sync::{Mutex, Wait};
use std::thread::yield_now;
use thiserror::Error;

/// Why a hub was not closed.
#[derive(Clone, Copy, Debug, PartialEq, Eq, Error)]
pub enum CloseError {
    /// A pass of the hub is not here.
    #[error("a pass is missing")]
    PassMissing,
    /// An instance runs: its task was not spent.
    #[error("a task is out")]
    TaskOut,
}

/// A hub that was not closed. It comes back, with its passes.
pub struct NotClosed<J: Naming, D: Disk> {
    pub error: CloseError,
    pub hub: Hub<J, D>,
    pub envs: Vec<EnvPass<J>>,
    pub workers: Vec<WorkPass<J>>,
}

impl<J: Naming, D: Disk> NotClosed<J, D> {
    /// Why it was not closed, the hub, and its passes.
    pub fn into_parts(self) -> (CloseError, Hub<J, D>, Vec<EnvPass<J>>, Vec<WorkPass<J>>)
        ensures { (result.0 ≡ self.error) × (result.2.items ≡ self.envs.items) × (result.3.items ≡ self.workers.items) }
    {
        let NotClosed {
            error,
            hub,
            envs,
            workers,
        } = self;
        (error, hub, envs, workers)
    }

    // Tries to close the hub again.
    fn again(self) -> Result<Core<D>, NotClosed<J, D>>
        ensures all { OnOk result ((number : ℕ) → number < J.passes → has_number number (self.envs.items ++ self.workers.items) ≡ true) }
        ensures whole { IfOk result (HasWholeHistory (HasRun D.Disk J.opening J.left J.envs) J.opening self.envs.items self.workers.items) }
        ensures idle { IfOk result NoneRuns }
        ensures err { IfErr result (λ again. (again.envs.items ≡ self.envs.items) × (again.workers.items ≡ self.workers.items)) }
    {
        let (_, hub, envs, workers) = self.into_parts();
        yield_now();
        hub.close(envs, workers)
    }
}

impl<J: Naming, D: Disk + Drop> Drop for NotClosed<J, D> {
    fn drop(self) {
        let NotClosed {
            error: _,
            hub: _,
            envs: _,
            workers: _,
        } = self;
    }
}

impl<J: Naming, D: Disk> Kept<J, D> {
    // The core, once all passes are here.
    pub(crate) fn close(
        self,
        board: &Board<J>,
        envs: Vec<EnvPass<J>>,
        workers: Vec<WorkPass<J>>,
    ) -> Core<D>
        requires { (number : ℕ) → number < J.passes → has_number number (envs.items ++ workers.items) ≡ true }
        ensures core { result ≡ self.core }
        ensures whole { IsWhole (HasRun D.Disk J.opening J.left J.envs) J.opening envs.items workers.items result self.history }
    {
        let (core, mut desk) = self.into_parts();
        board.look(&mut desk);
        gather(board, &mut desk, envs);
        gather(board, &mut desk, workers);
        core
    }
}

impl<J: Naming, D: Disk> Hub<J, D> {
    /// Ends the hub, and returns the core.
    ///
    /// At `Ok` all passes were here, and no instance runs. Otherwise the hub and its passes come back: `PassMissing` only
    /// if a pass is missing, and `TaskOut` only if none is.
    pub fn close(
        self,
        envs: Vec<EnvPass<J>>,
        workers: Vec<WorkPass<J>>,
    ) -> Result<Core<D>, NotClosed<J, D>>
        ensures all { OnOk result ((number : ℕ) → number < J.passes → has_number number (envs.items ++ workers.items) ≡ true) }
        ensures whole { IfOk result (HasWholeHistory (HasRun D.Disk J.opening J.left J.envs) J.opening envs.items workers.items) }
        ensures idle { IfOk result NoneRuns }
        ensures err { IfErr result (λ not_closed. (not_closed.envs.items ≡ envs.items) × (not_closed.workers.items ≡ workers.items)) }
        ensures cause { IfErr result (λ not_closed. WhyNotClosed J.passes (envs.items ++ workers.items) not_closed.error) }
    {
        if !are_here(envs.as_slice(), workers.as_slice(), self.count) {
            return Err(NotClosed {
                error: CloseError::PassMissing,
                hub: self,
                envs,
                workers,
            });
        }
        let (board, kept, graph, count) = self.into_parts();
        let glance = Glance::new(kept.core.ready());
        if kept.core.running() != 0 {
            return Err(NotClosed {
                error: CloseError::TaskOut,
                hub: Hub {
                    board,
                    kept: Mutex::new(kept),
                    graph,
                    count,
                    glance,
                },
                envs,
                workers,
            });
        }
        Ok(kept.close(&board, envs, workers))
    }

    /// Ends the hub, as `close` does. If `close` would refuse, it does not return: this call has the hub and its passes,
    /// so nobody can change that.
    pub fn close_when_idle<R: Wait>(
        self,
        rt: &R,
        envs: Vec<EnvPass<J>>,
        workers: Vec<WorkPass<J>>,
    ) -> Core<D>
        ensures all { (number : ℕ) → number < J.passes → has_number number (envs.items ++ workers.items) ≡ true }
        ensures whole { HasWholeHistory (HasRun D.Disk J.opening J.left J.envs) J.opening envs.items workers.items result }
        ensures idle { NoneRuns result }
    {
        let mut closed = self.close(envs, workers);
        for _ in rt.forever() {
            match closed {
                Ok(core) => return core,
                Err(not_closed) => closed = not_closed.again(),
            }
        }
        unreachable!()
    }
}
