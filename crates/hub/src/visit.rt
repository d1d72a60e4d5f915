use crate::{BatchError, Hub, Kept, TaskError, WorkPass};
use commit::{Batch, CoreError};
use disk::Disk;
use instances::{Task, Tasks};
use machine::Ended;
use passes::Naming;
use std::sync::MutexGuard;
use terms::Put;

/// The lock of a hub, held for several calls: no other thread commits or claims between them. Whoever has it must make no call of the hub itself that waits.
/// The lock is left once the visit is dropped.
pub struct Visit<'h, J: Naming, D: Disk> {
    pub(crate) hub: &'h Hub<J, D>,
    pub(crate) kept: MutexGuard<'h, Kept<J, D>>,
}

impl<'h, J: Naming, D: Disk> Drop for Visit<'h, J, D> {
    fn drop(self) {
        let Visit { hub, kept } = self;
        hub.note(&kept);
    }
}

impl<'h, J: Naming, D: Disk> Visit<'h, J, D> {
    ghost use Rattle.std.specs.Prelude.{◌≡◌, Ok, OnErr, IfErr, IfOk};
    ghost use Rattle.commit.specs.Batch.{HaveOutcomes, ends_said};
    ghost use Rattle.hub.specs.Batches.{AddsTogether, RefusesBatch, RefusesTogether};
    ghost use Rattle.hub.specs.Claims.{AddsClaimed, RefusesClaims};
    ghost use Rattle.hub.specs.Opening.{facts_behind};
    ghost use Rattle.hub.specs.Replies.{AddsNothing, Sees};
    ghost use Rattle.hub.specs.Tasks.{OnTask};

    /// As the hub's `finish_all`.
    pub fn finish_all<'a>(
        &mut self,
        pass: &mut WorkPass<J>,
        batch: Batch<'a>,
    ) -> Result<Ended, BatchError<'a>>
        requires { HaveOutcomes J.opening.graph (facts_behind J.opening pass.old.seen) batch.tasks batch.outcomes }
        ensures seen { Sees J.opening pass.old pass.new }
        ensures ok { IfOk result (AddsTogether J.opening (ends_said batch.entry) pass.old pass.new) }
        ensures err { OnErr result (AddsNothing pass.old pass.new) }
        ensures refused { RefusesBatch batch.entry (RefusesTogether J.opening pass.new (ends_said batch.entry)) result }
    {
        let answer = self.kept.finish_all(&self.hub.board, pass, batch);
        self.hub.glance.note_batch();
        answer
    }

    /// As the hub's `claim_some`.
    pub fn claim_some(
        &mut self,
        pass: &mut WorkPass<J>,
        tasks: &mut Tasks,
        most: usize,
    ) -> Result<bool, CoreError>
        ensures seen { Sees J.opening pass.old pass.new × AddsNothing pass.old pass.new }
        ensures claimed { AddsClaimed J.opening pass.new most tasks.old tasks.new }
        ensures refused { IfErr result RefusesClaims }
    {
        self.kept
            .claim_some(&self.hub.board, pass, tasks, most, self.hub.count)
    }

    /// Makes the instances ready that wait for an item which one of these puts puts, although the item may not be there, and claims as many ready ones as it woke, but no more than `most`:
    /// so that their bodies can be run over results that are not committed yet. No clause says which are claimed; where nothing else is ready, it is those that it woke. `Ok` says
    /// whether an instance runs then. If there is no memory for a task, its instance is ready; the tasks before it were added.
    pub fn claim_waiting(
        &mut self,
        pass: &mut WorkPass<J>,
        tasks: &mut Tasks,
        puts: &[Put],
        most: usize,
    ) -> Result<bool, CoreError>
        ensures seen { Sees J.opening pass.old pass.new × AddsNothing pass.old pass.new }
        ensures claimed { AddsClaimed J.opening pass.new most tasks.old tasks.new }
        ensures refused { IfErr result RefusesClaims }
    {
        let ready = self.kept.core.ready();
        self.kept.wake(puts);
        let woken = self.kept.core.ready().saturating_sub(ready);
        self.kept
            .claim_some(&self.hub.board, pass, tasks, most.min(woken), 1)
    }

    /// As the hub's `release`.
    pub fn release(&mut self, pass: &mut WorkPass<J>, task: Task) -> Result<(), TaskError>
        ensures seen { Sees J.opening pass.old pass.new × AddsNothing pass.old pass.new }
        ensures foreign { OnTask result (λ back. back ≡ task) (λ answer. answer ≡ Ok tt) }
    {
        self.kept.release(&self.hub.board, pass, task)
    }
}
