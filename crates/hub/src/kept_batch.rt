//! Several ends of instances, under the lock.
ghost use Rattle.std.specs.Prelude.{IfOk, IsTrue, OnErr};
ghost use Rattle.machine.specs.Group.{cut};
ghost use Rattle.commit.specs.Batch.{HaveOutcomes, ends_said};
ghost use Rattle.passes.specs.Visits.{Writes};
ghost use Rattle.hub.specs.Batches.{AddsTogether, FinishesAll, RefusesBatch, RefusesTogether};
ghost use Rattle.hub.specs.Opening.{facts_behind};
ghost use Rattle.hub.specs.Replies.{AddsNoCommit, Sees};

use crate::visits::record_ends;
use crate::{BatchError, Kept, WorkPass};
use commit::Batch;
use disk::Disk;
use machine::{Ended, results_are_meant};
use passes::{Board, Naming};
use std::marker::Brand;
use std::snapshot::Snapshot;
use terms::{facts_are_told_apart, facts_go_on};
use vault::stores_go_on;

impl<J: Naming, D: Disk> Kept<J, D> {
    /// As the core's `finish_all`, for outcomes whose reads the pass has seen. At `Ok` the ends that come are one commit, and
    /// are made with the pass.
    pub fn finish_all<'a>(
        &mut self,
        board: &Board<J>,
        pass: &mut WorkPass<J>,
        batch: Batch<'a>,
    ) -> Result<Ended, BatchError<'a>>
        requires { HaveOutcomes J.opening.graph (facts_behind J.opening pass.old.seen) batch.tasks batch.outcomes }
        ensures core { FinishesAll D.Disk self.old self.new batch.entry result }
        ensures history { IfOk result (λ ended. Writes (cut ended (ends_said batch.entry)) self.old.history self.new.history pass.old pass.new) }
        ensures seen { Sees J.opening pass.old pass.new }
        ensures ok { IfOk result (AddsTogether J.opening (ends_said batch.entry) pass.old pass.new) }
        ensures err { OnErr result (AddsNoCommit self.old self.new pass.old pass.new) }
        ensures refused { RefusesBatch batch.entry (RefusesTogether J.opening pass.new (ends_said batch.entry)) result }
    {
        facts_are_told_apart();
        facts_go_on();
        results_are_meant();
        stores_go_on::<D>();
        self.core.is_kept();
        board.show(&mut self.desk, pass);
        if !self.core.runs_all(batch.tasks()) {
            return Err(BatchError::Foreign(batch));
        }
        // What is known of every batch: it has an instance, so an end comes.
        batch.len();
        let said = Snapshot::of(&batch);
        let ended = match self.core.finish_all(batch) {
            Ok(ended) => ended,
            Err(error) => return Err(BatchError::Refused(error)),
        };
        let count = self.core.last_commit().len();
        record_ends::<J, Brand>(board, &mut self.desk, pass, ended, count, &said);
        self.fillers.fill_all(self.core.last_commit());
        Ok(ended)
    }
}
