//! Several claims, under the lock.
ghost use Rattle.std.specs.Prelude.{◌≡◌, ◌≢◌, ◌↔◌, ◌≤◌, ◌<◌, true};
ghost use Rattle.commit.specs.Steps.{Wakes, running_count};
ghost use Rattle.passes.specs.Visits.{Shows};
ghost use Rattle.hub.specs.Claims.{ClaimsOne, ClaimsInto};
ghost use Rattle.hub.specs.Replies.{AddsNothing, Sees};

use crate::{Kept, WorkPass};
use commit::CoreError;
use disk::Disk;
use instances::Tasks;
use passes::{Board, Naming};
use terms::Put;
use vault::VaultError;

impl<J: Naming, D: Disk> Kept<J, D> {
    // Claims the first of the ready instances, and adds its task to these. Says whether there was one. If there is no memory for the task, the instance
    // is ready again.
    fn claim_one(
        &mut self,
        board: &Board<J>,
        pass: &mut WorkPass<J>,
        tasks: &mut Tasks,
    ) -> Result<bool, CoreError>
        ensures history { (self.new.history ≡ self.old.history) × Shows self.old.history pass.old pass.new }
        ensures seen { Sees J.opening pass.old pass.new × AddsNothing pass.old pass.new }
        ensures core { ClaimsOne J.opening pass.new self.old.core self.new.core tasks.old tasks.new result }
    {
        match self.claim(board, pass, 0) {
            Ok(Some(task)) => match tasks.add(task) {
                Ok(()) => Ok(true),
                Err(task) => {
                    self.core.release(task);
                    Err(CoreError::Store(VaultError::NoMemory))
                }
            },
            Ok(None) => Ok(false),
            Err(error) => Err(error),
        }
    }

    /// Claims up to `most` of the ready instances one after another, as `claim` does the first of them, and adds their tasks to these. It claims no more than the number
    /// of ready ones divided by `passes`, but at least one, if there is one. `Ok` says whether an instance runs then.
    pub fn claim_some(
        &mut self,
        board: &Board<J>,
        pass: &mut WorkPass<J>,
        tasks: &mut Tasks,
        most: usize,
        passes: usize,
    ) -> Result<bool, CoreError>
        ensures history { (self.new.history ≡ self.old.history) × Shows self.old.history pass.old pass.new }
        ensures seen { Sees J.opening pass.old pass.new × AddsNothing pass.old pass.new }
        ensures core { ClaimsInto J.opening pass.new self.old.core self.new.core most tasks.old tasks.new result }
    {
        board.show(&mut self.desk, pass);
        let mut left = share_of(most, self.core.ready(), passes);
        while left > 0 {
            match self.claim_one(board, pass, tasks) {
                Ok(true) => left -= 1,
                Ok(false) => return Ok(self.runs_any()),
                Err(error) => return Err(error),
            }
        }
        Ok(self.runs_any())
    }

    /// As the core's `wake`.
    pub fn wake(&mut self, puts: &[Put])
        ensures core { Wakes self.old.core self.new.core puts.now }
        ensures history { self.new.history ≡ self.old.history }
    {
        self.core.wake(puts);
    }

    // Whether an instance runs.
    fn runs_any(&self) -> bool
        ensures { (result ≡ true) ↔ (running_count self.now.core ≢ 0) }
    {
        self.core.running() != 0
    }
}

// How many instances are claimed at once: the number of ready ones divided by the number of passes, but no more than `most`, and at least one if any is asked for.
fn share_of(most: usize, ready: usize, passes: usize) -> usize
    ensures few { result ≤ most }
    ensures some { 0 < most → 0 < result }
{
    most.min((ready / passes.max(1)).max(1))
}
