//! Claims by tickets, under the lock.
ghost use Rattle.std.specs.Prelude.{◌≡◌, IfErr, IfOk, IfSome};
ghost use Rattle.commit.specs.Steps.{ClaimsBy};
ghost use Rattle.passes.specs.Visits.{Shows};
ghost use Rattle.hub.specs.Claims.{RefusesClaims};
ghost use Rattle.hub.specs.Replies.{AddsNothing, MayRun, SaysHalted, Sees};
ghost use Rattle.hub.specs.Tickets.{AddsTickets, TakesSome};

use crate::{Kept, WorkPass};
use commit::CoreError;
use disk::Disk;
use instances::{Task, Ticket};
use passes::{Board, Naming};

impl<J: Naming, D: Disk> Kept<J, D> {
    /// As the core's `take_tickets`. The instances are prescribed and not done in the state after what the pass has then seen.
    pub fn take_tickets(
        &mut self,
        board: &Board<J>,
        pass: &mut WorkPass<J>,
        tickets: &mut Vec<Ticket>,
    ) -> Result<bool, CoreError>
        ensures history { (self.new.history ≡ self.old.history) × Shows self.old.history pass.old pass.new }
        ensures seen { Sees J.opening pass.old pass.new × AddsNothing pass.old pass.new }
        ensures core { TakesSome self.old.core self.new.core tickets.old.items tickets.new.items result }
        ensures tickets { AddsTickets J.opening pass.new tickets.old.items tickets.new.items }
        ensures refused { IfErr result RefusesClaims }
    {
        self.core.is_kept();
        let answer = self.core.take_tickets(&mut self.numbers, tickets);
        board.show(&mut self.desk, pass);
        answer
    }

    /// As the core's `claim_by`. The instance is prescribed and not done in the state after what the pass has then seen.
    pub fn claim_by(
        &mut self,
        board: &Board<J>,
        pass: &mut WorkPass<J>,
        ticket: Ticket,
    ) -> Result<Result<Option<Task>, Ticket>, CoreError>
        ensures history { (self.new.history ≡ self.old.history) × Shows self.old.history pass.old pass.new }
        ensures seen { Sees J.opening pass.old pass.new × AddsNothing pass.old pass.new }
        ensures core { ClaimsBy self.old.core self.new.core ticket result }
        ensures claimed { IfOk result (λ answer. IfOk answer (λ claimed. IfSome claimed (MayRun J.opening pass.new))) }
        ensures refused { IfErr result SaysHalted }
    {
        self.core.is_kept();
        let claimed = self.core.claim_by(ticket);
        board.show(&mut self.desk, pass);
        claimed
    }

    /// As the core's `recall`.
    pub fn recall(&mut self)
        ensures { self.new ≡ self.old }
    {
        self.core.recall();
    }
}
