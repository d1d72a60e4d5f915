//! Claims by tickets.
use crate::{Hub, WorkPass};
use commit::CoreError;
use disk::Disk;
use instances::{Task, Ticket};
use passes::Naming;
use std::sync::Wait;

impl<J: Naming, D: Disk> Hub<J, D> {
    ghost use Rattle.std.specs.Prelude.{◌≡◌, IfErr, IfOk, IfSome, OnErr};
    ghost use Rattle.hub.specs.Claims.{RefusesClaims};
    ghost use Rattle.hub.specs.Replies.{AddsNothing, MayRun, SaysHalted, Sees};
    ghost use Rattle.hub.specs.Tickets.{AddsTickets};

    /// Hands out up to 64 ready instances as tickets, which it adds to these: such as no ticket stands for. Each ticket has a number of its own, drawn from those of this hub. Says whether the
    /// last number was drawn: then `claim` alone finds the other instances. Which instances are handed out, and that any is, no clause says.
    pub fn take_tickets<R: Wait>(
        &self,
        rt: &R,
        pass: &mut WorkPass<J>,
        tickets: &mut Vec<Ticket>,
    ) -> Result<bool, CoreError>
        ensures seen { Sees J.opening pass.old pass.new × AddsNothing pass.old pass.new }
        ensures tickets { AddsTickets J.opening pass.new tickets.old.items tickets.new.items }
        ensures none { OnErr result (tickets.new.items ≡ tickets.old.items) }
        ensures refused { IfErr result RefusesClaims }
    {
        let mut kept = self.locked(rt);
        kept.take_tickets(&self.board, pass, tickets)
    }

    /// Lets the instance of a ticket run. `None` if it is not ready, if the ticket does not stand for it any more, since it was claimed after the ticket was handed out, and in a store that a fault
    /// stopped; no clause says when it is `None`. The ticket comes back if those that run use up what is left of the allowance.
    pub fn claim_by<R: Wait>(
        &self,
        rt: &R,
        pass: &mut WorkPass<J>,
        ticket: Ticket,
    ) -> Result<Result<Option<Task>, Ticket>, CoreError>
        ensures seen { Sees J.opening pass.old pass.new × AddsNothing pass.old pass.new }
        ensures inst { IfOk result (λ answer. IfOk answer (λ claimed. IfSome claimed (λ task. task ≡ ticket.inst))) }
        ensures claimed { IfOk result (λ answer. IfOk answer (λ claimed. IfSome claimed (MayRun J.opening pass.new))) }
        ensures back { IfOk result (λ answer. IfErr answer (λ back. back ≡ ticket)) }
        ensures refused { IfErr result SaysHalted }
    {
        let mut kept = self.locked(rt);
        let answer = kept.claim_by(&self.board, pass, ticket);
        self.note(&kept);
        answer
    }

    /// No ticket stands for an instance any more: all that are ready may be handed out again. It is for whoever leaves the tickets that it has.
    pub fn recall<R: Wait>(&self, rt: &R) {
        self.locked(rt).recall();
    }
}
