//! Instances that are claimed by tickets.
ghost use Rattle.machine.specs.Machine.{LetsRun};

use crate::Machine;
use instances::{Numbers, Task, Ticket};
use std::alloc::AllocError;
use terms::{facts_are_told_apart, orders_are_total};

impl Machine {
    ghost use Rattle.std.specs.Prelude.{◌≡◌, ◌<◌, IfOk, IfSome, None, OnErr};
    ghost use Rattle.instances.specs.Tickets.{HandsOutAndTells};
    ghost use Rattle.machine.specs.Machine.{ready_count};

    /// Hands out up to 64 ready instances as tickets, which it adds to these: such as no ticket stands for. If a fault stopped the store, none is handed out. Says whether the
    /// last number was drawn. An error adds no ticket.
    pub fn take_tickets(
        &mut self,
        numbers: &mut Numbers,
        tickets: &mut Vec<Ticket>,
    ) -> Result<bool, AllocError>
        ensures same { self.new ≡ self.old }
        ensures ok { IfOk result (HandsOutAndTells self.old.memory.instances numbers.old numbers.new tickets.old.items tickets.new.items) }
        ensures refused { OnErr result ((numbers.new ≡ numbers.old) × (tickets.new.items ≡ tickets.old.items)) }
    {
        if self.memory.fault.is_some() {
            return Ok(numbers.is_over());
        }
        self.memory.instances.take_tickets(numbers, tickets)
    }

    /// Lets the instance of a ticket run. `None` if it is not ready, if the ticket does not stand for it any more, or if a fault stopped the store.
    pub fn claim_by(&mut self, ticket: &Ticket) -> Option<Task>
        ensures below { IfSome result (λ task. 0 < ready_count self.old) }
        ensures inst { IfSome result (λ task. task ≡ ticket.now.inst) }
        ensures claimed { IfSome result (LetsRun self.old self.new) }
        ensures none { result ≡ None → self.new ≡ self.old }
    {
        facts_are_told_apart();
        orders_are_total();
        if self.memory.fault.is_some() {
            return None;
        }
        self.memory.instances.claim_by(ticket)
    }

    /// Whether `claim_by` lets the instance of this ticket run. No clause says which it returns.
    pub fn is_under(&self, ticket: &Ticket) -> bool {
        self.memory.fault.is_none() && self.memory.instances.is_under(ticket)
    }

    /// No ticket stands for an instance any more: all that are ready may be handed out.
    pub fn recall(&mut self)
        ensures { self.new ≡ self.old }
    {
        self.memory.instances.recall();
    }
}
