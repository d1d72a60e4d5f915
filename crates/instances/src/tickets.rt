//! Ready instances that are handed out as tickets.
ghost use Rattle.std.specs.Prelude.{◌≡◌, ◌<◌, IfOk, OnErr, true, vec_capacity, vec_len};
ghost use Rattle.instances.specs.Tickets.{AddsTicket};

use crate::{Instances, Numbers, Task, Ticket};
use std::alloc::AllocError;
use terms::{Inst, StepCollection};

/// How many tickets are taken at once, at most.
pub const MOST_TICKETS: usize = 64;

impl Instances {
    ghost use Rattle.std.specs.Prelude.{◌≡◌, IfOk, IfSome, None, OnErr, Some, true};
    ghost use Rattle.instances.specs.declared.state.State.TheVariants.{Ready, Running};
    ghost use Rattle.instances.specs.Known.{state_at, MovesOne};
    ghost use Rattle.instances.specs.Tickets.{HandsOutAndTells};

    /// Hands out up to 64 ready instances as tickets, which it adds to these: such as no ticket stands for. The steps take turns. Which ones are handed out, and that any is, no clause says. Says whether the last number
    /// was drawn. An error adds no ticket.
    pub fn take_tickets(
        &mut self,
        numbers: &mut Numbers,
        tickets: &mut Vec<Ticket>,
    ) -> Result<bool, AllocError>
        ensures same { self.new ≡ self.old }
        ensures ok { IfOk result (HandsOutAndTells self.old numbers.old numbers.new tickets.old.items tickets.new.items) }
        ensures refused { OnErr result ((numbers.new ≡ numbers.old) × (tickets.new.items ≡ tickets.old.items)) }
    {
        tickets.reserve(MOST_TICKETS)?;
        for added in 0..MOST_TICKETS {
            match add_ticket(self, numbers, tickets) {
                Ok(true) => {}
                Ok(false) => break,
                Err(error) => {
                    if added == 0 {
                        return Err(error);
                    }
                    break;
                }
            }
        }
        Ok(numbers.is_over())
    }

    /// Lets the instance of a ticket run, if it is ready and the ticket stands for it: it was not claimed since the ticket was handed out, and not recalled.
    pub fn claim_by(&mut self, ticket: &Ticket) -> Option<Task>
        ensures inst { IfSome result (λ task. task ≡ ticket.now.inst) }
        ensures claimed { IfSome result (λ task. (state_at self.old task ≡ Some Ready) × MovesOne self.old self.new task Running) }
        ensures none { result ≡ None → self.new ≡ self.old }
    {
        let inst = ticket.inst;
        let index = inst.collection.0 as usize;
        if index >= self.steps.len() {
            return None;
        }
        if !self.steps[index]
            .instances
            .claim_under(ticket.number, inst.key)
        {
            return None;
        }
        Some(Task { inst })
    }

    /// Whether `claim_by` lets the instance of this ticket run. No clause says which it returns.
    pub fn is_under(&self, ticket: &Ticket) -> bool {
        match self.steps.get(ticket.inst.collection.0 as usize) {
            Some(step) => step.instances.is_under(ticket.number, ticket.inst.key),
            None => false,
        }
    }

    /// No ticket stands for an instance any more: all that are ready may be handed out.
    pub fn recall(&mut self)
        ensures { self.new ≡ self.old }
    {
        for index in 0..self.steps.len() {
            self.steps[index].instances.recall();
        }
    }

    // Hands out a ready instance of the first step that has one to hand out, from the step on whose turn it is.
    fn hand_out(&mut self, number: u64) -> Result<Option<Inst>, AllocError>
        ensures same { self.new ≡ self.old }
        ensures ready { IfOk result (λ handed. IfSome handed (λ inst. state_at self.old inst ≡ Some Ready)) }
    {
        let steps = self.steps.len();
        for count in 0..steps {
            let index = self.turn.wrapping_add(count) % steps;
            let handed = self.hand_out_of(index, number)?;
            if handed.is_some() {
                self.turn = index.wrapping_add(1);
                return Ok(handed);
            }
        }
        Ok(None)
    }

    // Hands out a ready instance of a step, if it has one to hand out.
    fn hand_out_of(&mut self, index: usize, number: u64) -> Result<Option<Inst>, AllocError>
        ensures same { self.new ≡ self.old }
        ensures ready { IfOk result (λ handed. IfSome handed (λ inst. state_at self.old inst ≡ Some Ready)) }
    {
        if index >= self.steps.len() {
            return Ok(None);
        }
        match self.steps[index].instances.hand_out(number)? {
            Some(key) => Ok(Some(Inst {
                collection: StepCollection(index as u16),
                key,
            })),
            None => Ok(None),
        }
    }
}

// Adds one ticket, if there is an instance to hand out and a number. Says whether it did. An error adds none.
fn add_ticket(
    known: &mut Instances,
    numbers: &mut Numbers,
    tickets: &mut Vec<Ticket>,
) -> Result<bool, AllocError>
    requires { vec_len tickets.old < vec_capacity tickets.old }
    ensures same { (known.new ≡ known.old) × (vec_capacity tickets.new ≡ vec_capacity tickets.old) }
    ensures ok { IfOk result (λ added. added ≡ true → AddsTicket known.old numbers.old numbers.new tickets.old.items tickets.new.items) }
    ensures none { (result ≡ Ok true → ⊥) → (numbers.new ≡ numbers.old) × (tickets.new.items ≡ tickets.old.items) }
{
    let Some(number) = numbers.next() else {
        return Ok(false);
    };
    match known.hand_out(number)? {
        Some(inst) => {
            numbers.draw(number);
            tickets.push_reserved(Ticket { inst, number });
            Ok(true)
        }
        None => Ok(false),
    }
}
