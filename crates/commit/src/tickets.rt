//! Instances that are claimed by tickets.
use crate::{Core, CoreError};
use disk::Disk;
use instances::{Numbers, Task, Ticket};
use vault::VaultError;

impl<D: Disk> Core<D> {
    ghost use Rattle.std.specs.Prelude.{◌≡◌};
    ghost use Rattle.commit.specs.Steps.{ClaimsBy, TakesTickets};

    /// Hands out up to 64 ready instances as tickets, which it adds to these: such as no ticket stands for. In a store that a fault stopped none is handed out. Says whether the last number was
    /// drawn: then `claim` alone finds the other instances. `Halted`, and `NoMemory` if memory was refused; then no ticket is added.
    pub fn take_tickets(
        &mut self,
        numbers: &mut Numbers,
        tickets: &mut Vec<Ticket>,
    ) -> Result<bool, CoreError>
        ensures { TakesTickets self.old self.new numbers.old numbers.new tickets.old.items tickets.new.items result }
    {
        if self.vault.is_halted() {
            return Err(CoreError::Store(VaultError::Halted));
        }
        match self.machine.take_tickets(numbers, tickets) {
            Ok(over) => Ok(over),
            Err(_) => Err(CoreError::Store(VaultError::NoMemory)),
        }
    }

    /// Lets the instance of a ticket run. `None` if it is not ready, if the ticket does not stand for it any more, since it was claimed after the ticket was handed out, and in a store that a fault
    /// stopped. The ticket comes back if those that run use up what is left of the allowance.
    pub fn claim_by(&mut self, ticket: Ticket) -> Result<Result<Option<Task>, Ticket>, CoreError>
        ensures { ClaimsBy self.old self.new ticket result }
    {
        if self.vault.is_halted() {
            return Err(CoreError::Store(VaultError::Halted));
        }
        if self.machine.running() as u64 >= self.allowance {
            return if self.machine.is_under(&ticket) {
                Ok(Err(ticket))
            } else {
                Ok(Ok(None))
            };
        }
        Ok(Ok(self.machine.claim_by(&ticket)))
    }

    /// No ticket stands for an instance any more: all that are ready may be handed out.
    pub fn recall(&mut self)
        ensures { self.new ≡ self.old }
    {
        self.machine.recall();
    }
}
