use crate::once_each::{Came, Log, OnceEach, Pushed};
use crossbeam_deque::{Steal, Stealer, Worker};
use instances::Ticket;
use std::alloc::{AllocError, Global};

// For how many tickets a deque has room at first.
const ROOM: usize = 64;

// How often a thief looks again where another was faster.
const TRIES: u32 = 4;

/// The end of a deque that its worker has. The first ticket that was pushed comes out first.
#[derive(Drop)]
pub struct Deque {
    pub(crate) worker: Worker<Ticket, Global, Log, OnceEach>,
}

/// A handle that takes tickets out, from any thread.
#[derive(Drop)]
pub struct Thief {
    pub(crate) stealer: Stealer<Ticket, Global, Log, OnceEach>,
}

impl Deque {
    ghost use Rattle.std.specs.Prelude.{◌≡◌, [], IfErr, IfOk, MatchOption, OnOk};
    ghost use Rattle.deques.specs.Deque.{GivesOut, TakesIn, log, logged};

    /// An empty deque.
    pub fn new(alloc: Global) -> Result<Deque, AllocError>
        ensures { IfOk result (λ deque. logged deque ≡ log [] []) }
    {
        let worker = Worker::fifo_as(alloc, ROOM)?;
        Ok(Deque { worker })
    }

    /// A handle that steals from it.
    pub fn thief(&self) -> Result<Thief, AllocError> {
        let stealer = self.worker.stealer()?;
        Ok(Thief { stealer })
    }

    /// Puts a ticket behind the others. If the deque cannot grow, it comes back.
    pub fn push(&mut self, ticket: Ticket) -> Result<(), Ticket>
        ensures ok { OnOk result (TakesIn self.old self.new ticket) }
        ensures back { IfErr result (λ back. (back ≡ ticket) × (logged self.new ≡ logged self.old)) }
    {
        self.worker.push_as::<Pushed>(ticket)
    }

    /// Takes the first ticket out, if there is one.
    pub fn pop(&mut self) -> Option<Ticket>
        ensures { MatchOption result (logged self.new ≡ logged self.old) (GivesOut self.old self.new) }
    {
        self.worker.pop_as::<Came>()
    }
}

impl Thief {
    /// Takes the first ticket out, if it finds one.
    pub fn steal(&self) -> Option<Ticket> {
        let mut pass = self.stealer.pass();
        for _ in 0..TRIES {
            match self.stealer.steal_as::<Came>(&mut pass) {
                Steal::Success(ticket) => return Some(ticket),
                Steal::Empty => return None,
                Steal::Retry => {}
            }
        }
        None
    }
}
