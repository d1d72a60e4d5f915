//! The tickets of a worker.
ghost use Rattle.std.specs.Prelude.{◌≡◌, IfErr, IfOk, IfSome};
ghost use mathlib.Core.List.{IsPrefix};
ghost use Rattle.graph.specs.Fits.{InstanceIsOf};
ghost use Rattle.hub.specs.Claims.{RefusesClaims};

use commit::CoreError;
use deques::{Deque, Thief};
use disk::Disk;
use hub::{Hub, WorkPass};
use instances::{MOST_TICKETS, Task, Ticket};
use passes::Naming;
use std::alloc::Global;
use std::sync::Wait;
use vault::VaultError;

// How many tickets are tried, one after another, until one gives an instance.
const TRIES: usize = 2 * MOST_TICKETS;

/// The deque of a worker, and those of all workers, from which it steals. So what a worker has tickets for, and has not begun, is run by another that has nothing to do.
#[derive(Drop)]
pub(crate) struct Shelf<'a> {
    own: Deque,
    all: &'a [Thief],
    // The place among all at which it begins to look for tickets of others.
    first: usize,
    // Tickets that were just handed out: none, between two calls.
    fresh: Vec<Ticket>,
    // Whether tickets were handed out to it since it last left them.
    stocked: bool,
    /// Whether the last number of a ticket was drawn.
    pub(crate) over: bool,
}

impl<'a> Shelf<'a> {
    /// That of the worker with this number.
    pub(crate) fn new(alloc: Global, own: Deque, all: &'a [Thief], number: usize) -> Shelf<'a> {
        Shelf {
            own,
            all,
            first: number.wrapping_add(1),
            fresh: Vec::new(alloc),
            stocked: false,
            over: false,
        }
    }

    /// Claims an instance by a ticket: by the worker's own first one; or else, if it `shares` the work with others, by one of theirs, or by a new one. `None` if there is no ticket that gives one, or if the
    /// allowance is used up.
    pub(crate) fn claim<J: Naming, D: Disk, R: Wait>(
        &mut self,
        rt: &R,
        hub: &Hub<J, D>,
        pass: &mut WorkPass<J>,
        shares: bool,
    ) -> Result<Option<Task>, CoreError>
        ensures task { IfOk result (λ claimed. IfSome claimed (InstanceIsOf J.opening.graph)) }
        ensures ahead { IsPrefix pass.old.seen pass.new.seen }
        ensures refused { IfErr result RefusesClaims }
    {
        for _ in 0..TRIES {
            let Some(ticket) = self.next(rt, hub, pass, shares)? else {
                return Ok(None);
            };
            match hub.claim_by(rt, pass, ticket)? {
                Ok(Some(task)) => return Ok(Some(task)),
                Ok(None) => {}
                Err(ticket) => {
                    self.put(ticket)?;
                    return Ok(None);
                }
            }
        }
        Ok(None)
    }

    // The next ticket, if there is one.
    fn next<J: Naming, D: Disk, R: Wait>(
        &mut self,
        rt: &R,
        hub: &Hub<J, D>,
        pass: &mut WorkPass<J>,
        shares: bool,
    ) -> Result<Option<Ticket>, CoreError>
        ensures ahead { IsPrefix pass.old.seen pass.new.seen }
        ensures refused { IfErr result RefusesClaims }
    {
        let own = self.own.pop();
        if own.is_some() || !shares {
            return Ok(own);
        }
        let stolen = self.steal();
        if stolen.is_some() {
            return Ok(stolen);
        }
        self.stock(rt, hub, pass)?;
        Ok(self.own.pop())
    }

    // A ticket of another worker, if one has any.
    fn steal(&self) -> Option<Ticket> {
        for turn in 0..self.all.len() {
            let place = self.first.wrapping_add(turn) % self.all.len();
            let stolen = self.all[place].steal();
            if stolen.is_some() {
                return stolen;
            }
        }
        None
    }

    // Puts tickets on its deque that the hub hands out, in their order.
    fn stock<J: Naming, D: Disk, R: Wait>(
        &mut self,
        rt: &R,
        hub: &Hub<J, D>,
        pass: &mut WorkPass<J>,
    ) -> Result<(), CoreError>
        ensures ahead { IsPrefix pass.old.seen pass.new.seen }
        ensures refused { IfErr result RefusesClaims }
    {
        self.over = hub.take_tickets(rt, pass, &mut self.fresh)?;
        self.stocked = true;
        self.fresh.reverse();
        for _ in 0..self.fresh.len() {
            if let Some(ticket) = self.fresh.pop() {
                self.put(ticket)?;
            }
        }
        Ok(())
    }

    // Puts a ticket on its deque. If the deque cannot grow, the ticket is lost, and its instance stays ready.
    fn put(&mut self, ticket: Ticket) -> Result<(), CoreError>
        ensures { IfErr result RefusesClaims }
    {
        match self.own.push(ticket) {
            Ok(()) => Ok(()),
            Err(_) => Err(CoreError::Store(VaultError::NoMemory)),
        }
    }

    /// Leaves its tickets: others may claim their instances.
    pub(crate) fn leave<J: Naming, D: Disk, R: Wait>(&mut self, rt: &R, hub: &Hub<J, D>) {
        if !self.stocked {
            return;
        }
        self.stocked = false;
        hub.recall(rt);
        for _ in 0..TRIES {
            if self.own.pop().is_none() {
                return;
            }
        }
    }
}
