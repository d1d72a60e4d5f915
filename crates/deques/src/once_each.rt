//! The rule of a deque.
ghost use Rattle.deques.specs.Deque.{ComesOutOnce};

use crossbeam_deque::protocol::{Outcome, Protocol};
use instances::Ticket;
use std::collections::LinkedList;

/// What was pushed with one handle of a deque, and what came out to it, each in order. No value of it is made.
pub struct Log {
    pub pushed: LinkedList<Ticket>,
    pub came: LinkedList<Ticket>,
}

/// However tickets are weighed, what all handles pushed weighs as much as what came out to all and what the deque holds.
pub(crate) struct OnceEach;

impl Protocol<Ticket, Log> for OnceEach {
    ghost use Rattle.std.specs.Prelude.{[]};
    ghost use Rattle.deques.specs.Deque.{IsBalanced, log};

    ghost holds = { IsBalanced };

    ghost first = { log [] [] };

    ghost guest = { log [] [] };
}

/// Tickets are pushed.
pub(crate) struct Pushed;

impl Outcome<Ticket, Log> for Pushed {
    ghost use Rattle.std.specs.Prelude.{◌≡◌, ◌++◌};
    ghost use Rattle.deques.specs.Deque.{log};

    ghost then = { λ v tickets w. w ≡ log (v.pushed ++ tickets) v.came };
}

/// Tickets come out.
pub(crate) struct Came;

impl Outcome<Ticket, Log> for Came {
    ghost use Rattle.std.specs.Prelude.{◌≡◌, ◌++◌};
    ghost use Rattle.deques.specs.Deque.{log};

    ghost then = { λ v tickets w. w ≡ log v.pushed (v.came ++ tickets) };
}

/// A law, with nothing to run: a number came out of a deque, to all its handles together, at most as often as it was pushed.
pub fn each_comes_out_once()
    ensures { ComesOutOnce }
{}
