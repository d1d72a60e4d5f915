// The rule of the words, and its steps.
ghost use Rattle.passes.specs.Known.{nobody, desk, first_desk};
ghost use Rattle.passes.specs.Rule.{IsRuled};
ghost use Rattle.passes.specs.Steps as steps;

use crate::View;
use atomic_table::{Join, Play, Seat, Split, Table, TableRule};
use std::alloc::Global;
use std::marker::{Brand, PhantomData};

/// Word 0 is the number of events; word 1 is 1 once a stop was asked.
pub struct Law;

impl TableRule<(), View, ()> for Law {
    ghost holds = { λ _. IsRuled };

    ghost first = { λ _. desk first_desk };
}

pub type Words = Table<(), View, (), Law, Global>;

pub type Keeper = Seat<(), View>;

/// The events that a commit adds, together. Each commit picks them.
pub trait Committing {
    ghost use Rattle.terms.specs.Commits.{Commit};

    ghost commit: { Commit };
}

impl Committing for Brand {
    ghost use Rattle.std.specs.Prelude.{[]};

    ghost commit = { [] };
}

/// The keeper's `fetch_add` on word 0.
pub struct Adds<M> {
    commit: PhantomData<M>,
}

impl<M: Committing> Play<(), View> for Adds<M> {
    ghost then = { steps.Adds M.commit };
}

/// A load of word 0 by the keeper, at which the rule says that the history has what the guest knows.
pub struct Learns;

impl Play<(), View> for Learns {
    ghost then = { steps.Learns };
}

/// A load of word 0 by a pass.
pub struct Counts;

impl Play<(), View> for Counts {
    ghost then = { steps.Counts };
}

/// A `fetch_or` on word 1 by a pass.
pub struct Asks;

impl Play<(), View> for Asks {
    ghost then = { steps.Asks };
}

/// A load of word 1 by a pass.
pub struct Hears;

impl Play<(), View> for Hears {
    ghost then = { steps.Hears };
}

/// The keeper makes a pass.
pub struct Makes;

impl Split<View> for Makes {
    ghost left = { steps.one_made };

    ghost right = { steps.new_one };
}

/// A pass is lent to the keeper, and given back.
pub struct Lends;

impl Join<View> for Lends {
    ghost both = { steps.lent };

    ghost spent = { nobody };
}

impl Split<View> for Lends {
    ghost left = { steps.guest_gone };

    ghost right = { steps.guest_out };
}
